use crate::view::View;
use atomic_table::{Join, Play, Split, TableRule};
use lt_stands::{Named, Stands};
use std::marker::PhantomData;
use std::sync::ledger::{Book, Ledger};

/// What lies in the slot: the value, unless a seat has it, and the book of what was added.
#[derive(Drop)]
pub struct Held<T, B: Ledger> {
    pub value: Option<T>,
    pub book: Book<B>,
}

pub struct Law<T, B> {
    of: PhantomData<(T, B)>,
}

impl<T: Stands, B: Ledger> TableRule<Option<Held<T, B>>, View<T::Entry>, ()> for Law<T, B> {
    ghost use Rattle.lt_turn.specs.Rule.{Kept, first};

    ghost holds = { λ _. Kept T.stands (λ h. h.value) (λ h. h.book.total) };

    ghost first = { λ _. first };
}

pub struct Opens<E> {
    of: PhantomData<E>,
}

impl<S, X, E: Named<X>> Play<Option<S>, View<X>> for Opens<E> {
    ghost use Rattle.lt_turn.specs.Rule.{opens};

    ghost then = { opens E.list };
}

pub struct GivesBack;

impl<S, X> Play<Option<S>, View<X>> for GivesBack {
    ghost use Rattle.lt_turn.specs.Rule.{gives_back};

    ghost then = { gives_back };
}

pub struct Tries;

impl<S, X> Play<Option<S>, View<X>> for Tries {
    ghost use Rattle.lt_turn.specs.Rule.{tries};

    ghost then = { tries };
}

pub struct Reads;

impl<T: Stands, B: Ledger> Play<Option<Held<T, B>>, View<T::Entry>> for Reads {
    ghost use Rattle.lt_turn.specs.Rule.{reads};

    ghost then = { reads T.stands (λ h. h.value) (λ h. h.book.total) };
}

pub struct Raises<E> {
    of: PhantomData<E>,
}

impl<S, X, E: Named<X>> Play<Option<S>, View<X>> for Raises<E> {
    ghost use Rattle.lt_turn.specs.Rule.{raises};

    ghost then = { raises E.list };
}

pub struct Shuts;

impl<S, X> Play<Option<S>, View<X>> for Shuts {
    ghost use Rattle.lt_turn.specs.Rule.{shuts};

    ghost then = { shuts };
}

pub struct IsNumbered;

impl<S, X> Play<Option<S>, View<X>> for IsNumbered {
    ghost use Rattle.lt_turn.specs.Rule.{is_numbered};

    ghost then = { is_numbered };
}

pub struct Learns;

impl<S, X> Play<Option<S>, View<X>> for Learns {
    ghost use Rattle.lt_turn.specs.Rule.{learns};

    ghost then = { learns };
}

/// A new seat has seen as much.
pub struct Splits;

impl<X> Split<View<X>> for Splits {
    ghost use Rattle.lt_turn.specs.Rule.{note};

    ghost left = { λ v. v };

    ghost right = { note };
}

/// A seat takes another's account.
pub struct Joins;

impl<X> Join<View<X>> for Joins {
    ghost use Rattle.lt_turn.specs.Rule.{joined, spent};

    ghost both = { joined };

    ghost spent = { spent };
}
