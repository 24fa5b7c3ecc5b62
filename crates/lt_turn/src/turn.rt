ghost use Rattle.std.specs.Prelude.{◌≡◌, ◌≢◌, ℕ, ◌+◌, ◌<◌, ◌≤◌, [], ◌∷◌, ◌++◌, length, Some, None, ◌⊎◌, IfOk, IfErr};
ghost use mathlib.Core.List.{IsPrefix};
ghost use Rattle.lt_turn.specs.Lists.{entries, numbered, of, total, added};
ghost use Rattle.lt_turn.specs.Rule.{Accounts, Stocked, as_role, read, first};
ghost use Rattle.lt_turn.specs.Seats.{view, number, seen, mine, ended, parts, IsOf, Holds, IsIdle, Closed};
ghost use Rattle.lt_turn.specs.declared.view.Role.TheVariants.{Idle, Holding, Level, Shut};

use crate::rule::{
    GivesBack, Held, IsNumbered, Joins, Law, Learns, Opens, Raises, Reads, Shuts, Splits, Tries,
};
use crate::seat::Seat;
use crate::view::View;
use atomic_table::{Seat as Pass, Table};
use lt_stands::{Named, Stands};
use std::alloc::{AllocError, Global};
use std::hint;
use std::marker::Model;
use std::sync::Wait;
use std::sync::ledger::{Blank, Ledger, Share};

// The words: who has the lock, and how long the list is.
const LOCK: usize = 0;

const COUNT: usize = 1;

// The lock word: free, held, and held while others may sleep.
const FREE: u64 = 0;

const HELD: u64 = 1;

const WAITED_FOR: u64 = 2;

// How often a thread looks again before it sleeps.
const LOOKS: u64 = 100;

/// A value that threads take by turns. To a clause it is its name.
#[derive(Drop)]
pub struct Turn<T: Stands, B: Ledger> {
    table: Table<Option<Held<T, B>>, View<T::Entry>, (), Law<T, B>, Global>,
}

impl<T: Stands, B: Ledger> Model for Turn<T, B> {
    ghost use Rattle.std.specs.Prelude.{◌≡◌};
    ghost use Rattle.atomic_table.specs.Seated.{TableId};

    ghost Value = { TableId };

    ghost view = { λ t. t.table.shared.table_id };

    ghost invariant = { λ t. (t.table.shared.table_id.words ≡ 2) × (t.table.shared.table_id.slots ≡ 1) };
}

// Ends a value that isn't there.
fn nothing<S>(none: Option<S>)
    requires { none ≡ None }
{
    let None = none else { unreachable!() };
}

// A turn with its value, and its first seat.
fn opened<T: Stands, B: Ledger, E: Named<T::Entry>>(
    table: Table<Option<Held<T, B>>, View<T::Entry>, (), Law<T, B>, Global>,
    mut pass: Pass<Option<Held<T, B>>, View<T::Entry>>,
    blank: Blank,
    value: T,
) -> (Turn<T, B>, Seat<T, B>)
    requires ledger { (blank.name ≡ B.name) × (blank.parts ≡ B.parts) × (0 < B.parts) }
    requires table { (table.shared.table_id.words ≡ 2) × (table.shared.table_id.slots ≡ 1) }
    requires pass { (pass.table_id ≡ table.shared.table_id) × (pass.me ≡ (first, [])) }
    requires stands { T.stands value E.list }
    ensures turn { IsOf result.1 result.0 }
    ensures idle { IsIdle result.1 }
    ensures seen { seen result.1 ≡ numbered 0 E.list }
    ensures alone { (mine result.1 ≡ []) × (ended result.1 ≡ []) }
    ensures parts { parts result.1 ≡ B.parts }
{
    let (book, share) = blank.open::<B>();
    let count = value.count();
    let held = Held {
        value: Some(value),
        book,
    };
    table.shared.store::<Opens<E>>(&mut pass, COUNT, count);
    nothing(table.shared.exchange(&mut pass, 0, Some(held)));
    table.shared.store::<GivesBack>(&mut pass, LOCK, FREE);
    (Turn { table }, Seat { pass, share })
}

impl<T: Stands, B: Ledger> Turn<T, B> {
    /// A turn with this value, and its first seat, which has every part of the ledger. For want of memory the value comes
    /// back.
    pub fn new<E: Named<T::Entry>>(
        alloc: Global,
        blank: Blank,
        value: T,
    ) -> Result<(Turn<T, B>, Seat<T, B>), (T, AllocError)>
        requires ledger { (blank.name ≡ B.name) × (blank.parts ≡ B.parts) }
        requires parts { 0 < B.parts }
        requires stands { T.stands value E.list }
        ensures turn { IfOk result (λ r. IsOf r.1 r.0) }
        ensures idle { IfOk result (λ r. IsIdle r.1) }
        ensures seen { IfOk result (λ r. seen r.1 ≡ numbered 0 E.list) }
        ensures alone { IfOk result (λ r. (mine r.1 ≡ []) × (ended r.1 ≡ [])) }
        ensures parts { IfOk result (λ r. parts r.1 ≡ B.parts) }
        ensures unchanged { IfErr result (λ e. e.0 ≡ value) }
    {
        match Table::vacant(alloc, &[HELD, 0], 1, &()) {
            Ok((table, pass)) => Ok(opened::<T, B, E>(table, pass, blank, value)),
            Err(refused) => Err((value, refused)),
        }
    }

    // Tries the lock once, where it is free, and answers the lock word as it was.
    fn try_lock(&self, pass: &mut Pass<Option<Held<T, B>>, View<T::Entry>>) -> u64
        requires turn { pass.old.table_id ≡ self.now }
        requires idle { pass.old.me.0.role ≡ Idle }
        ensures turn { pass.new.table_id ≡ pass.old.table_id }
        ensures same { pass.new.me.1 ≡ pass.old.me.1 }
        ensures locked { result ≡ 0 → pass.new.me.0 ≡ as_role Holding pass.old.me.0 }
        ensures not { result ≢ 0 → pass.new.me.0 ≡ pass.old.me.0 }
    {
        self.table
            .shared
            .compare_exchange::<Tries>(pass, LOCK, FREE, HELD)
    }

    // Leaves word that a thread waits, and takes the lock if it is free. Answers the lock word as it was.
    fn try_waiting(&self, pass: &mut Pass<Option<Held<T, B>>, View<T::Entry>>) -> u64
        requires turn { pass.old.table_id ≡ self.now }
        requires idle { pass.old.me.0.role ≡ Idle }
        ensures turn { pass.new.table_id ≡ pass.old.table_id }
        ensures same { pass.new.me.1 ≡ pass.old.me.1 }
        ensures locked { result ≡ 0 → pass.new.me.0 ≡ as_role Holding pass.old.me.0 }
        ensures not { result ≢ 0 → pass.new.me.0 ≡ pass.old.me.0 }
    {
        self.table.shared.swap::<Tries>(pass, LOCK, WAITED_FOR)
    }

    // Looks until the lock is free, or a thread sleeps for it, or it has looked long enough.
    fn look(&self) -> u64 {
        for _ in 0..LOOKS {
            let found = self.table.shared.peek(LOCK);
            if found != HELD {
                return found;
            }
            hint::spin_loop();
        }
        HELD
    }

    // The lock, once it is free.
    fn wait<R: Wait>(&self, rt: &R, pass: &mut Pass<Option<Held<T, B>>, View<T::Entry>>)
        requires turn { pass.old.table_id ≡ self.now }
        requires idle { pass.old.me.0.role ≡ Idle }
        ensures turn { pass.new.table_id ≡ pass.old.table_id }
        ensures same { pass.new.me.1 ≡ pass.old.me.1 }
        ensures locked { pass.new.me.0 ≡ as_role Holding pass.old.me.0 }
    {
        if self.look() == FREE && self.try_lock(pass) == FREE {
            return;
        }
        for _ in rt.forever() {
            if self.try_waiting(pass) == FREE {
                return;
            }
            self.table.shared.park(rt, LOCK, WAITED_FOR as u32);
            self.look();
        }
        unreachable!()
    }

    fn lock<R: Wait>(&self, rt: &R, pass: &mut Pass<Option<Held<T, B>>, View<T::Entry>>)
        requires turn { pass.old.table_id ≡ self.now }
        requires idle { pass.old.me.0.role ≡ Idle }
        ensures turn { pass.new.table_id ≡ pass.old.table_id }
        ensures same { pass.new.me.1 ≡ pass.old.me.1 }
        ensures locked { pass.new.me.0 ≡ as_role Holding pass.old.me.0 }
    {
        if self.try_lock(pass) == FREE {
            return;
        }
        self.wait(rt, pass)
    }

    // The value, out of a slot that the seat has, where the book stays.
    fn take(&self, pass: &mut Pass<Option<Held<T, B>>, View<T::Entry>>) -> T
        requires turn { pass.old.table_id ≡ self.now }
        requires full { (slot : _) × (pass.old.me.1 ≡ (0, slot) ∷ []) × Stocked T.stands (λ h. h.value) (λ h. h.book.total) pass.old.me.0.seen slot }
        ensures turn { pass.new.table_id ≡ pass.old.table_id }
        ensures view { pass.new.me.0 ≡ pass.old.me.0 }
        ensures empty { (h : _) × (pass.new.me.1 ≡ (0, Some h) ∷ []) × (h.value ≡ None) × (h.book.total ≡ added pass.old.me.0.seen) }
        ensures stands { T.stands result (entries pass.old.me.0.seen) }
    {
        let Some(held) = self.table.shared.exchange(pass, 0, None) else {
            unreachable!()
        };
        let Held { value, book } = held;
        let Some(value) = value else { unreachable!() };
        let held = Held { value: None, book };
        nothing(self.table.shared.exchange(pass, 0, Some(held)));
        value
    }

    /// Waits for the turn, and takes the value. It stands for a list that begins with all that the seat had seen.
    pub fn enter<R: Wait>(&self, rt: &R, seat: &mut Seat<T, B>) -> T
        requires turn { IsOf seat.old self.now }
        requires idle { IsIdle seat.old }
        ensures turn { IsOf seat.new self.now }
        ensures holds { Holds seat.new }
        ensures stands { T.stands result (entries (seen seat.new)) }
        ensures begins { IsPrefix (seen seat.old) (seen seat.new) }
        ensures opening { of 0 (seen seat.new) ≡ of 0 (seen seat.old) }
        ensures accounts { Accounts (seen seat.new) (view seat.new) }
        ensures number { number seat.new ≡ number seat.old }
        ensures own { (mine seat.new ≡ mine seat.old) × (ended seat.new ≡ ended seat.old) }
        ensures parts { parts seat.new ≡ parts seat.old }
    {
        self.lock(rt, &mut seat.pass);
        self.table.shared.load::<Reads>(&mut seat.pass, COUNT);
        self.take(&mut seat.pass)
    }

    // Puts a value beside the book, into a slot that the seat has, and writes into book and share how many entries it adds.
    fn put(
        &self,
        pass: &mut Pass<Option<Held<T, B>>, View<T::Entry>>,
        share: &mut Share<B>,
        value: T,
        more: u64,
    )
        requires turn { pass.old.table_id ≡ self.now }
        requires part { 0 < share.old.parts }
        requires empty { (h : _) × (pass.old.me.1 ≡ (0, Some h) ∷ []) × (h.value ≡ None) × (h.book.total + more ≡ added pass.old.me.0.seen) }
        requires stands { T.stands value (entries pass.old.me.0.seen) }
        ensures turn { pass.new.table_id ≡ pass.old.table_id }
        ensures view { pass.new.me.0 ≡ pass.old.me.0 }
        ensures full { (slot : _) × (pass.new.me.1 ≡ (0, slot) ∷ []) × Stocked T.stands (λ h. h.value) (λ h. h.book.total) pass.old.me.0.seen slot }
        ensures share { (share.new.amount ≡ share.old.amount + more) × (share.new.parts ≡ share.old.parts) }
    {
        let Some(held) = self.table.shared.exchange(pass, 0, None) else {
            unreachable!()
        };
        let Held {
            value: before,
            mut book,
        } = held;
        let None = before else { unreachable!() };
        book.add(share, more);
        let held = Held {
            value: Some(value),
            book,
        };
        nothing(self.table.shared.exchange(pass, 0, Some(held)));
    }

    /// Gives the turn back with this value, which stands for the list of `enter` and the entries that `E` names after it.
    pub fn leave<E: Named<T::Entry>>(&self, seat: &mut Seat<T, B>, value: T)
        requires turn { IsOf seat.old self.now }
        requires holds { Holds seat.old }
        requires stands { T.stands value (entries (seen seat.old) ++ E.list) }
        ensures turn { IsOf seat.new self.now }
        ensures idle { IsIdle seat.new }
        ensures seen { seen seat.new ≡ seen seat.old ++ numbered (number seat.old) E.list }
        ensures opening { of 0 (seen seat.new) ≡ of 0 (seen seat.old) }
        ensures mine { mine seat.new ≡ mine seat.old ++ E.list }
        ensures number { number seat.new ≡ number seat.old }
        ensures ended { ended seat.new ≡ ended seat.old }
        ensures parts { parts seat.new ≡ parts seat.old }
    {
        let count = value.count();
        let before = self
            .table
            .shared
            .swap::<Raises<E>>(&mut seat.pass, COUNT, count);
        self.put(&mut seat.pass, &mut seat.share, value, count - before);
        let found = self
            .table
            .shared
            .swap::<GivesBack>(&mut seat.pass, LOCK, FREE);
        if found == WAITED_FOR {
            self.table.shared.wake_one(LOCK);
        }
    }

    /// A new seat that has seen as much, with one part of this one's share.
    pub fn split(&self, seat: &mut Seat<T, B>) -> Seat<T, B>
        requires turn { IsOf seat.old self.now }
        requires idle { IsIdle seat.old }
        requires parts { 2 ≤ parts seat.old }
        ensures turn { IsOf result self.now × IsOf seat.new self.now }
        ensures idle { IsIdle result }
        ensures seen { seen result ≡ seen seat.old }
        ensures alone { (mine result ≡ []) × (ended result ≡ []) }
        ensures parts { (parts result ≡ 1) × (parts seat.new + 1 ≡ parts seat.old) }
        ensures same { view seat.new ≡ view seat.old }
    {
        let mut pass = self.table.shared.split_seat::<Splits>(&mut seat.pass);
        self.table.shared.load::<IsNumbered>(&mut pass, LOCK);
        let share = seat.share.split_off(1, 0);
        Seat { pass, share }
    }

    /// Joins another seat into this one, which has then seen what both had seen, and accounts for what both added.
    pub fn join(&self, seat: &mut Seat<T, B>, other: Seat<T, B>)
        requires turn { IsOf seat.old self.now × IsOf other self.now }
        requires idle { IsIdle seat.old × IsIdle other }
        ensures turn { IsOf seat.new self.now }
        ensures idle { IsIdle seat.new }
        ensures seen { (seen seat.new ≡ seen seat.old) ⊎ (seen seat.new ≡ seen other) }
        ensures begins { IsPrefix (seen seat.old) (seen seat.new) × IsPrefix (seen other) (seen seat.new) }
        ensures opening { of 0 (seen seat.new) ≡ of 0 (seen seat.old) }
        ensures number { number seat.new ≡ number seat.old }
        ensures mine { mine seat.new ≡ mine seat.old }
        ensures ended { ended seat.new ≡ ended seat.old ++ (number other, mine other) ∷ ended other }
        ensures parts { parts seat.new ≡ parts seat.old + parts other }
    {
        let Seat { pass, share } = other;
        self.table.shared.join_seat::<Joins>(&mut seat.pass, pass);
        self.table.shared.load::<Learns>(&mut seat.pass, LOCK);
        seat.share.merge(share);
    }

    // What the share of a seat that holds the turn says of the book. The slot is empty after it.
    fn audit(&self, pass: &mut Pass<Option<Held<T, B>>, View<T::Entry>>, share: &mut Share<B>)
        requires turn { pass.old.table_id ≡ self.now }
        requires empty { (h : _) × (pass.old.me.1 ≡ (0, Some h) ∷ []) × (h.value ≡ None) × (h.book.total ≡ added pass.old.me.0.seen) }
        ensures turn { pass.new.table_id ≡ pass.old.table_id }
        ensures view { pass.new.me.0 ≡ pass.old.me.0 }
        ensures empty { pass.new.me.1 ≡ (0, None) ∷ [] }
        ensures whole { share.old.parts ≡ B.parts → share.old.amount ≡ added pass.old.me.0.seen }
    {
        let Some(held) = self.table.shared.exchange(pass, 0, None) else {
            unreachable!()
        };
        let Held { value, mut book } = held;
        let None = value else { unreachable!() };
        book.audit(share);
    }

    // Ends a turn whose value is out.
    fn shut(self, mut pass: Pass<Option<Held<T, B>>, View<T::Entry>>)
        requires turn { pass.table_id ≡ self }
        requires holds { pass.me.0.role ≡ Level }
        requires empty { pass.me.1 ≡ (0, None) ∷ [] }
    {
        let Turn { table } = self;
        table.shared.store::<Shuts>(&mut pass, LOCK, HELD);
        let mut closed = table.close_with(pass);
        nothing(closed.take(0));
        closed.free();
    }

    /// Waits for the turn, ends it, and gives its value out.
    pub fn close<R: Wait>(self, rt: &R, mut seat: Seat<T, B>) -> T
        requires turn { IsOf seat self }
        requires idle { IsIdle seat }
        ensures { Closed T.stands B.parts seat result }
    {
        let value = self.enter(rt, &mut seat);
        let Seat {
            mut pass,
            mut share,
        } = seat;
        self.audit(&mut pass, &mut share);
        self.shut(pass);
        value
    }
}
