use crate::rule::Held;
use crate::view::View;
use atomic_table::Seat as Pass;
use lt_stands::Stands;
use std::marker::Model;
use std::sync::ledger::{Ledger, Share};

/// A place at a turn. It knows a beginning of the list, and has a share in what was added to it. To a clause it is the name
/// of its turn, what it knows, and how many parts of the ledger it has.
#[derive(Drop)]
pub struct Seat<T: Stands, B: Ledger> {
    pub(crate) pass: Pass<Option<Held<T, B>>, View<T::Entry>>,
    pub(crate) share: Share<B>,
}

impl<T: Stands, B: Ledger> Model for Seat<T, B> {
    ghost use Rattle.std.specs.Prelude.{◌≡◌, ℕ, ◌+◌, ◌<◌, [], length};
    ghost use Rattle.atomic_table.specs.Seated.{TableId};
    ghost use Rattle.lt_turn.specs.declared.view.View.{View as Knows};

    ghost Value = { TableId × (Knows T.Entry × ℕ) };

    ghost use Rattle.lt_turn.specs.Lists.{total};
    ghost use Rattle.lt_turn.specs.Seats.{Carries};

    ghost view = { λ s. (s.pass.table_id, (s.pass.me.0, s.share.parts)) };

    ghost invariant = { λ s. Carries (λ h. h.value) (λ h. h.book.total) s.pass.me.0 s.pass.me.1 × (0 < s.share.parts) × (s.share.amount ≡ length s.pass.me.0.mine + total s.pass.me.0.ended) × (s.pass.me.0.told ≡ []) };
}
