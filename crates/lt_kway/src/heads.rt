ghost use Rattle.std.specs.Prelude.{◌≡◌, [], ◌∷◌, OnOk, OnErr, IfErr, IfSome, IfNone, true};
ghost use Rattle.std.specs.List.{All};
ghost use Rattle.std.specs.List.Sorted.{IsPermutation};
ghost use Rattle.lt_kway.specs.Heads.{is_before, NoneHas, Refuses};

use crate::place::place_of;
use crate::slots::Slots;
use crate::{Head, HeadError};
use lt_rec::Rec;
use std::alloc::Global;
use std::marker::Model;

/// The heads of several sources, no two with the same key. Contracts see the direction of reading and the list of heads,
/// whose order they leave open.
#[derive(Drop)]
pub struct Heads {
    down: bool,
    heads: Slots,
}

impl Model for Heads {
    ghost use Rattle.lt_kway.specs.Heads.{Held, AreRanked};

    ghost Value = { Held };

    ghost view = { λ h. record { down = h.down; heads = h.heads } };

    ghost invariant = { λ h. AreRanked h.down h.heads };
}

impl Heads {
    /// No heads, of which the least key is taken first or, with `down`, the greatest. Takes no memory.
    pub fn new(alloc: Global, down: bool) -> Heads
        ensures empty { result.heads ≡ [] }
        ensures direction { result.down ≡ down }
    {
        Heads {
            down,
            heads: Slots::new(alloc),
        }
    }

    /// Adds a head. On a refusal all is as before, and the record is given back.
    pub fn put(&mut self, source: u64, rec: Rec) -> Result<(), (Rec, HeadError)>
        ensures ok { OnOk result (IsPermutation (record { source = source; rec = rec } ∷ self.old.heads) self.new.heads) }
        ensures distinct { OnOk result (NoneHas self.old.heads rec.key) }
        ensures cause { IfErr result (λ refused. Refuses self.old.heads rec.key refused.1) }
        ensures handed_back { IfErr result (λ refused. refused.0 ≡ rec) }
        ensures unchanged { OnErr result (self.new ≡ self.old) }
        ensures direction { self.new.down ≡ self.old.down }
    {
        match place_of(&self.heads, rec.key(), self.down) {
            Ok(place) => {
                let held = self.heads.get(place);
                let source = held.source;
                Err((rec, HeadError::Clash { source }))
            }
            Err(place) => match self.heads.insert(place, Head { source, rec }) {
                Ok(()) => Ok(()),
                Err(Head { source: _, rec }) => Err((rec, HeadError::NoMemory)),
            },
        }
    }

    /// Takes the head with the least key or, where reading goes down, the greatest; `None` exactly where there is none.
    /// Takes no memory.
    pub fn take(&mut self) -> Option<(u64, Rec)>
        ensures taken { IfSome result (λ head. IsPermutation (record { source = head.0; rec = head.1 } ∷ self.new.heads) self.old.heads) }
        ensures least { IfSome result (λ head. All (λ held. is_before self.old.down head.1.key held.rec.key ≡ true) self.new.heads) }
        ensures empty { IfNone result (self.old.heads ≡ []) }
        ensures unchanged { IfNone result (self.new.heads ≡ []) }
        ensures direction { self.new.down ≡ self.old.down }
    {
        let Head { source, rec } = self.heads.pop()?;
        Some((source, rec))
    }
}
