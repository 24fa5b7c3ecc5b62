ghost use Rattle.std.specs.Prelude.{◌≡◌, ℕ, ◌+◌, ◌-◌, ◌^◌, ◌<◌, ◌≤◌, [], ◌∷◌, ◌++◌, List, All, Contains, true, false, not, filter, max, length, drop, OnOk, OnErr, IfOk, IfErr, IfSome, IfNone};
ghost use Rattle.std.specs.Int.{w64, to_be_bytes};
ghost use Rattle.std.specs.List.Sorted.{IsStrictlyIncreasing};
ghost use Rattle.lt_rec.specs.Closure.{has, IsClosed};
ghost use Rattle.lt_mem.specs.Rising.{IsInOrder};
ghost use Rattle.lt_deps.specs.Kept.{StandsFor};
ghost use Rattle.lt_period.specs.Moments.{period_at};
ghost use Rattle.lt_state.specs.State.{Filled};
ghost use Rattle.lt_state.specs.Memory.{AreTablets};
ghost use Rattle.lt_state.specs.Flushes.{AddsRecord, Leaves};
ghost use Rattle.lt_memory.specs.Tablets.{IsKeyHeld, NoneHasKey, SaysOfKey};
ghost use Rattle.lt_memory.specs.Inserting.{Took};
ghost use Rattle.lt_memory.specs.Going.{IsCause, named};
ghost use Rattle.lt_memory.specs.Waiting.{HasAll, numbers_of};
ghost use Rattle.lt_memory.specs.Sharing.{IsTop, frozen_among, is_part, left_by, shares_among};
ghost use Rattle.lt_memory.specs.Walking.{walks_of};

use crate::going::{FreezeRefusal, FreezeWhat, numbers_named, with_needed};
use crate::held::Held;
use crate::seek::find;
use crate::sharing::{FrozenPart, freeze_all, leave_out, share_all, top_of};
use crate::take::take;
use crate::walks::walk_all;
use lt_deps::Deps;
use lt_mem::AddError;
use lt_rec::{NoMemory, RawBox, Rec, RecList, TabletId};
use std::alloc::Global;
use std::marker::Model;

/// The tablets in memory of one table, in the order in which they were made. Contracts see each with its number, its period
/// and its records, the number of the next one, and what is kept of which of them must go out together.
#[derive(Drop)]
pub struct Memory {
    tablets: Vec<Held>,
    next: u64,
    deps: Deps,
}

impl Model for Memory {
    ghost use Rattle.lt_memory.specs.Tablets.{Tablets, AreHeld};

    ghost Value = { Tablets };

    ghost view = { λ m. record { tablets = m.tablets.items; next = m.next; dependencies = m.deps } };

    ghost invariant = { λ m. AreHeld m.tablets.items m.next };
}

impl Memory {
    /// No tablets. Takes no memory.
    pub fn new(alloc: Global) -> Memory
        ensures tablets { result.tablets ≡ [] }
        ensures next { result.next ≡ 0 }
        ensures dependencies { StandsFor result.dependencies [] }
    {
        Memory {
            tablets: Vec::new(alloc),
            next: 0,
            deps: Deps::new(alloc),
        }
    }

    /// Adds the record, unless a tablet has its key. It goes to the tablet of its timestamp's period at the moment that takes
    /// rows; where that would pass the most bytes of a tablet with it, it is full, takes no more, and a new one begins. The
    /// number of the tablet that took the record.
    pub fn insert(&mut self, rec: Rec, now: u64) -> Result<TabletId, AddError>
        requires numbered { self.old.next + 1 < 2 ^ 64 }
        ensures took { IfOk result (λ tablet. Took self.old.tablets self.new.tablets self.old.next (period_at rec.ts now) tablet rec now) }
        ensures number { IfOk result (λ tablet. tablet ≤ self.old.next) }
        ensures added { IfOk result (λ tablet. AddsRecord self.old.tablets self.new.tablets tablet rec) }
        ensures tablets { AreTablets self.new.tablets }
        ensures next { IfOk result (λ tablet. self.new.next ≡ max self.old.next (tablet + 1)) }
        ensures noted { IfOk result (λ tablet. (notes : List ℕ) → StandsFor self.old.dependencies notes → StandsFor self.new.dependencies (notes ++ tablet ∷ [])) }
        ensures distinct { OnOk result (NoneHasKey self.old.tablets rec.key) }
        ensures cause { IfErr result (SaysOfKey self.old.tablets rec.key) }
        ensures unchanged { OnErr result (self.new.tablets ≡ self.old.tablets) }
        ensures next_unchanged { OnErr result (self.new.next ≡ self.old.next) }
        ensures none_noted { OnErr result ((notes : List ℕ) → StandsFor self.old.dependencies notes → StandsFor self.new.dependencies notes) }
    {
        // All that may be refused comes before the note, which can't be taken back.
        if self.deps.ready().is_err() {
            return Err(AddError::NoMemory);
        }
        match take(&mut self.tablets, self.next, rec, now) {
            Ok(id) => {
                self.next = self.next.max(id.0 + 1);
                self.deps.note(id);
                Ok(id)
            }
            Err(refused) => Err(refused),
        }
    }

    /// Some record of this key, whose timestamp this is, in some tablet. Takes no memory.
    pub fn get(&self, key: &[u8], ts: u64) -> Option<&Rec>
        requires timed { drop (length key.now - 8) key.now ≡ to_be_bytes w64 ts }
        ensures found { IfSome result (λ rec. IsKeyHeld self.now.tablets key.now rec.now) }
        ensures none { IfNone result (NoneHasKey self.now.tablets key.now) }
    {
        find(self.tablets.as_slice(), key, ts)
    }

    /// The tablets that must go out, by rising numbers.
    pub fn closure(&self, what: FreezeWhat) -> Result<Vec<TabletId>, FreezeRefusal>
        ensures rising { IfOk result (λ found. IsStrictlyIncreasing found.items) }
        ensures held { IfOk result (λ found. HasAll found.items (numbers_of self.now.tablets)) }
        ensures named { IfOk result (λ found. (notes : List ℕ) → StandsFor self.now.dependencies notes → HasAll (named what self.now.tablets) found.items) }
        ensures closed { IfOk result (λ found. (notes : List ℕ) → StandsFor self.now.dependencies notes → HasAll notes (numbers_of self.now.tablets) → IsClosed notes found.items) }
        ensures least { IfOk result (λ found. (notes other : List ℕ) → StandsFor self.now.dependencies notes → IsClosed notes other → HasAll (named what self.now.tablets) other → HasAll found.items other) }
        ensures cause { IfErr result (IsCause what self.now.tablets) }
    {
        let alloc = *self.tablets.allocator();
        let tablets = self.tablets.as_slice();
        match numbers_named(alloc, tablets, what) {
            Ok(named) => Ok(with_needed(alloc, tablets, &self.deps, named.as_slice())?),
            Err(refused) => Err(refused),
        }
    }

    /// These tablets take no more rows. A share of each of them that is in memory, by rising numbers; of a tablet that was
    /// frozen before the records are the same.
    pub fn freeze(&mut self, parts: &[TabletId]) -> Result<Vec<FrozenPart>, NoMemory>
        ensures shares { IfOk result (λ shares. shares.items ≡ shares_among parts.now self.old.tablets) }
        ensures frozen { OnOk result (self.new.tablets ≡ frozen_among parts.now self.old.tablets) }
        ensures next { self.new.next ≡ self.old.next }
        ensures dependencies { self.new.dependencies ≡ self.old.dependencies }
        ensures unchanged { OnErr result (self.new ≡ self.old) }
    {
        // Nothing is marked before all shares are there.
        let shares = share_all(*self.tablets.allocator(), self.tablets.as_slice(), parts)?;
        freeze_all(&mut self.tablets, parts);
        Ok(shares)
    }

    /// The greatest number of a record in these tablets. Takes no memory.
    pub fn top(&self, parts: &[TabletId]) -> Option<u64>
        ensures top { IfSome result (IsTop self.now.tablets parts.now) }
        ensures none { IfNone result ((tablet : Filled) → Contains self.now.tablets tablet → is_part parts.now tablet ≡ false) }
    {
        top_of(self.tablets.as_slice(), parts)
    }

    /// Forgets these tablets, whose rows are kept elsewhere from now on. Takes no memory.
    pub fn remove(&mut self, parts: &[TabletId])
        ensures exact { self.new.tablets ≡ left_by parts.now self.old.tablets }
        ensures leaves { Leaves self.old.tablets self.new.tablets parts.now }
        ensures tablets { AreTablets self.new.tablets }
        ensures next { self.new.next ≡ self.old.next }
        ensures notes { (notes : List ℕ) → StandsFor self.old.dependencies notes → IsClosed notes parts.now → StandsFor self.new.dependencies (filter (λ tablet. not (has parts.now tablet)) notes) }
    {
        leave_out(&mut self.tablets, parts);
        self.deps.gone(parts);
    }

    /// Of each tablet whose span meets that of the box, its first records of the box in the order of their keys or, with
    /// `down`, the other way round; `limit` of them or all. Copies pointers and no record.
    pub fn walks(&self, raw_box: &RawBox, down: bool, limit: u64) -> Result<Vec<RecList>, NoMemory>
        ensures exact { IfOk result (λ lists. lists.items ≡ walks_of raw_box.now down limit self.now.tablets) }
        ensures sorted { IfOk result (λ lists. All (IsInOrder down) lists.items) }
    {
        walk_all(
            *self.tablets.allocator(),
            self.tablets.as_slice(),
            raw_box,
            down,
            limit,
        )
    }
}
