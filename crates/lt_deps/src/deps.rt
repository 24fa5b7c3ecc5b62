ghost use Rattle.std.specs.Prelude.{◌≡◌, ℕ, ◌+◌, ◌<◌, ◌≤◌, [], ◌∷◌, ◌++◌, List, OnOk, OnErr, IfOk, not, filter};
ghost use Rattle.lt_rec.specs.Closure.{has, IsClosed, IsClosure};
ghost use Rattle.lt_deps.specs.Kept.{StandsFor};

use crate::places::{front_in, front_of, leave_front, place_of, rising};
use lt_rec::{NoMemory, TabletId};
use std::alloc::Global;
use std::marker::Model;

/// Which tablets must go out with which. It keeps, of the rows that were noted, their tablets in the order of their first
/// rows, and for each how far above it stands the youngest tablet that took the row right before one of its own; no rows.
/// Contracts say for which notes it stands, and how many more it takes before it must be made ready again.
#[derive(Drop)]
pub struct Deps {
    tablets: Vec<TabletId>,
    ahead: Vec<usize>,
    last: usize,
    spare: usize,
    greatest: u64,
}

impl Model for Deps {
    ghost use Rattle.std.specs.Prelude.{◌+◌, ◌≤◌};
    ghost use Rattle.std.specs.Vec.{vec_capacity, vec_len};
    ghost use Rattle.lt_deps.specs.Kept.{Kept, IsWithin, AreUpTo};

    ghost Value = { Kept };

    ghost view = { λ d. record { tablets = d.tablets.items; ahead = d.ahead.items; last = d.last; spare = d.spare } };

    ghost invariant = { λ d. IsWithin d.tablets.items d.ahead.items d.last × (vec_len d.tablets + d.spare ≤ vec_capacity d.tablets) × (vec_len d.ahead + d.spare ≤ vec_capacity d.ahead) × AreUpTo d.tablets.items d.greatest };
}

impl Deps {
    /// No rows yet. Takes no memory.
    pub fn new(alloc: Global) -> Deps
        ensures stands { StandsFor result [] }
        ensures spare { result.spare ≡ 0 }
    {
        Deps {
            tablets: Vec::new(alloc),
            ahead: Vec::new(alloc),
            last: 0,
            spare: 0,
            greatest: 0,
        }
    }

    /// Makes room for a row's note, where there is none.
    pub fn ready(&mut self) -> Result<(), NoMemory>
        ensures ok { OnOk result (1 ≤ self.new.spare) }
        ensures stands { (notes : List ℕ) → StandsFor self.old notes → StandsFor self.new notes }
        ensures unchanged { OnErr result (self.new ≡ self.old) }
    {
        if self.spare > 0 {
            return Ok(());
        }
        self.tablets.reserve(1)?;
        self.ahead.reserve(1)?;
        self.spare = 1;
        Ok(())
    }

    /// Notes that the next row goes to the tablet. Takes no memory.
    pub fn note(&mut self, tablet: TabletId)
        requires room { 1 ≤ self.old.spare }
        ensures spare { self.new.spare + 1 ≡ self.old.spare }
        ensures noted { (notes : List ℕ) → StandsFor self.old notes → StandsFor self.new (notes ++ tablet ∷ []) }
    {
        self.spare -= 1;
        match place_of(self.tablets.as_slice(), self.greatest, tablet) {
            Some(place) => {
                let ahead = self.ahead[place].max(self.last.saturating_sub(place + 1));
                self.ahead[place] = ahead;
                self.last = place + 1;
            }
            None => {
                let place = self.tablets.as_slice().len();
                match (self.tablets.push(tablet), self.ahead.push(0)) {
                    (Ok(()), Ok(())) => {}
                    _ => unreachable!(),
                }
                self.greatest = self.greatest.max(tablet.0);
                self.last = place + 1;
            }
        }
    }

    /// The tablets that must go out with this one, itself among them, rising. Of rows in the tablets that it gives, each
    /// earlier row is in one of them too, and no smaller set that has the tablet is so.
    pub fn closure(&self, tablet: TabletId) -> Result<Vec<TabletId>, NoMemory>
        ensures ok { IfOk result (λ found. (notes : List ℕ) → StandsFor self.now notes → IsClosure notes tablet found.items) }
    {
        let alloc = *self.tablets.allocator();
        let Some(place) = place_of(self.tablets.as_slice(), self.greatest, tablet) else {
            return Ok(Vec::from_slice(alloc, &[tablet])?);
        };
        let count = front_of(self.ahead.as_slice(), place);
        let (front, _) = self.tablets.as_slice().split_at(count);
        let found = rising(alloc, front)?;
        Ok(found)
    }

    /// Forgets these tablets, whose rows are kept elsewhere from now on. Where all that the closure of each of them gives
    /// are among them, what is left stands for the notes of the other tablets. Takes no memory.
    pub fn gone(&mut self, tablets: &[TabletId])
        ensures spare { self.new.spare ≡ self.old.spare }
        ensures left { (notes : List ℕ) → StandsFor self.old notes → IsClosed notes tablets.now → StandsFor self.new (filter (λ tablet. not (has tablets.now tablet)) notes) }
    {
        let count = front_in(self.tablets.as_slice(), tablets);
        leave_front(&mut self.tablets, count);
        leave_front(&mut self.ahead, count);
        self.last = self.last.saturating_sub(count);
    }
}
