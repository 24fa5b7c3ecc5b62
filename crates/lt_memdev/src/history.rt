ghost use Rattle.std.specs.Prelude.{◌≡◌, ◌<◌, ◌≤◌, ◌+◌, ◌^◌, ◌∷◌, ◌++◌, [], ℕ, IsSome, Some, IfOk, OnOk, vec_len, vec_capacity, length, slice_get};
ghost use Rattle.lt_io.specs.Directory.{State, file_at, raised};
ghost use Rattle.lt_memdev.specs.Files.{above};

use crate::change::{Change, Moment};
use crate::content::Content;
use crate::file_map::FileMap;
use crate::replay::Replay;
use lt_rec::NoMemory;
use std::alloc::Global;
use std::marker::Model;

/// The states that a directory went through: what it began with, and each change since.
#[derive(Debug, Drop)]
pub(crate) struct History {
    first: FileMap,
    begun: Option<Content>,
    log: Vec<Moment>,
    ceiling: u64,
}

impl Model for History {
    ghost use Rattle.std.specs.Prelude.{◌-◌, ◌∷◌, ◌++◌, [], vec_len, vec_capacity};
    ghost use Rattle.lt_io.specs.Directory.{raised};
    ghost use Rattle.lt_memdev.specs.History.{Course, started, past_of, last_of, AllBelow};

    ghost Value = { Course };

    ghost view = { λ h. record { past = past_of (started h.first h.begun) h.log.items; now = raised (last_of (started h.first h.begun) h.log.items) h.ceiling; room = vec_capacity h.log - vec_len h.log } };

    ghost invariant = { λ h. AllBelow (past_of (started h.first h.begun) h.log.items ++ raised (last_of (started h.first h.begun) h.log.items) h.ceiling ∷ []) };
}

/// Adds a moment for which there is room. Takes no memory.
fn push_within(log: &mut Vec<Moment>, moment: Moment)
    requires { vec_len log.old < vec_capacity log.old }
    ensures items { log.new.items ≡ log.old.items ++ moment ∷ [] }
    ensures len { vec_len log.new ≡ vec_len log.old + 1 }
    ensures capacity { vec_capacity log.old ≤ vec_capacity log.new }
{
    if log.push(moment).is_err() {
        unreachable!()
    }
}

impl History {
    ghost use Rattle.lt_memdev.specs.History.{IsLent, IsLawful, Shows, after, states_of};

    /// Begins with these files and this descriptor. The ceiling is one above the greatest number.
    pub(crate) fn begin(alloc: Global, first: FileMap, begun: Option<Content>) -> History
        requires { (number : ℕ) → IsSome (file_at first number) → number < 2 ^ 62 }
        ensures past { result.past ≡ [] }
        ensures now { result.now ≡ record { files = first; may = begun ∷ []; ceiling = above first } }
    {
        let ceiling = first.above();
        let log = Vec::new(alloc);
        History {
            first,
            begun,
            log,
            ceiling,
        }
    }

    pub(crate) fn moments(&self) -> u64
        ensures { result ≡ length self.now.past }
    {
        self.log.as_slice().len() as u64
    }

    pub(crate) fn ceiling(&self) -> u64
        ensures { result ≡ self.now.now.ceiling }
    {
        self.ceiling
    }

    pub(crate) fn raise(&mut self, ceiling: u64)
        requires up { self.old.now.ceiling ≤ ceiling }
        requires in_range { ceiling ≤ 2 ^ 62 }
        ensures past { self.new.past ≡ self.old.past }
        ensures now { self.new.now ≡ raised self.old.now ceiling }
        ensures room { self.new.room ≡ self.old.room }
    {
        self.ceiling = ceiling;
    }

    /// Makes room for so many moments.
    pub(crate) fn reserve(&mut self, moments: usize) -> Result<(), NoMemory>
        ensures past { self.new.past ≡ self.old.past }
        ensures now { self.new.now ≡ self.old.now }
        ensures ok { OnOk result (moments ≤ self.new.room) }
        ensures no_less { self.old.room ≤ self.new.room }
    {
        self.log.reserve(moments)?;
        Ok(())
    }

    /// Adds a moment for which there is room. Takes no memory.
    pub(crate) fn add(&mut self, change: Change)
        requires room { 0 < self.old.room }
        requires lent { IsLent change self.old.now.ceiling }
        ensures past { self.new.past ≡ self.old.past ++ self.old.now ∷ [] }
        ensures now { self.new.now ≡ after change self.old.now }
        ensures room { self.old.room ≤ self.new.room + 1 }
    {
        let ceiling = self.ceiling;
        push_within(&mut self.log, Moment { ceiling, change });
    }

    /// What stood for good at a moment, but for the ceiling.
    pub(crate) fn replay(&self, alloc: Global, moment: usize) -> Result<Replay, NoMemory>
        requires { moment ≤ length self.now.past }
        ensures shows { IfOk result (λ replay. (state : State) → slice_get (states_of self.now) moment ≡ Some state → Shows replay.files replay.may.items state) }
        ensures lawful { (state : State) → slice_get (states_of self.now) moment ≡ Some state → IsLawful moment state }
    {
        let (past, _) = self.log.as_slice().split_at(moment);
        Replay::of(alloc, &self.first, &self.begun, past)
    }

    /// The ceiling that stood at the end of a moment.
    pub(crate) fn ceiling_at(&self, moment: usize) -> u64
        requires { moment ≤ length self.now.past }
        ensures { (state : State) → slice_get (states_of self.now) moment ≡ Some state → result ≡ state.ceiling }
    {
        match self.log.as_slice().get(moment) {
            Some(next) => next.ceiling,
            None => self.ceiling,
        }
    }
}
