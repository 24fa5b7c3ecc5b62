ghost use Rattle.std.specs.Prelude.{◌≡◌, ◌<◌, replicate, IfOk, IsSome};
ghost use Rattle.lt_io.specs.Device.{Counts};
ghost use Rattle.lt_memdev.specs.Fails.{place, fail_at, next_fail, Counted};

use lt_rec::NoMemory;
use std::alloc::Global;
use std::marker::Model;

/// A kind of call.
#[derive(Clone, Copy, Debug, PartialEq, Eq)]
pub enum Op {
    Create,
    Append,
    Seal,
    Enter,
    Point,
    Settle,
    Remove,
    Descriptor,
    Fetch,
    List,
    ReadAt,
}

/// The call of that kind with that place, counted from 1, fails. `done` says whether its change takes place.
#[derive(Clone, Copy, Debug, PartialEq, Eq)]
pub struct Fail {
    pub op: Op,
    pub nth: u64,
    pub done: bool,
}

/// Which calls fail, how many there were of each kind, and how many of them failed.
#[derive(Debug, Drop)]
pub(crate) struct Plan {
    fails: Vec<Fail>,
    calls: [u64; 11],
    faults: u64,
}

impl Model for Plan {
    ghost use Rattle.lt_memdev.specs.Fails.{Planned};

    ghost Value = { Planned };

    ghost view = { λ p. record { fails = p.fails.items; calls = p.calls; faults = p.faults } };
}

fn index(op: Op) -> usize
    ensures place { result ≡ place op }
    ensures below { result < 11 }
{
    op as usize
}

fn planned(fails: &[Fail], op: Op, nth: u64) -> Option<bool>
    ensures { result ≡ fail_at fails.now op nth }
{
    fails
        .iter()
        .find(|fail| index(fail.op) == index(op) && fail.nth == nth)
        .map(|fail| fail.done)
}

impl Plan {
    pub(crate) fn new(alloc: Global, fails: &[Fail]) -> Result<Plan, NoMemory>
        ensures { IfOk result (λ plan. plan ≡ record { fails = fails.now; calls = replicate 11 0; faults = 0 }) }
    {
        let fails = Vec::from_slice(alloc, fails)?;
        Ok(Plan {
            fails,
            calls: [0; 11],
            faults: 0,
        })
    }

    /// Counts a call. None where it is to work, and else whether its change is to take place.
    pub(crate) fn begin(&mut self, op: Op) -> Option<bool>
        ensures planned { result ≡ next_fail self.old op }
        ensures counted { Counted self.old self.new op }
        ensures cause { Counts self.old.faults self.new.faults (IsSome result) }
    {
        let at = index(op);
        let nth = self.calls[at].saturating_add(1);
        self.calls[at] = nth;
        let planned = planned(self.fails.as_slice(), op, nth);
        if planned.is_some() {
            self.faults = self.faults.saturating_add(1);
        }
        planned
    }
}
