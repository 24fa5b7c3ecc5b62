ghost use Rattle.std.specs.Prelude.{◌≡◌, ◌<◌, ◌^◌, ℕ};
ghost use Rattle.lt_io.specs.Clock.{moment_of};

use std::marker::Model;
use std::sync::atomic::{AtomicU64, Ordering};

const LATEST: u64 = (1 << 62) - 1;

/// Tells the time, in microseconds since the Unix epoch. Nothing says that it goes on.
pub trait Clock: Sync {
    /// Whether it may show this moment.
    ghost shows: { Self → ℕ → Type 0 };

    fn now(&self) -> u64
        ensures below { result < 2 ^ 62 }
        ensures shown { shows self.now result };
}

/// Always shows the same moment.
#[derive(Clone, Copy, Debug)]
pub struct FixedClock {
    pub at: u64,
    ghost in_range: { at < 2 ^ 62 },
}

impl Clock for FixedClock {
    ghost shows = { λ clock moment. moment ≡ clock.at };

    fn now(&self) -> u64 {
        self.at
    }
}

/// Goes one step on with each call, and stands still at 2^62 - 1.
#[derive(Debug, Drop)]
pub struct StepClock {
    start: u64,
    step: u64,
    calls: AtomicU64,
}

impl Model for StepClock {
    ghost use Rattle.std.specs.Prelude.{◌<◌, ◌^◌};
    ghost use Rattle.lt_io.specs.Clock.{Ticking};

    ghost Value = { Ticking };

    ghost view = { λ c. record { start = c.start; step = c.step } };

    ghost invariant = { λ c. c.start < 2 ^ 62 };
}

impl StepClock {
    /// Its answer is `start + k * step` at the call with the number k, counted from 0.
    pub fn new(start: u64, step: u64) -> StepClock
        requires start_in_range { start < 2 ^ 62 }
        requires step_in_range { step < 2 ^ 62 }
        ensures { result ≡ record { start = start; step = step } }
    {
        StepClock {
            start,
            step,
            calls: AtomicU64::new(0),
        }
    }
}

impl Clock for StepClock {
    ghost shows = { λ clock moment. (call : ℕ) × (moment ≡ moment_of clock call) };

    fn now(&self) -> u64 {
        let call = self.calls.fetch_add(1, Ordering::SeqCst);
        let moment = self.start.saturating_add(call.saturating_mul(self.step));
        moment.min(LATEST)
    }
}
