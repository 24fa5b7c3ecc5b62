ghost use Rattle.std.specs.Prelude.{◌≡◌};
ghost use Rattle.lt_lang.specs.declared.stop.Stop.TheVariants as stops;

use lt_rec::NoMemory;
use std::alloc::{AllocError, AllocFailed};

/// Why the reading of a line stopped.
#[derive(Clone, Copy, Debug)]
pub enum Stop {
    /// A token can't stand in its place; so many bytes of the line are left from it on.
    At(usize),
    NoMemory,
}

impl From<NoMemory> for Stop {
    ghost from_gives = { λ _ stop. stop ≡ stops.NoMemory };

    fn from(_refused: NoMemory) -> Stop {
        Stop::NoMemory
    }
}

impl From<AllocError> for Stop {
    ghost from_gives = { λ _ stop. stop ≡ stops.NoMemory };

    fn from(_refused: AllocError) -> Stop {
        Stop::NoMemory
    }
}

impl<T: Drop> From<AllocFailed<T>> for Stop {
    ghost from_gives = { λ _ stop. stop ≡ stops.NoMemory };

    fn from(_refused: AllocFailed<T>) -> Stop {
        Stop::NoMemory
    }
}
