ghost use Rattle.std.specs.Prelude.{◌≡◌};
ghost use Rattle.lt_rec.specs.declared.fault.FormatError.TheVariants as errors;

use crate::NoMemory;
use std::alloc::{AllocError, AllocFailed};

/// Why bytes were not read.
#[derive(Clone, Copy, Debug, PartialEq, Eq)]
pub enum FormatError {
    /// They don't keep to the format. The offset is that of the first fault.
    Bad { at: u64 },
    NoMemory,
}

/// The offset of the first fault.
#[derive(Debug, Drop)]
pub struct Fault {
    pub at: u64,
}

impl From<Fault> for FormatError {
    ghost from_gives = { λ fault e. e ≡ errors.Bad fault.at };

    fn from(fault: Fault) -> FormatError {
        FormatError::Bad { at: fault.at }
    }
}

impl From<NoMemory> for FormatError {
    ghost from_gives = { λ _ e. e ≡ errors.NoMemory };

    fn from(_refused: NoMemory) -> FormatError {
        FormatError::NoMemory
    }
}

impl From<AllocError> for FormatError {
    ghost from_gives = { λ _ e. e ≡ errors.NoMemory };

    fn from(_refused: AllocError) -> FormatError {
        FormatError::NoMemory
    }
}

impl<T: Drop> From<AllocFailed<T>> for FormatError {
    ghost from_gives = { λ _ e. e ≡ errors.NoMemory };

    fn from(_refused: AllocFailed<T>) -> FormatError {
        FormatError::NoMemory
    }
}
