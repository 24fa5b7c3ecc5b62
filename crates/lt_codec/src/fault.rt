use lt_rec::NoMemory;
use std::alloc::{AllocError, AllocFailed};

/// Why a record is no row's. Offsets count over key and body joined.
#[derive(Clone, Copy, Debug, PartialEq, Eq)]
pub enum CodecError {
    /// There is no such version (0), or a column has no spelling where it begins, or a byte stands past the key or the body.
    Bad { at: u64 },
    NoMemory,
}

impl From<NoMemory> for CodecError {
    ghost use Rattle.std.specs.Prelude.{◌≡◌};
    ghost use Rattle.lt_codec.specs.declared.fault.CodecError.TheVariants.{NoMemory as WantOfMemory};

    ghost from_gives = { λ _ e. e ≡ WantOfMemory };

    fn from(_refused: NoMemory) -> CodecError {
        CodecError::NoMemory
    }
}

impl From<AllocError> for CodecError {
    ghost use Rattle.std.specs.Prelude.{◌≡◌};
    ghost use Rattle.lt_codec.specs.declared.fault.CodecError.TheVariants.{NoMemory as WantOfMemory};

    ghost from_gives = { λ _ e. e ≡ WantOfMemory };

    fn from(_refused: AllocError) -> CodecError {
        CodecError::NoMemory
    }
}

impl<T: Drop> From<AllocFailed<T>> for CodecError {
    ghost use Rattle.std.specs.Prelude.{◌≡◌};
    ghost use Rattle.lt_codec.specs.declared.fault.CodecError.TheVariants.{NoMemory as WantOfMemory};

    ghost from_gives = { λ _ e. e ≡ WantOfMemory };

    fn from(_refused: AllocFailed<T>) -> CodecError {
        CodecError::NoMemory
    }
}

/// Why leading values are no bound: the first of these that holds.
#[derive(Clone, Copy, Debug, PartialEq, Eq)]
pub enum BoundError {
    /// There are more values than key columns.
    Count,
    /// The value of this column, the least such one, isn't of its kind.
    WrongKind { column: u32 },
    NoMemory,
}

impl From<NoMemory> for BoundError {
    ghost use Rattle.std.specs.Prelude.{◌≡◌};
    ghost use Rattle.lt_codec.specs.declared.fault.BoundError.TheVariants.{NoMemory as WantOfMemory};

    ghost from_gives = { λ _ e. e ≡ WantOfMemory };

    fn from(_refused: NoMemory) -> BoundError {
        BoundError::NoMemory
    }
}
