ghost use Rattle.std.specs.Prelude.{◌≡◌};
ghost use Rattle.lt_io.specs.declared.device_error.DeviceError.TheVariants as device_errors;
ghost use Rattle.lt_tablet.specs.Causes.{read_refusal, write_refusal};
ghost use Rattle.lt_tablet.specs.declared.errors.ReadError.TheVariants as read_errors;
ghost use Rattle.lt_tablet.specs.declared.errors.WriteError.TheVariants as write_errors;

use lt_io::DeviceError;
use lt_rec::NoMemory;
use std::alloc::{AllocError, AllocFailed};

/// Why a tablet, or a block of one, was not read.
#[derive(Clone, Copy, Debug, PartialEq, Eq)]
pub enum ReadError {
    /// The file breaks a rule; the offset in the file is the one that the first failing check names.
    Bad { file: u64, at: u64 },
    /// The device failed. Its count of faults rose.
    Fault,
    /// Memory ran out.
    NoMemory,
}

/// Why a tablet was not written.
#[derive(Clone, Copy, Debug, PartialEq, Eq)]
pub enum WriteError {
    /// The device failed. Its count of faults rose.
    Fault,
    /// Memory ran out.
    NoMemory,
}

impl From<DeviceError> for ReadError {
    ghost from_gives = { λ refused e. e ≡ read_refusal refused };

    fn from(refused: DeviceError) -> ReadError {
        match refused {
            DeviceError::Failed => ReadError::Fault,
            DeviceError::NoMemory => ReadError::NoMemory,
        }
    }
}

impl From<NoMemory> for ReadError {
    ghost from_gives = { λ _ e. e ≡ read_errors.NoMemory };

    fn from(_refused: NoMemory) -> ReadError {
        ReadError::NoMemory
    }
}

impl From<AllocError> for ReadError {
    ghost from_gives = { λ _ e. e ≡ read_errors.NoMemory };

    fn from(_refused: AllocError) -> ReadError {
        ReadError::NoMemory
    }
}

impl<T: Drop> From<AllocFailed<T>> for ReadError {
    ghost from_gives = { λ _ e. e ≡ read_errors.NoMemory };

    fn from(_refused: AllocFailed<T>) -> ReadError {
        ReadError::NoMemory
    }
}

impl From<DeviceError> for WriteError {
    ghost from_gives = { λ refused e. e ≡ write_refusal refused };

    fn from(refused: DeviceError) -> WriteError {
        match refused {
            DeviceError::Failed => WriteError::Fault,
            DeviceError::NoMemory => WriteError::NoMemory,
        }
    }
}

impl From<NoMemory> for WriteError {
    ghost from_gives = { λ _ e. e ≡ write_errors.NoMemory };

    fn from(_refused: NoMemory) -> WriteError {
        WriteError::NoMemory
    }
}

impl From<AllocError> for WriteError {
    ghost from_gives = { λ _ e. e ≡ write_errors.NoMemory };

    fn from(_refused: AllocError) -> WriteError {
        WriteError::NoMemory
    }
}

impl<T: Drop> From<AllocFailed<T>> for WriteError {
    ghost from_gives = { λ _ e. e ≡ write_errors.NoMemory };

    fn from(_refused: AllocFailed<T>) -> WriteError {
        WriteError::NoMemory
    }
}
