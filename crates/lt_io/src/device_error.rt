ghost use Rattle.std.specs.Prelude.{◌≡◌, Some, codes};
ghost use Rattle.lt_io.specs.Texts.{device_error_text};
ghost use Rattle.lt_io.specs.declared.device_error.DeviceError.TheVariants.{Failed as Fault, NoMemory as WantOfMemory};

use lt_rec::NoMemory;
use std::alloc::{AllocError, AllocFailed};
use std::fmt;

/// A device failed. Its count of faults rose.
#[derive(Clone, Copy, Debug, PartialEq, Eq)]
pub struct Failed;

/// Why a device refused.
#[derive(Clone, Copy, Debug, PartialEq, Eq)]
pub enum DeviceError {
    /// The device failed. Its count of faults rose.
    Failed,
    /// Memory ran out.
    NoMemory,
}

impl fmt::Display for Failed {
    ghost output = { λ _. Some (codes "the device failed") };

    fn fmt<W: fmt::Write>(&self, f: &mut fmt::Formatter<W>) -> fmt::Result {
        write!(f, "the device failed")
    }
}

impl std::error::Error for Failed {}

impl fmt::Display for DeviceError {
    ghost output = { λ e. Some (device_error_text e) };

    fn fmt<W: fmt::Write>(&self, f: &mut fmt::Formatter<W>) -> fmt::Result {
        match self {
            DeviceError::Failed => write!(f, "the device failed"),
            DeviceError::NoMemory => write!(f, "no memory"),
        }
    }
}

impl std::error::Error for DeviceError {}

impl From<Failed> for DeviceError {
    ghost from_gives = { λ _ e. e ≡ Fault };

    fn from(_failed: Failed) -> DeviceError {
        DeviceError::Failed
    }
}

impl From<NoMemory> for DeviceError {
    ghost from_gives = { λ _ e. e ≡ WantOfMemory };

    fn from(_refused: NoMemory) -> DeviceError {
        DeviceError::NoMemory
    }
}

impl From<AllocError> for DeviceError {
    ghost from_gives = { λ _ e. e ≡ WantOfMemory };

    fn from(_refused: AllocError) -> DeviceError {
        DeviceError::NoMemory
    }
}

impl<T: Drop> From<AllocFailed<T>> for DeviceError {
    ghost from_gives = { λ _ e. e ≡ WantOfMemory };

    fn from(_refused: AllocFailed<T>) -> DeviceError {
        DeviceError::NoMemory
    }
}
