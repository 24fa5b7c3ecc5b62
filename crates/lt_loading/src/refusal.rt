ghost use Rattle.std.specs.Prelude.{◌≡◌};
ghost use Rattle.lt_loading.specs.Causes.{device_refusal, read_refusal};
ghost use Rattle.lt_loading.specs.declared.refusal.LoadRefusal.TheVariants as refusals;

use lt_io::DeviceError;
use lt_rec::NoMemory;
use lt_tablet::ReadError;
use std::alloc::{AllocError, AllocFailed};

/// Why the listed tablets were not loaded.
#[derive(Clone, Copy, Debug, PartialEq, Eq)]
pub enum LoadRefusal {
    /// A listed file isn't there.
    Missing { file: u64 },
    /// A file breaks a rule, or a record is no row of its version; the offset in the file is that of the first fault.
    BadTablet { file: u64, at: u64 },
    /// A key stands in two files: the two least numbered ones that have the least such key, the smaller number first.
    Clash { first: u64, second: u64 },
    /// The device failed. Its count of faults rose.
    Fault,
    /// Memory ran out.
    NoMemory,
}

impl From<DeviceError> for LoadRefusal {
    ghost from_gives = { λ refused e. e ≡ device_refusal refused };

    fn from(refused: DeviceError) -> LoadRefusal {
        match refused {
            DeviceError::Failed => LoadRefusal::Fault,
            DeviceError::NoMemory => LoadRefusal::NoMemory,
        }
    }
}

impl From<ReadError> for LoadRefusal {
    ghost from_gives = { λ refused e. e ≡ read_refusal refused };

    fn from(refused: ReadError) -> LoadRefusal {
        match refused {
            ReadError::Bad { file, at } => LoadRefusal::BadTablet { file, at },
            ReadError::Fault => LoadRefusal::Fault,
            ReadError::NoMemory => LoadRefusal::NoMemory,
        }
    }
}

impl From<NoMemory> for LoadRefusal {
    ghost from_gives = { λ _ e. e ≡ refusals.NoMemory };

    fn from(_refused: NoMemory) -> LoadRefusal {
        LoadRefusal::NoMemory
    }
}

impl From<AllocError> for LoadRefusal {
    ghost from_gives = { λ _ e. e ≡ refusals.NoMemory };

    fn from(_refused: AllocError) -> LoadRefusal {
        LoadRefusal::NoMemory
    }
}

impl<T: Drop> From<AllocFailed<T>> for LoadRefusal {
    ghost from_gives = { λ _ e. e ≡ refusals.NoMemory };

    fn from(_refused: AllocFailed<T>) -> LoadRefusal {
        LoadRefusal::NoMemory
    }
}
