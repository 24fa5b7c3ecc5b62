ghost use Rattle.std.specs.Prelude.{◌≡◌};
ghost use Rattle.lt_commit.specs.Causes.{fresh_refusal, load_refusal, read_refusal, commit_refusal, begin_refusal, end_refusal};
ghost use Rattle.lt_commit.specs.declared.errors.CommitError.TheVariants as commit_errors;
ghost use Rattle.lt_commit.specs.declared.errors.CreateError.TheVariants as create_errors;

use lt_io::{DeviceError, Failed};
use lt_rec::{FormatError, NoMemory};
use std::alloc::AllocError;

/// Why no table was begun in a directory.
#[derive(Clone, Copy, Debug, PartialEq, Eq)]
pub enum FreshError {
    /// There is a descriptor.
    Exists,
    /// The device failed. Its count of faults rose.
    Fault,
    /// Memory ran out.
    NoMemory,
}

/// Why the stone of a directory was not loaded.
#[derive(Clone, Copy, Debug, PartialEq, Eq)]
pub enum LoadError {
    /// There is no descriptor.
    NoTable,
    /// The descriptor breaks a rule; the offset is the one that its decoding names.
    Bad { at: u64 },
    /// The device failed. Its count of faults rose.
    Fault,
    /// Memory ran out.
    NoMemory,
}

/// Why no table was made.
#[derive(Clone, Copy, Debug, PartialEq, Eq)]
pub enum CreateError {
    /// There is a descriptor.
    Exists,
    /// No file number is left.
    Spent,
    /// The device failed. Its count of faults rose.
    Fault,
    /// Memory ran out.
    NoMemory,
}

/// Why a change was not made durable.
#[derive(Clone, Copy, Debug, PartialEq, Eq)]
pub enum CommitError {
    /// No file number is left.
    Spent,
    /// The device failed. Its count of faults rose.
    Fault,
    /// Memory ran out.
    NoMemory,
}

impl From<DeviceError> for FreshError {
    ghost from_gives = { λ refused e. e ≡ fresh_refusal refused };

    fn from(refused: DeviceError) -> FreshError {
        match refused {
            DeviceError::Failed => FreshError::Fault,
            DeviceError::NoMemory => FreshError::NoMemory,
        }
    }
}

impl From<DeviceError> for LoadError {
    ghost from_gives = { λ refused e. e ≡ load_refusal refused };

    fn from(refused: DeviceError) -> LoadError {
        match refused {
            DeviceError::Failed => LoadError::Fault,
            DeviceError::NoMemory => LoadError::NoMemory,
        }
    }
}

impl From<FormatError> for LoadError {
    ghost from_gives = { λ refused e. e ≡ read_refusal refused };

    fn from(refused: FormatError) -> LoadError {
        match refused {
            FormatError::Bad { at } => LoadError::Bad { at },
            FormatError::NoMemory => LoadError::NoMemory,
        }
    }
}

impl From<DeviceError> for CommitError {
    ghost from_gives = { λ refused e. e ≡ commit_refusal refused };

    fn from(refused: DeviceError) -> CommitError {
        match refused {
            DeviceError::Failed => CommitError::Fault,
            DeviceError::NoMemory => CommitError::NoMemory,
        }
    }
}

impl From<Failed> for CommitError {
    ghost from_gives = { λ _ e. e ≡ commit_errors.Fault };

    fn from(_failed: Failed) -> CommitError {
        CommitError::Fault
    }
}

impl From<NoMemory> for CommitError {
    ghost from_gives = { λ _ e. e ≡ commit_errors.NoMemory };

    fn from(_refused: NoMemory) -> CommitError {
        CommitError::NoMemory
    }
}

impl From<AllocError> for CommitError {
    ghost from_gives = { λ _ e. e ≡ commit_errors.NoMemory };

    fn from(_refused: AllocError) -> CommitError {
        CommitError::NoMemory
    }
}

impl From<FreshError> for CreateError {
    ghost from_gives = { λ refused e. e ≡ begin_refusal refused };

    fn from(refused: FreshError) -> CreateError {
        match refused {
            FreshError::Exists => CreateError::Exists,
            FreshError::Fault => CreateError::Fault,
            FreshError::NoMemory => CreateError::NoMemory,
        }
    }
}

impl From<CommitError> for CreateError {
    ghost from_gives = { λ refused e. e ≡ end_refusal refused };

    fn from(refused: CommitError) -> CreateError {
        match refused {
            CommitError::Spent => CreateError::Spent,
            CommitError::Fault => CreateError::Fault,
            CommitError::NoMemory => CreateError::NoMemory,
        }
    }
}

impl From<NoMemory> for CreateError {
    ghost from_gives = { λ _ e. e ≡ create_errors.NoMemory };

    fn from(_refused: NoMemory) -> CreateError {
        CreateError::NoMemory
    }
}
