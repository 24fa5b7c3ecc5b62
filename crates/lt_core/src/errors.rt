ghost use Rattle.std.specs.Prelude.{◌≡◌};
ghost use Rattle.lt_core.specs.Causes.{commit_refusal};
ghost use Rattle.lt_core.specs.declared.errors.CoreAlterError.TheVariants as alter_errors;
ghost use Rattle.lt_core.specs.declared.errors.InsertError.TheVariants as insert_errors;

use lt_commit::CommitError;
use lt_rec::NoMemory;
use lt_schema::{AlterError, RowFault};
use std::alloc::{AllocError, AllocFailed};

/// Why a change of the schema was not made.
#[derive(Clone, Copy, Debug, PartialEq, Eq)]
pub enum CoreAlterError {
    /// The newest version does not admit it.
    Refused(AlterError),
    /// No file number is left.
    Spent,
    /// The device failed. Its count of faults rose.
    Fault,
    /// Memory ran out.
    NoMemory,
}

impl From<AlterError> for CoreAlterError {
    ghost from_gives = { λ why e. e ≡ alter_errors.Refused why };

    fn from(why: AlterError) -> CoreAlterError {
        CoreAlterError::Refused(why)
    }
}

impl From<CommitError> for CoreAlterError {
    ghost from_gives = { λ refused e. e ≡ commit_refusal refused };

    fn from(refused: CommitError) -> CoreAlterError {
        match refused {
            CommitError::Spent => CoreAlterError::Spent,
            CommitError::Fault => CoreAlterError::Fault,
            CommitError::NoMemory => CoreAlterError::NoMemory,
        }
    }
}

impl From<NoMemory> for CoreAlterError {
    ghost from_gives = { λ _ e. e ≡ alter_errors.NoMemory };

    fn from(_refused: NoMemory) -> CoreAlterError {
        CoreAlterError::NoMemory
    }
}

impl From<AllocError> for CoreAlterError {
    ghost from_gives = { λ _ e. e ≡ alter_errors.NoMemory };

    fn from(_refused: AllocError) -> CoreAlterError {
        CoreAlterError::NoMemory
    }
}

impl<T: Drop> From<AllocFailed<T>> for CoreAlterError {
    ghost from_gives = { λ _ e. e ≡ alter_errors.NoMemory };

    fn from(_refused: AllocFailed<T>) -> CoreAlterError {
        CoreAlterError::NoMemory
    }
}

/// Why a row was not added: the first of these that holds, unless a file is damaged, the device failed or memory ran out.
#[derive(Clone, Copy, Debug, PartialEq, Eq)]
pub enum InsertError {
    /// The row does not pass the newest version.
    BadRow(RowFault),
    /// Its timestamp is below the bound.
    TooOld { since: u64 },
    /// The row of this number has its key.
    Present { seq: u64 },
    /// No row number is left.
    Spent,
    /// A file in which its key was sought breaks a rule at this offset.
    Damaged { file: u64, at: u64 },
    /// The device failed. Its count of faults rose.
    Fault,
    /// Memory ran out.
    NoMemory,
}

impl From<RowFault> for InsertError {
    ghost from_gives = { λ fault e. e ≡ insert_errors.BadRow fault };

    fn from(fault: RowFault) -> InsertError {
        InsertError::BadRow(fault)
    }
}

impl From<NoMemory> for InsertError {
    ghost from_gives = { λ _ e. e ≡ insert_errors.NoMemory };

    fn from(_refused: NoMemory) -> InsertError {
        InsertError::NoMemory
    }
}
