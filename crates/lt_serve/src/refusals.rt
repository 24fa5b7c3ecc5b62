//! Why no table was made, why a session was not answered to its end, and by which status each is told.
ghost use Rattle.std.specs.Prelude.{◌≡◌};
ghost use Rattle.lt_serve.specs.Status.{load_refusal, create_refusal, making_status, session_status, reading_status};
ghost use Rattle.lt_serve.specs.declared.refusals.SessionError.TheVariants.{NoMemory as WantOfMemory};

use crate::Status;
use lt_commit::{CreateError, LoadError};
use lt_io::ReadAllError;
use lt_json::SchemaError;
use lt_rec::NoMemory;

/// Why no table was made.
#[derive(Clone, Copy, Debug, PartialEq, Eq)]
pub enum MakeError {
    /// The text says no schema.
    Schema(SchemaError),
    /// The directory took no table.
    Create(CreateError),
}

/// Why a session was not answered to its end.
#[derive(Clone, Copy, Debug, PartialEq, Eq)]
pub enum SessionError {
    /// The table was not loaded.
    Load(LoadError),
    /// A line is a second client's or asks for what isn't built yet; `line` counts from 0 over all lines. It is 0 where the
    /// table has rows in files, which aren't read yet.
    NotYet { line: u64 },
    /// Memory ran out once the table was loaded.
    NoMemory,
}

impl From<NoMemory> for SessionError {
    ghost from_gives = { λ _ refused. refused ≡ WantOfMemory };

    fn from(_refused: NoMemory) -> SessionError {
        SessionError::NoMemory
    }
}

impl From<LoadError> for Status {
    ghost from_gives = { λ refused status. status ≡ load_refusal refused };

    fn from(refused: LoadError) -> Status {
        match refused {
            LoadError::NoTable => Status::NoTable,
            LoadError::Bad { at } => Status::Refused { at },
            LoadError::Fault => Status::DeviceFault,
            LoadError::NoMemory => Status::NoMemory,
        }
    }
}

impl From<CreateError> for Status {
    ghost from_gives = { λ refused status. status ≡ create_refusal refused };

    fn from(refused: CreateError) -> Status {
        match refused {
            CreateError::Exists => Status::Exists,
            CreateError::Spent => Status::Spent,
            CreateError::Fault => Status::DeviceFault,
            CreateError::NoMemory => Status::NoMemory,
        }
    }
}

impl From<MakeError> for Status {
    ghost from_gives = { λ refused status. status ≡ making_status refused };

    fn from(refused: MakeError) -> Status {
        match refused {
            MakeError::Schema(SchemaError::NoMemory) => Status::NoMemory,
            MakeError::Schema(why) => Status::BadSchema { why },
            MakeError::Create(why) => Status::from(why),
        }
    }
}

impl From<SessionError> for Status {
    ghost from_gives = { λ refused status. status ≡ session_status refused };

    fn from(refused: SessionError) -> Status {
        match refused {
            SessionError::Load(why) => Status::from(why),
            SessionError::NotYet { line } => Status::NotYet { line },
            SessionError::NoMemory => Status::NoMemory,
        }
    }
}

impl From<ReadAllError> for Status {
    ghost from_gives = { λ refused status. status ≡ reading_status refused };

    fn from(refused: ReadAllError) -> Status {
        match refused {
            ReadAllError::Fault => Status::SourceFault,
            ReadAllError::TooLong => Status::TooLong,
            ReadAllError::NoMemory => Status::NoMemory,
        }
    }
}
