use lt_json::SchemaError;

/// How a run ended.
#[derive(Clone, Copy, Debug, PartialEq, Eq)]
pub enum Status {
    /// The input was read to its end and all was written, or a table was made and said so.
    Done,
    /// The words have no listed form.
    Usage,
    /// The source failed.
    SourceFault,
    /// The sink failed.
    SinkFault,
    /// The input passes the limit.
    TooLong,
    /// There is a table already.
    Exists,
    /// There is no table.
    NoTable,
    /// The descriptor breaks a rule at this byte.
    Refused { at: u64 },
    /// The device failed while a table was made or loaded.
    DeviceFault,
    /// Memory ran out.
    NoMemory,
    /// The text says no schema, for a cause other than memory.
    BadSchema { why: SchemaError },
    /// No file number is left.
    Spent,
    /// A line of the input is a second client's or asks for what isn't built yet; `line` counts from 0 over all lines. It is
    /// 0 where the table has rows in files, which aren't read yet.
    NotYet { line: u64 },
}

impl Status {
    ghost use Rattle.std.specs.Prelude.{◌≡◌};
    ghost use Rattle.lt_serve.specs.Status.{code_of};

    /// The program's exit status.
    pub fn code(&self) -> u8
        ensures { result ≡ code_of self.now }
    {
        match self {
            Status::Done => 0,
            Status::Usage => 2,
            Status::SourceFault => 3,
            Status::SinkFault => 4,
            Status::TooLong => 5,
            Status::Exists => 7,
            Status::NoTable => 8,
            Status::Refused { at: _ } => 9,
            Status::DeviceFault => 10,
            Status::NoMemory => 11,
            Status::BadSchema { why: _ } => 12,
            Status::Spent => 13,
            Status::NotYet { line: _ } => 14,
        }
    }
}
