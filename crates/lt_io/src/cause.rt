ghost use Rattle.std.specs.Prelude.{Some, codes};

use std::fmt;

/// A source could not be read. Its count of faults rose.
#[derive(Clone, Copy, Debug, PartialEq, Eq)]
pub struct SourceFault;

/// A sink could not be written. Its count of faults rose.
#[derive(Clone, Copy, Debug, PartialEq, Eq)]
pub struct SinkFault;

impl fmt::Display for SourceFault {
    ghost output = { λ _. Some (codes "the source could not be read") };

    fn fmt<W: fmt::Write>(&self, f: &mut fmt::Formatter<W>) -> fmt::Result {
        write!(f, "the source could not be read")
    }
}

impl fmt::Display for SinkFault {
    ghost output = { λ _. Some (codes "the sink could not be written") };

    fn fmt<W: fmt::Write>(&self, f: &mut fmt::Formatter<W>) -> fmt::Result {
        write!(f, "the sink could not be written")
    }
}

impl std::error::Error for SourceFault {}

impl std::error::Error for SinkFault {}
