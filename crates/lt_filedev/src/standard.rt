ghost use Rattle.std.specs.Prelude.{◌≡◌};

use lt_io::{ReaderSource, WriterSink};
use std::io;
use std::io::{Input, Print, Printer};

/// Standard input as a source.
pub fn standard_input<R: Input>(system: &R) -> ReaderSource<R::Reader>
    ensures { result.faults ≡ 0 }
{
    ReaderSource::new(system.reader())
}

/// Standard output as a sink. What it takes is written at once.
pub fn standard_output<R: Print>(system: &R) -> WriterSink<Printer<'_, R>>
    ensures { result.faults ≡ 0 }
{
    WriterSink::new(io::writer(system))
}
