use crate::{Sink, SinkFault, Source, SourceFault};
use std::io::{Read, Write};

/// A reader of std as a source. Each error of the reader is a fault.
#[derive(Debug, Drop)]
pub struct ReaderSource<R> {
    reader: R,
    faults: u64,
}

impl<R> ReaderSource<R> {
    ghost use Rattle.std.specs.Prelude.{◌≡◌};

    pub fn new(reader: R) -> ReaderSource<R>
        ensures reader { result.reader ≡ reader }
        ensures faults { result.faults ≡ 0 }
    {
        ReaderSource { reader, faults: 0 }
    }
}

impl<R: Read> Source for ReaderSource<R> {
    ghost left = { λ s. R.remaining s.reader };

    ghost faults = { λ s. s.faults };

    fn read(&mut self, buf: &mut [u8]) -> Result<usize, SourceFault> {
        match self.reader.read(buf) {
            Ok(count) => Ok(count),
            Err(_) => {
                self.faults = self.faults.saturating_add(1);
                Err(SourceFault)
            }
        }
    }
}

/// A writer of std as a sink. Each error of the writer is a fault, and so is taking nothing of a piece that isn't empty.
#[derive(Debug, Drop)]
pub struct WriterSink<W> {
    writer: W,
    faults: u64,
}

impl<W> WriterSink<W> {
    ghost use Rattle.std.specs.Prelude.{◌≡◌};

    pub fn new(writer: W) -> WriterSink<W>
        ensures writer { result.writer ≡ writer }
        ensures faults { result.faults ≡ 0 }
    {
        WriterSink { writer, faults: 0 }
    }
}

impl<W: Write> Sink for WriterSink<W> {
    ghost held = { λ s. W.contents s.writer };

    ghost faults = { λ s. s.faults };

    fn write(&mut self, bytes: &[u8]) -> Result<usize, SinkFault> {
        match self.writer.write(bytes) {
            Ok(count) => {
                if count == 0 {
                    self.faults = self.faults.saturating_add(1);
                }
                Ok(count)
            }
            Err(_) => {
                self.faults = self.faults.saturating_add(1);
                Err(SinkFault)
            }
        }
    }
}
