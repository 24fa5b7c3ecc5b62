ghost use Rattle.std.specs.Prelude.{◌≤◌};
ghost use Rattle.lt_serve.specs.Output.{WritesWhole};

use crate::Status;
use lt_io::{Sink, SinkFault, write_all};

/// Writes all of a text.
pub fn write_text<K: Sink>(sink: &mut K, text: &[u8]) -> Status
    ensures written { WritesWhole result text.now (K.held sink.old) (K.held sink.new) (K.faults sink.old) (K.faults sink.new) }
    ensures later { K.faults sink.old ≤ K.faults sink.new }
{
    match write_all(sink, text) {
        Ok(()) => Status::Done,
        Err(SinkFault) => Status::SinkFault,
    }
}
