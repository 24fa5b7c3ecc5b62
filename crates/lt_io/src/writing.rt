ghost use Rattle.std.specs.Prelude.{OnOk, OnErr};
ghost use Rattle.std.specs.Io.KnownBytes.{Appends};
ghost use Rattle.lt_io.specs.Cause.{HasCause, AppendsFront};

use crate::{Sink, SinkFault};

/// Writes all the bytes, in as many pieces as the sink takes.
pub fn write_all<K: Sink>(sink: &mut K, bytes: &[u8]) -> Result<(), SinkFault>
    ensures written { OnOk result (Appends (K.held sink.old) (K.held sink.new) bytes.now) }
    ensures front { OnErr result (AppendsFront (K.held sink.old) (K.held sink.new) bytes.now) }
    ensures cause { HasCause (K.faults sink.old) (K.faults sink.new) result }
{
    let mut at = 0;
    while at < bytes.len() {
        let (_, rest) = bytes.split_at(at);
        let count = sink.write(rest)?;
        if count == 0 {
            return Err(SinkFault);
        }
        at += count;
    }
    Ok(())
}
