ghost use Rattle.std.specs.Prelude.{ℕ, List};
ghost use Rattle.std.specs.Prelude.{Option};
ghost use Rattle.std.specs.Io.{ReadsAtMost};
ghost use Rattle.std.specs.Io.KnownBytes.{ReadConsumes};
ghost use Rattle.lt_io.specs.Cause.{HasCause};

use crate::SourceFault;

/// Where input comes from.
pub trait Source {
    /// The bytes that it will give from here on, where it tells.
    ghost left: { Self → Option (List ℕ) };

    /// How often it has failed; the count stands still at 2^64 - 1.
    ghost faults: { Self → ℕ };

    /// Reads into the front of the buffer. Zero bytes into a buffer that isn't empty is the end.
    /// After a fault it has left what it had before.
    fn read(&mut self, buf: &mut [u8]) -> Result<usize, SourceFault>
        ensures within { ReadsAtMost result buf.new }
        ensures bytes { ReadConsumes (left self.old) (left self.new) result buf.new }
        ensures cause { HasCause (faults self.old) (faults self.new) result };
}
