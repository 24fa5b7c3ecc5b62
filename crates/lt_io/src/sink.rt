ghost use Rattle.std.specs.Prelude.{◌≡◌, ◌<◌, ℕ, List, Option, IfOk, length};
ghost use Rattle.std.specs.Io.{WritesAtMost};
ghost use Rattle.std.specs.Io.KnownBytes.{WriteAppends};
ghost use Rattle.lt_io.specs.Cause.{HasCause, Rose};

use crate::SinkFault;

/// Where output goes.
pub trait Sink {
    /// The bytes that it holds, where it tells.
    ghost held: { Self → Option (List ℕ) };

    /// How often it has failed; the count stands still at 2^64 - 1.
    ghost faults: { Self → ℕ };

    /// Takes a front of the bytes and answers how many. After a fault it holds what it held before.
    fn write(&mut self, bytes: &[u8]) -> Result<usize, SinkFault>
        ensures within { WritesAtMost result bytes.now }
        ensures bytes { WriteAppends (held self.old) (held self.new) result bytes.now }
        ensures cause { HasCause (faults self.old) (faults self.new) result }

        // To take nothing of a piece that isn't empty is a fault too.
        ensures took_none { IfOk result (λ n. n ≡ 0 → 0 < length bytes.now → Rose (faults self.old) (faults self.new)) };
}
