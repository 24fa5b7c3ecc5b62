ghost use Rattle.std.specs.Prelude.{◌≡◌, [], IfOk, OnOk, length};

use bytes::{Bytes, BytesMut};
use std::alloc::{AllocError, Global};
use std::fs::File;
use std::io;
use std::os::unix::fs::FileExt;

/// The longest read that the buffer serves: as long as a block may be.
const LONGEST: usize = 65_536;

/// A buffer for reads. It is used again, without being cleared, once what it gave last was let go.
#[derive(Debug, Drop)]
pub(crate) struct ReadBuffer {
    alloc: Global,
    bytes: BytesMut,
}

/// Reads into a buffer of the read's own.
fn read_apart(alloc: Global, file: &File, at: u64, len: usize) -> io::Result<Bytes>
    ensures { IfOk result (λ given. length given ≡ len) }
{
    let mut piece = vec![in alloc; 0u8; len]?;
    file.read_exact_at(piece.as_mut_slice(), at)?;
    Ok(Bytes::from_vec(piece)?)
}

impl ReadBuffer {
    /// It takes memory at its first read.
    pub(crate) fn new(alloc: Global) -> ReadBuffer
        ensures { result.bytes.items ≡ [] }
    {
        ReadBuffer {
            alloc,
            bytes: BytesMut::new(alloc),
        }
    }

    /// Makes that many bytes of it, whatever they are. It becomes another one where what it gave last is still held.
    fn make_room(&mut self, len: usize) -> Result<(), AllocError>
        ensures { OnOk result (length self.new.bytes.items ≡ len) }
    {
        self.bytes.clear();
        if !self.bytes.try_reclaim(len) {
            self.bytes = BytesMut::with_capacity(self.alloc, LONGEST.max(len))?;
        }
        self.bytes.advance_mut(len);
        Ok(())
    }

    /// The bytes of that place in the file. What is given keeps at most twice its length in memory.
    pub(crate) fn read(&mut self, file: &File, at: u64, len: usize) -> io::Result<Bytes>
        ensures { IfOk result (λ given. length given ≡ len) }
    {
        if len <= LONGEST / 2 || len > LONGEST {
            return read_apart(self.alloc, file, at, len);
        }
        self.make_room(len)?;
        file.read_exact_at(self.bytes.as_mut_slice(), at)?;
        Ok(self.bytes.freeze_to(len)?)
    }
}
