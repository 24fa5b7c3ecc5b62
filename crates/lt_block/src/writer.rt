ghost use Rattle.std.specs.Prelude.{◌≡◌, ◌≢◌, ◌↔◌, ◌<◌, ◌≤◌, [], ◌∷◌, ◌++◌, true, Ok, length, drop, OnOk, OnErr};
ghost use Rattle.std.specs.Int.{w32, to_be_bytes};
ghost use Rattle.lt_rec.specs.Bytes.{is_less};
ghost use Rattle.lt_rec.specs.Record.{spelled};
ghost use Rattle.lt_block.specs.Spelling.{IsBlock, last_key, spelling};
ghost use Rattle.lt_block.specs.Reading.{block_at};

use byteorder::{BigEndian, ByteOrder};
use lt_rec::{LONGEST_BLOCK, NoMemory, Octets, Rec};
use std::alloc::Global;
use std::marker::Model;

/// Whether a record was taken.
#[derive(Clone, Copy, Debug, PartialEq, Eq)]
pub enum Added {
    Put,
    /// The block would be too long with it.
    Full,
}

/// A block that fills. Contracts see its records.
#[derive(Debug, Drop)]
pub struct BlockWriter {
    // Four bytes for the number of records, once there is one, and the records.
    bytes: Vec<u8>,
    count: u32,
}

impl Model for BlockWriter {
    ghost use Rattle.std.specs.Prelude.{List};
    ghost use Rattle.lt_rec.specs.Record.{Record};
    ghost use Rattle.lt_block.specs.Filling.{held, Holds};

    ghost Value = { List Record };

    ghost view = { λ w. held w.count w.bytes.items };

    ghost invariant = { λ w. Holds w.count w.bytes.items (held w.count w.bytes.items) };
}

impl BlockWriter {
    /// No records yet. Takes no memory.
    pub fn new(alloc: Global) -> BlockWriter
        ensures { result ≡ [] }
    {
        BlockWriter {
            bytes: Vec::new(alloc),
            count: 0,
        }
    }

    /// The number of its records. Takes no memory.
    pub fn count(&self) -> u32
        ensures { result ≡ length self.now }
    {
        self.count
    }

    /// Adds a record whose key is above the last one, where it still fits.
    pub fn add(&mut self, rec: &Rec) -> Result<Added, NoMemory>
        requires above { is_less (last_key [] self.old) rec.now.key ≡ true }
        ensures put { result ≡ Ok Added.Put → self.new ≡ self.old ++ rec.now ∷ [] }
        ensures full { (result ≡ Ok Added.Full) ↔ (65536 < length (spelling (self.old ++ rec.now ∷ []))) }
        ensures unchanged { result ≢ Ok Added.Put → self.new ≡ self.old }
    {
        if self.bytes.as_slice().len().max(4) + rec.stored_len() > LONGEST_BLOCK {
            return Ok(Added::Full);
        }
        put(&mut self.bytes, rec)?;
        self.count += 1;
        Ok(Added::Put)
    }

    /// The block. Takes no memory.
    pub fn finish(self) -> Octets
        requires some { 0 < length self }
        ensures bytes { result ≡ spelling self }
        ensures block { IsBlock self }
        // Reading it gives what was written.
        ensures again { block_at result ≡ Ok self }
    {
        self.written()
    }

    fn written(self) -> Octets
        requires some { 0 < length self }
        ensures bytes { result ≡ spelling self }
        ensures block { IsBlock self }
    {
        let BlockWriter { mut bytes, count } = self;
        set_count(&mut bytes, count);
        Octets::from_vec(bytes)
    }
}

/// Puts a record behind the others, and four bytes before the first.
fn put(bytes: &mut Vec<u8>, rec: &Rec) -> Result<(), NoMemory>
    requires started { 0 < length bytes.old.items → 4 ≤ length bytes.old.items }
    ensures ok { OnOk result (drop 4 bytes.new.items ≡ drop 4 bytes.old.items ++ spelled rec.now) }
    ensures err { OnErr result (drop 4 bytes.new.items ≡ drop 4 bytes.old.items) }
    ensures started { 0 < length bytes.new.items → 4 ≤ length bytes.new.items }
{
    if bytes.as_slice().is_empty() {
        bytes.extend_from_slice(&[0, 0, 0, 0])?;
    }
    bytes.extend_from_slice(rec.stored())?;
    Ok(())
}

fn set_count(bytes: &mut [u8], count: u32)
    requires { 4 ≤ length bytes.old }
    ensures { bytes.new ≡ to_be_bytes w32 count ++ drop 4 bytes.old }
{
    BigEndian::write_u32(bytes, count);
}
