ghost use Rattle.std.specs.Prelude.{◌≡◌, ◌<◌, ℕ, List, Ok, length, slice_index, slice_index_or, IfOk, count_by};
ghost use Rattle.lt_rec.specs.Boxes.{is_below};
ghost use Rattle.lt_rec.specs.Record.{Record, IsRecord};
ghost use Rattle.lt_block.specs.Spelling.{IsBlock, spelling, places};
ghost use Rattle.lt_rec.specs.Reading.{Gives};
ghost use Rattle.lt_block.specs.Reading.{block_at};

use crate::reading::table_of;
use crate::table::{offset_in, record_in, seek_in};
use bytes::Bytes;
use lt_rec::{Cut, FormatError, NoMemory, Rec, RecView};
use std::alloc::Global;
use std::marker::Model;

/// A block in memory: the bytes that it was read from, shared, and a table of its records. Contracts see the records.
#[derive(Debug, Drop)]
pub struct Block {
    bytes: Bytes,
    offsets: Vec<u32>,
}

impl Model for Block {
    ghost use Rattle.std.specs.Prelude.{List};
    ghost use Rattle.lt_rec.specs.Record.{Record};
    ghost use Rattle.lt_block.specs.Reading.{records_in, IsRead};

    ghost Value = { List Record };

    ghost view = { λ b. records_in b.bytes };

    ghost invariant = { λ b. IsRead b.bytes b.offsets.items };
}

impl Block {
    /// The block that the bytes are. They are kept, and not copied.
    pub fn read(alloc: Global, bytes: Bytes) -> Result<Block, FormatError>
        // What the format's reading gives: the records, or the offset of the first fault.
        ensures exact { Gives (λ block. block) result (block_at bytes) }
        // What is read is so spelled.
        ensures found { IfOk result (λ block. IsBlock block × (bytes ≡ spelling block)) }
        // What is so spelled is read, unless memory runs out.
        ensures only { (recs : List Record) → IsBlock recs → bytes ≡ spelling recs → Gives (λ block. block) result (Ok recs) }
    {
        let offsets = table_of(alloc, bytes.as_slice())?;
        Ok(Block { bytes, offsets })
    }

    /// The number of its records. Takes no memory.
    pub fn count(&self) -> u64
        ensures value { result ≡ length self.now }
        ensures block { IsBlock self.now }
    {
        self.offsets.as_slice().len() as u64
    }

    /// The offset of record `i` in the block. Takes no memory.
    pub fn at(&self, i: u64) -> u64
        requires { i < length self.now }
        ensures exact { result ≡ slice_index (places 4 self.now) i }
    {
        offset_in(self.offsets.as_slice(), i) as u64
    }

    /// The number of records below the cut. Takes no memory.
    pub fn seek(&self, cut: &Cut) -> u64
        ensures exact { result ≡ count_by (λ r. is_below cut.now r.key) self.now }
    {
        seek_in(&self.bytes, &self.offsets, cut)
    }

    /// Record `i` in place. Takes no memory.
    pub fn get(&self, i: u64) -> RecView<'_>
        requires { i < length self.now }
        ensures value { slice_index_or self.now i result ≡ result }
        ensures lawful { IsRecord result }
    {
        record_in(&self.bytes, &self.offsets, i)
    }

    /// Record `i`, copied.
    pub fn rec(&self, alloc: Global, i: u64) -> Result<Rec, NoMemory>
        requires { i < length self.now }
        ensures value { IfOk result (λ rec. slice_index_or self.now i rec ≡ rec) }
    {
        self.get(i).to_rec(alloc)
    }
}
