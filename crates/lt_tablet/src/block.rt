//! One block of a tablet, read and checked again.
ghost use Rattle.std.specs.Prelude.{◌≡◌, ◌≤◌, ◌<◌, ◌+◌, ◌^◌, true, length, take, drop, IfErr, IsErrOf};
ghost use Rattle.lt_io.specs.Device.{Counts};
ghost use Rattle.lt_rec.specs.Reading.{Gives};
ghost use Rattle.lt_layout.specs.Reading.{own_block_at, moved};
ghost use Rattle.lt_layout.specs.Surveying.{IsWithin};
ghost use Rattle.lt_layout.specs.Spelling.{listed_totals};
ghost use Rattle.lt_tablet.specs.Causes.{IsOfFile, Loads};

use crate::errors::ReadError;
use crate::loading::{in_block, read};
use bytes::Bytes;
use lt_block::Block;
use lt_io::Device;
use lt_layout::{IndexEntry, Totals, check_block};
use lt_rec::{FormatError, Listed};
use std::alloc::Global;

/// The block that the bytes are, which has to be the entry's.
fn block_of(
    alloc: Global,
    totals: &Totals,
    entry: &IndexEntry,
    bytes: Bytes,
) -> Result<Block, FormatError>
    requires short { length bytes ≤ 65536 }
    requires some { 0 < entry.now.count }
    ensures exact { Gives (λ block. block) result (own_block_at totals.now entry.now bytes) }
    ensures within { IfErr result (λ why. IsWithin (length bytes) why) }
{
    check_block(totals, entry, bytes.as_slice())?;
    Block::read(alloc, bytes)
}

/// The block of an entry: check 5 for it.
pub fn read_block<V: Device>(
    alloc: Global,
    dev: &mut V,
    reader: &V::Reader,
    listed: &Listed,
    entry: &IndexEntry,
) -> Result<Block, ReadError>
    requires within { entry.now.offset + entry.now.len ≤ V.reader_size reader.now }
    requires in_range { V.reader_size reader.now < 2 ^ 64 }
    requires short { entry.now.len ≤ 65536 }
    requires some { 0 < entry.now.count }
    ensures exact { V.honest ≡ true → Loads (λ block. block) result (moved entry.now.offset (own_block_at (listed_totals listed.now) entry.now (take entry.now.len (drop entry.now.offset (V.reader_bytes reader.now))))) }
    ensures names { IfErr result (λ why. IsOfFile listed.now.file why) }
    ensures cause { Counts (V.faults dev.old) (V.faults dev.new) (IsErrOf result ReadError.Fault) }
{
    let (start, file) = (entry.offset, listed.file);
    let bytes = read(dev, reader, start, u64::from(entry.len))?;
    match block_of(alloc, &Totals::listed(listed), entry, bytes) {
        Ok(block) => Ok(block),
        Err(why) => Err(in_block(file, start, why)),
    }
}
