ghost use Rattle.std.specs.Prelude.{◌≡◌, ◌<◌, ◌≤◌, ◌+◌, ◌⊎◌, ℕ, true, false, List, [], All, length, slice_get, Some, IfOk, IfErr, IsErrOf};
ghost use Rattle.lt_rec.specs.Record.{Record};
ghost use Rattle.lt_rec.specs.Boxes.{in_box};
ghost use Rattle.lt_io.specs.Device.{Counts};
ghost use Rattle.lt_layout.specs.Spelling.{Entry, end_of, filter_of};
ghost use Rattle.lt_layout.specs.Entries.{IsEntries};
ghost use Rattle.lt_tablet.specs.Loaded.{IsLoaded, IsTold, blocks_in, records_in, IsIndexRange};
ghost use Rattle.lt_tablet.specs.Causes.{IsNoBad, IsOfFile};

use crate::block::read_block;
use crate::errors::ReadError;
use lt_block::Block;
use lt_bloom::Filter;
use lt_io::{Device, DeviceError, Enters};
use lt_layout::IndexEntry;
use lt_rec::{Listed, RawBox, Steps};
use std::alloc::Global;
use std::marker::Model;
use std::sync::ledger::Ledger;

/// A sealed tablet file: its reader, its listing, its index and its filter. Contracts see the listing, the entries, the
/// filter and, where the device tells them, the file's bytes.
#[derive(Drop)]
pub struct Tablet<V: Device> {
    reader: V::Reader,
    listed: Listed,
    index: Vec<IndexEntry>,
    filter: Filter,
}

impl<V: Device> Model for Tablet<V> {
    ghost use Rattle.lt_tablet.specs.Loaded.{Loaded, IsLoaded};

    ghost Value = { Loaded };

    ghost view = { λ t. record { listed = t.listed; index = t.index.items; filter = t.filter; bytes = V.reader_bytes t.reader } };

    ghost invariant = { λ t. IsLoaded V.honest (V.reader_number t.reader) (V.reader_size t.reader) (record { listed = t.listed; index = t.index.items; filter = t.filter; bytes = V.reader_bytes t.reader }) };
}

impl<V: Device> Tablet<V> {
    pub(crate) fn from_parts(
        reader: V::Reader,
        listed: Listed,
        index: Vec<IndexEntry>,
        filter: Filter,
    ) -> Tablet<V>
        requires { IsLoaded V.honest (V.reader_number reader) (V.reader_size reader) (record { listed = listed; index = index.items; filter = filter; bytes = V.reader_bytes reader }) }
        ensures { result ≡ record { listed = listed; index = index.items; filter = filter; bytes = V.reader_bytes reader } }
    {
        Tablet {
            reader,
            listed,
            index,
            filter,
        }
    }

    /// The number of its blocks. Takes no memory.
    pub fn count(&self) -> u64
        ensures value { result ≡ length self.now.index }
        ensures some { 0 < result }
        // Its blocks lie one after the other, and keys rise from each to the next.
        ensures entries { IsEntries (end_of 8 self.now.index) 8 [] self.now.index }
        // Where the device tells its file's bytes, they are a file of these blocks.
        ensures honest { V.honest ≡ true → IsTold self.now }
    {
        self.index.as_slice().len() as u64
    }

    /// Its entry in the list of tablets. Takes no memory.
    pub fn listed(&self) -> &Listed
        ensures { result.now ≡ self.now.listed }
    {
        &self.listed
    }

    /// The filter over its stems. Takes no memory.
    pub fn filter(&self) -> &Filter
        ensures value { result.now ≡ self.now.filter }
        ensures honest { V.honest ≡ true → result.now ≡ filter_of (records_in self.now) }
    {
        &self.filter
    }

    /// The offset of a block in the file. Takes no memory.
    pub fn start(&self, i: u64) -> u64
        requires { i < length self.now.index }
        ensures { (e : Entry) → slice_get self.now.index i ≡ Some e → result ≡ e.offset }
    {
        self.index[i as usize].offset
    }

    /// A block, read from the device and checked again. It is counted.
    pub fn block<L: Ledger>(
        &self,
        alloc: Global,
        dev: &mut V,
        i: u64,
        steps: &mut Steps<L>,
    ) -> Result<Block, ReadError>
        requires { i < length self.now.index }
        ensures tick { steps.new ≡ steps.old + 1 }
        ensures value { V.honest ≡ true → IfOk result (λ block. slice_get (blocks_in self.now) i ≡ Some block) }
        ensures never_bad { V.honest ≡ true → IfErr result (λ why. IsNoBad why) }
        ensures names { IfErr result (λ why. IsOfFile self.now.listed.file why) }
        ensures cause { Counts (V.faults dev.old) (V.faults dev.new) (IsErrOf result ReadError.Fault) }
    {
        steps.tick();
        let entry = &self.index[i as usize];
        read_block(alloc, dev, &self.reader, &self.listed, entry)
    }

    /// The blocks, from one up to another, that may have records of the box: those whose last key isn't below its lower
    /// bound and whose first key is below its upper one. None where no timestamp of the tablet is one of the box's. Takes no memory.
    pub fn index_range(&self, raw_box: &RawBox) -> (u64, u64)
        ensures exact { IsIndexRange self.now raw_box.now result.0 result.1 }
        // No block outside it has a record of the box.
        ensures outside { V.honest ≡ true → (i : ℕ) (recs : List Record) → slice_get (blocks_in self.now) i ≡ Some recs → ((i < result.0) ⊎ (result.1 ≤ i)) → All (λ r. in_box raw_box.now r ≡ false) recs }
    {
        if self.listed.high < raw_box.from || raw_box.to < self.listed.low {
            return (0, 0);
        }
        let index = self.index.as_slice();
        let from = index.partition_point(|entry| !raw_box.meets_lo(entry.last.as_slice()));
        let to = index.partition_point(|entry| raw_box.meets_hi(entry.first.as_slice()));
        (from.min(to) as u64, to as u64)
    }
}

impl<V: Device> Enters<V> for Tablet<V> {
    ghost entered_number = { λ t. t.listed.file };

    ghost entered_bytes = { λ t. t.bytes };

    fn enter(&self, dev: &mut V, dir: &mut V::Dir) -> Result<(), DeviceError> {
        dev.enter(dir, &self.reader)
    }
}
