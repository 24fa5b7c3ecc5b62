//! Writing a tablet: blocks go out as they fill, and then the index, the filter and the footer.
ghost use Rattle.std.specs.Prelude.{◌≡◌, ◌≢◌, ◌<◌, ◌+◌, ◌^◌, ◌++◌, ◌∷◌, [], List, true, Err, length, nat_eq, if◌then◌else◌, Some, None, option_copied, IfOk, OnOk, IsErrOf};
ghost use Rattle.std.specs.List.{AllByRecursion};
ghost use Rattle.lt_rec.specs.Bytes.{is_less};
ghost use Rattle.lt_rec.specs.Periods.{InPeriod};
ghost use Rattle.lt_rec.specs.Record.{Record, IsRecord};
ghost use Rattle.lt_io.specs.Device.{Counts};
ghost use Rattle.lt_block.specs.Spelling.{last_key};
ghost use Rattle.lt_layout.specs.Surveying.{found_in};
ghost use Rattle.lt_layout.specs.Spelling.{listed_totals};
ghost use Rattle.lt_tablet.specs.Loaded.{IsLoaded};
ghost use Rattle.lt_tablet.specs.Writing.{IsCut, Keeps, Filled, Wrote, IsListing, HasRecords};

use crate::errors::WriteError;
use crate::fresh::Fresh;
use crate::tablet::Tablet;
use lt_block::{Added, BlockWriter};
use lt_bloom::Filter;
use lt_io::Device;
use lt_layout::{FOOTER_LEN, HEADER, IndexEntry, Parts, Survey, Totals, spell_footer, spell_index};
use lt_rec::{Listed, NoMemory, Octets, Period, Rec};
use std::alloc::Global;
use std::marker::Model;
use std::sync::Arc;

/// A tablet file that is being written. Contracts see its number, its period, the blocks that went out and the records of
/// the one that fills. After a refusal the file is only lent, and the writer is of no use.
#[derive(Drop)]
pub struct TabletWriter<V: Device> {
    pen: V::Pen,
    file: u64,
    period: Period,
    // Where the block that fills will begin.
    offset: u64,
    block: BlockWriter,
    // The first key of that block, and the last key of all.
    first: Vec<u8>,
    last: Vec<u8>,
    index: Vec<IndexEntry>,
    survey: Survey,
    alloc: Global,
}

impl<V: Device> Model for TabletWriter<V> {
    ghost use Rattle.lt_tablet.specs.Writing.{Writing};

    ghost Value = { Writing };

    ghost view = { λ w. record { number = w.file; pen = V.pen_number w.pen; period = w.period; index = w.index.items; offset = w.offset; filling = w.block; found = w.survey; first = w.first.items; last = w.last.items; bytes = V.pen_bytes w.pen } };
}

impl<V: Device> TabletWriter<V> {
    /// Begins a file under a lent number, for records whose timestamps lie in the period.
    pub fn new(
        alloc: Global,
        dev: &mut V,
        lent: V::Lent,
        period: Period,
    ) -> Result<TabletWriter<V>, WriteError>
        ensures number { IfOk result (λ w. w.number ≡ V.lent_number lent) }
        ensures period { IfOk result (λ w. w.period ≡ period) }
        ensures nothing { IfOk result (λ w. Wrote V.honest w []) }
        ensures cause { Counts (V.faults dev.old) (V.faults dev.new) (IsErrOf result WriteError.Fault) }
    {
        let file = V::number(&lent);
        let mut pen = match dev.create(lent) {
            Ok(pen) => pen,
            Err((_, refused)) => return Err(WriteError::from(refused)),
        };
        dev.append(&mut pen, &HEADER)?;
        Ok(TabletWriter {
            pen,
            file,
            period,
            offset: HEADER.len() as u64,
            block: BlockWriter::new(alloc),
            first: Vec::new(alloc),
            last: Vec::new(alloc),
            index: Vec::new(alloc),
            survey: Survey::new(alloc),
            alloc,
        })
    }

    /// Adds a record whose key is above the last one and whose timestamp lies in the period.
    pub fn add(&mut self, dev: &mut V, rec: &Rec) -> Result<(), WriteError>
        requires ready { (recs : List Record) × Wrote V.honest self.old recs }
        requires above { is_less self.old.last rec.now.key ≡ true }
        requires in_period { InPeriod self.old.period rec.now.ts }
        ensures added { OnOk result ((recs : List Record) → Wrote V.honest self.old recs → Wrote V.honest self.new (recs ++ rec.now ∷ [])) }
        ensures last { OnOk result (self.new.last ≡ rec.now.key) }
        ensures number { self.new.number ≡ self.old.number }
        ensures period { self.new.period ≡ self.old.period }
        ensures cause { Counts (V.faults dev.old) (V.faults dev.new) (IsErrOf result WriteError.Fault) }
    {
        let ts = rec.ts();
        self.fill(dev, rec)?;
        self.note(rec, ts)?;
        Ok(())
    }

    /// Puts the record into the block that fills, or into the next one.
    fn fill(&mut self, dev: &mut V, rec: &Rec) -> Result<(), WriteError>
        requires ready { (recs : List Record) × Wrote V.honest self.old recs }
        requires lawful { IsRecord rec.now }
        requires above { is_less self.old.last rec.now.key ≡ true }
        ensures filled { OnOk result ((recs : List Record) → Wrote V.honest self.old recs → Filled V.honest self.new recs rec.now) }
        ensures number { self.new.number ≡ self.old.number }
        ensures period { self.new.period ≡ self.old.period }
        ensures cause { Counts (V.faults dev.old) (V.faults dev.new) (IsErrOf result WriteError.Fault) }
    {
        match self.block.add(rec)? {
            Added::Put => Ok(()),
            Added::Full => {
                self.put_block(dev)?;
                Ok(self.start(rec)?)
            }
        }
    }

    /// The first record of a block.
    fn start(&mut self, rec: &Rec) -> Result<(), NoMemory>
        requires empty { self.old.filling ≡ [] }
        requires lawful { IsRecord rec.now }
        ensures ok { OnOk result (self.new.filling ≡ rec.now ∷ []) }
        ensures keeps { Keeps self.old self.new }
        ensures found { self.new.found ≡ self.old.found }
        ensures first { self.new.first ≡ self.old.first }
        ensures last { self.new.last ≡ self.old.last }
    {
        let _added = self.block.add(rec)?;
        Ok(())
    }

    /// What is kept of a record beside its block.
    fn note(&mut self, rec: &Rec, ts: u64) -> Result<(), NoMemory>
        requires { ts ≡ rec.now.ts }
        ensures found { OnOk result ((recs : List Record) → AllByRecursion IsRecord recs → self.old.last ≡ last_key [] recs → self.old.found ≡ found_in recs → self.new.found ≡ found_in (recs ++ rec.now ∷ [])) }
        ensures last { OnOk result (self.new.last ≡ rec.now.key) }
        ensures first { OnOk result (length self.old.filling ≡ 1 → self.new.first ≡ rec.now.key) }
        ensures same_first { OnOk result (length self.old.filling ≢ 1 → self.new.first ≡ self.old.first) }
        ensures filling { self.new.filling ≡ self.old.filling }
        ensures keeps { Keeps self.old self.new }
    {
        keep_first(&mut self.first, self.block.count(), rec.key())?;
        self.survey
            .add(key_before(self.last.as_slice()), rec.key(), ts, rec.seq())?;
        copy_to(&mut self.last, rec.key())
    }

    /// Puts the block that filled into the file, and its entry into the index.
    fn put_block(&mut self, dev: &mut V) -> Result<(), WriteError>
        requires some { 0 < length self.old.filling }
        ensures put { OnOk result ((blocks : List (List Record)) (recs : List Record) → IsCut V.honest self.old blocks recs → IsCut V.honest self.new (blocks ++ self.old.filling ∷ []) recs) }
        ensures empty { OnOk result (self.new.filling ≡ []) }
        ensures found { self.new.found ≡ self.old.found }
        ensures number { self.new.number ≡ self.old.number }
        ensures period { self.new.period ≡ self.old.period }
        ensures cause { Counts (V.faults dev.old) (V.faults dev.new) (IsErrOf result WriteError.Fault) }
    {
        let block = std::mem::replace(&mut self.block, BlockWriter::new(self.alloc));
        let count = block.count();
        let bytes = block.finish();
        let len = bytes.len() as u32;
        let first = Octets::from_slice(self.alloc, self.first.as_slice())?;
        let last = Octets::from_slice(self.alloc, self.last.as_slice())?;
        self.index.push(IndexEntry {
            offset: self.offset,
            len,
            count,
            first,
            last,
        })?;
        self.offset = advanced(self.offset, len)?;
        dev.append(&mut self.pen, bytes.as_slice())?;
        Ok(())
    }

    /// Ends the file: the last block, the index, the filter and the footer. It has a record.
    pub fn finish(mut self, dev: &mut V) -> Result<Fresh<V>, WriteError>
        requires ready { (recs : List Record) × Wrote V.honest self recs }
        requires some { 0 < self.found.totals.rows }
        ensures written { IfOk result (λ fresh. (recs : List Record) → Wrote V.honest self recs → HasRecords V.honest fresh recs) }
        ensures listed { IfOk result (λ fresh. IsListing fresh.listed self.number self.period) }
        ensures cause { Counts (V.faults dev.old) (V.faults dev.new) (IsErrOf result WriteError.Fault) }
    {
        self.put_block(dev)?;
        self.close(dev)
    }

    /// Puts what stands behind the blocks.
    fn close(self, dev: &mut V) -> Result<Fresh<V>, WriteError>
        requires cut { (blocks : List (List Record)) × (recs : List Record) × IsCut V.honest self blocks recs }
        requires empty { self.filling ≡ [] }
        requires some { 0 < self.found.totals.rows }
        ensures written { IfOk result (λ fresh. (blocks : List (List Record)) (recs : List Record) → IsCut V.honest self blocks recs → HasRecords V.honest fresh recs) }
        ensures listed { IfOk result (λ fresh. IsListing fresh.listed self.number self.period) }
        ensures cause { Counts (V.faults dev.old) (V.faults dev.new) (IsErrOf result WriteError.Fault) }
    {
        let TabletWriter {
            pen,
            file,
            period,
            offset,
            block: _block,
            first: _first,
            last: _last,
            index,
            survey,
            alloc,
        } = self;
        let filter = Filter::of(alloc, survey.hashes())?;
        let spelled = spell_index(alloc, index.as_slice())?;
        let parts = parts_of(
            offset,
            index.as_slice(),
            spelled.as_slice(),
            filter.as_slice(),
        )?;
        let foot = spell_footer(alloc, &parts, survey.totals())?;
        let listed = listing(file, period, &parts, survey.totals());
        let reader = put_end(
            dev,
            pen,
            spelled.as_slice(),
            filter.as_slice(),
            foot.as_slice(),
        )?;
        whole(alloc, reader, listed, index, filter)
    }
}

/// The empty key stands for none.
fn key_before(last: &[u8]) -> Option<&[u8]>
    ensures { option_copied result ≡ (if nat_eq (length last.now) 0 then None else Some last.now) }
{
    if last.is_empty() { None } else { Some(last) }
}

fn copy_to(held: &mut Vec<u8>, key: &[u8]) -> Result<(), NoMemory>
    ensures { OnOk result (held.new.items ≡ key.now) }
{
    held.clear();
    held.extend_from_slice(key)?;
    Ok(())
}

/// The first key of a block is kept, which has so many records now.
fn keep_first(first: &mut Vec<u8>, count: u32, key: &[u8]) -> Result<(), NoMemory>
    ensures one { OnOk result (count ≡ 1 → first.new.items ≡ key.now) }
    ensures more { OnOk result (count ≢ 1 → first.new.items ≡ first.old.items) }
{
    if count == 1 {
        copy_to(first, key)?;
    }
    Ok(())
}

fn advanced(offset: u64, len: u32) -> Result<u64, NoMemory>
    ensures { IfOk result (λ end. end ≡ offset + len) }
{
    offset.checked_add(u64::from(len)).ok_or(NoMemory)
}

fn parts_of(
    index: u64,
    entries: &[IndexEntry],
    spelled: &[u8],
    filter: &[u8],
) -> Result<Parts, NoMemory>
    ensures exact { IfOk result (λ parts. parts ≡ record { index = index; blocks = length entries.now; filter = index + length spelled.now; filter_len = length filter.now }) }
    ensures in_range { IfOk result (λ parts. parts.filter + parts.filter_len + 88 < 2 ^ 64) }
{
    let filter_len = filter.len() as u64;
    let place = index.checked_add(spelled.len() as u64).ok_or(NoMemory)?;
    let foot = place.checked_add(filter_len).ok_or(NoMemory)?;
    let _end = foot.checked_add(FOOTER_LEN).ok_or(NoMemory)?;
    Ok(Parts {
        index,
        blocks: entries.len() as u64,
        filter: place,
        filter_len,
    })
}

fn listing(file: u64, period: Period, parts: &Parts, totals: &Totals) -> Listed
    requires { parts.now.filter + parts.now.filter_len + 88 < 2 ^ 64 }
    ensures totals { listed_totals result ≡ totals.now }
    ensures file { result.file ≡ file }
    ensures period { result.period ≡ period }
    ensures bytes { result.bytes ≡ parts.now.filter + parts.now.filter_len + 88 }
{
    Listed {
        file,
        rows: totals.rows,
        bytes: parts.filter + parts.filter_len + FOOTER_LEN,
        low: totals.low,
        high: totals.high,
        period,
        first: totals.first,
        last: totals.last,
    }
}

/// The last bytes, one after the other.
fn put_end<V: Device>(
    dev: &mut V,
    mut pen: V::Pen,
    index: &[u8],
    filter: &[u8],
    foot: &[u8],
) -> Result<V::Reader, WriteError>
    ensures number { IfOk result (λ reader. V.reader_number reader ≡ V.pen_number pen) }
    ensures bytes { V.honest ≡ true → IfOk result (λ reader. V.reader_bytes reader ≡ ((V.pen_bytes pen ++ index.now) ++ filter.now) ++ foot.now) }
    ensures cause { Counts (V.faults dev.old) (V.faults dev.new) (IsErrOf result WriteError.Fault) }
{
    dev.append(&mut pen, index)?;
    dev.append(&mut pen, filter)?;
    dev.append(&mut pen, foot)?;
    Ok(dev.seal(pen)?)
}

/// The tablet of a file that was sealed. One of another length than was written comes only from a device that tells
/// nothing.
fn whole<V: Device>(
    alloc: Global,
    reader: V::Reader,
    listed: Listed,
    index: Vec<IndexEntry>,
    filter: Filter,
) -> Result<Fresh<V>, WriteError>
    requires loaded { V.reader_size reader ≡ listed.bytes → IsLoaded V.honest (V.reader_number reader) (V.reader_size reader) (record { listed = listed; index = index.items; filter = filter; bytes = V.reader_bytes reader }) }
    requires listing { IsListing listed listed.file listed.period }
    ensures value { IfOk result (λ fresh. fresh ≡ record { listed = listed; index = index.items; filter = filter; bytes = V.reader_bytes reader }) }
    ensures no_fault { result ≢ Err WriteError.Fault }
{
    if V::length(&reader) != listed.bytes {
        return Err(WriteError::NoMemory);
    }
    let kept = copy_of(&listed);
    let tablet = Arc::new(alloc, Tablet::from_parts(reader, listed, index, filter))?;
    Ok(Fresh::new(tablet, kept))
}

fn copy_of(listed: &Listed) -> Listed
    ensures { result ≡ listed.now }
{
    Listed {
        file: listed.file,
        rows: listed.rows,
        bytes: listed.bytes,
        low: listed.low,
        high: listed.high,
        period: listed.period,
        first: listed.first,
        last: listed.last,
    }
}
