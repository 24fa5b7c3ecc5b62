//! Loading a tablet: the seven checks in their order.
ghost use Rattle.std.specs.Prelude.{◌≡◌, ◌≤◌, ◌<◌, ◌+◌, ◌-◌, ◌++◌, ◌^◌, ℕ, [], List, true, length, take, drop, option_copied, IfOk, IfErr, OnOk, IsErrOf, Ok, Some};
ghost use Rattle.lt_rec.specs.Record.{Record};
ghost use Rattle.lt_io.specs.Device.{Counts};
ghost use Rattle.lt_layout.specs.Spelling.{end_of, listed_totals};
ghost use Rattle.lt_layout.specs.Entries.{IsEntries};
ghost use Rattle.lt_layout.specs.Reading.{footer_at, header_at, index_at, between, own_block_at, moved, file_at};
ghost use Rattle.lt_layout.specs.Surveying.{IsWithin, last_of, found_in};
ghost use Rattle.lt_layout.specs.Phases.{Lie, AreBytes, ends_at, surveyed, filter_found};
ghost use Rattle.lt_tablet.specs.Loaded.{blocks_in};
ghost use Rattle.lt_tablet.specs.Causes.{IsNoBad, IsOfFile, Refuses, Loads, named, named_block, in_block};

use crate::errors::ReadError;
use crate::tablet::Tablet;
use bytes::Bytes;
use lt_bloom::Filter;
use lt_io::Device;
use lt_layout::{
    FOOTER_LEN, IndexEntry, Parts, Survey, Totals, check_filter, check_header, check_totals,
    footer_of, footer_place, index_of, survey_block,
};
use lt_rec::{Fault, FormatError, Listed};
use std::alloc::Global;

/// A fault as an answer: it names the file.
fn named<T>(file: u64, checked: Result<T, Fault>) -> Result<T, ReadError>
    ensures { result ≡ named file checked }
{
    match checked {
        Ok(value) => Ok(value),
        Err(fault) => Err(ReadError::Bad { file, at: fault.at }),
    }
}

/// The same, for what takes memory.
pub fn named_block<T>(file: u64, checked: Result<T, FormatError>) -> Result<T, ReadError>
    ensures { result ≡ named_block file checked }
{
    match checked {
        Ok(value) => Ok(value),
        Err(FormatError::Bad { at }) => Err(ReadError::Bad { file, at }),
        Err(FormatError::NoMemory) => Err(ReadError::NoMemory),
    }
}

/// What is in a slice of bytes. It does nothing.
fn each_is_a_byte(bytes: &[u8])
    ensures { AreBytes 0 (length bytes.now) bytes.now }
{}

/// That many bytes of the file.
pub fn read<V: Device>(
    dev: &mut V,
    reader: &V::Reader,
    at: u64,
    len: u64,
) -> Result<Bytes, ReadError>
    requires { at + len ≤ V.reader_size reader.now }
    ensures length { IfOk result (λ given. length given ≡ len) }
    ensures bytes { V.honest ≡ true → IfOk result (λ given. given ≡ take len (drop at (V.reader_bytes reader.now))) }
    ensures known { V.honest ≡ true → OnOk result (AreBytes at (at + len) (V.reader_bytes reader.now)) }
    ensures no_bad { IfErr result (λ why. IsNoBad why) }
    ensures cause { Counts (V.faults dev.old) (V.faults dev.new) (IsErrOf result ReadError.Fault) }
{
    let given = dev.read_at(reader, at, len)?;
    each_is_a_byte(given.as_slice());
    Ok(given)
}

/// The footer: check 2.
fn read_footer<V: Device>(
    dev: &mut V,
    reader: &V::Reader,
    listed: &Listed,
    foot: u64,
) -> Result<Parts, ReadError>
    requires place { foot + 88 ≡ V.reader_size reader.now }
    requires in_range { foot + 88 < 2 ^ 64 }
    ensures exact { V.honest ≡ true → Loads (λ parts. parts) result (footer_at (listed_totals listed.now) foot (drop foot (V.reader_bytes reader.now))) }
    ensures lie { IfOk result (λ parts. Lie foot parts) }
    ensures known { V.honest ≡ true → OnOk result (AreBytes foot (foot + 88) (V.reader_bytes reader.now)) }
    ensures names { IfErr result (λ why. IsOfFile listed.now.file why) }
    ensures cause { Counts (V.faults dev.old) (V.faults dev.new) (IsErrOf result ReadError.Fault) }
{
    let bytes = read(dev, reader, foot, FOOTER_LEN)?;
    named(
        listed.file,
        footer_of(&Totals::listed(listed), foot, bytes.as_slice()),
    )
}

/// The header: check 3.
fn read_header<V: Device>(dev: &mut V, reader: &V::Reader, file: u64) -> Result<(), ReadError>
    requires { 8 ≤ V.reader_size reader.now }
    ensures exact { V.honest ≡ true → Loads (λ x. x) result (header_at (V.reader_bytes reader.now)) }
    ensures known { V.honest ≡ true → OnOk result (AreBytes 0 8 (V.reader_bytes reader.now)) }
    ensures names { IfErr result (λ why. IsOfFile file why) }
    ensures cause { Counts (V.faults dev.old) (V.faults dev.new) (IsErrOf result ReadError.Fault) }
{
    let bytes = read(dev, reader, 0, 8)?;
    named(file, check_header(bytes.as_slice()))
}

/// The length, the footer and the header: checks 1 to 3.
fn read_ends<V: Device>(
    dev: &mut V,
    reader: &V::Reader,
    listed: &Listed,
) -> Result<(u64, Parts), ReadError>
    ensures exact { V.honest ≡ true → Loads (λ x. (x.0, x.1)) result (ends_at (listed_totals listed.now) listed.now.bytes (V.reader_bytes reader.now)) }
    ensures lie { IfOk result (λ x. Lie x.0 x.1) }
    ensures place { IfOk result (λ x. (x.0 + 88 ≡ V.reader_size reader.now) × (V.reader_size reader.now < 2 ^ 64)) }
    ensures length { OnOk result (V.reader_size reader.now ≡ listed.now.bytes) }
    ensures known { V.honest ≡ true → IfOk result (λ x. AreBytes 0 8 (V.reader_bytes reader.now) × AreBytes x.0 (V.reader_size reader.now) (V.reader_bytes reader.now)) }
    ensures names { IfErr result (λ why. IsOfFile listed.now.file why) }
    ensures cause { Counts (V.faults dev.old) (V.faults dev.new) (IsErrOf result ReadError.Fault) }
{
    let foot = named(listed.file, footer_place(listed.bytes, V::length(reader)))?;
    let parts = read_footer(dev, reader, listed, foot)?;
    read_header(dev, reader, listed.file)?;
    Ok((foot, parts))
}

/// The index: check 4.
fn read_index<V: Device>(
    alloc: Global,
    dev: &mut V,
    reader: &V::Reader,
    file: u64,
    parts: &Parts,
) -> Result<Vec<IndexEntry>, ReadError>
    requires ordered { parts.now.index ≤ parts.now.filter }
    requires within { parts.now.filter ≤ V.reader_size reader.now }
    ensures exact { V.honest ≡ true → Loads (λ v. v.items) result (index_at parts.now (between parts.now.index parts.now.filter (V.reader_bytes reader.now))) }
    ensures count { IfOk result (λ v. length v.items ≡ parts.now.blocks) }
    ensures entries { IfOk result (λ v. IsEntries parts.now.index 8 [] v.items) }
    ensures known { V.honest ≡ true → OnOk result (AreBytes parts.now.index parts.now.filter (V.reader_bytes reader.now)) }
    ensures names { IfErr result (λ why. IsOfFile file why) }
    ensures cause { Counts (V.faults dev.old) (V.faults dev.new) (IsErrOf result ReadError.Fault) }
{
    let len = parts.filter - parts.index;
    let bytes = read(dev, reader, parts.index, len)?;
    named_block(file, index_of(alloc, parts, bytes.as_slice()))
}

/// A fault in a block that begins at an offset of the file, as an answer.
pub fn in_block(file: u64, start: u64, why: FormatError) -> ReadError
    requires within { IsWithin (2 ^ 64 - 1 - start) why }
    requires in_range { start < 2 ^ 64 }
    ensures { result ≡ in_block file start why }
{
    match why {
        FormatError::Bad { at } => ReadError::Bad {
            file,
            at: start + at,
        },
        FormatError::NoMemory => ReadError::NoMemory,
    }
}

/// The block of an entry, which has records behind those that were surveyed before; `before` is the last key of these.
fn survey_entry<V: Device>(
    dev: &mut V,
    reader: &V::Reader,
    listed: &Listed,
    entry: &IndexEntry,
    before: Option<&[u8]>,
    survey: &mut Survey,
) -> Result<(), ReadError>
    requires within { entry.now.offset + entry.now.len ≤ V.reader_size reader.now }
    requires in_range { V.reader_size reader.now < 2 ^ 64 }
    requires short { entry.now.len ≤ 65536 }
    requires some { 0 < entry.now.count }
    ensures found { OnOk result ((recs : List Record) → option_copied before.entry ≡ last_of recs → survey.old ≡ found_in recs → (own : List Record) × (last_of own ≡ Some entry.now.last) × (survey.new ≡ found_in (recs ++ own)) × (V.honest ≡ true → own_block_at (listed_totals listed.now) entry.now (take entry.now.len (drop entry.now.offset (V.reader_bytes reader.now))) ≡ Ok own)) }
    ensures fault { V.honest ≡ true → IfErr result (λ why. Refuses why (moved entry.now.offset (own_block_at (listed_totals listed.now) entry.now (take entry.now.len (drop entry.now.offset (V.reader_bytes reader.now)))))) }
    ensures known { V.honest ≡ true → OnOk result (AreBytes entry.now.offset (entry.now.offset + entry.now.len) (V.reader_bytes reader.now)) }
    ensures names { IfErr result (λ why. IsOfFile listed.now.file why) }
    ensures cause { Counts (V.faults dev.old) (V.faults dev.new) (IsErrOf result ReadError.Fault) }
{
    let (start, file) = (entry.offset, listed.file);
    let bytes = read(dev, reader, start, u64::from(entry.len))?;
    match survey_block(
        &Totals::listed(listed),
        entry,
        before,
        bytes.as_slice(),
        survey,
    ) {
        Ok(()) => Ok(()),
        Err(why) => Err(in_block(file, start, why)),
    }
}

/// The blocks, one after the other: check 5.
fn survey_all<V: Device>(
    alloc: Global,
    dev: &mut V,
    reader: &V::Reader,
    listed: &Listed,
    index: &[IndexEntry],
) -> Result<Survey, ReadError>
    requires some { 0 < length index.now }
    requires entries { IsEntries (end_of 8 index.now) 8 [] index.now }
    requires within { end_of 8 index.now ≤ V.reader_size reader.now }
    requires in_range { V.reader_size reader.now < 2 ^ 64 }
    ensures exact { V.honest ≡ true → Loads (λ found. found) result (surveyed (listed_totals listed.now) index.now (V.reader_bytes reader.now)) }
    ensures some { IfOk result (λ found. 0 < length found.hashes) }
    ensures known { V.honest ≡ true → OnOk result (AreBytes 8 (end_of 8 index.now) (V.reader_bytes reader.now)) }
    ensures names { IfErr result (λ why. IsOfFile listed.now.file why) }
    ensures cause { Counts (V.faults dev.old) (V.faults dev.new) (IsErrOf result ReadError.Fault) }
{
    let mut survey = Survey::new(alloc);
    let mut before: Option<&[u8]> = None;
    for entry in index {
        survey_entry(dev, reader, listed, entry, before, &mut survey)?;
        before = Some(entry.last.as_slice());
    }
    Ok(survey)
}

/// The totals and the filter: checks 6 and 7.
fn read_filter<V: Device>(
    alloc: Global,
    dev: &mut V,
    reader: &V::Reader,
    listed: &Listed,
    foot: u64,
    parts: &Parts,
    survey: &Survey,
) -> Result<Filter, ReadError>
    requires lie { Lie foot parts.now }
    requires place { foot + 88 ≡ V.reader_size reader.now }
    requires in_range { foot + 88 < 2 ^ 64 }
    requires some { 0 < length survey.now.hashes }
    ensures exact { V.honest ≡ true → Loads (λ filter. filter) result (filter_found (listed_totals listed.now) foot parts.now survey.now (V.reader_bytes reader.now)) }
    ensures known { V.honest ≡ true → OnOk result (AreBytes parts.now.filter foot (V.reader_bytes reader.now)) }
    ensures names { IfErr result (λ why. IsOfFile listed.now.file why) }
    ensures cause { Counts (V.faults dev.old) (V.faults dev.new) (IsErrOf result ReadError.Fault) }
{
    named(
        listed.file,
        check_totals(foot, &Totals::listed(listed), survey.totals()),
    )?;
    let filter = Filter::of(alloc, survey.hashes())?;
    let bytes = read(dev, reader, parts.filter, parts.filter_len)?;
    named(
        listed.file,
        check_filter(foot, parts, bytes.as_slice(), filter.as_slice()),
    )?;
    Ok(filter)
}

impl<V: Device> Tablet<V> {
    /// Reads and checks a whole file. It is refused where a check fails, by the file and the offset that the first
    /// failing one names.
    pub fn load(
        alloc: Global,
        dev: &mut V,
        reader: V::Reader,
        listed: Listed,
    ) -> Result<Tablet<V>, ReadError>
        requires { V.reader_number reader ≡ listed.file }
        // Where the reader tells its bytes: they are read exactly where they are a file, else the first broken rule is named.
        ensures exact { V.honest ≡ true → Loads (λ t. blocks_in t) result (file_at (listed_totals listed) listed.bytes (V.reader_bytes reader)) }
        ensures listed { IfOk result (λ t. t.listed ≡ listed) }
        ensures bytes { IfOk result (λ t. t.bytes ≡ V.reader_bytes reader) }
        ensures names { IfErr result (λ why. IsOfFile listed.file why) }
        ensures cause { Counts (V.faults dev.old) (V.faults dev.new) (IsErrOf result ReadError.Fault) }
    {
        let (foot, parts) = read_ends(dev, &reader, &listed)?;
        let index = read_index(alloc, dev, &reader, listed.file, &parts)?;
        let survey = survey_all(alloc, dev, &reader, &listed, index.as_slice())?;
        let filter = read_filter(alloc, dev, &reader, &listed, foot, &parts, &survey)?;
        Ok(Tablet::from_parts(reader, listed, index, filter))
    }
}
