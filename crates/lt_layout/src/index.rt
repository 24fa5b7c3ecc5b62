//! The index of a file: where each block lies, how many records it has, and its first and last keys.
ghost use Rattle.std.specs.Prelude.{◌≡◌, ◌+◌, ◌<◌, ◌≤◌, ◌^◌, [], length, nat_lt, if◌then◌else◌, Some, None, IfOk};
ghost use Rattle.lt_layout.specs.Entries.{IsEntries};
ghost use Rattle.lt_rec.specs.Reading.{Reads, Gives};
ghost use Rattle.lt_block.specs.Reading.{is_key_len};
ghost use Rattle.lt_layout.specs.Reading.{is_len, key_at, entry_at, entries_at, index_at};

use crate::footer::Parts;
use lt_rec::{
    Fault, FormatError, LONGEST_BLOCK, NoMemory, Octets, Rec, bytes_of, test_at, u32_at, u64_at,
};
use std::alloc::Global;
use std::cmp::Ordering;
use std::marker::Model;

/// A block in the index: its offset in the file, its length in bytes, its number of records, its first and last keys.
#[derive(Debug, Drop)]
pub struct IndexEntry {
    pub offset: u64,
    pub len: u32,
    pub count: u32,
    pub first: Octets,
    pub last: Octets,
}

impl Model for IndexEntry {
    ghost use Rattle.lt_layout.specs.Spelling.{Entry};

    ghost Value = { Entry };

    ghost view = { λ e. record { offset = e.offset; len = e.len; count = e.count; first = e.first; last = e.last } };
}

const SHORTEST_BLOCK: u32 = 32;

const SHORTEST_ENTRY: usize = 40;

pub fn is_key_length(number: u32) -> bool
    ensures { result ≡ is_key_len number }
{
    Rec::SHORTEST_KEY as u32 <= number && number <= Rec::LONGEST_KEY as u32
}

#[tactic(auto, unfolding(crate::specs::Reading::key_at))]
fn key_of(at: u64, bytes: &[u8]) -> Result<(&[u8], &[u8]), Fault>
    ensures exact { Reads (λ x. (x.0.now, x.1.now)) result (key_at at bytes.now) }
    ensures short { IfOk result (λ x. length x.0.now ≤ 4096) }
    ensures len { IfOk result (λ x. length x.1.now + 4 + length x.0.now ≡ length bytes.now) }
{
    let (len, rest) = u32_at(at, bytes)?;
    test_at(is_key_length(len), at)?;
    bytes_of(len as usize, at, rest)
}

/// The last block, behind which none is left, ends where the index begins.
fn is_length(index: u64, left: u64, start: u64, len: u32) -> bool
    ensures { result ≡ is_len index left start len }
{
    SHORTEST_BLOCK <= len
        && len <= LONGEST_BLOCK as u32
        && (0 < left || start.checked_add(u64::from(len)) == Some(index))
}

/// An entry as it lies in the file.
#[derive(Debug, Drop)]
struct EntryView<'a> {
    offset: u64,
    len: u32,
    count: u32,
    first: &'a [u8],
    last: &'a [u8],
}

impl<'a> Model for EntryView<'a> {
    ghost use Rattle.lt_layout.specs.Spelling.{Entry};

    ghost Value = { Entry };

    ghost view = { λ e. record { offset = e.offset; len = e.len; count = e.count; first = e.first.now; last = e.last.now } };
}

impl<'a> EntryView<'a> {
    fn to_entry(&self, alloc: Global) -> Result<IndexEntry, NoMemory>
        ensures { IfOk result (λ entry. entry ≡ self.now) }
    {
        Ok(IndexEntry {
            offset: self.offset,
            len: self.len,
            count: self.count,
            first: Octets::from_slice(alloc, self.first)?,
            last: Octets::from_slice(alloc, self.last)?,
        })
    }
}

/// Where a block ends; `None` where that is no offset.
fn end_of(start: u64, len: u32) -> Option<u64>
    ensures { result ≡ (if nat_lt (start + len) (2 ^ 64) then Some (start + len) else None) }
{
    start.checked_add(u64::from(len))
}

/// The entry that the bytes begin with, at an offset in the file: so many are left behind it, its block begins at `start`,
/// and `last` is the last key before.
#[tactic(auto, unfolding(crate::specs::Reading::entry_at))]
fn entry_of<'a>(
    index: u64,
    left: u64,
    at: u64,
    start: u64,
    last: &[u8],
    bytes: &'a [u8],
) -> Result<(EntryView<'a>, &'a [u8]), Fault>
    requires at_place { at + length bytes.now < 2 ^ 64 }
    ensures exact { Reads (λ x. (x.0, x.1.now)) result (entry_at index left at start last.now bytes.now) }
    ensures len { IfOk result (λ x. length x.1.now + 24 + length x.0.first + length x.0.last ≡ length bytes.now) }
{
    let (offset, rest) = u64_at(at, bytes)?;
    test_at(offset == start, at)?;
    let (len, rest) = u32_at(at + 8, rest)?;
    test_at(is_length(index, left, start, len), at + 8)?;
    let (count, rest) = u32_at(at + 12, rest)?;
    test_at(0 < count, at + 12)?;
    let (first, rest) = key_of(at + 16, rest)?;
    test_at(last.cmp(first) == Ordering::Less, at + 16)?;
    let place = at + 20 + first.len() as u64;
    let (last, rest) = key_of(place, rest)?;
    test_at(last.cmp(first) != Ordering::Less, place)?;
    Ok((
        EntryView {
            offset,
            len,
            count,
            first,
            last,
        },
        rest,
    ))
}

/// So many entries, which begin at an offset in the file, and what is left behind them.
fn entries_of<'a>(
    alloc: Global,
    index: u64,
    count: u64,
    bytes: &'a [u8],
) -> Result<(Vec<IndexEntry>, &'a [u8]), FormatError>
    requires { index + length bytes.now < 2 ^ 64 }
    ensures exact { Gives (λ x. (x.0.items, x.1.now)) result (entries_at index count index 8 [] bytes.now) }
    ensures len { IfOk result (λ x. length x.1.now ≤ length bytes.now) }
{
    let most = bytes.len() / SHORTEST_ENTRY;
    let mut entries = Vec::with_capacity(alloc, most.min(count as usize))?;
    let mut last: &[u8] = &[];
    let mut start = Some(8);
    let mut rest = bytes;
    for done in 0..count {
        let at = index + (bytes.len() - rest.len()) as u64;
        let begin = match start {
            Some(begin) => begin,
            None => return Err(FormatError::Bad { at }),
        };
        let (entry, after) = entry_of(index, count - done - 1, at, begin, last, rest)?;
        entries.push(entry.to_entry(alloc)?)?;
        start = end_of(begin, entry.len);
        last = entry.last;
        rest = after;
    }
    Ok((entries, rest))
}

/// The index, which ends where the filter begins.
pub fn index_of(alloc: Global, parts: &Parts, bytes: &[u8]) -> Result<Vec<IndexEntry>, FormatError>
    requires { parts.now.index + length bytes.now ≡ parts.now.filter }
    ensures exact { Gives (λ entries. entries.items) result (index_at parts.now bytes.now) }
    ensures count { IfOk result (λ entries. length entries.items ≡ parts.now.blocks) }
    // Their blocks lie one after the other, up to the index.
    ensures entries { IfOk result (λ entries. IsEntries parts.now.index 8 [] entries.items) }
{
    let end = parts.filter;
    let (entries, left) = entries_of(alloc, parts.index, parts.blocks, bytes)?;
    test_at(left.is_empty(), end - left.len() as u64)?;
    Ok(entries)
}
