//! The records of a block in its tablet: those of a block, with what the tablet asks of each.
ghost use Rattle.std.specs.Prelude.{◌≡◌, ℕ, ◌<◌, ◌≤◌, ◌+◌, ◌^◌, ◌&&◌, ◌||◌, nat_le, nat_lt, take, drop, get_or, length, Err, IfOk, IfErr};
ghost use Rattle.std.specs.Int.{w64, from_be_bytes};
ghost use Rattle.lt_rec.specs.Record.{stem_of, time_of, stored_len};
ghost use Rattle.lt_rec.specs.Bytes.{is_less};
ghost use Rattle.lt_rec.specs.Reading.{Reads, is_within};
ghost use Rattle.lt_block.specs.Reading.{is_key_len, record_at};
ghost use Rattle.lt_layout.specs.Reading.{suits_key, suits_bytes, own_record_at, are_alike, Sees};

use crate::alike::are_same;
use crate::index::{IndexEntry, is_key_length};
use crate::totals::Totals;
use lt_block::record_of;
use lt_rec::{Fault, NUMBERS_END, Rec, RecView, bytes_of, test_at, u32_at, u64_at};
use std::cmp::Ordering;

/// What is asked of a record when its block is checked: its key, whether the key before is alike, its timestamp and number,
/// and the bytes after it.
#[derive(Drop)]
pub struct Seen<'a> {
    pub key: &'a [u8],
    pub is_alike: bool,
    pub ts: u64,
    pub seq: u64,
    pub rest: &'a [u8],
}

/// A key without its timestamp.
pub fn stem_of(key: &[u8]) -> &[u8]
    ensures { result.now ≡ stem_of key.now }
{
    let (stem, _) = key.split_at(key.len().saturating_sub(8));
    stem
}

fn time_of(key: &[u8]) -> u64
    requires { 8 ≤ length key.now }
    ensures { result ≡ time_of key.now }
{
    match key.split_last_chunk::<8>() {
        Some((_, time)) => u64::from_be_bytes(*time),
        None => unreachable!(),
    }
}

/// Its timestamp is within the bounds, and the first and the last key of a block are those of its entry.
#[inline(always)]
fn key_suits(totals: &Totals, entry: &IndexEntry, left: u32, last: &[u8], key: &[u8]) -> bool
    requires { 8 ≤ length key.now }
    ensures { result ≡ suits_key totals.now entry.now left last.now key.now }
{
    totals.has_time(time_of(key))
        && (!last.is_empty() || key == entry.first.as_slice())
        && (0 < left || key == entry.last.as_slice())
}

/// The number behind the first eight bytes is within the bounds, where it is whole.
fn number_suits(totals: &Totals, bytes: &[u8]) -> bool
    ensures { result ≡ (nat_lt (length bytes.now) 16 || is_within totals.now.first totals.now.last (from_be_bytes w64 (take 8 (drop 8 bytes.now)))) }
{
    if bytes.len() < 16 {
        return true;
    }
    let (_, behind) = bytes.split_at(8);
    match behind.split_first_chunk::<8>() {
        Some((number, _)) => totals.has_number(u64::from_be_bytes(*number)),
        None => true,
    }
}

/// What the tablet asks of a record's bytes, as far as they are whole.
fn bytes_suit(
    totals: &Totals,
    entry: &IndexEntry,
    left: u32,
    last: &[u8],
    key_len: usize,
    bytes: &[u8],
) -> bool
    requires long_enough { 8 ≤ key_len }
    requires short_enough { key_len ≤ 4096 }
    ensures { result ≡ suits_bytes totals.now entry.now left last.now key_len bytes.now }
{
    if !number_suits(totals, bytes) {
        return false;
    }
    if bytes.len() < Rec::HEADER + key_len {
        return true;
    }
    let (_, behind) = bytes.split_at(Rec::HEADER);
    let (key, _) = behind.split_at(key_len);
    key_suits(totals, entry, left, last, key)
}

/// What the tablet asks of a record that is whole, by its key and its number.
fn seen_suits(totals: &Totals, entry: &IndexEntry, left: u32, last: &[u8], seen: &Seen<'_>) -> bool
    requires { 8 ≤ length seen.now.key.now }
    ensures { result ≡ (is_within totals.now.first totals.now.last seen.now.seq && suits_key totals.now entry.now left last.now seen.now.key.now) }
{
    totals.has_number(seen.seq) && key_suits(totals, entry, left, last, seen.key)
}

/// A record's numbers are within their bounds: how long its key and its body are, and its own.
fn are_fit(key_len: u32, body_len: u32, seq: u64) -> bool
    ensures { result ≡ (is_key_len key_len && (nat_le body_len 60000 && nat_lt seq (2 ^ 62))) }
{
    is_key_length(key_len) && (body_len <= Rec::LONGEST_BODY as u32 && seq < NUMBERS_END)
}

/// The two keys are as long, and have the same stem.
#[inline(always)]
fn are_alike(last: &[u8], key: &[u8]) -> bool
    ensures { result ≡ are_alike last.now key.now }
{
    last.len() == key.len() && are_same(stem_of(last), stem_of(key))
}

/// Of two keys with one stem the later one comes after.
fn is_later(last: &[u8], key: &[u8]) -> bool
    requires last { (i : ℕ) → get_or last.now i 0 < 256 }
    requires key { (i : ℕ) → get_or key.now i 0 < 256 }
    requires long_enough { 8 ≤ length key.now }
    requires len { length last.now ≡ length key.now }
    requires stems { stem_of last.now ≡ stem_of key.now }
    ensures { result ≡ is_less last.now key.now }
{
    time_of(last) < time_of(key)
}

/// The key comes after the one before it.
#[inline(always)]
fn rises(is_alike: bool, last: &[u8], key: &[u8]) -> bool
    requires long_enough { 8 ≤ length key.now }
    requires alike { is_alike ≡ are_alike last.now key.now }
    ensures { result ≡ is_less last.now key.now }
{
    if is_alike {
        is_later(last, key)
    } else {
        last.cmp(key) == Ordering::Less
    }
}

/// The record that the bytes begin with, where it is one of a block; a fault tells nothing of where it lies.
#[inline(always)]
fn seen_of<'a>(at: u64, last: &[u8], bytes: &'a [u8]) -> Result<Seen<'a>, Fault>
    requires { at ≤ 65536 }
    ensures seen { IfOk result (λ x. Sees (record_at at last.now bytes.now) (length bytes.now) x.key.now x.ts x.seq x.rest.now) }
    ensures alike { IfOk result (λ x. x.is_alike ≡ are_alike last.now x.key.now) }
{
    // What is asked of the length once is not asked again of each field.
    test_at(bytes.len() >= Rec::HEADER, at)?;
    let (key_len, rest) = u32_at(at, bytes)?;
    let (body_len, rest) = u32_at(at + 4, rest)?;
    let (seq, rest) = u64_at(at + 8, rest)?;
    let (_ver, rest) = u32_at(at + 16, rest)?;
    let (key, rest) = bytes_of(key_len as usize, at + 20, rest)?;
    let (_body, rest) = bytes_of(body_len as usize, at + 20 + key_len as u64, rest)?;
    test_at(are_fit(key_len, body_len, seq), at)?;
    let is_alike = are_alike(last, key);
    test_at(rises(is_alike, last, key), at)?;
    let ts = time_of(key);
    Ok(Seen {
        key,
        is_alike,
        ts,
        seq,
        rest,
    })
}

/// The record that the bytes begin with, asked field by field: its fault is the first one.
#[tactic(auto, unfolding(crate::specs::Reading::own_record_at))]
fn first_fault_of<'a>(
    totals: &Totals,
    entry: &IndexEntry,
    left: u32,
    at: u64,
    last: &[u8],
    bytes: &'a [u8],
) -> Result<(RecView<'a>, &'a [u8]), Fault>
    requires { at ≤ 65536 }
    ensures exact { Reads (λ x. (x.0, x.1.now)) result (own_record_at totals.now entry.now left at last.now bytes.now) }
    ensures len { IfOk result (λ x. stored_len x.0 + length x.1.now ≡ length bytes.now) }
    ensures within { IfErr result (λ fault. fault.at ≤ at + length bytes.now) }
{
    let (key_len, _) = u32_at(at, bytes)?;
    test_at(is_key_length(key_len), at)?;
    test_at(
        bytes_suit(totals, entry, left, last, key_len as usize, bytes),
        at,
    )?;
    record_of(at, last, bytes)
}

/// The same, read from its bytes once more to tell where the first fault is.
#[cold]
#[inline(never)]
fn seen_slowly<'a>(
    totals: &Totals,
    entry: &IndexEntry,
    left: u32,
    at: u64,
    last: &[u8],
    bytes: &'a [u8],
) -> Result<Seen<'a>, Fault>
    requires { at ≤ 65536 }
    ensures seen { IfOk result (λ x. Sees (own_record_at totals.now entry.now left at last.now bytes.now) (length bytes.now) x.key.now x.ts x.seq x.rest.now) }
    ensures alike { IfOk result (λ x. x.is_alike ≡ are_alike last.now x.key.now) }
    ensures long_enough { IfOk result (λ x. 8 ≤ length x.key.now) }
    ensures fault { IfErr result (λ fault. own_record_at totals.now entry.now left at last.now bytes.now ≡ Err fault.at) }
    ensures within { IfErr result (λ fault. fault.at ≤ at + length bytes.now) }
{
    let (rec, rest) = first_fault_of(totals, entry, left, at, last, bytes)?;
    Ok(Seen {
        key: rec.key(),
        is_alike: are_alike(last, rec.key()),
        ts: rec.ts(),
        seq: rec.seq(),
        rest,
    })
}

/// The record that the bytes begin with, at offset `at` of its block: so many are left behind it in the block, and `last`
/// is the key before, or empty. Its fault is the first one, be it the block's or the tablet's.
#[inline(always)]
pub fn own_record_of<'a>(
    totals: &Totals,
    entry: &IndexEntry,
    left: u32,
    at: u64,
    last: &[u8],
    bytes: &'a [u8],
) -> Result<Seen<'a>, Fault>
    requires { at ≤ 65536 }
    ensures seen { IfOk result (λ x. Sees (own_record_at totals.now entry.now left at last.now bytes.now) (length bytes.now) x.key.now x.ts x.seq x.rest.now) }
    ensures alike { IfOk result (λ x. x.is_alike ≡ are_alike last.now x.key.now) }
    ensures long_enough { IfOk result (λ x. 8 ≤ length x.key.now) }
    ensures fault { IfErr result (λ fault. own_record_at totals.now entry.now left at last.now bytes.now ≡ Err fault.at) }
    ensures within { IfErr result (λ fault. fault.at ≤ at + length bytes.now) }
{
    if let Ok(seen) = seen_of(at, last, bytes)
        && seen_suits(totals, entry, left, last, &seen)
    {
        return Ok(seen);
    }
    seen_slowly(totals, entry, left, at, last, bytes)
}
