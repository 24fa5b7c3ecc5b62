ghost use Rattle.std.specs.Prelude.{◌≡◌, ◌+◌, ◌≤◌, [], length, IfOk, IfErr};
ghost use Rattle.lt_rec.specs.Record.{stored_len};
ghost use Rattle.lt_rec.specs.Reading.{Fails, Gives, Reads};
ghost use Rattle.lt_block.specs.Reading.{block_at, IsRead, body_len_at, seq_at, is_key_len, may_follow, key_len_at, record_at, records_at, count_at, placed, places_at};

use lt_rec::{
    Fault, FormatError, LONGEST_BLOCK, NUMBERS_END, Rec, RecView, bytes_of, u32_at, u64_at,
};
use std::alloc::Global;
use std::cmp::Ordering;

/// The fewest bytes of a record.
const SHORTEST_RECORD: usize = Rec::HEADER + Rec::SHORTEST_KEY;

#[tactic(auto, unfolding(crate::specs::Reading::body_len_at))]
fn body_len_of(at: u64, bytes: &[u8]) -> Result<(u32, &[u8]), Fault>
    ensures exact { Reads (λ x. (x.0, x.1.now)) result (body_len_at at bytes.now) }
    ensures within { IfOk result (λ x. x.0 ≤ 60000) }
    ensures len { IfOk result (λ x. length x.1.now + 4 ≡ length bytes.now) }
{
    let (number, rest) = u32_at(at, bytes)?;
    if number > Rec::LONGEST_BODY as u32 {
        return Err(Fault { at });
    }
    Ok((number, rest))
}

#[tactic(auto, unfolding(crate::specs::Reading::seq_at))]
fn seq_of(at: u64, bytes: &[u8]) -> Result<(u64, &[u8]), Fault>
    ensures exact { Reads (λ x. (x.0, x.1.now)) result (seq_at at bytes.now) }
    ensures len { IfOk result (λ x. length x.1.now + 8 ≡ length bytes.now) }
{
    let (number, rest) = u64_at(at, bytes)?;
    if number >= NUMBERS_END {
        return Err(Fault { at });
    }
    Ok((number, rest))
}

#[tactic(auto, unfolding(crate::specs::Reading::key_len_at))]
fn key_len_of<'a>(at: u64, last: &[u8], bytes: &'a [u8]) -> Result<(u32, &'a [u8]), Fault>
    ensures exact { Reads (λ x. (x.0, x.1.now)) result (key_len_at at last.now bytes.now) }
    ensures within { IfOk result (λ x. (8 ≤ x.0) × (x.0 ≤ 4096)) }
    ensures len { IfOk result (λ x. length x.1.now + 4 ≡ length bytes.now) }
{
    let (number, rest) = u32_at(at, bytes)?;
    if !is_length_of_key(number) || !follows(last, number as usize, bytes) {
        return Err(Fault { at });
    }
    Ok((number, rest))
}

fn is_length_of_key(number: u32) -> bool
    ensures { result ≡ is_key_len number }
{
    Rec::SHORTEST_KEY as u32 <= number && number <= Rec::LONGEST_KEY as u32
}

/// Whether the key behind the record's numbers is not whole, or above the last one.
fn follows(last: &[u8], key_len: usize, bytes: &[u8]) -> bool
    requires { key_len ≤ 4096 }
    ensures { result ≡ may_follow last.now key_len bytes.now }
{
    if bytes.len() < 20 + key_len {
        return true;
    }
    let (_, behind) = bytes.split_at(20);
    let (key, _) = behind.split_at(key_len);
    last.cmp(key) == Ordering::Less
}

/// The record that the bytes begin with, at offset `at` of its block, and the bytes after it. Takes no memory.
#[tactic(auto, unfolding(crate::specs::Reading::record_at))]
pub fn record_of<'a>(
    at: u64,
    last: &[u8],
    bytes: &'a [u8],
) -> Result<(RecView<'a>, &'a [u8]), Fault>
    requires { at ≤ 65536 }
    ensures exact { Reads (λ x. (x.0, x.1.now)) result (record_at at last.now bytes.now) }
    ensures len { IfOk result (λ x. stored_len x.0 + length x.1.now ≡ length bytes.now) }
{
    let (key_len, rest) = key_len_of(at, last, bytes)?;
    let (body_len, rest) = body_len_of(at + 4, rest)?;
    let (_seq, rest) = seq_of(at + 8, rest)?;
    let (_ver, rest) = u32_at(at + 16, rest)?;
    let (_key, rest) = bytes_of(key_len as usize, at + 20, rest)?;
    let (_body, rest) = bytes_of(body_len as usize, at + 20 + key_len as u64, rest)?;
    let (stored, _) = bytes.split_at(bytes.len() - rest.len());
    Ok((RecView::new(stored), rest))
}

/// The offsets of so many records that lie from offset 4 on, and the bytes after them.
fn offsets_of<'a>(
    alloc: Global,
    count: u32,
    bytes: &'a [u8],
) -> Result<(Vec<u32>, &'a [u8]), FormatError>
    requires { length bytes.now ≤ 65532 }
    ensures exact { Gives (λ x. (x.0.items, x.1.now)) result (placed 4 (records_at count 4 [] bytes.now)) }
    ensures within { IfOk result (λ x. length x.1.now ≤ length bytes.now) }
{
    // A count may claim more records than the bytes can hold.
    let most = bytes.len() / SHORTEST_RECORD;
    let mut offsets = Vec::with_capacity(alloc, most.min(count as usize))?;
    let mut last: &[u8] = &[];
    let mut rest = bytes;
    for _ in 0..count {
        let at = 4 + bytes.len() - rest.len();
        let (rec, after) = record_of(at as u64, last, rest)?;
        offsets.push(at as u32)?;
        last = rec.key();
        rest = after;
    }
    Ok((offsets, rest))
}

#[tactic(auto, unfolding(crate::specs::Reading::count_at))]
fn count_of(bytes: &[u8]) -> Result<(u32, &[u8]), Fault>
    ensures exact { Reads (λ x. (x.0, x.1.now)) result (count_at bytes.now) }
    ensures len { IfOk result (λ x. length x.1.now + 4 ≡ length bytes.now) }
{
    let (number, rest) = u32_at(0, bytes)?;
    if number == 0 {
        return Err(Fault { at: 0 });
    }
    Ok((number, rest))
}

/// The offsets of a block's records.
pub fn places_of(alloc: Global, bytes: &[u8]) -> Result<Vec<u32>, FormatError>
    ensures { Gives (λ v. v.items) result (places_at bytes.now) }
{
    if bytes.len() > LONGEST_BLOCK {
        return Err(FormatError::Bad {
            at: LONGEST_BLOCK as u64,
        });
    }
    let (count, rest) = count_of(bytes)?;
    let (offsets, left) = offsets_of(alloc, count, rest)?;
    if !left.is_empty() {
        return Err(FormatError::Bad {
            at: (bytes.len() - left.len()) as u64,
        });
    }
    Ok(offsets)
}

/// The table of a block's records, by their offsets.
pub fn table_of(alloc: Global, bytes: &[u8]) -> Result<Vec<u32>, FormatError>
    ensures read { IfOk result (λ v. IsRead bytes.now v.items) }
    ensures fault { IfErr result (λ e. Fails e (block_at bytes.now)) }
{
    places_of(alloc, bytes)
}
