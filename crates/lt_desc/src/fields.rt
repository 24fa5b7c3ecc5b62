//! Fields from the front of what is left of so many bytes.
ghost use Rattle.std.specs.Prelude.{◌≡◌};
ghost use Rattle.std.specs.Int.{w32, w64};
ghost use Rattle.lt_rec.specs.Reading.{Reads, is_within};
ghost use Rattle.lt_desc.specs.Reading.{byte_from, number_from, number_where, counted_at};

use lt_rec::{Fault, byte_of, bytes_of, place_of, test_at, u32_at, u64_at};

pub fn byte_from(total: u64, bytes: &[u8]) -> Result<(u8, &[u8]), Fault>
    ensures exact { Reads (λ x. (x.0, x.1.now)) result (byte_from total bytes.now) }
{
    byte_of(place_of(total, bytes), bytes)
}

pub fn u32_from(total: u64, bytes: &[u8]) -> Result<(u32, &[u8]), Fault>
    ensures exact { Reads (λ x. (x.0, x.1.now)) result (number_from w32 total bytes.now) }
{
    u32_at(place_of(total, bytes), bytes)
}

pub fn u64_from(total: u64, bytes: &[u8]) -> Result<(u64, &[u8]), Fault>
    ensures exact { Reads (λ x. (x.0, x.1.now)) result (number_from w64 total bytes.now) }
{
    u64_at(place_of(total, bytes), bytes)
}

pub fn u32_within(least: u32, most: u32, total: u64, bytes: &[u8]) -> Result<(u32, &[u8]), Fault>
    ensures exact { Reads (λ x. (x.0, x.1.now)) result (number_where w32 (is_within least most) total bytes.now) }
{
    let (number, rest) = u32_from(total, bytes)?;
    test_at(least <= number && number <= most, place_of(total, bytes))?;
    Ok((number, rest))
}

pub fn u64_within(least: u64, most: u64, total: u64, bytes: &[u8]) -> Result<(u64, &[u8]), Fault>
    ensures exact { Reads (λ x. (x.0, x.1.now)) result (number_where w64 (is_within least most) total bytes.now) }
{
    let (number, rest) = u64_from(total, bytes)?;
    test_at(least <= number && number <= most, place_of(total, bytes))?;
    Ok((number, rest))
}

/// Bytes behind their length.
#[tactic(auto, unfolding(crate::specs::Reading::counted_at))]
pub fn counted_of(total: u64, bytes: &[u8]) -> Result<(&[u8], &[u8]), Fault>
    ensures exact { Reads (λ x. (x.0.now, x.1.now)) result (counted_at total bytes.now) }
{
    let (len, rest) = u32_from(total, bytes)?;
    bytes_of(len as usize, place_of(total, bytes), rest)
}
