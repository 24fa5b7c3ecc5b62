//! The first fields.
ghost use Rattle.std.specs.Prelude.{◌≡◌};
ghost use Rattle.lt_rec.specs.Reading.{Reads};
ghost use Rattle.lt_desc.specs.Reading.{mark_at, ttl_at, head_at};

use crate::fields::{byte_from, u64_within};
use crate::stone::Stone;
use lt_rec::{Fault, bytes_of, place_of, test_at};

pub const MARK: [u8; 8] = *b"LTDESCR1";

/// The fields before the schemas.
#[derive(Clone, Copy, Debug)]
pub struct Head {
    pub kept: u64,
    pub low: u64,
    pub ttl: Option<u64>,
    pub next_file: u64,
}

#[tactic(auto, unfolding(crate::specs::Reading::mark_at))]
fn mark_of(total: u64, bytes: &[u8]) -> Result<(&[u8], &[u8]), Fault>
    ensures exact { Reads (λ x. (x.0.now, x.1.now)) result (mark_at total bytes.now) }
{
    let (mark, rest) = bytes_of(MARK.len(), place_of(total, bytes), bytes)?;
    test_at(MARK.as_slice() == mark, place_of(total, bytes))?;
    Ok((mark, rest))
}

#[tactic(auto, unfolding(crate::specs::Reading::ttl_at))]
fn ttl_of(total: u64, bytes: &[u8]) -> Result<(Option<u64>, &[u8]), Fault>
    ensures exact { Reads (λ x. (x.0, x.1.now)) result (ttl_at total bytes.now) }
{
    let (flag, rest) = byte_from(total, bytes)?;
    test_at(flag <= 1, place_of(total, bytes))?;
    if flag == 0 {
        return Ok((None, rest));
    }
    let (ttl, rest) = u64_within(1, Stone::MOST - 1, total, rest)?;
    Ok((Some(ttl), rest))
}

#[tactic(auto, unfolding(crate::specs::Reading::head_at))]
pub fn head_of(total: u64, bytes: &[u8]) -> Result<(Head, &[u8]), Fault>
    ensures exact { Reads (λ x. (x.0, x.1.now)) result (head_at total bytes.now) }
{
    let (_, rest) = mark_of(total, bytes)?;
    let (kept, rest) = u64_within(0, Stone::MOST, total, rest)?;
    let (low, rest) = u64_within(0, Stone::MOST - 1, total, rest)?;
    let (ttl, rest) = ttl_of(total, rest)?;
    let (next_file, rest) = u64_within(0, Stone::MOST, total, rest)?;
    let head = Head {
        kept,
        low,
        ttl,
        next_file,
    };
    Ok((head, rest))
}
