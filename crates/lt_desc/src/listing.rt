//! The list of tablets.
ghost use Rattle.std.specs.Prelude.{◌≡◌, ◌%◌, [], IfOk, IsTrue};
ghost use Rattle.lt_rec.specs.Periods.{is_period_len};
ghost use Rattle.lt_rec.specs.Reading.{Gives, Reads};
ghost use Rattle.lt_desc.specs.Reading.{repeated, spans, sizes_at, stretch_at, times_at, span_at, next_tablet, listing_at};

use crate::earlier::Earlier;
use crate::fields::{u32_from, u64_from, u64_within};
use crate::stone::Stone;
use lt_rec::{Fault, FormatError, Listed, Period, place_of, test_at};
use std::alloc::Global;

/// How many bytes an entry has.
const ENTRY_LEN: usize = 72;

/// The first fields of an entry.
#[derive(Clone, Copy, Debug)]
pub struct Sizes {
    pub file: u64,
    pub rows: u64,
    pub bytes: u64,
}

/// The next fields of an entry: its least and greatest timestamps, and the start and length of a period that has them.
#[derive(Clone, Copy, Debug)]
pub struct Times {
    pub low: u64,
    pub high: u64,
    pub start: u64,
    pub len: u64,
}

#[tactic(auto, unfolding(crate::specs::Reading::sizes_at))]
fn sizes_of<'a>(
    next_file: u64,
    before: &Earlier,
    total: u64,
    bytes: &'a [u8],
) -> Result<(Sizes, &'a [u8]), Fault>
    ensures exact { Reads (λ x. (x.0, x.1.now)) result (sizes_at next_file before.now total bytes.now) }
{
    let (file, rest) = u64_from(total, bytes)?;
    test_at(
        file < next_file && !before.has_file(file),
        place_of(total, bytes),
    )?;
    let (rows, after) = u64_from(total, rest)?;
    test_at(0 < rows, place_of(total, rest))?;
    let (bytes, rest) = u64_from(total, after)?;
    Ok((Sizes { file, rows, bytes }, rest))
}

/// Whether a period of this length may start there and has both timestamps.
fn spans(start: u64, low: u64, high: u64, len: u64) -> bool
    ensures { result ≡ spans start low high len }
{
    Period::is_len(len) && start % len == 0 && start <= low && (high < start || high - start < len)
}

#[tactic(auto, unfolding(crate::specs::Reading::stretch_at))]
fn stretch_of(low: u64, high: u64, total: u64, bytes: &[u8]) -> Result<(u64, u64, &[u8]), Fault>
    ensures exact { Reads (λ x. ((x.0, x.1), x.2.now)) result (stretch_at low high total bytes.now) }
    ensures length { IfOk result (λ x. IsTrue (is_period_len x.1)) }
    ensures aligned { IfOk result (λ x. x.0 % x.1 ≡ 0) }
{
    let (start, rest) = u64_from(total, bytes)?;
    let (len, after) = u64_from(total, rest)?;
    test_at(spans(start, low, high, len), place_of(total, rest))?;
    Ok((start, len, after))
}

#[tactic(auto, unfolding(crate::specs::Reading::times_at))]
fn times_of<'a>(
    file: u64,
    before: &Earlier,
    total: u64,
    bytes: &'a [u8],
) -> Result<(Times, &'a [u8]), Fault>
    ensures exact { Reads (λ x. (x.0, x.1.now)) result (times_at file before.now total bytes.now) }
    ensures length { IfOk result (λ x. IsTrue (is_period_len x.0.len)) }
    ensures aligned { IfOk result (λ x. x.0.start % x.0.len ≡ 0) }
{
    let (low, rest) = u64_from(total, bytes)?;
    test_at(
        low < Stone::MOST && before.may_add(low, file),
        place_of(total, bytes),
    )?;
    let (high, rest) = u64_within(low, Stone::MOST - 1, total, rest)?;
    let (start, len, rest) = stretch_of(low, high, total, rest)?;
    let times = Times {
        low,
        high,
        start,
        len,
    };
    Ok((times, rest))
}

/// The last fields of an entry: its least and greatest numbers.
#[tactic(auto, unfolding(crate::specs::Reading::span_at))]
fn span_of(kept: u64, total: u64, bytes: &[u8]) -> Result<(u64, u64, &[u8]), Fault>
    ensures exact { Reads (λ x. ((x.0, x.1), x.2.now)) result (span_at kept total bytes.now) }
{
    let (first, rest) = u64_from(total, bytes)?;
    let (last, after) = u64_from(total, rest)?;
    test_at(first <= last && last < kept, place_of(total, rest))?;
    Ok((first, last, after))
}

/// A tablet behind the others.
#[tactic(auto, unfolding(crate::specs::Reading::tablet_at))]
fn add_tablet<'a>(
    kept: u64,
    next_file: u64,
    before: Earlier,
    total: u64,
    bytes: &'a [u8],
) -> Result<(Earlier, &'a [u8]), FormatError>
    ensures exact { Gives (λ x. (x.0, x.1.now)) result (next_tablet kept next_file total before bytes.now) }
{
    let (sizes, rest) = sizes_of(next_file, &before, total, bytes)?;
    let (times, rest) = times_of(sizes.file, &before, total, rest)?;
    let (first, last, rest) = span_of(kept, total, rest)?;
    let tablets = before.with(Listed {
        file: sizes.file,
        rows: sizes.rows,
        bytes: sizes.bytes,
        low: times.low,
        high: times.high,
        period: Period::new(times.start, times.len),
        first,
        last,
    })?;
    Ok((tablets, rest))
}

/// So many tablets. A count may claim more than the bytes can hold.
fn tablets_of<'a>(
    alloc: Global,
    kept: u64,
    next_file: u64,
    count: u32,
    total: u64,
    bytes: &'a [u8],
) -> Result<(Vec<Listed>, &'a [u8]), FormatError>
    ensures exact { Gives (λ x. (x.0.items, x.1.now)) result (repeated (next_tablet kept next_file total) count [] bytes.now) }
{
    let most = bytes.len() / ENTRY_LEN;
    let mut tablets = Earlier::new(alloc, most.min(count as usize))?;
    let mut rest = bytes;
    for _ in 0..count {
        let (more, after) = add_tablet(kept, next_file, tablets, total, rest)?;
        tablets = more;
        rest = after;
    }
    Ok((tablets.into_vec(), rest))
}

/// The tablets, behind which nothing follows.
#[tactic(auto, unfolding(crate::specs::Reading::listing_at))]
pub fn listing_of(
    alloc: Global,
    kept: u64,
    next_file: u64,
    total: u64,
    bytes: &[u8],
) -> Result<Vec<Listed>, FormatError>
    ensures exact { Gives (λ tablets. tablets.items) result (listing_at kept next_file total bytes.now) }
{
    let (count, rest) = u32_from(total, bytes)?;
    let (tablets, rest) = tablets_of(alloc, kept, next_file, count, total, rest)?;
    test_at(rest.is_empty(), place_of(total, rest))?;
    Ok(tablets)
}
