//! The parts of a scan.
ghost use Rattle.std.specs.Prelude.{◌≡◌};
ghost use Rattle.lt_lang.specs.Parsing.{Gives, direction_at, edge_at, edge_by, limit_at, scan_at, times_at};
ghost use Rattle.lt_lang.specs.Parsing.{literals_at};

use crate::literals::literals_at;
use crate::stop::Stop;
use crate::tokens::{after_word, needed_count, stop_at};
use lt_command::{Edge, Query};
use std::alloc::Global;

const LIMIT: u64 = 1_000;

const LAST_MOMENT: u64 = (1 << 62) - 1;

fn edge_by(alloc: Global, bytes: &[u8], strict: bool) -> Result<(Option<Edge>, &[u8]), Stop>
    ensures { Gives (λ x. (x.0, x.1.now)) result (edge_by strict (literals_at bytes.now)) }
{
    let (values, rest) = literals_at(alloc, bytes)?;
    if values.as_slice().is_empty() {
        Err(stop_at(rest))
    } else {
        Ok((Some(Edge { values, strict }), rest))
    }
}

#[tactic(auto, unfolding(crate::specs::Parsing::edge_at))]
fn edge_at<'a>(
    alloc: Global,
    bytes: &'a [u8],
    weak: &[u8],
    strict: &[u8],
) -> Result<(Option<Edge>, &'a [u8]), Stop>
    ensures { Gives (λ x. (x.0, x.1.now)) result (edge_at weak.now strict.now bytes.now) }
{
    match after_word(bytes, weak) {
        Some(rest) => edge_by(alloc, rest, false),
        None => match after_word(bytes, strict) {
            Some(rest) => edge_by(alloc, rest, true),
            None => Ok((None, bytes)),
        },
    }
}

#[tactic(auto, unfolding(crate::specs::Parsing::times_at))]
fn times_at(bytes: &[u8]) -> Result<((u64, u64), &[u8]), Stop>
    ensures { Gives (λ x. ((x.0.0, x.0.1), x.1.now)) result (times_at bytes.now) }
{
    match after_word(bytes, b"time") {
        Some(rest) => {
            let (from, rest) = needed_count(rest)?;
            let (to, rest) = needed_count(rest)?;
            Ok(((from, to), rest))
        }
        None => Ok(((0, LAST_MOMENT), bytes)),
    }
}

#[tactic(auto, unfolding(crate::specs::Parsing::direction_at))]
fn direction_at(bytes: &[u8]) -> (bool, &[u8])
    ensures { (result.0, result.1.now) ≡ direction_at bytes.now }
{
    match after_word(bytes, b"asc") {
        Some(rest) => (false, rest),
        None => match after_word(bytes, b"desc") {
            Some(rest) => (true, rest),
            None => (false, bytes),
        },
    }
}

#[tactic(auto, unfolding(crate::specs::Parsing::limit_at))]
fn limit_at(bytes: &[u8]) -> Result<(u64, &[u8]), Stop>
    ensures { Gives (λ x. (x.0, x.1.now)) result (limit_at bytes.now) }
{
    match after_word(bytes, b"limit") {
        Some(rest) => needed_count(rest),
        None => Ok((LIMIT, bytes)),
    }
}

/// The parts of a scan, each of which may be left out, in their order.
#[tactic(auto, unfolding(crate::specs::Parsing::scan_at))]
pub fn scan_at(alloc: Global, bytes: &[u8]) -> Result<(Query, &[u8]), Stop>
    ensures { Gives (λ x. (x.0, x.1.now)) result (scan_at bytes.now) }
{
    let (lo, rest) = edge_at(alloc, bytes, b"ge", b"gt")?;
    let (hi, rest) = edge_at(alloc, rest, b"le", b"lt")?;
    let ((from, to), rest) = times_at(rest)?;
    let (down, rest) = direction_at(rest);
    let (limit, rest) = limit_at(rest)?;
    let query = Query {
        lo,
        hi,
        from,
        to,
        down,
        limit,
    };
    Ok((query, rest))
}
