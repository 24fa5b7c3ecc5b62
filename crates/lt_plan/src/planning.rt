ghost use Rattle.std.specs.Prelude.{◌≡◌, ◌≤◌, ◌<◌, ℕ, ◌↔◌, IsTrue, IfNone, IfSome, length, drop};
ghost use Rattle.lt_rec.specs.Periods.{Stretch};
ghost use Rattle.lt_plan.specs.Merging.{IsAtHome, MayBegin, BeginsARun, HasNoRun, IsLongest, IsRun};

use crate::{Run, Weigh};
use lt_period::period_of;
use lt_rec::Period;

/// The most bytes that are merged at once.
pub const MOST_BYTES: u64 = 134_217_728;

/// The tablets that are to be merged first, at the moment. The list rises by least timestamp and then by file. `None`
/// exactly where nothing is to be merged. Takes no memory.
pub fn plan(list: &[Weigh], now: u64) -> Option<Run>
    ensures run { IfSome result (IsRun now list.now) }
    ensures none { IfNone result (HasNoRun now list.now) }
{
    let first = first_begin(list, now)?;
    let (_, rest) = list.split_at(first);
    let count = longest(rest, period_of(rest[0].low, now), now);
    Some(Run {
        first: first as u64,
        count: count as u64,
    })
}

fn first_begin(list: &[Weigh], now: u64) -> Option<usize>
    ensures begins { IfSome result (λ first. BeginsARun now (drop first list.now)) }
    ensures least { IfSome result (λ first. (i : ℕ) → i < first → ¬ BeginsARun now (drop i list.now)) }
    ensures none { IfNone result (HasNoRun now list.now) }
{
    for at in 1..list.len() {
        if may_begin(&list[at - 1], &list[at], now) {
            return Some(at - 1);
        }
    }
    None
}

fn may_begin(a: &Weigh, b: &Weigh, now: u64) -> bool
    ensures { IsTrue result ↔ MayBegin now a.now b.now }
{
    a.bytes <= MOST_BYTES
        && b.bytes <= MOST_BYTES - a.bytes
        && a.bytes <= 2 * b.bytes
        && is_at_home(a, period_of(a.low, now), now)
        && is_at_home(b, period_of(a.low, now), now)
}

fn is_at_home(tablet: &Weigh, home: Period, now: u64) -> bool
    ensures { IsTrue result ↔ IsAtHome now home tablet.now }
{
    period_of(tablet.low, now) == home && period_of(tablet.high, now) == home
}

fn longest(list: &[Weigh], home: Period, now: u64) -> usize
    ensures { IsLongest now home list.now result }
{
    let mut bytes: u64 = 0;
    for (at, tablet) in list.iter().enumerate() {
        if tablet.bytes > MOST_BYTES - bytes || !is_at_home(tablet, home, now) {
            return at;
        }
        bytes += tablet.bytes;
    }
    list.len()
}
