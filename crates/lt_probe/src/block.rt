ghost use Rattle.std.specs.Prelude.{◌≡◌, ℕ, ◌<◌, ◌≤◌, true, length, IfOk, IfSome, IfNone, MatchBool, MatchOption, slice_index_or};
ghost use Rattle.lt_rec.specs.Bytes.{is_less};
ghost use Rattle.lt_probe.specs.Latest.{IsCovered, IsLatest, IsUpTo};
ghost use Rattle.lt_probe.specs.Picked.{IsPicked, AllEarlier};
ghost use Rattle.lt_probe.specs.Keys.{HasNumber, NoneHas};
ghost use Rattle.lt_probe.specs.Sought.{cut_before};

use crate::asked::Asked;
use lt_block::{Block, RecView};
use lt_rec::{Cut, NoMemory, Rec};
use std::alloc::Global;
use std::cmp::Ordering;

/// The number of the record that has the key, which the cut lies right before.
pub fn number_in(block: &Block, key: &[u8], cut: &Cut) -> Option<u64>
    requires cut { cut.now ≡ cut_before key.now }
    ensures found { IfSome result (λ seq. HasNumber block.now key.now seq) }
    ensures none { IfNone result (NoneHas block.now key.now) }
{
    let place = block.seek(cut);
    if place >= block.count() {
        return None;
    }
    let rec = block.get(place);
    if rec.key() == key {
        Some(rec.seq())
    } else {
        None
    }
}

/// The place of the last record with the greatest timestamp, of those from one place up to another with a timestamp from
/// `since` on.
fn latest_place(block: &Block, from: u64, to: u64, since: u64) -> Option<u64>
    requires { to ≤ length block.now }
    ensures { MatchOption result (AllEarlier block.now from to since) (IsPicked block.now from to since) }
{
    let mut most = since;
    let mut place = None;
    for at in from..to {
        let ts = block.get(at).ts();
        if ts >= most {
            most = ts;
            place = Some(at);
        }
    }
    place
}

fn is_before(key: &[u8], other: &[u8]) -> bool
    ensures { result ≡ is_less key.now other.now }
{
    match key.cmp(other) {
        Ordering::Less => true,
        Ordering::Equal | Ordering::Greater => false,
    }
}

/// Whether the record is after the best one so far.
fn is_after(rec: &RecView<'_>, best: &Option<Rec>) -> bool
    ensures { MatchBool result (IfSome best.now (λ b. IsUpTo b rec.now)) (IsCovered best.now rec.now) }
{
    let Some(best) = best else {
        return true;
    };
    match best.ts().cmp(&rec.ts()) {
        Ordering::Less => true,
        Ordering::Equal => is_before(best.key(), rec.key()),
        Ordering::Greater => false,
    }
}

/// The latest record of the block, or the best one so far.
pub fn latest_in(
    alloc: Global,
    block: &Block,
    asked: &Asked,
    best: Option<Rec>,
) -> Result<Option<Rec>, NoMemory>
    ensures { IfOk result (IsLatest block.now asked.now.prefix asked.now.since best) }
{
    let from = block.seek(asked.lo());
    let to = block.seek(asked.hi());
    let count = block.count();
    prove!(to <= count);
    let Some(place) = latest_place(block, from, to, asked.since()) else {
        return Ok(best);
    };
    let rec = block.get(place);
    if is_after(&rec, &best) {
        Ok(Some(rec.to_rec(alloc)?))
    } else {
        Ok(best)
    }
}
