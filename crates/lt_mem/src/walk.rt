ghost use Rattle.std.specs.Prelude.{◌≡◌, ℕ, ◌+◌, ◌/◌, ◌<◌, ◌≤◌, true, OnOk, filter, length};
ghost use Rattle.lt_rec.specs.Boxes.{in_box};
ghost use Rattle.lt_rec.specs.Records.{joined, piece};
ghost use Rattle.lt_mem.specs.Rising.{IsRising, in_order};
ghost use Rattle.lt_mem.specs.Pieces.{has_time, piece_at, AreLined, AllMeetLo, AllMeetHi, EachRises};
ghost use Rattle.lt_mem.specs.Growth.{grown};

use crate::growing::Growing;
use crate::piece::Piece;
use crate::reach::{end_of, first_of, from_of, to_of};
use crate::store::FULL;
use crate::timed::add_timed;
use lt_rec::{NoMemory, RawBox};

/// Adds the records from `from` up to `to` with a timestamp of the box. Where all have one, they are one chunk.
fn walk_run(
    held: &Piece,
    from: usize,
    to: usize,
    raw_box: &RawBox,
    down: bool,
    found: &mut Growing,
) -> Result<(), NoMemory>
    requires ordered { from ≤ to }
    requires within { to ≤ length held.now }
    ensures { OnOk result (found.new ≡ grown found.old (filter (has_time raw_box.now) (piece held.now from to down))) }
{
    if held.misses(raw_box) {
        return Ok(());
    }
    let run = held.share(from, to, down)?;
    if held.lies_in(raw_box) {
        return found.add(run);
    }
    let (front, _) = held.as_slice().split_at(to);
    let (_, recs) = front.split_at(from);
    add_timed(recs, &run, raw_box, down, found)
}

/// Adds the piece's records that lie in the box. Keys are looked at where it isn't known that all meet a bound.
fn walk_piece(
    held: &Piece,
    meets_lo: bool,
    meets_hi: bool,
    raw_box: &RawBox,
    down: bool,
    found: &mut Growing,
) -> Result<(), NoMemory>
    requires rising { IsRising held.now }
    requires lo { meets_lo ≡ true → AllMeetLo raw_box.now held.now }
    requires hi { meets_hi ≡ true → AllMeetHi raw_box.now held.now }
    ensures { OnOk result (found.new ≡ grown found.old (filter (in_box raw_box.now) (in_order down held.now))) }
{
    let recs = held.as_slice();
    let from = from_of(recs, raw_box, meets_lo);
    let to = to_of(recs, raw_box, meets_hi);
    if from >= to {
        return Ok(());
    }
    walk_run(held, from, to, raw_box, down, found)
}

/// Adds the records of the box. All pieces but the first meet its lower bound, and all but the last its upper one.
fn walk_between(
    pieces: &[Piece],
    raw_box: &RawBox,
    down: bool,
    found: &mut Growing,
) -> Result<(), NoMemory>
    requires rising { EachRises pieces.now }
    requires lo { (k : ℕ) → 0 < k → k < length pieces.now → AllMeetLo raw_box.now (piece_at pieces.now k) }
    requires hi { (k : ℕ) → k + 1 < length pieces.now → AllMeetHi raw_box.now (piece_at pieces.now k) }
    ensures { OnOk result (found.new ≡ grown found.old (filter (in_box raw_box.now) (in_order down (joined pieces.now)))) }
{
    let count = pieces.len();
    for step in 0..count {
        if found.is_full() {
            return Ok(());
        }
        let at = if down { count - 1 - step } else { step };
        walk_piece(&pieces[at], at > 0, at + 1 < count, raw_box, down, found)?;
    }
    Ok(())
}

/// In how many pieces, about, so many records lie: a piece that was split has half of a full one's, or more.
fn most_pieces(count: usize) -> usize
    ensures { result ≡ count / 64 + 2 }
{
    count / (FULL / 2) + 2
}

/// Adds the records of the box, in the order of reading. Pieces that its keys don't reach are not looked at.
pub fn walk_pieces(
    pieces: &[Piece],
    raw_box: &RawBox,
    down: bool,
    found: &mut Growing,
) -> Result<(), NoMemory>
    requires lined { AreLined pieces.now }
    ensures { OnOk result (found.new ≡ grown found.old (filter (in_box raw_box.now) (in_order down (joined pieces.now)))) }
{
    let end = end_of(pieces, raw_box);
    let first = first_of(pieces, raw_box).min(end);
    let (front, _) = pieces.split_at(end);
    let (_, between) = front.split_at(first);
    found.reserve(between.len().min(most_pieces(found.left())))?;
    walk_between(between, raw_box, down, found)
}
