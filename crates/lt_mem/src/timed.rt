ghost use Rattle.std.specs.Prelude.{◌≡◌, ℕ, ◌<◌, ◌≤◌, true, false, OnOk, filter, length, slice_index_or};
ghost use Rattle.lt_rec.specs.Record.{Record};
ghost use Rattle.lt_mem.specs.Rising.{in_order};
ghost use Rattle.lt_mem.specs.Pieces.{has_time};
ghost use Rattle.lt_mem.specs.Growth.{grown};

use crate::growing::Growing;
use lt_rec::{Chunk, NoMemory, RawBox, Rec};

/// Whether the box has the timestamp of the record that is read as number `step`.
fn timed_at(recs: &[Rec], step: usize, raw_box: &RawBox, down: bool) -> bool
    requires { step < length recs.now }
    ensures { (d : Record) → result ≡ has_time raw_box.now (slice_index_or (in_order down recs.now) step d) }
{
    let at = if down { recs.len() - 1 - step } else { step };
    let rec = &recs[at];
    raw_box.from <= rec.ts() && rec.ts() <= raw_box.to
}

/// Where the run of records with a timestamp of the box ends, from `start` on.
fn run_end(recs: &[Rec], start: usize, raw_box: &RawBox, down: bool) -> usize
    requires { start ≤ length recs.now }
    ensures forward { start ≤ result }
    ensures within { result ≤ length recs.now }
    ensures timed { (k : ℕ) (d : Record) → start ≤ k → k < result → has_time raw_box.now (slice_index_or (in_order down recs.now) k d) ≡ true }
    ensures ends { (d : Record) → result < length recs.now → has_time raw_box.now (slice_index_or (in_order down recs.now) result d) ≡ false }
{
    let mut end = start;
    while end < recs.len() && timed_at(recs, end, raw_box, down) {
        end += 1;
    }
    end
}

/// Adds the records with a timestamp of the box, each run of them in one chunk.
pub fn add_timed(
    recs: &[Rec],
    chunk: &Chunk,
    raw_box: &RawBox,
    down: bool,
    found: &mut Growing,
) -> Result<(), NoMemory>
    requires same { chunk.now ≡ in_order down recs.now }
    ensures { OnOk result (found.new ≡ grown found.old (filter (has_time raw_box.now) chunk.now)) }
{
    let mut start = 0;
    while start < recs.len() && !found.is_full() {
        let end = run_end(recs, start, raw_box, down);
        if start < end {
            found.add(chunk.cut(start, end)?)?;
        }
        start = end + 1;
    }
    Ok(())
}
