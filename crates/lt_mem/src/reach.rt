// Where the keys of a box begin and end. Keys below a cut are a front of rising keys.
ghost use Rattle.std.specs.Prelude.{◌≡◌, ℕ, ◌+◌, ◌<◌, ◌≤◌, true, false, length, slice_index_or};
ghost use Rattle.lt_rec.specs.Boxes.{is_below, meets_lo, meets_hi};
ghost use Rattle.lt_rec.specs.Record.{Record};
ghost use Rattle.lt_mem.specs.Lead.{IsLead};
ghost use Rattle.lt_mem.specs.Rising.{IsRising};
ghost use Rattle.lt_mem.specs.Pieces.{first_key, piece_at, AreLined, AllBelow, NoneBelow, AllMeetLo, NoneMeetsLo, AllMeetHi, NoneMeetsHi};

use crate::lead::lead_of;
use crate::piece::Piece;
use lt_rec::{Cut, RawBox, Rec};

/// Whether the piece begins below the cut, of whose bytes this is the lead. Where the piece's is less, no key is looked at.
fn begins_below(piece: &Piece, cut: &Cut, lead: u128) -> bool
    requires some { 0 < length piece.now }
    requires lead { IsLead cut.now.bytes lead }
    ensures { result ≡ is_below cut.now (first_key piece.now) }
{
    if piece.lead() < lead {
        return true;
    }
    if lead < piece.lead() && !cut.after {
        return false;
    }
    let recs = piece.as_slice();
    let first = &recs[0];
    cut.below(first.key())
}

/// How many pieces begin below the cut.
fn begun(pieces: &[Piece], cut: &Cut) -> usize
    requires lined { AreLined pieces.now }
    ensures within { result ≤ length pieces.now }
    ensures below { (k : ℕ) → k + 1 < result → AllBelow cut.now (piece_at pieces.now k) }
    ensures above { (k : ℕ) → result ≤ k → k < length pieces.now → NoneBelow cut.now (piece_at pieces.now k) }
{
    let lead = lead_of(cut.bytes.as_slice());
    let mut low = 0;
    let mut high = pieces.len();
    while low < high {
        let mid = low + (high - low) / 2;
        let piece = &pieces[mid];
        if begins_below(piece, cut, lead) {
            low = mid + 1;
        } else {
            high = mid;
        }
    }
    low
}

/// The first piece that may have keys from the lower bound on.
pub fn first_of(pieces: &[Piece], raw_box: &RawBox) -> usize
    requires lined { AreLined pieces.now }
    ensures within { result ≤ length pieces.now }
    ensures before { (k : ℕ) → k < result → NoneMeetsLo raw_box.now (piece_at pieces.now k) }
    ensures after { (k : ℕ) → result < k → k < length pieces.now → AllMeetLo raw_box.now (piece_at pieces.now k) }
{
    match &raw_box.lo {
        Some(cut) => begun(pieces, cut).saturating_sub(1),
        None => 0,
    }
}

/// One after the last piece that may have keys below the upper bound.
pub fn end_of(pieces: &[Piece], raw_box: &RawBox) -> usize
    requires lined { AreLined pieces.now }
    ensures within { result ≤ length pieces.now }
    ensures before { (k : ℕ) → k + 1 < result → AllMeetHi raw_box.now (piece_at pieces.now k) }
    ensures after { (k : ℕ) → result ≤ k → k < length pieces.now → NoneMeetsHi raw_box.now (piece_at pieces.now k) }
{
    match &raw_box.hi {
        Some(cut) => begun(pieces, cut),
        None => pieces.len(),
    }
}

/// How many of the records have a key below the cut.
fn below(recs: &[Rec], cut: &Cut) -> usize
    requires rising { IsRising recs.now }
    ensures within { result ≤ length recs.now }
    ensures before { (k : ℕ) (d : Record) → k < result → is_below cut.now (slice_index_or recs.now k d).key ≡ true }
    ensures after { (k : ℕ) (d : Record) → result ≤ k → k < length recs.now → is_below cut.now (slice_index_or recs.now k d).key ≡ false }
{
    let mut low = 0;
    let mut high = recs.len();
    while low < high {
        let mid = low + (high - low) / 2;
        let held = &recs[mid];
        if cut.below(held.key()) {
            low = mid + 1;
        } else {
            high = mid;
        }
    }
    low
}

/// The first record from the lower bound on. Where it is known that all are, no key is looked at.
pub fn from_of(recs: &[Rec], raw_box: &RawBox, known: bool) -> usize
    requires rising { IsRising recs.now }
    requires known { known ≡ true → AllMeetLo raw_box.now recs.now }
    ensures within { result ≤ length recs.now }
    ensures before { (k : ℕ) (d : Record) → k < result → meets_lo raw_box.now.lo (slice_index_or recs.now k d).key ≡ false }
    ensures after { (k : ℕ) (d : Record) → result ≤ k → k < length recs.now → meets_lo raw_box.now.lo (slice_index_or recs.now k d).key ≡ true }
{
    if known {
        return 0;
    }
    match &raw_box.lo {
        Some(cut) => below(recs, cut),
        None => 0,
    }
}

/// One after the last record below the upper bound. Where it is known that all are, no key is looked at.
pub fn to_of(recs: &[Rec], raw_box: &RawBox, known: bool) -> usize
    requires rising { IsRising recs.now }
    requires known { known ≡ true → AllMeetHi raw_box.now recs.now }
    ensures within { result ≤ length recs.now }
    ensures before { (k : ℕ) (d : Record) → k < result → meets_hi raw_box.now.hi (slice_index_or recs.now k d).key ≡ true }
    ensures after { (k : ℕ) (d : Record) → result ≤ k → k < length recs.now → meets_hi raw_box.now.hi (slice_index_or recs.now k d).key ≡ false }
{
    if known {
        return recs.len();
    }
    match &raw_box.hi {
        Some(cut) => below(recs, cut),
        None => recs.len(),
    }
}
