ghost use Rattle.std.specs.Prelude.{◌≡◌, ℕ, ◌+◌, ◌<◌, ◌≤◌, true, IfOk, IfErr, MatchBool, length, slice_index_or};
ghost use Rattle.std.specs.Ordering.{MatchOrdering};
ghost use Rattle.lt_rec.specs.Bytes.{is_less};
ghost use Rattle.lt_rec.specs.Record.{Record};
ghost use Rattle.lt_mem.specs.Lead.{IsLead, AreLeads};
ghost use Rattle.lt_mem.specs.Rising.{IsRising};
ghost use Rattle.lt_mem.specs.Pieces.{first_key, piece_at, AreLined, IsFound, IsGap, IsUpTo, NoneIsEmpty};

use crate::piece::Piece;
use lt_rec::Rec;
use std::cmp::Ordering;

/// `Less` where the key that is held is the less.
fn order(held: &[u8], key: &[u8]) -> Ordering
    ensures { MatchOrdering result (is_less held.now key.now ≡ true) (held.now ≡ key.now) (is_less key.now held.now ≡ true) }
{
    held.cmp(key)
}

/// The same of the record at this place, with the leads. Where these differ, no key is looked at.
#[inline(always)]
fn order_at(recs: &[Rec], leads: &[u128], at: usize, key: &[u8], lead: u128) -> Ordering
    requires held { at < length recs.now }
    requires leads { AreLeads recs.now leads.now }
    requires lead { IsLead key.now lead }
    ensures { (d : Record) → MatchOrdering result (is_less (slice_index_or recs.now at d).key key.now ≡ true) ((slice_index_or recs.now at d).key ≡ key.now) (is_less key.now (slice_index_or recs.now at d).key ≡ true) }
{
    let held = leads[at];
    if held < lead {
        return Ordering::Less;
    }
    if lead < held {
        return Ordering::Greater;
    }
    let rec = &recs[at];
    order(rec.key(), key)
}

/// Where the record of this key, whose lead this is, stands, or else where it would.
pub fn place_in(recs: &[Rec], leads: &[u128], key: &[u8], lead: u128) -> Result<usize, usize>
    requires rising { IsRising recs.now }
    requires leads { AreLeads recs.now leads.now }
    requires lead { IsLead key.now lead }
    ensures found { IfOk result (λ place. (place < length recs.now) × ((d : Record) → (slice_index_or recs.now place d).key ≡ key.now)) }
    ensures within { IfErr result (λ place. place ≤ length recs.now) }
    ensures before { IfErr result (λ place. (k : ℕ) (d : Record) → k < place → is_less (slice_index_or recs.now k d).key key.now ≡ true) }
    ensures after { IfErr result (λ place. (k : ℕ) (d : Record) → place ≤ k → k < length recs.now → is_less key.now (slice_index_or recs.now k d).key ≡ true) }
{
    let mut low = 0;
    let mut high = recs.len();
    while low < high {
        let mid = low + (high - low) / 2;
        match order_at(recs, leads, mid, key, lead) {
            Ordering::Less => low = mid + 1,
            Ordering::Equal => return Ok(mid),
            Ordering::Greater => high = mid,
        }
    }
    Err(low)
}

/// Whether the piece begins after the key, whose lead this is. Where the leads differ, no key is looked at.
fn begins_after(piece: &Piece, key: &[u8], lead: u128) -> bool
    requires some { 0 < length piece.now }
    requires lead { IsLead key.now lead }
    ensures { MatchBool result (is_less key.now (first_key piece.now) ≡ true) (IsUpTo (first_key piece.now) key.now) }
{
    if lead < piece.lead() {
        return true;
    }
    if piece.lead() < lead {
        return false;
    }
    let recs = piece.as_slice();
    let first = &recs[0];
    match order(first.key(), key) {
        Ordering::Greater => true,
        Ordering::Less | Ordering::Equal => false,
    }
}

/// The last piece that does not begin after the key, whose lead this is, or the first one.
pub fn piece_for(pieces: &[Piece], key: &[u8], lead: u128) -> usize
    requires some { NoneIsEmpty pieces.now }
    requires lead { IsLead key.now lead }
    requires held { 0 < length pieces.now }
    ensures within { result < length pieces.now }
    ensures begun { 0 < result → IsUpTo (first_key (piece_at pieces.now result)) key.now }
    ensures next { result + 1 < length pieces.now → is_less key.now (first_key (piece_at pieces.now (result + 1))) ≡ true }
{
    let mut low = 0;
    let mut high = pieces.len();
    while high - low > 1 {
        let mid = low + (high - low) / 2;
        let piece = &pieces[mid];
        if begins_after(piece, key, lead) {
            high = mid;
        } else {
            low = mid;
        }
    }
    low
}

/// The piece and the place in it where the record of this key, whose lead this is, stands, or else where it would.
pub fn find(pieces: &[Piece], key: &[u8], lead: u128) -> Result<(usize, usize), (usize, usize)>
    requires lined { AreLined pieces.now }
    requires lead { IsLead key.now lead }
    requires held { 0 < length pieces.now }
    ensures found { IfOk result (λ at. IsFound pieces.now key.now at.0 at.1) }
    ensures gap { IfErr result (λ at. IsGap pieces.now key.now at.0 at.1) }
{
    let at = piece_for(pieces, key, lead);
    let piece = &pieces[at];
    match place_in(piece.as_slice(), piece.leads(), key, lead) {
        Ok(place) => Ok((at, place)),
        Err(place) => Err((at, place)),
    }
}
