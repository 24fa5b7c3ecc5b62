ghost use Rattle.std.specs.Prelude.{◌≡◌, ◌<◌, ◌≤◌, [], ◌∷◌, OnOk, OnErr, IfErr, length};
ghost use Rattle.std.specs.List.{insert};
ghost use Rattle.lt_rec.specs.Records.{joined};
ghost use Rattle.lt_mem.specs.Lead.{IsLead};
ghost use Rattle.lt_mem.specs.Pieces.{piece_at, place_of, NoneIsEmpty};

use crate::piece::Piece;
use lt_rec::Rec;
use std::alloc::Global;

/// A piece with so many records is split: an insert moves what stands behind its place, so that small pieces cost few cache
/// lines.
pub const FULL: usize = 128;

/// Splits the piece, where it is full and there is memory for one more.
fn split_long(pieces: &mut Vec<Piece>, at: usize)
    requires held { at < length pieces.old.items }
    requires some { NoneIsEmpty pieces.old.items }
    ensures same { joined pieces.new.items ≡ joined pieces.old.items }
    ensures some { NoneIsEmpty pieces.new.items }
{
    if pieces[at].as_slice().len() < FULL || pieces.reserve(1).is_err() {
        return;
    }
    let piece = &mut pieces[at];
    match piece.split_off(FULL / 2) {
        Ok(high) => match pieces.insert(at + 1, high) {
            Ok(()) => {}
            Err(_) => unreachable!(),
        },
        Err(_) => {}
    }
}

/// Puts the record, with its key's lead, at this place of a piece. A piece that is then full is split.
pub fn put_at(
    pieces: &mut Vec<Piece>,
    at: usize,
    place: usize,
    lead: u128,
    rec: Rec,
) -> Result<(), Rec>
    requires held { at < length pieces.old.items }
    requires within { place ≤ length (piece_at pieces.old.items at) }
    requires some { NoneIsEmpty pieces.old.items }
    requires lead { IsLead rec.key lead }
    ensures ok { OnOk result (joined pieces.new.items ≡ insert (joined pieces.old.items) (place_of pieces.old.items at place) rec) }
    ensures unchanged { OnErr result (joined pieces.new.items ≡ joined pieces.old.items) }
    ensures some { NoneIsEmpty pieces.new.items }
    ensures handed_back { IfErr result (λ refused. refused ≡ rec) }
{
    let piece = &mut pieces[at];
    match piece.insert(place, lead, rec) {
        Ok(()) => {
            split_long(pieces, at);
            Ok(())
        }
        Err(rec) => Err(rec),
    }
}

/// Begins with one piece of one record.
pub fn begin(pieces: &mut Vec<Piece>, rec: Rec) -> Result<(), Rec>
    requires empty { pieces.old.items ≡ [] }
    ensures ok { OnOk result (pieces.new.items ≡ (rec ∷ []) ∷ []) }
    ensures unchanged { OnErr result (pieces.new.items ≡ []) }
    ensures handed_back { IfErr result (λ refused. refused ≡ rec) }
{
    if pieces.reserve(1).is_err() {
        return Err(rec);
    }
    let piece = Piece::one(*pieces.allocator(), rec)?;
    match pieces.push(piece) {
        Ok(()) => Ok(()),
        Err(_) => unreachable!(),
    }
}
