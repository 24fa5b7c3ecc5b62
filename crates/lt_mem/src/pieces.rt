ghost use Rattle.std.specs.Prelude.{◌≡◌, [], OnOk, OnErr, IfOk, IfErr, IfSome, IfNone, Contains, filter, take};
ghost use Rattle.lt_mem.specs.Rising.{IsRising, NoneHas, Gains, Refuses, in_order};
ghost use Rattle.lt_rec.specs.Boxes.{in_box};

use crate::AddError;
use crate::growing::Growing;
use crate::lead::lead_of;
use crate::piece::Piece;
use crate::search::find;
use crate::store::{begin, put_at};
use crate::walk::walk_pieces;
use lt_rec::{NoMemory, RawBox, Rec, RecList};
use std::alloc::Global;
use std::marker::Model;

/// Rising records in pieces. Contracts see the list of records.
#[derive(Drop)]
pub struct Pieces {
    pieces: Vec<Piece>,
}

impl Model for Pieces {
    ghost use Rattle.std.specs.Prelude.{List};
    ghost use Rattle.lt_rec.specs.Record.{Record};
    ghost use Rattle.lt_rec.specs.Records.{joined};
    ghost use Rattle.lt_mem.specs.Pieces.{AreLined};

    ghost Value = { List Record };

    ghost view = { λ p. joined p.pieces.items };

    ghost invariant = { λ p. AreLined p.pieces.items };
}

impl Pieces {
    pub fn new(alloc: Global) -> Pieces
        ensures { result ≡ [] }
    {
        Pieces {
            pieces: Vec::new(alloc),
        }
    }

    /// The record of this key.
    pub fn get(&self, key: &[u8]) -> Option<&Rec>
        ensures found { IfSome result (λ r. r.now.key ≡ key.now) }
        ensures held { IfSome result (λ r. Contains self.now r.now) }
        ensures none { IfNone result (NoneHas self.now key.now) }
    {
        if self.pieces.as_slice().is_empty() {
            return None;
        }
        match find(self.pieces.as_slice(), key, lead_of(key)) {
            Ok((at, place)) => {
                let piece = &self.pieces[at];
                let recs = piece.as_slice();
                Some(&recs[place])
            }
            Err(_) => None,
        }
    }

    /// The first records of the box in the order of reading, `limit` of them or all. Copies pointers and no record.
    pub fn walk(&self, raw_box: &RawBox, down: bool, limit: usize) -> Result<RecList, NoMemory>
        ensures { IfOk result (λ list. list ≡ take limit (filter (in_box raw_box.now) (in_order down self.now))) }
    {
        let mut found = Growing::new(*self.pieces.allocator(), limit);
        walk_pieces(self.pieces.as_slice(), raw_box, down, &mut found)?;
        found.into_list()
    }

    /// Adds a record, unless one has its key already.
    pub fn add(&mut self, rec: Rec) -> Result<(), (Rec, AddError)>
        ensures ok { OnOk result (Gains self.old self.new rec) }
        ensures distinct { OnOk result (NoneHas self.old rec.key) }
        ensures rising { IsRising self.new }
        ensures cause { IfErr result (λ refused. Refuses self.old rec.key refused.1) }
        ensures handed_back { IfErr result (λ refused. refused.0 ≡ rec) }
        ensures unchanged { OnErr result (self.new ≡ self.old) }
    {
        if self.pieces.as_slice().is_empty() {
            return begin(&mut self.pieces, rec).map_err(|rec| (rec, AddError::NoMemory));
        }
        let lead = lead_of(rec.key());
        match find(self.pieces.as_slice(), rec.key(), lead) {
            Ok((at, place)) => {
                let piece = &self.pieces[at];
                let recs = piece.as_slice();
                let seq = recs[place].seq();
                Err((rec, AddError::Present { seq }))
            }
            Err((at, place)) => match put_at(&mut self.pieces, at, place, lead, rec) {
                Ok(()) => Ok(()),
                Err(rec) => Err((rec, AddError::NoMemory)),
            },
        }
    }
}
