ghost use Rattle.std.specs.Prelude.{◌≡◌, ◌<◌, [], Some, None, filter, length, nat_eq, if◌then◌else◌, IfOk, IfNone};
ghost use Rattle.std.specs.List.{cons_option};
ghost use Rattle.lt_rec.specs.Boxes.{in_box};
ghost use Rattle.lt_rec.specs.Record.{IsRecord};
ghost use Rattle.lt_cursor.specs.Order.{in_order};

use crate::places::Places;
use lt_block::{Block, RecView};
use lt_rec::{NoMemory, RawBox, Rec};
use std::alloc::Global;
use std::marker::Model;

/// A block that is being given, and the places of its records that are left. Contracts see these records in the order of
/// reading.
#[derive(Drop)]
pub struct Page {
    block: Block,
    places: Places,
}

impl Model for Page {
    ghost use Rattle.std.specs.Prelude.{List, length};
    ghost use Rattle.lt_rec.specs.Record.{Record};
    ghost use Rattle.lt_cursor.specs.Order.{in_order};
    ghost use Rattle.lt_cursor.specs.Places.{between, AreWithin};

    ghost Value = { List Record };

    ghost view = { λ p. in_order p.places.down (between p.places p.block) };

    ghost invariant = { λ p. AreWithin p.places (length p.block) };
}

impl Page {
    /// All records of the block are left. Takes no memory.
    pub fn new(block: Block, down: bool) -> Page
        ensures { result ≡ in_order down block }
    {
        let to = block.count();
        Page {
            block,
            places: Places { from: 0, to, down },
        }
    }

    /// Whether none is left. Takes no memory.
    pub fn is_empty(&self) -> bool
        ensures { result ≡ nat_eq (length self.now) 0 }
    {
        self.places.is_empty()
    }

    /// Leaves the next record out, and gives it if it is one of the box.
    fn step(&mut self, alloc: Global, raw_box: &RawBox) -> Result<Option<Rec>, NoMemory>
        requires some { 0 < length self.old }
        ensures shorter { length self.new < length self.old }
        ensures given { IfOk result (λ given. filter (in_box raw_box.now) self.old ≡ cons_option given (filter (in_box raw_box.now) self.new)) }
    {
        let at = self.places.take_first();
        copied(alloc, raw_box, &self.block.get(at))
    }

    /// The next record of the box, copied; `None` exactly where there is none left.
    pub fn next_in(&mut self, alloc: Global, raw_box: &RawBox) -> Result<Option<Rec>, NoMemory>
        ensures given { IfOk result (λ given. filter (in_box raw_box.now) self.old ≡ cons_option given (filter (in_box raw_box.now) self.new)) }
        ensures empty { IfOk result (λ given. IfNone given (self.new ≡ [])) }
    {
        while !self.is_empty() {
            if let Some(rec) = self.step(alloc, raw_box)? {
                return Ok(Some(rec));
            }
        }
        Ok(None)
    }
}

/// A copy of the record, if it is one of the box.
fn copied(alloc: Global, raw_box: &RawBox, rec: &RecView<'_>) -> Result<Option<Rec>, NoMemory>
    requires { IsRecord rec.now }
    ensures { IfOk result (λ given. given ≡ (if in_box raw_box.now rec.now then Some rec.now else None)) }
{
    if raw_box.admits(rec.key(), rec.ts()) {
        Ok(Some(rec.to_rec(alloc)?))
    } else {
        Ok(None)
    }
}
