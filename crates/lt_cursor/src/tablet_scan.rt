ghost use Rattle.std.specs.Prelude.{◌≡◌, ◌+◌, ◌<◌, true, [], ◌++◌, filter, OnOk, IfOk, IfErr, IfNone, IsErrOf};
ghost use Rattle.std.specs.List.{cons_option};
ghost use Rattle.std.specs.Arc.{arc_value};
ghost use Rattle.lt_io.specs.Device.{Counts};
ghost use Rattle.lt_rec.specs.Boxes.{in_box};
ghost use Rattle.lt_tablet.specs.Loaded.{records_in};
ghost use Rattle.lt_tablet.specs.Causes.{IsNoBad};
ghost use Rattle.lt_cursor.specs.Boxed.{range_len};
ghost use Rattle.lt_cursor.specs.Order.{in_order, IsInOrder};
ghost use Rattle.lt_cursor.specs.Refusals.{IsNoFault};
ghost use Rattle.lt_cursor.specs.Strands.{left_of};

use crate::page::Page;
use crate::places::Places;
use lt_io::Device;
use lt_rec::{NoMemory, RawBox, Rec, Steps};
use lt_tablet::{ReadError, Tablet};
use std::alloc::Global;
use std::marker::Model;
use std::sync::Arc;
use std::sync::ledger::Ledger;

/// A tablet as a source: the places of its blocks that are still to be read, and what is left of the block that was read
/// last. Contracts see what is left.
#[derive(Drop)]
pub struct TabletScan<V: Device> {
    tablet: Arc<Tablet<V>>,
    places: Places,
    page: Option<Page>,
}

impl<V: Device> Model for TabletScan<V> {
    ghost use Rattle.std.specs.Arc.{arc_value};
    ghost use Rattle.std.specs.Prelude.{length};
    ghost use Rattle.lt_cursor.specs.Places.{AreWithin};
    ghost use Rattle.lt_cursor.specs.Strands.{Strand, strand_of};

    ghost Value = { Strand };

    ghost view = { λ s. strand_of (arc_value s.tablet) s.places s.page };

    ghost invariant = { λ s. AreWithin s.places (length (arc_value s.tablet).index) };
}

impl<V: Device> TabletScan<V> {
    /// The tablet's blocks that may have records of the box are still to be read. Takes no memory.
    pub fn new(tablet: Arc<Tablet<V>>, raw_box: &RawBox, down: bool) -> TabletScan<V>
        ensures blocks { result.blocks ≡ range_len raw_box.now (arc_value tablet) }
        ensures records { V.honest ≡ true → left_of raw_box.now result ≡ filter (in_box raw_box.now) (in_order down (records_in (arc_value tablet))) }
        ensures ordered { V.honest ≡ true → IsInOrder down (in_order down (records_in (arc_value tablet))) }
    {
        let (from, to) = tablet.index_range(raw_box);
        // What a tablet keeps of the order of its records is said by its count.
        let _blocks = tablet.count();
        TabletScan {
            tablet,
            places: Places { from, to, down },
            page: None,
        }
    }

    /// A refusal that names the tablet's file. Takes no memory.
    pub fn damage(&self) -> ReadError
        ensures { IsNoFault result }
    {
        let file = self.tablet.listed().file;
        ReadError::Bad { file, at: 8 }
    }

    /// Reads the next block, which is counted.
    fn read<L: Ledger>(
        &mut self,
        alloc: Global,
        dev: &mut V,
        steps: &mut Steps<L>,
    ) -> Result<(), ReadError>
        requires some { 0 < self.old.blocks }
        ensures tick { steps.new ≡ steps.old + 1 }
        ensures blocks { self.new.blocks + 1 ≡ self.old.blocks }
        ensures value { V.honest ≡ true → OnOk result (self.new.held ++ self.new.unread ≡ self.old.unread) }
        ensures never_bad { V.honest ≡ true → IfErr result (λ why. IsNoBad why) }
        ensures cause { Counts (V.faults dev.old) (V.faults dev.new) (IsErrOf result ReadError.Fault) }
    {
        let at = self.places.take_first();
        let block = self.tablet.block(alloc, dev, at, steps)?;
        self.page = Some(Page::new(block, self.places.down));
        Ok(())
    }

    /// The next record of the box in the block that is held; the block is let go when there is none left.
    fn next_held(&mut self, alloc: Global, raw_box: &RawBox) -> Result<Option<Rec>, NoMemory>
        ensures given { IfOk result (λ given. left_of raw_box.now self.old ≡ cons_option given (left_of raw_box.now self.new)) }
        ensures empty { IfOk result (λ given. IfNone given (self.new.held ≡ [])) }
        ensures unread { self.new.unread ≡ self.old.unread }
        ensures blocks { self.new.blocks ≡ self.old.blocks }
    {
        let Some(page) = &mut self.page else {
            return Ok(None);
        };
        let given = page.next_in(alloc, raw_box)?;
        if page.is_empty() {
            self.page = None;
        }
        Ok(given)
    }

    /// The next record of the box; `None` exactly where there is none left. Blocks are read, and counted, up to the one
    /// that has it.
    pub fn next<L: Ledger>(
        &mut self,
        alloc: Global,
        dev: &mut V,
        raw_box: &RawBox,
        steps: &mut Steps<L>,
    ) -> Result<Option<Rec>, ReadError>
        ensures given { V.honest ≡ true → IfOk result (λ given. left_of raw_box.now self.old ≡ cons_option given (left_of raw_box.now self.new)) }
        ensures empty { V.honest ≡ true → IfOk result (λ given. IfNone given (left_of raw_box.now self.new ≡ [])) }
        ensures ticks { steps.new + self.new.blocks ≡ steps.old + self.old.blocks }
        ensures never_bad { V.honest ≡ true → IfErr result (λ why. IsNoBad why) }
        ensures cause { Counts (V.faults dev.old) (V.faults dev.new) (IsErrOf result ReadError.Fault) }
    {
        loop {
            if let Some(rec) = self.next_held(alloc, raw_box)? {
                return Ok(Some(rec));
            }
            if self.places.is_empty() {
                return Ok(None);
            }
            self.read(alloc, dev, steps)?;
        }
    }
}
