ghost use Rattle.std.specs.Prelude.{◌≡◌, ◌+◌, true, [], filter, IfOk, IfErr, IfSome, IfNone, IsErrOf};
ghost use Rattle.std.specs.Arc.{arc_value};
ghost use Rattle.std.specs.List.{cons_option};
ghost use Rattle.lt_io.specs.Device.{Counts};
ghost use Rattle.lt_rec.specs.Boxes.{in_box};
ghost use Rattle.lt_tablet.specs.Loaded.{records_in};
ghost use Rattle.lt_tablet.specs.Causes.{IsNoBad};
ghost use Rattle.lt_cursor.specs.Boxed.{range_len};
ghost use Rattle.lt_cursor.specs.Order.{in_order, IsInOrder};
ghost use Rattle.lt_cursor.specs.Refusals.{IsNoFault};
ghost use Rattle.lt_cursor.specs.Strands.{left_of, strand_in_memory};

use crate::tablet_scan::TabletScan;
use lt_io::Device;
use lt_rec::{NoMemory, RawBox, Rec, RecList, Steps};
use lt_tablet::{ReadError, Tablet};
use std::alloc::Global;
use std::marker::Model;
use std::sync::Arc;
use std::sync::ledger::Ledger;

#[derive(Drop)]
pub enum Kind<V: Device> {
    Tablet(TabletScan<V>),
    Memory(RecList),
}

/// A tablet or a list in memory. Contracts see what is left of it.
#[derive(Drop)]
pub struct Source<V: Device> {
    kind: Kind<V>,
}

impl<V: Device> Model for Source<V> {
    ghost use Rattle.lt_cursor.specs.Strands.{Strand};

    ghost Value = { Strand };

    ghost use Rattle.lt_cursor.specs.Kinds.{strand_of_kind};

    ghost view = { λ s. strand_of_kind s.kind };
}

impl<V: Device> Source<V> {
    /// The tablet's blocks that may have records of the box. Takes no memory.
    pub fn of_tablet(tablet: Arc<Tablet<V>>, raw_box: &RawBox, down: bool) -> Source<V>
        ensures blocks { result.blocks ≡ range_len raw_box.now (arc_value tablet) }
        ensures records { V.honest ≡ true → left_of raw_box.now result ≡ filter (in_box raw_box.now) (in_order down (records_in (arc_value tablet))) }
        ensures ordered { V.honest ≡ true → IsInOrder down (in_order down (records_in (arc_value tablet))) }
    {
        Source {
            kind: Kind::Tablet(TabletScan::new(tablet, raw_box, down)),
        }
    }

    /// The list, which is in the order of reading. Takes no memory.
    pub fn of_list(list: RecList) -> Source<V>
        ensures { result ≡ strand_in_memory list }
    {
        Source {
            kind: Kind::Memory(list),
        }
    }

    /// A refusal that names the tablet's file; `None` for a list. Takes no memory.
    pub fn damage(&self) -> Option<ReadError>
        ensures { IfSome result (λ why. IsNoFault why) }
    {
        match &self.kind {
            Kind::Tablet(scan) => Some(scan.damage()),
            Kind::Memory(_) => None,
        }
    }

    /// The next record of the box; `None` exactly where there is none left.
    pub fn next<L: Ledger>(
        &mut self,
        alloc: Global,
        dev: &mut V,
        raw_box: &RawBox,
        steps: &mut Steps<L>,
    ) -> Result<Option<Rec>, ReadError>
        ensures given { V.honest ≡ true → IfOk result (λ given. left_of raw_box.now self.old ≡ cons_option given (left_of raw_box.now self.new)) }
        ensures empty { V.honest ≡ true → IfOk result (λ given. IfNone given (left_of raw_box.now self.new ≡ [])) }
        ensures ticks { steps.new + self.new.blocks ≡ steps.old + self.old.blocks }
        ensures never_bad { V.honest ≡ true → IfErr result (λ why. IsNoBad why) }
        ensures cause { Counts (V.faults dev.old) (V.faults dev.new) (IsErrOf result ReadError.Fault) }
    {
        match &mut self.kind {
            Kind::Tablet(scan) => scan.next(alloc, dev, raw_box, steps),
            Kind::Memory(list) => Ok(next_in_list(list, raw_box)?),
        }
    }
}

/// The list's next record of the box, copied; `None` exactly where there is none left.
fn next_in_list(list: &mut RecList, raw_box: &RawBox) -> Result<Option<Rec>, NoMemory>
    ensures given { IfOk result (λ given. filter (in_box raw_box.now) list.old ≡ cons_option given (filter (in_box raw_box.now) list.new)) }
    ensures empty { IfOk result (λ given. IfNone given (list.new ≡ [])) }
{
    while let Some(rec) = list.first() {
        if raw_box.has(rec) {
            let given = rec.clone()?;
            list.skip_first();
            return Ok(Some(given));
        }
        list.skip_first();
    }
    Ok(None)
}
