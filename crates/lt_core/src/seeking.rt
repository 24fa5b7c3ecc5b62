// Where a key is sought in the files of listed tablets.
ghost use Rattle.std.specs.Prelude.{◌≡◌, ◌<◌, ◌≤◌, ◌+◌, ℕ, true, map, count_by, Contains, IfOk, IfErr, IfSome, IfNone, IsErrOf, if◌then◌else◌};
ghost use Rattle.std.specs.Arc.{arc_value};
ghost use Rattle.lt_rec.specs.Record.{Record};
ghost use Rattle.lt_io.specs.Device.{Counts};
ghost use Rattle.lt_tablet.specs.Causes.{IsNoBad};
ghost use Rattle.lt_tablet.specs.Loaded.{records_in};
ghost use Rattle.lt_probe.specs.Keys.{HasNumber};
ghost use Rattle.lt_core.specs.Parts.{sealed};
ghost use Rattle.lt_core.specs.Inserts.{is_probed, IsListedIn, NoneListedFrom};

use lt_io::Device;
use lt_probe::present;
use lt_rec::Steps;
use lt_tablet::{ReadError, Tablet};
use std::alloc::Global;
use std::slice;
use std::sync::Arc;
use std::sync::ledger::Ledger;

/// The number of a record of the tablet that has the key; `None` where each that has it is numbered below `clear`.
fn number_in<V: Device, L: Ledger>(
    alloc: Global,
    dev: &mut V,
    key: &[u8],
    clear: u64,
    tablet: &Arc<Tablet<V>>,
    steps: &mut Steps<L>,
) -> Result<Option<u64>, ReadError>
    ensures found { V.honest ≡ true → IfOk result (λ found. IfSome found (HasNumber (records_in (arc_value tablet.now)) key.now)) }
    ensures none { V.honest ≡ true → IfOk result (λ found. IfNone found ((rec : Record) → Contains (records_in (arc_value tablet.now)) rec → rec.key ≡ key.now → rec.seq < clear)) }
    ensures ticks { steps.new ≤ steps.old + (if is_probed key.now clear (arc_value tablet.now) then 1 else 0) }
    ensures never_bad { V.honest ≡ true → IfErr result IsNoBad }
    ensures cause { Counts (V.faults dev.old) (V.faults dev.new) (IsErrOf result ReadError.Fault) }
{
    // That its listing tells its records' greatest number is known once its blocks are counted.
    let _count = tablet.count();
    if tablet.listed().last < clear {
        return Ok(None);
    }
    present(alloc, dev, key, slice::from_ref(tablet), steps)
}

/// The number of a record of one of the tablets that has the key; `None` where each that has it is numbered below `clear`.
/// Only tablets that have a number from there on are read.
pub(crate) fn number_among<V: Device, L: Ledger>(
    alloc: Global,
    dev: &mut V,
    key: &[u8],
    clear: u64,
    tablets: &[Arc<Tablet<V>>],
    steps: &mut Steps<L>,
) -> Result<Option<u64>, ReadError>
    ensures found { V.honest ≡ true → IfOk result (λ found. IfSome found (IsListedIn (map (λ tablet. sealed (arc_value tablet)) tablets.now) key.now)) }
    ensures none { V.honest ≡ true → IfOk result (λ found. IfNone found (NoneListedFrom (map (λ tablet. sealed (arc_value tablet)) tablets.now) key.now clear)) }
    ensures ticks { steps.new ≤ steps.old + count_by (is_probed key.now clear) (map arc_value tablets.now) }
    ensures never_bad { V.honest ≡ true → IfErr result IsNoBad }
    ensures cause { Counts (V.faults dev.old) (V.faults dev.new) (IsErrOf result ReadError.Fault) }
{
    for tablet in tablets {
        match number_in(alloc, dev, key, clear, tablet, steps) {
            Ok(None) => {}
            Ok(Some(seq)) => return Ok(Some(seq)),
            Err(why) => return Err(why),
        }
    }
    Ok(None)
}
