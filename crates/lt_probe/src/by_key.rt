ghost use Rattle.std.specs.Prelude.{◌≡◌, ◌+◌, ◌≤◌, ◌&&◌, true, map, count_by, nat_le, IfOk, IfErr, IfSome, IfNone, IsErrOf, if◌then◌else◌};
ghost use Rattle.std.specs.Arc.{arc_value};
ghost use Rattle.lt_io.specs.Device.{Counts};
ghost use Rattle.lt_tablet.specs.Causes.{IsNoBad, IsOfFile};
ghost use Rattle.lt_tablet.specs.Loaded.{records_in};
ghost use Rattle.lt_probe.specs.Keys.{HasNumber, NoneHas, may_have_key};
ghost use Rattle.lt_probe.specs.Causes.{IsOfOne};
ghost use Rattle.lt_probe.specs.Latest.{records_of};
ghost use Rattle.lt_probe.specs.Sought.{IsSought};

use crate::block::number_in;
use crate::sought::Sought;
use lt_io::Device;
use lt_rec::{Rec, Steps};
use lt_tablet::{ReadError, Tablet};
use std::alloc::Global;
use std::sync::Arc;
use std::sync::ledger::Ledger;

/// Whether some timestamp of the tablet may be this one.
fn may_have_time<V: Device>(tablet: &Tablet<V>, time: u64) -> bool
    ensures { result ≡ (nat_le tablet.now.listed.low time && nat_le time tablet.now.listed.high) }
{
    let listed = tablet.listed();
    listed.low <= time && time <= listed.high
}

/// The number of the record of one tablet that has the key. A block is read only where the tablet may have the key.
fn number_of<V: Device, L: Ledger>(
    alloc: Global,
    dev: &mut V,
    key: &[u8],
    sought: &Sought,
    tablet: &Tablet<V>,
    steps: &mut Steps<L>,
) -> Result<Option<u64>, ReadError>
    requires sought { IsSought key.now sought.now }
    ensures found { V.honest ≡ true → IfOk result (λ found. IfSome found (HasNumber (records_in tablet.now) key.now)) }
    ensures none { V.honest ≡ true → IfOk result (λ found. IfNone found (NoneHas (records_in tablet.now) key.now)) }
    ensures ticks { steps.new ≤ steps.old + (if may_have_key key.now tablet.now then 1 else 0) }
    ensures never_bad { V.honest ≡ true → IfErr result IsNoBad }
    ensures names { IfErr result (IsOfFile tablet.now.listed.file) }
    ensures cause { Counts (V.faults dev.old) (V.faults dev.new) (IsErrOf result ReadError.Fault) }
{
    let count = tablet.count();
    if key.len() < Rec::SHORTEST_KEY {
        return Ok(None);
    }
    if !may_have_time(tablet, sought.raw_box.from) {
        return Ok(None);
    }
    if !tablet.filter().may(sought.hash) {
        return Ok(None);
    }
    let (from, to) = tablet.index_range(&sought.raw_box);
    prove!(to <= count);
    if from >= to {
        return Ok(None);
    }
    let block = tablet.block(alloc, dev, from, steps)?;
    Ok(number_in(&block, key, &sought.cut))
}

/// The number of a record of some tablet that has the key.
fn number_among<V: Device, L: Ledger>(
    alloc: Global,
    dev: &mut V,
    key: &[u8],
    sought: &Sought,
    tablets: &[Arc<Tablet<V>>],
    steps: &mut Steps<L>,
) -> Result<Option<u64>, ReadError>
    requires sought { IsSought key.now sought.now }
    ensures found { V.honest ≡ true → IfOk result (λ found. IfSome found (HasNumber (records_of (map arc_value tablets.now)) key.now)) }
    ensures none { V.honest ≡ true → IfOk result (λ found. IfNone found (NoneHas (records_of (map arc_value tablets.now)) key.now)) }
    ensures ticks { steps.new ≤ steps.old + count_by (may_have_key key.now) (map arc_value tablets.now) }
    ensures never_bad { V.honest ≡ true → IfErr result IsNoBad }
    ensures names { IfErr result (IsOfOne (map arc_value tablets.now)) }
    ensures cause { Counts (V.faults dev.old) (V.faults dev.new) (IsErrOf result ReadError.Fault) }
{
    for tablet in tablets {
        match number_of(alloc, dev, key, sought, tablet, steps) {
            Ok(None) => {}
            Ok(Some(seq)) => return Ok(Some(seq)),
            Err(why) => return Err(why),
        }
    }
    Ok(None)
}

/// The number of a record that has the key; `None` exactly where there is none. At most one block of a tablet is read, and
/// none of one whose timestamps, filter and index don't all admit the key.
pub fn present<V: Device, L: Ledger>(
    alloc: Global,
    dev: &mut V,
    key: &[u8],
    tablets: &[Arc<Tablet<V>>],
    steps: &mut Steps<L>,
) -> Result<Option<u64>, ReadError>
    ensures found { V.honest ≡ true → IfOk result (λ found. IfSome found (HasNumber (records_of (map arc_value tablets.now)) key.now)) }
    ensures none { V.honest ≡ true → IfOk result (λ found. IfNone found (NoneHas (records_of (map arc_value tablets.now)) key.now)) }
    ensures ticks { steps.new ≤ steps.old + count_by (may_have_key key.now) (map arc_value tablets.now) }
    ensures never_bad { V.honest ≡ true → IfErr result IsNoBad }
    ensures names { IfErr result (IsOfOne (map arc_value tablets.now)) }
    ensures cause { Counts (V.faults dev.old) (V.faults dev.new) (IsErrOf result ReadError.Fault) }
{
    let sought = Sought::new(alloc, key)?;
    number_among(alloc, dev, key, &sought, tablets, steps)
}
