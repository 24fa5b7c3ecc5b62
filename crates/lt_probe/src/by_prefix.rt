ghost use Rattle.std.specs.Prelude.{◌≡◌, ◌+◌, ◌-◌, ◌<◌, ◌≤◌, true, false, List, length, map, take, drop, slice_get, Some, IfOk, IfErr, IfSome, IsErrOf};
ghost use Rattle.std.specs.Arc.{arc_value};
ghost use Rattle.std.specs.List.{sum_by};
ghost use Rattle.lt_rec.specs.Record.{Record};
ghost use Rattle.lt_rec.specs.Records.{joined};
ghost use Rattle.lt_io.specs.Device.{Counts};
ghost use Rattle.lt_tablet.specs.Causes.{IsNoBad, IsOfFile};
ghost use Rattle.lt_tablet.specs.Loaded.{IsTold, blocks_in, records_in};
ghost use Rattle.lt_probe.specs.Causes.{IsOfOne};
ghost use Rattle.lt_probe.specs.Counting.{blocks_asked, is_behind};
ghost use Rattle.lt_probe.specs.Stems.{is_whole};
ghost use Rattle.lt_probe.specs.Latest.{IsCovered, IsLatest, IsWholeIn, is_asked, records_of};

use crate::Stem;
use crate::asked::Asked;
use crate::block::latest_in;
use lt_io::Device;
use lt_rec::{Rec, Steps};
use lt_tablet::{ReadError, Tablet};
use std::alloc::Global;
use std::sync::Arc;
use std::sync::ledger::Ledger;

/// Whether no record of the tablet is after the best one so far: all are earlier.
fn is_earlier<V: Device>(tablet: &Tablet<V>, best: &Option<Rec>) -> bool
    ensures { result ≡ is_behind tablet.now best.now }
{
    match best {
        Some(best) => tablet.listed().high < best.ts(),
        None => false,
    }
}

/// The latest record of one block of a tablet, or the best one so far.
fn latest_of_block<V: Device, L: Ledger>(
    alloc: Global,
    dev: &mut V,
    asked: &Asked,
    tablet: &Tablet<V>,
    at: u64,
    best: Option<Rec>,
    steps: &mut Steps<L>,
) -> Result<Option<Rec>, ReadError>
    requires { at < length tablet.now.index }
    ensures value { V.honest ≡ true → IfOk result (λ found. (block : List Record) → slice_get (blocks_in tablet.now) at ≡ Some block → IsLatest block asked.now.prefix asked.now.since best found) }
    ensures over_best { IfOk result (λ found. IfSome best (IsCovered found)) }
    ensures tick { steps.new ≡ steps.old + 1 }
    ensures never_bad { V.honest ≡ true → IfErr result IsNoBad }
    ensures names { IfErr result (IsOfFile tablet.now.listed.file) }
    ensures cause { Counts (V.faults dev.old) (V.faults dev.new) (IsErrOf result ReadError.Fault) }
{
    match tablet.block(alloc, dev, at, steps) {
        Ok(block) => match latest_in(alloc, &block, asked, best) {
            Ok(found) => Ok(found),
            Err(_) => Err(ReadError::NoMemory),
        },
        Err(why) => Err(why),
    }
}

/// The latest record of the blocks from one up to another, or the best one so far.
fn latest_of_blocks<V: Device, L: Ledger>(
    alloc: Global,
    dev: &mut V,
    asked: &Asked,
    tablet: &Tablet<V>,
    from: u64,
    to: u64,
    best: Option<Rec>,
    steps: &mut Steps<L>,
) -> Result<Option<Rec>, ReadError>
    requires within { to ≤ length tablet.now.index }
    requires honest { V.honest ≡ true → IsTold tablet.now }
    ensures value { V.honest ≡ true → IfOk result (IsLatest (joined (take (to - from) (drop from (blocks_in tablet.now)))) asked.now.prefix asked.now.since best) }
    ensures over_best { IfOk result (λ found. IfSome best (IsCovered found)) }
    ensures ticks { steps.new ≤ steps.old + (to - from) }
    ensures never_bad { V.honest ≡ true → IfErr result IsNoBad }
    ensures names { IfErr result (IsOfFile tablet.now.listed.file) }
    ensures cause { Counts (V.faults dev.old) (V.faults dev.new) (IsErrOf result ReadError.Fault) }
{
    let mut found = best;
    for at in from..to {
        match latest_of_block(alloc, dev, asked, tablet, at, found, steps) {
            Ok(later) => found = later,
            Err(why) => return Err(why),
        }
    }
    Ok(found)
}

/// The first block that is read of those from one up to another. The keys of a whole stem rise with their timestamps, so the
/// last block has its latest record.
fn first_read(asked: &Asked, from: u64, to: u64) -> u64
    ensures last { asked.now.whole ≡ true → from < to → result + 1 ≡ to }
    ensures part { asked.now.whole ≡ false → result ≡ from }
    ensures none { to ≤ from → result ≡ from }
{
    if asked.is_whole() && from < to {
        to - 1
    } else {
        from
    }
}

/// The latest record of one tablet, or the best one so far. No block is read of a tablet that has none after that.
fn latest_of<V: Device, L: Ledger>(
    alloc: Global,
    dev: &mut V,
    asked: &Asked,
    tablet: &Tablet<V>,
    best: Option<Rec>,
    steps: &mut Steps<L>,
) -> Result<Option<Rec>, ReadError>
    requires whole { V.honest ≡ true → asked.now.whole ≡ true → IsWholeIn (records_in tablet.now) asked.now.prefix }
    ensures value { V.honest ≡ true → IfOk result (IsLatest (records_in tablet.now) asked.now.prefix asked.now.since best) }
    ensures over_best { IfOk result (λ found. IfSome best (IsCovered found)) }
    ensures ticks { steps.new ≤ steps.old + blocks_asked asked.now best tablet.now }
    ensures never_bad { V.honest ≡ true → IfErr result IsNoBad }
    ensures names { IfErr result (IsOfFile tablet.now.listed.file) }
    ensures cause { Counts (V.faults dev.old) (V.faults dev.new) (IsErrOf result ReadError.Fault) }
{
    let count = tablet.count();
    if is_earlier(tablet, &best) {
        return Ok(best);
    }
    if asked.is_denied_by(tablet.filter()) {
        return Ok(best);
    }
    let (from, to) = tablet.index_range(asked.raw_box());
    prove!(to <= count);
    let first = first_read(asked, from, to);
    latest_of_blocks(alloc, dev, asked, tablet, first, to, best, steps)
}

/// The latest record of the tablets, or the best one so far.
fn latest_among<V: Device, L: Ledger>(
    alloc: Global,
    dev: &mut V,
    asked: &Asked,
    tablets: &[Arc<Tablet<V>>],
    best: Option<Rec>,
    steps: &mut Steps<L>,
) -> Result<Option<Rec>, ReadError>
    requires whole { V.honest ≡ true → asked.now.whole ≡ true → IsWholeIn (records_of (map arc_value tablets.now)) asked.now.prefix }
    ensures value { V.honest ≡ true → IfOk result (IsLatest (records_of (map arc_value tablets.now)) asked.now.prefix asked.now.since best) }
    ensures ticks { steps.new ≤ steps.old + sum_by (blocks_asked asked.now best) (map arc_value tablets.now) }
    ensures never_bad { V.honest ≡ true → IfErr result IsNoBad }
    ensures names { IfErr result (IsOfOne (map arc_value tablets.now)) }
    ensures cause { Counts (V.faults dev.old) (V.faults dev.new) (IsErrOf result ReadError.Fault) }
{
    let mut found = best;
    for tablet in tablets {
        match latest_of(alloc, dev, asked, tablet, found, steps) {
            Ok(later) => found = later,
            Err(why) => return Err(why),
        }
    }
    Ok(found)
}

/// The greatest by timestamp and then by key of the best record so far and of those of the tablets whose key begins with the
/// prefix and whose timestamp is at least `since`; `None` exactly where there is none. Where the prefix is a whole stem,
/// filters are asked for it.
pub fn latest<V: Device, L: Ledger>(
    alloc: Global,
    dev: &mut V,
    prefix: &[u8],
    stem: Stem,
    since: u64,
    tablets: &[Arc<Tablet<V>>],
    best: Option<Rec>,
    steps: &mut Steps<L>,
) -> Result<Option<Rec>, ReadError>
    requires whole { V.honest ≡ true → is_whole stem ≡ true → IsWholeIn (records_of (map arc_value tablets.now)) prefix.now }
    requires best { IfSome best (λ b. is_asked prefix.now since b ≡ true) }
    ensures value { V.honest ≡ true → IfOk result (IsLatest (records_of (map arc_value tablets.now)) prefix.now since best) }
    ensures ticks { steps.new ≤ steps.old + sum_by (blocks_asked (record { prefix = prefix.now; whole = is_whole stem; since = since }) best) (map arc_value tablets.now) }
    ensures never_bad { V.honest ≡ true → IfErr result IsNoBad }
    ensures names { IfErr result (IsOfOne (map arc_value tablets.now)) }
    ensures cause { Counts (V.faults dev.old) (V.faults dev.new) (IsErrOf result ReadError.Fault) }
{
    let asked = Asked::new(alloc, prefix, stem.is_whole(), since)?;
    latest_among(alloc, dev, &asked, tablets, best, steps)
}
