// The listed tablets, one after the other.
ghost use Rattle.std.specs.Prelude.{◌≡◌, ◌<◌, ◌^◌, true, Some, None, Ok, All, map, OnOk, IfOk, IfErr, IsErrOf, Contains};
ghost use Rattle.std.specs.Arc.{arc_value};
ghost use Rattle.lt_io.specs.Device.{Counts};
ghost use Rattle.lt_io.specs.Directory.{file_at};
ghost use Rattle.lt_rec.specs.Record.{Record as RecordOf};
ghost use Rattle.lt_commit.specs.Anchored.{IsAnchored};
ghost use Rattle.lt_tablet.specs.Loaded.{IsTold, Loaded, blocks_in, records_in};
ghost use Rattle.lt_loading.specs.Rows.{IsOfRow, blocks_at};
ghost use Rattle.lt_loading.specs.Found.{Finds, IsSound, RefusesBlocks, all_found, found_in, noted_of};

use crate::LoadRefusal;
use crate::rows::first_fault;
use lt_commit::Anchor;
use lt_io::Device;
use lt_rec::{Listed, Steps};
use lt_schema::Schemas;
use lt_tablet::Tablet;
use std::alloc::Global;
use std::sync::Arc;
use std::sync::ledger::Ledger;

/// Checks that each record is one of a row, block by block.
fn check_rows<V: Device, L: Ledger>(
    alloc: Global,
    dev: &mut V,
    schemas: &Schemas,
    tablet: &Tablet<V>,
    steps: &mut Steps<L>,
) -> Result<(), LoadRefusal>
    requires in_range { tablet.now.listed.bytes < 2 ^ 64 }
    ensures told { V.honest ≡ true → IsTold tablet.now }
    ensures rows { V.honest ≡ true → OnOk result ((rec : RecordOf) → Contains (records_in tablet.now) rec → IsOfRow schemas.now rec) }
    ensures read { V.honest ≡ true → OnOk result (blocks_at schemas.now 8 (blocks_in tablet.now) ≡ Ok tt) }
    ensures fault { V.honest ≡ true → IfErr result (RefusesBlocks tablet.now.listed.file (blocks_at schemas.now 8 (blocks_in tablet.now))) }
    ensures cause { Counts (V.faults dev.old) (V.faults dev.new) (IsErrOf result LoadRefusal.Fault) }
{
    let file = tablet.listed().file;
    for i in 0..tablet.count() {
        let block = tablet.block(alloc, dev, i, steps)?;
        match first_fault(alloc, schemas, &block)? {
            None => {}
            Some(place) => {
                let at = tablet.start(i).saturating_add(block.at(place));
                return Err(LoadRefusal::BadTablet { file, at });
            }
        }
    }
    Ok(())
}

/// One listed tablet.
fn load_tablet<V: Device, L: Ledger>(
    alloc: Global,
    dev: &mut V,
    anchor: &Anchor<V>,
    schemas: &Schemas,
    listed: Listed,
    steps: &mut Steps<L>,
) -> Result<Tablet<V>, LoadRefusal>
    ensures exact { V.honest ≡ true → Finds noted_of result (found_in schemas.now listed (file_at anchor.now.directory.seen.files listed.file)) }
    ensures listed { IfOk result (λ t. t.listed ≡ listed) }
    ensures sound { V.honest ≡ true → IfOk result (IsSound schemas.now anchor.now.directory.seen.files) }
    ensures cause { Counts (V.faults dev.old) (V.faults dev.new) (IsErrOf result LoadRefusal.Fault) }
{
    let Some(reader) = anchor.fetch(dev, listed.file)? else {
        return Err(LoadRefusal::Missing { file: listed.file });
    };
    let tablet = Tablet::load(alloc, dev, reader, listed)?;
    check_rows(alloc, dev, schemas, &tablet, steps)?;
    Ok(tablet)
}

/// The listed tablets, in the order of the list. Each file has to be there, to keep its format, and to have records of rows
/// alone; the first file that doesn't decides.
pub fn load_tablets<V: Device, L: Ledger>(
    alloc: Global,
    dev: &mut V,
    anchor: &Anchor<V>,
    schemas: &Schemas,
    listed: &[Listed],
    steps: &mut Steps<L>,
) -> Result<Vec<Arc<Tablet<V>>>, LoadRefusal>
    ensures listed { IfOk result (λ tablets. map (λ (t : Loaded). t.listed) (map arc_value tablets.items) ≡ listed.now) }
    // Where the device tells what it holds: the tablets with their records, or the refusal, are what the files have.
    ensures exact { V.honest ≡ true → Finds (λ tablets. map noted_of (map arc_value tablets.items)) result (all_found schemas.now anchor.now.directory.seen.files listed.now) }
    ensures sound { V.honest ≡ true → IfOk result (λ tablets. All (IsSound schemas.now anchor.now.directory.seen.files) (map arc_value tablets.items)) }
    ensures cause { Counts (V.faults dev.old) (V.faults dev.new) (IsErrOf result LoadRefusal.Fault) }
{
    let mut tablets = Vec::new(alloc);
    for entry in listed {
        let tablet = load_tablet(alloc, dev, anchor, schemas, *entry, steps)?;
        tablets.push(Arc::new(alloc, tablet)?)?;
    }
    Ok(tablets)
}
