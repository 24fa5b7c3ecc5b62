//! A tablet file for each tablet in memory.
ghost use Rattle.std.specs.Prelude.{◌≡◌, ◌≢◌, ◌++◌, ℕ, [], List, true, IfOk, IfErr, OnOk, IsErrOf, IsErrAnd, length};
ghost use Rattle.std.specs.List.{AllByRecursion};
ghost use Rattle.lt_rec.specs.Bytes.{is_less};
ghost use Rattle.lt_rec.specs.Record.{Record};
ghost use Rattle.lt_rec.specs.Periods.{InPeriod};
ghost use Rattle.lt_mem.specs.Rising.{IsRising};
ghost use Rattle.lt_io.specs.Device.{Counts};
ghost use Rattle.lt_tablet.specs.Writing.{Wrote};
ghost use Rattle.lt_merge.specs.Flushing.{MayBeWritten, IsOutput, AreOutputs};

use crate::job::{FlushDone, FlushJob, FlushPart, FlushedPart, Ticket};
use lt_io::Device;
use lt_mem::MemTablet;
use lt_rec::{NoMemory, RawBox, RecList};
use lt_tablet::{TabletWriter, WriteError};
use std::alloc::Global;

/// Writes a file for each tablet of the job. It enters none of them, so a stop meanwhile leaves what it would have left
/// before. On a refusal the ticket comes back, and what was written is only lent.
pub fn write_flush<V: Device>(
    alloc: Global,
    dev: &mut V,
    job: FlushJob<V>,
) -> Result<FlushDone<V>, (Ticket, WriteError)>
    requires parts { AllByRecursion MayBeWritten job.parts.items }
    ensures outputs { IfOk result (λ done. AreOutputs V.honest job.parts.items done.parts.items) }
    ensures upto { IfOk result (λ done. done.upto ≡ job.upto) }
    ensures ticket { IfOk result (λ done. done.ticket ≡ job.ticket) }
    ensures ticket_back { IfErr result (λ refused. refused.0 ≡ job.ticket) }
    ensures cause { Counts (V.faults dev.old) (V.faults dev.new) (IsErrAnd result (λ refused. refused.1 ≡ WriteError.Fault)) }
{
    let FlushJob {
        parts,
        upto,
        ticket,
    } = job;
    match write_parts(alloc, dev, parts) {
        Ok(parts) => Ok(FlushDone {
            parts,
            upto,
            ticket,
        }),
        Err(refused) => Err((ticket, refused)),
    }
}

fn write_parts<V: Device>(
    alloc: Global,
    dev: &mut V,
    parts: Vec<FlushPart<V>>,
) -> Result<Vec<FlushedPart<V>>, WriteError>
    requires parts { AllByRecursion MayBeWritten parts.items }
    ensures written { IfOk result (λ written. AreOutputs V.honest parts.items written.items) }
    ensures cause { Counts (V.faults dev.old) (V.faults dev.new) (IsErrOf result WriteError.Fault) }
{
    let mut written = Vec::new(alloc);
    for part in parts {
        written.push(write_part(alloc, dev, part)?)?;
    }
    Ok(written)
}

fn write_part<V: Device>(
    alloc: Global,
    dev: &mut V,
    part: FlushPart<V>,
) -> Result<FlushedPart<V>, WriteError>
    requires ready { MayBeWritten part }
    ensures written { IfOk result (λ output. IsOutput V.honest part output) }
    ensures cause { Counts (V.faults dev.old) (V.faults dev.new) (IsErrOf result WriteError.Fault) }
{
    let (tablet, recs, period, lent) = part.into_parts();
    let mut writer = TabletWriter::new(alloc, dev, lent, period)?;
    add_all(dev, &mut writer, all_of(alloc, &recs)?)?;
    Ok(FlushedPart::new(tablet, writer.finish(dev)?))
}

/// All records of the tablet, in the order of their keys. Copies pointers and no record.
fn all_of(alloc: Global, recs: &MemTablet) -> Result<RecList, NoMemory>
    ensures all { IfOk result (λ list. list ≡ recs.now) }
    ensures rising { IfOk result (λ list. IsRising list) }
{
    match recs.span() {
        None => Ok(RecList::new(alloc)),
        Some((from, to)) => {
            let all_times = RawBox {
                lo: None,
                hi: None,
                from,
                to,
            };
            // A record takes more bytes than one, so this limit cuts none off.
            recs.walk(&all_times, false, recs.bytes())
        }
    }
}

/// Writes the records, whose keys rise.
fn add_all<V: Device>(
    dev: &mut V,
    writer: &mut TabletWriter<V>,
    mut left: RecList,
) -> Result<(), WriteError>
    requires begun { Wrote V.honest writer.old [] }
    requires rising { IsRising left }
    requires timed { AllByRecursion (λ r. InPeriod writer.old.period r.ts) left }
    ensures written { OnOk result (Wrote V.honest writer.new left) }
    ensures number { writer.new.number ≡ writer.old.number }
    ensures period { writer.new.period ≡ writer.old.period }
    ensures cause { Counts (V.faults dev.old) (V.faults dev.new) (IsErrOf result WriteError.Fault) }
{
    while let Some(rec) = left.first() {
        // A key has eight bytes at least, so the first one is above none.
        let _key = rec.key();
        writer.add(dev, rec)?;
        left.skip_first();
    }
    Ok(())
}
