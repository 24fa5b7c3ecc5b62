//! A run of a session: the source is read, the table is loaded, the lines are looked through and answered.
ghost use Rattle.std.specs.Prelude.{◌≡◌, ◌≢◌, ◌≤◌, [], IfOk, IfErr, IfSome, IsErrOf, IsSome, OnOk};
ghost use Rattle.lt_io.specs.Cause.{Rose};
ghost use Rattle.lt_io.specs.Device.{Counts};
ghost use Rattle.lt_commit.specs.Anchored.{newest};
ghost use Rattle.lt_commit.specs.declared.errors.LoadError.TheVariants.{Fault as LoadFault};
ghost use Rattle.lt_model.specs.Legal.{IsLegal};
ghost use Rattle.lt_serve.specs.Session.{IsBuilt};
ghost use Rattle.lt_serve.specs.Growing.{meter, IsAnswered};
ghost use Rattle.lt_serve.specs.Loading.{FindsTable, IsUnanswered};
ghost use Rattle.lt_serve.specs.Ended.{Ends, TellsSession, OwesAnswer, OwesSession};
ghost use Rattle.lt_serve.specs.Output.{IsAfterReading, WritesRefusal};
ghost use Rattle.lt_serve.specs.Untouched.{StandsBefore};

use crate::Status;
use crate::looking::{Outlook, look_through};
use crate::output::write_text;
use crate::refusals::SessionError;
use crate::refusing::refuse;
use crate::session::session_over;
use crate::store::Store;
use lt_commit::{Anchor, LoadError};
use lt_desc::Stone;
use lt_io::{Clock, Device, Sink, Source, read_all};
use lt_plain::ListTable;
use lt_rec::{NoMemory, Octets};
use std::alloc::Global;

/// The table that a stone tells of. None where it has rows in files, which aren't read yet.
fn table_of(alloc: Global, stone: &Stone) -> Result<Option<ListTable>, NoMemory>
    ensures { IfOk result (FindsTable stone.now) }
{
    if !stone.tablets().is_empty() {
        return Ok(None);
    }
    let schemas = stone.schemas().clone()?;
    let kept = stone.kept();
    let rows = Vec::new(alloc);
    let table = ListTable::open(schemas, stone.ttl(), stone.low(), kept, kept, rows);
    Ok(Some(table))
}

/// The table that the newest stone tells of.
fn opened<V: Device>(alloc: Global, anchor: &Anchor<V>) -> Result<Option<ListTable>, NoMemory>
    requires { IsSome (newest anchor.now.may) }
    ensures { IfOk result (λ found. IfSome (newest anchor.now.may) (λ stone. FindsTable stone found)) }
{
    match anchor.stone() {
        Some(stone) => table_of(alloc, stone),
        None => unreachable!(),
    }
}

/// The text of the session, unless a line can't be answered yet: then none is.
fn answered<V: Device, C: Clock>(
    alloc: Global,
    store: &mut Store<V>,
    device: &mut V,
    clock: &C,
    input: &[u8],
) -> Result<Octets, SessionError>
    requires opens { IsLegal (record { opening = store.old.table; entries = [] }) }
    ensures built { OnOk result (IsBuilt input.now) }
    ensures answered { IfOk result (IsAnswered V.honest (C.shows clock.now) store.old.table store.new.table (meter (V.faults device.old) store.old.next_file store.old.anchor.directory) (meter (V.faults device.new) store.new.next_file store.new.anchor.directory) input.now) }
    ensures unanswered { IfErr result (IsUnanswered V.honest (C.shows clock.now) store.old.table store.new.table (meter (V.faults device.old) store.old.next_file store.old.anchor.directory) (meter (V.faults device.new) store.new.next_file store.new.anchor.directory) input.now) }
    ensures later { V.faults device.old ≤ V.faults device.new }
{
    match look_through(alloc, input)? {
        Outlook::Clear { client } => Ok(session_over(alloc, store, device, clock, client, input)?),
        Outlook::Other { line } => Err(SessionError::NotYet { line }),
    }
}

/// What the session over an input gives, and the directory after it.
fn session_in<V: Device, C: Clock>(
    alloc: Global,
    input: &[u8],
    dir: V::Dir,
    device: &mut V,
    clock: &C,
) -> (Result<Octets, SessionError>, V::Dir)
    ensures ends { Ends V.honest (C.shows clock.now) input.now (V.directory dir) (V.directory result.1) (V.faults device.old) (V.faults device.new) result.0 }
    ensures cause { Counts (V.faults device.old) (V.faults device.new) (IsErrOf result.0 (SessionError.Load LoadFault)) }
{
    let (anchor, next_file) = match Anchor::load(alloc, device, dir) {
        Ok(loaded) => loaded,
        Err((dir, why)) => return (Err(SessionError::Load(why)), dir),
    };
    let table = match opened(alloc, &anchor) {
        Ok(Some(table)) => table,
        Ok(None) => return (Err(SessionError::NotYet { line: 0 }), anchor.into_dir()),
        Err(NoMemory) => {
            let why = SessionError::Load(LoadError::NoMemory);
            return (Err(why), anchor.into_dir());
        }
    };
    let mut store = Store::new(table, anchor, next_file);
    let text = answered(alloc, &mut store, device, clock, input);
    (text, store.into_dir())
}

fn tell<K: Sink>(alloc: Global, sink: &mut K, ended: Result<Octets, SessionError>) -> Status
    ensures told { TellsSession ended result (K.held sink.old) (K.held sink.new) (K.faults sink.old) (K.faults sink.new) }
    ensures after_reading { IsAfterReading result }
    ensures refusal { WritesRefusal result (K.held sink.old) (K.held sink.new) (K.faults sink.old) (K.faults sink.new) }
    ensures later { K.faults sink.old ≤ K.faults sink.new }
{
    match ended {
        Ok(text) => write_text(sink, text.as_slice()),
        Err(why) => refuse(alloc, sink, Status::from(why)),
    }
}

fn answer<K: Sink, V: Device, C: Clock>(
    alloc: Global,
    sink: &mut K,
    input: &[u8],
    dir: V::Dir,
    device: &mut V,
    clock: &C,
) -> (Status, V::Dir)
    ensures owes { OwesAnswer V.honest (C.shows clock.now) input.now (V.directory dir) (V.directory result.1) (V.faults device.old) (V.faults device.new) (K.held sink.old) (K.held sink.new) (K.faults sink.old) (K.faults sink.new) result.0 }
    ensures after_reading { IsAfterReading result.0 }
    ensures refusal { WritesRefusal result.0 (K.held sink.old) (K.held sink.new) (K.faults sink.old) (K.faults sink.new) }
    ensures sink_count { K.faults sink.old ≤ K.faults sink.new }
    ensures device { Counts (V.faults device.old) (V.faults device.new) (result.0 ≡ Status.DeviceFault) }
{
    let (ended, dir) = session_in(alloc, input, dir, device, clock);
    (tell(alloc, sink, ended), dir)
}

/// Reads the whole source, and then answers its lines over the table in the directory.
pub fn serve<S: Source, K: Sink, V: Device, C: Clock>(
    alloc: Global,
    source: &mut S,
    sink: &mut K,
    dir: V::Dir,
    device: &mut V,
    clock: &C,
) -> (Status, V::Dir)
    ensures owes { OwesSession V.honest (C.shows clock.now) (S.left source.old) (S.left source.new) (V.directory dir) (V.directory result.1) (V.faults device.old) (V.faults device.new) (K.held sink.old) (K.held sink.new) (K.faults sink.old) (K.faults sink.new) result.0 }
    ensures form { result.0 ≢ Status.Usage }
    ensures untouched { StandsBefore result.0 → (result.1 ≡ dir) × (device.new ≡ device.old) }
    ensures refusal { WritesRefusal result.0 (K.held sink.old) (K.held sink.new) (K.faults sink.old) (K.faults sink.new) }
    ensures source_fault { result.0 ≡ Status.SourceFault → Rose (S.faults source.old) (S.faults source.new) }
    ensures source_count { S.faults source.old ≤ S.faults source.new }
    ensures sink_count { K.faults sink.old ≤ K.faults sink.new }
    ensures device { Counts (V.faults device.old) (V.faults device.new) (result.0 ≡ Status.DeviceFault) }
{
    match read_all(alloc, source) {
        Ok(input) => answer(alloc, sink, input.as_slice(), dir, device, clock),
        Err(why) => (refuse(alloc, sink, Status::from(why)), dir),
    }
}
