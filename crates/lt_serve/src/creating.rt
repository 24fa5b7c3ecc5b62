//! Making an empty table.
ghost use Rattle.std.specs.Prelude.{◌≡◌, ◌≤◌, ◌<◌, ◌^◌, IfErr, IfSome, IsErrOf};
ghost use Rattle.lt_io.specs.Device.{Counts};
ghost use Rattle.lt_commit.specs.declared.errors.CreateError.TheVariants.{Fault as CreateFault};
ghost use Rattle.lt_serve.specs.Made.{Makes, OwesTable, TellsMaking, IsTextRefusal};
ghost use Rattle.lt_serve.specs.Output.{WritesRefusal};
ghost use Rattle.lt_serve.specs.Untouched.{StandsBefore};

use crate::Status;
use crate::output::write_text;
use crate::refusals::MakeError;
use crate::refusing::refuse;
use lt_commit::Anchor;
use lt_io::{Device, Sink};
use lt_json::schema_from_json;
use std::alloc::Global;

/// Makes an empty table of the schema that the text says. A text that says none calls no device.
fn make<V: Device>(
    alloc: Global,
    device: &mut V,
    dir: V::Dir,
    text: &str,
    ttl: Option<u64>,
) -> (Result<(), MakeError>, V::Dir)
    requires { IfSome ttl (λ t. (1 ≤ t) × (t < 2 ^ 62)) }
    ensures makes { Makes V.honest text.now ttl (V.directory dir) (V.directory result.1) result.0 }
    ensures untouched { IfErr result.0 (λ why. IsTextRefusal why → (result.1 ≡ dir) × (device.new ≡ device.old)) }
    ensures cause { Counts (V.faults device.old) (V.faults device.new) (IsErrOf result.0 (MakeError.Create CreateFault)) }
{
    let schema = match schema_from_json(alloc, text.as_bytes()) {
        Ok(schema) => schema,
        Err(why) => return (Err(MakeError::Schema(why)), dir),
    };
    match Anchor::create(alloc, device, dir, schema, ttl) {
        Ok(anchor) => (Ok(()), anchor.into_dir()),
        Err((dir, why)) => (Err(MakeError::Create(why)), dir),
    }
}

fn tell<K: Sink>(alloc: Global, sink: &mut K, made: Result<(), MakeError>) -> Status
    ensures told { TellsMaking made result (K.held sink.old) (K.held sink.new) (K.faults sink.old) (K.faults sink.new) }
    ensures refusal { WritesRefusal result (K.held sink.old) (K.held sink.new) (K.faults sink.old) (K.faults sink.new) }
    ensures later { K.faults sink.old ≤ K.faults sink.new }
{
    match made {
        Ok(()) => write_text(sink, b"created\n"),
        Err(why) => refuse(alloc, sink, Status::from(why)),
    }
}

/// Makes an empty table of the schema that the text says, with that time to live in microseconds, and tells it.
pub fn create<K: Sink, V: Device>(
    alloc: Global,
    sink: &mut K,
    text: &str,
    ttl: Option<u64>,
    dir: V::Dir,
    device: &mut V,
) -> (Status, V::Dir)
    requires { IfSome ttl (λ t. (1 ≤ t) × (t < 2 ^ 62)) }
    ensures owes { OwesTable V.honest text.now ttl (V.directory dir) (V.directory result.1) (K.held sink.old) (K.held sink.new) (K.faults sink.old) (K.faults sink.new) result.0 }
    ensures untouched { StandsBefore result.0 → (result.1 ≡ dir) × (device.new ≡ device.old) }
    ensures refusal { WritesRefusal result.0 (K.held sink.old) (K.held sink.new) (K.faults sink.old) (K.faults sink.new) }
    ensures sink_count { K.faults sink.old ≤ K.faults sink.new }
    ensures device { Counts (V.faults device.old) (V.faults device.new) (result.0 ≡ Status.DeviceFault) }
{
    let (made, dir) = make(alloc, device, dir, text, ttl);
    (tell(alloc, sink, made), dir)
}
