ghost use Rattle.std.specs.Prelude.{◌≡◌, ◌↔◌, ◌<◌, ℕ, List, Option, map, string_bytes, drop, vec_len};
ghost use Rattle.lt_serve.specs.Words.{IsRun, IsCreation, HasForm};
ghost use Rattle.lt_serve.specs.Untouched.{StandsBefore, first_count, TellsFaults};
ghost use Rattle.lt_serve.specs.Output.{WritesRefusal};
ghost use Rattle.lt_serve.specs.Made.{OwesTable};
ghost use Rattle.lt_serve.specs.Ended.{OwesSession};

use crate::Status;
use crate::creating::create;
use crate::refusing::refuse;
use crate::serving::serve;
use crate::words::{creation_of, is_run};
use lt_io::{Clock, Device, Sink, Source};
use std::alloc::Global;

/// Does what the words ask for.
///
/// `create DIR SCHEMA [TTL]` makes an empty table of the schema that the JSON text `SCHEMA` says, with a time to live in
/// microseconds. `run DIR --leave` reads the whole source, and then answers its lines over the table in the directory. `DIR`
/// is not looked at: `dir` is the directory, and the first of the devices does all there.
pub fn run<S: Source, K: Sink, V: Device, C: Clock>(
    alloc: Global,
    words: &[String],
    source: &mut S,
    sink: &mut K,
    dir: V::Dir,
    devices: &mut Vec<V>,
    clock: &C,
) -> (Status, V::Dir)
    requires { 0 < vec_len devices.old }
    ensures usage { (result.0 ≡ Status.Usage) ↔ (¬ HasForm (map string_bytes words.now)) }

    // A fault of an object is told only where its count rose, and no count falls; the other devices stay.
    ensures faults { TellsFaults (record { source = S.faults source.old; sink = K.faults sink.old; device = first_count V.faults devices.old.items }) (record { source = S.faults source.new; sink = K.faults sink.new; device = first_count V.faults devices.new.items }) result.0 }
    ensures others { (vec_len devices.new ≡ vec_len devices.old) × (drop 1 devices.new.items ≡ drop 1 devices.old.items) }

    // What stands before a table is made or loaded calls no device and leaves the directory; wrong words and those that make a
    // table read nothing.
    ensures untouched { StandsBefore result.0 → (result.1 ≡ dir) × (devices.new.items ≡ devices.old.items) }
    ensures reads_nothing { ¬ IsRun (map string_bytes words.now) → source.new ≡ source.old }

    // A refusal writes its one line, or a front of it where the sink's count rose.
    ensures refusal { WritesRefusal result.0 (K.held sink.old) (K.held sink.new) (K.faults sink.old) (K.faults sink.new) }

    // What a making of a table owes: why it ended so, what it leaves at each moment, and what it tells.
    ensures making { (text : List ℕ) (ttl : Option ℕ) → IsCreation (map string_bytes words.now) text ttl → OwesTable V.honest text ttl (V.directory dir) (V.directory result.1) (K.held sink.old) (K.held sink.new) (K.faults sink.old) (K.faults sink.new) result.0 }

    // What a session owes: what it reads, why it ended so, one history of its lines and their replies, what is found at each
    // moment, and what it tells.
    ensures session { IsRun (map string_bytes words.now) → OwesSession V.honest (C.shows clock.now) (S.left source.old) (S.left source.new) (V.directory dir) (V.directory result.1) (first_count V.faults devices.old.items) (first_count V.faults devices.new.items) (K.held sink.old) (K.held sink.new) (K.faults sink.old) (K.faults sink.new) result.0 }
{
    let device = &mut devices[0];
    if is_run(words) {
        return serve(alloc, source, sink, dir, device, clock);
    }
    match creation_of(words) {
        Some(asked) => create(alloc, sink, asked.schema, asked.ttl, dir, device),
        None => (refuse(alloc, sink, Status::Usage), dir),
    }
}
