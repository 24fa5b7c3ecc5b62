//! The one line that a refusal writes.
ghost use Rattle.std.specs.Prelude.{◌≡◌, ◌⊎◌, ◌≤◌, ◌++◌, IfOk, OnOk, decimal, codes};
ghost use Rattle.lt_reply.specs.Texts.{line_of};
ghost use Rattle.lt_serve.specs.Status.{HasFixedLine, IsToldAs, refusal_text, schema_refusal};
ghost use Rattle.lt_serve.specs.Output.{IsSaid, IsRefusal, WritesAlone};

use crate::Status;
use itoa::Buffer;
use lt_io::{Sink, write_all};
use lt_json::SchemaError;
use lt_rec::NoMemory;
use std::alloc::Global;

const USAGE: &str =
    "usage: create DIR SCHEMA [TTL] | run DIR [--leave] | make SEED CLIENTS ROWS | drill DIR SEED CLIENTS ROWS\n";

fn fixed_line(status: Status) -> &'static str
    requires { HasFixedLine status }
    ensures { result.now ≡ refusal_text status }
{
    match status {
        Status::Usage => USAGE,
        Status::SourceFault => "error: source\n",
        Status::TooLong => "error: input too long\n",
        Status::Exists => "error: exists\n",
        Status::NoTable => "error: no table\n",
        Status::DeviceFault => "error: device\n",
        Status::NoMemory => "error: no memory\n",
        Status::Spent => "error: spent\n",
        Status::Done
        | Status::SinkFault
        | Status::Refused { at: _ }
        | Status::BadSchema { why: _ }
        | Status::NotYet { line: _ } => unreachable!(),
    }
}

fn put_number(text: &mut Vec<u8>, words: &[u8], number: u64) -> Result<(), NoMemory>
    ensures { OnOk result (text.new.items ≡ text.old.items ++ (words.now ++ decimal number)) }
{
    let mut digits = Buffer::new();
    text.extend_from_slice(words)?;
    text.extend_from_slice(digits.format(number).as_bytes())?;
    Ok(())
}

fn put_why(text: &mut Vec<u8>, why: SchemaError) -> Result<(), NoMemory>
    requires { IsSaid why }
    ensures { OnOk result (text.new.items ≡ text.old.items ++ schema_refusal why) }
{
    match why {
        SchemaError::NotJson => text.extend_from_slice(b"not json")?,
        SchemaError::Shape { field } => put_number(text, b"shape ", field)?,
        SchemaError::NoTime => text.extend_from_slice(b"no time")?,
        SchemaError::TooMany { count } => put_number(text, b"too many ", count)?,
        SchemaError::Twice { column } => put_number(text, b"twice ", u64::from(column))?,
        SchemaError::BadDefault { column } => put_number(text, b"default ", u64::from(column))?,
        SchemaError::NoMemory => unreachable!(),
    }
    Ok(())
}

fn number_line(alloc: Global, words: &[u8], number: u64) -> Result<Vec<u8>, NoMemory>
    ensures { IfOk result (λ text. text.items ≡ line_of (words.now ++ decimal number)) }
{
    let mut text = Vec::new(alloc);
    put_number(&mut text, words, number)?;
    text.push(b'\n')?;
    Ok(text)
}

fn schema_line(alloc: Global, why: SchemaError) -> Result<Vec<u8>, NoMemory>
    requires { IsSaid why }
    ensures { IfOk result (λ text. text.items ≡ line_of (codes "error: schema " ++ schema_refusal why)) }
{
    let mut text = Vec::from_slice(alloc, b"error: schema ")?;
    put_why(&mut text, why)?;
    text.push(b'\n')?;
    Ok(text)
}

fn write_alone<K: Sink>(sink: &mut K, text: &[u8])
    ensures line { WritesAlone text.now (K.held sink.old) (K.held sink.new) (K.faults sink.old) (K.faults sink.new) }
    ensures later { K.faults sink.old ≤ K.faults sink.new }
{
    let _ = write_all(sink, text);
}

fn refuse_at_once<K: Sink>(sink: &mut K, status: Status) -> Status
    requires { HasFixedLine status }
    ensures status { result ≡ status }
    ensures line { WritesAlone (refusal_text status) (K.held sink.old) (K.held sink.new) (K.faults sink.old) (K.faults sink.new) }
    ensures later { K.faults sink.old ≤ K.faults sink.new }
{
    write_alone(sink, fixed_line(status).as_bytes());
    status
}

fn refuse_by<K: Sink>(sink: &mut K, status: Status, line: Result<Vec<u8>, NoMemory>) -> Status
    requires { IfOk line (λ text. text.items ≡ refusal_text status) }
    ensures status { (result ≡ status) ⊎ (result ≡ Status.NoMemory) }
    ensures line { WritesAlone (refusal_text result) (K.held sink.old) (K.held sink.new) (K.faults sink.old) (K.faults sink.new) }
    ensures later { K.faults sink.old ≤ K.faults sink.new }
{
    match line {
        Ok(text) => {
            write_alone(sink, text.as_slice());
            status
        }
        Err(NoMemory) => refuse_at_once(sink, Status::NoMemory),
    }
}

/// Writes the line of a refusal. A line without a number takes no memory; where there is none for another, that is told.
pub fn refuse<K: Sink>(alloc: Global, sink: &mut K, status: Status) -> Status
    requires { IsRefusal status }
    ensures told { IsToldAs status result }
    ensures line { WritesAlone (refusal_text result) (K.held sink.old) (K.held sink.new) (K.faults sink.old) (K.faults sink.new) }
    ensures later { K.faults sink.old ≤ K.faults sink.new }
{
    match status {
        Status::Refused { at } => {
            refuse_by(
                sink,
                status,
                number_line(alloc, b"error: bad descriptor at ", at),
            )
        }
        Status::NotYet { line } => {
            refuse_by(
                sink,
                status,
                number_line(alloc, b"error: not yet at line ", line),
            )
        }
        Status::BadSchema { why } => refuse_by(sink, status, schema_line(alloc, why)),
        _ => refuse_at_once(sink, status),
    }
}
