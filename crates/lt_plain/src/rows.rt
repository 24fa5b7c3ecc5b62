//! Keys and timestamps of rows, and their order.
ghost use Rattle.std.specs.Prelude.{◌≡◌, ◌↔◌, IsTrue, take};
ghost use Rattle.lt_schema.specs.Check.{key_of, time_of};
ghost use Rattle.lt_schema.specs.Values.{moment_of};
ghost use Rattle.lt_model.specs.Answer.{row_cmp};

use lt_schema::{Schema, Value};
use std::cmp::Ordering;

/// The first `count` values, or all where there are fewer.
pub fn leading(row: &[Value], count: usize) -> &[Value]
    ensures { result.now ≡ take count row.now }
{
    let (front, _) = row.split_at(count.min(row.len()));
    front
}

/// A row's key, or the whole of a shorter row.
pub fn key<'a>(schema: &Schema, row: &'a [Value]) -> &'a [Value]
    ensures { result.now ≡ key_of schema.now row.now }
{
    leading(row, schema.key_len() as usize)
}

fn moment(value: &Value) -> u64
    ensures { result ≡ moment_of value.now }
{
    match value {
        Value::Int(number) => (*number).max(0) as u64,
        Value::Text(_) | Value::Blob(_) => 0,
    }
}

/// A row's timestamp in microseconds since the Unix epoch.
pub fn time(schema: &Schema, row: &[Value]) -> u64
    ensures { result ≡ time_of schema.now row.now }
{
    let last = (schema.key_len() as usize).saturating_sub(1);
    match row.get(last) {
        Some(value) => moment(value),
        None => 0,
    }
}

/// Whether two rows have the same key.
pub fn has_key_of(schema: &Schema, row: &[Value], other: &[Value]) -> bool
    ensures { IsTrue result ↔ (key_of schema.now row.now ≡ key_of schema.now other.now) }
{
    key(schema, row) == key(schema, other)
}

/// By key, or the other way round.
pub fn order(schema: &Schema, down: bool, a: &[Value], b: &[Value]) -> Ordering
    ensures { result ≡ row_cmp schema.now down a.now b.now }
{
    if down {
        key(schema, b).cmp(key(schema, a))
    } else {
        key(schema, a).cmp(key(schema, b))
    }
}
