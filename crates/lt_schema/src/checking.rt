ghost use Rattle.std.specs.Prelude.{◌≡◌, ◌≤◌, length, drop, take, sum_by, nat_eq, MatchResult, IsTrue, Some, None};
ghost use Rattle.lt_schema.specs.Values.{key_len_of, key_len_of_bytes, body_len_of};
ghost use Rattle.lt_schema.specs.Lawful.{is_schema};
ghost use Rattle.lt_schema.specs.Check.{counted, wrong_kind_from, row_fault, len_under};

use crate::{Column, Kind, RowFault, Schema, Value};

impl Schema {
    /// The most bytes of a key.
    pub const LONGEST_KEY: u64 = 4_096;
    /// The most bytes of the values after the key.
    pub const LONGEST_BODY: u64 = 60_000;

    /// Whether a row may be kept under this schema; else the first cause against it. Takes no memory.
    pub fn check(&self, row: &[Value]) -> Result<(), RowFault>
        ensures exact { MatchResult result (λ _. row_fault self.now row.now ≡ None) (λ fault. row_fault self.now row.now ≡ Some fault) }
        ensures lawful { IsTrue (is_schema self.now) }
    {
        let columns = self.columns().as_slice();
        if row.len() != columns.len() {
            return Err(RowFault::Arity {
                want: columns.len() as u32,
                got: row.len() as u64,
            });
        }
        if let Some(column) = self.wrong_kind(row) {
            return Err(RowFault::WrongKind { column });
        }
        let key_len = self.key_len() as usize;
        let (key, body) = row.split_at(key_len);
        let len = key_len_in_bytes(key);
        if len > Schema::LONGEST_KEY {
            return Err(RowFault::KeyLong { len });
        }
        let (_, body_columns) = columns.split_at(key_len);
        let len = body_len_in_bytes(body_columns, body);
        if len > Schema::LONGEST_BODY {
            return Err(RowFault::BodyLong { len });
        }
        Ok(())
    }

    /// The least value that is not of its column's kind. Values past the columns are not looked at. Takes no memory.
    pub fn wrong_kind(&self, values: &[Value]) -> Option<u32>
        ensures exact { result ≡ wrong_kind_from 0 self.now.columns values.now }
    {
        for (at, column) in self.columns().as_slice().iter().enumerate() {
            match values.get(at) {
                None => return None,
                Some(value) if column.kind().has(value) => {}
                Some(_) => return Some(at as u32),
            }
        }
        None
    }
}

/// How many bytes key values take. Takes no memory.
pub fn key_len_in_bytes(key: &[Value]) -> u64
    ensures { result ≡ counted (sum_by key_len_of key.now) }
{
    let mut len: u64 = 0;
    for value in key {
        len = len.saturating_add(key_len_of(value));
    }
    len
}

fn key_len_of(value: &Value) -> u64
    ensures { result ≡ counted (key_len_of value.now) }
{
    match value {
        Value::Int(_) => 8,
        Value::Text(text) => key_len_of_bytes(text.as_slice()),
        Value::Blob(bytes) => key_len_of_bytes(bytes.as_slice()),
    }
}

/// A byte 0 takes two bytes, and two more end it.
fn key_len_of_bytes(bytes: &[u8]) -> u64
    ensures { result ≡ counted (key_len_of_bytes bytes.now) }
{
    let zeros = bytes.iter().filter(|byte| **byte == 0).count();
    (bytes.len() as u64)
        .saturating_add(zeros as u64)
        .saturating_add(2)
}

/// How many bytes values take behind the key, under their columns. Takes no memory.
pub fn body_len_in_bytes(columns: &[Column], values: &[Value]) -> u64
    ensures { result ≡ counted (len_under columns.now values.now) }
{
    let mut len: u64 = 0;
    for (at, column) in columns.iter().enumerate() {
        match values.get(at) {
            None => return len,
            Some(value) => len = len.saturating_add(body_len_of(column.kind(), value)),
        }
    }
    len
}

fn body_len_of(kind: Kind, value: &Value) -> u64
    ensures { result ≡ counted (body_len_of kind value.now) }
{
    match value {
        Value::Int(_) if kind == Kind::Int32 => 4,
        Value::Int(_) => 8,
        Value::Text(text) => (text.len() as u64).saturating_add(4),
        Value::Blob(bytes) => (bytes.len() as u64).saturating_add(4),
    }
}
