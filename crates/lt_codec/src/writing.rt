// Rows and leading values as bytes.

ghost use Rattle.std.specs.Prelude.{◌≡◌, ◌≢◌, ◌≤◌, ◌<◌, ◌^◌, ◌++◌, ◌∷◌, [], None, Some, OnOk, IfOk, IfErr, IsTrue, length, ◌==◌, if◌then◌else◌};
ghost use Rattle.std.specs.List.{list_all};
ghost use Rattle.std.specs.Int.{w32, to_be_bytes};
ghost use Rattle.lt_schema.specs.declared.value.Value.TheVariants.{Int};
ghost use Rattle.lt_schema.specs.Values.{is_of_kind, body_len_of};
ghost use Rattle.lt_schema.specs.Check.{Passes, wrong_kind_from, len_under};
ghost use Rattle.lt_codec.specs.Spelling.{key_number, escaped, in_key, in_body, spelled_by, key_bytes, record_of};
ghost use Rattle.lt_codec.specs.Ordering.{is_word, fits_word, is_text, IsCauseOfBound};

use crate::fault::BoundError;
use lt_rec::{Cut, NoMemory, Octets, Rec, put_u32, put_u64};
use lt_schema::{Column, Kind, Schema, Value, body_len_in_bytes, key_len_in_bytes};
use memchr::memchr;
use std::alloc::Global;

/// The record of a row that passes. Its key and body are written into one piece of memory.
pub fn rec_of(
    alloc: Global,
    schema: &Schema,
    ver: u32,
    seq: u64,
    row: &[Value],
) -> Result<Rec, NoMemory>
    requires passes { Passes schema.now row.now }
    requires numbered { seq < 2 ^ 62 }
    ensures value { IfOk result (λ rec. rec ≡ record_of schema.now ver seq row.now) }
    ensures words { OnOk result (IsTrue (list_all fits_word row.now)) }
    ensures texts { OnOk result (IsTrue (list_all is_text row.now)) }
{
    let key_len = schema.key_len() as usize;
    let (key_columns, body_columns) = schema.columns().as_slice().split_at(key_len);
    let (key_values, body_values) = row.split_at(key_len);
    let body_len = body_len_in_bytes(body_columns, body_values);
    let len = key_len_in_bytes(key_values).saturating_add(body_len);
    let mut bytes = Rec::room(alloc, len as usize)?;
    put_key(&mut bytes, key_columns, key_values)?;
    let key_end = bytes.as_slice().len() - Rec::HEADER;
    put_body(&mut bytes, body_columns, body_values)?;
    Ok(Rec::from_bytes(bytes, key_end, seq, ver))
}

/// The place of leading values among keys: before all keys that begin with them, or, with `after`, behind these.
pub fn cut_of(
    alloc: Global,
    schema: &Schema,
    values: &[Value],
    after: bool,
) -> Result<Cut, BoundError>
    ensures value { IfOk result (λ cut. cut ≡ record { bytes = key_bytes schema.now values.now; after = after }) }
    ensures lawful { OnOk result ((length values.now ≤ schema.now.key_len) × (wrong_kind_from 0 schema.now.columns values.now ≡ None)) }
    ensures words { OnOk result (IsTrue (list_all fits_word values.now)) }
    ensures texts { OnOk result (IsTrue (list_all is_text values.now)) }
    ensures cause { IfErr result (λ e. IsCauseOfBound schema.now values.now e) }
{
    let key_len = schema.key_len() as usize;
    if values.len() > key_len {
        return Err(BoundError::Count);
    }
    if let Some(column) = schema.wrong_kind(values) {
        return Err(BoundError::WrongKind { column });
    }
    let (key_columns, _) = schema.columns().as_slice().split_at(key_len);
    match key_of(alloc, key_columns, values) {
        Ok(bytes) => Ok(Cut { bytes, after }),
        Err(NoMemory) => Err(BoundError::NoMemory),
    }
}

fn key_of(alloc: Global, columns: &[Column], values: &[Value]) -> Result<Octets, NoMemory>
    requires { length values.now ≤ length columns.now }
    ensures value { IfOk result (λ key. key ≡ spelled_by in_key columns.now values.now) }
    ensures words { OnOk result (IsTrue (list_all fits_word values.now)) }
    ensures texts { OnOk result (IsTrue (list_all is_text values.now)) }
{
    let mut key = Vec::with_capacity(alloc, key_len_in_bytes(values) as usize)?;
    put_key(&mut key, columns, values)?;
    Ok(Octets::from_vec(key))
}

fn put_key(out: &mut Vec<u8>, columns: &[Column], values: &[Value]) -> Result<(), NoMemory>
    requires { length values.now ≤ length columns.now }
    ensures value { OnOk result (out.new.items ≡ out.old.items ++ spelled_by in_key columns.now values.now) }
    ensures words { OnOk result (IsTrue (list_all fits_word values.now)) }
    ensures texts { OnOk result (IsTrue (list_all is_text values.now)) }
{
    for (at, value) in values.iter().enumerate() {
        put_in_key(out, columns[at].kind(), value)?;
    }
    Ok(())
}

#[tactic(auto, unfolding(crate::specs::Spelling::in_key), using(crate::proofs::Texts::is_utf8_of))]
fn put_in_key(out: &mut Vec<u8>, kind: Kind, value: &Value) -> Result<(), NoMemory>
    ensures ok { OnOk result (out.new.items ≡ out.old.items ++ in_key kind value.now) }
    ensures word { IsTrue (fits_word value.now) }
    ensures text { IsTrue (is_text value.now) }
{
    match value {
        Value::Int(number) => put_number(out, kind, *number),
        Value::Text(text) => put_escaped(out, text.as_slice()),
        Value::Blob(bytes) => put_escaped(out, bytes.as_slice()),
    }
}

#[tactic(auto, unfolding(crate::specs::Spelling::in_key))]
fn put_number(out: &mut Vec<u8>, kind: Kind, number: i64) -> Result<(), NoMemory>
    ensures ok { OnOk result (out.new.items ≡ out.old.items ++ in_key kind (Int number)) }
    ensures word { IsTrue (is_word number) }
{
    put_u64(out, key_number(kind, number))
}

fn key_number(kind: Kind, number: i64) -> u64
    ensures value { result ≡ key_number kind number }
    ensures word { IsTrue (is_word number) }
{
    if kind.is_time() {
        number.max(0) as u64
    } else {
        (i128::from(number) + (1 << 63)) as u64
    }
}

fn put_escaped(out: &mut Vec<u8>, bytes: &[u8]) -> Result<(), NoMemory>
    ensures { OnOk result (out.new.items ≡ out.old.items ++ escaped bytes.now) }
{
    match memchr(0, bytes) {
        Some(_) => put_each_escaped(out, bytes),
        None => {
            out.extend_from_slice(bytes)?;
            out.extend_from_slice(&[0, 0])?;
            Ok(())
        }
    }
}

fn put_each_escaped(out: &mut Vec<u8>, bytes: &[u8]) -> Result<(), NoMemory>
    ensures { OnOk result (out.new.items ≡ out.old.items ++ escaped bytes.now) }
{
    for byte in bytes {
        put_byte(out, *byte)?;
    }
    out.extend_from_slice(&[0, 0])?;
    Ok(())
}

fn put_byte(out: &mut Vec<u8>, byte: u8) -> Result<(), NoMemory>
    ensures { OnOk result (out.new.items ≡ out.old.items ++ (if byte == 0 then 0 ∷ 255 ∷ [] else byte ∷ [])) }
{
    if byte == 0 {
        out.extend_from_slice(&[0, 255])?;
    } else {
        out.push(byte)?;
    }
    Ok(())
}

fn put_body(out: &mut Vec<u8>, columns: &[Column], values: &[Value]) -> Result<(), NoMemory>
    requires len { length values.now ≤ length columns.now }
    requires kinds { wrong_kind_from 0 columns.now values.now ≡ None }
    requires small { len_under columns.now values.now ≤ 60000 }
    ensures value { OnOk result (out.new.items ≡ out.old.items ++ spelled_by in_body columns.now values.now) }
    ensures words { OnOk result (IsTrue (list_all fits_word values.now)) }
    ensures texts { OnOk result (IsTrue (list_all is_text values.now)) }
{
    for (at, value) in values.iter().enumerate() {
        put_in_body(out, columns[at].kind(), value)?;
    }
    Ok(())
}

#[tactic(auto, unfolding(crate::specs::Spelling::in_body), using(crate::proofs::Texts::is_utf8_of))]
fn put_in_body(out: &mut Vec<u8>, kind: Kind, value: &Value) -> Result<(), NoMemory>
    requires of_kind { IsTrue (is_of_kind kind value.now) }
    requires small { body_len_of kind value.now ≤ 60000 }
    ensures ok { OnOk result (out.new.items ≡ out.old.items ++ in_body kind value.now) }
    ensures word { IsTrue (fits_word value.now) }
    ensures text { IsTrue (is_text value.now) }
{
    match value {
        Value::Int(number) if kind == Kind::Int32 => {
            put_u32(out, (*number as i32).cast_unsigned())
        }
        Value::Int(number) => put_u64(out, number.cast_unsigned()),
        Value::Text(text) => put_counted(out, text.as_slice()),
        Value::Blob(bytes) => put_counted(out, bytes.as_slice()),
    }
}

/// The bytes behind their length.
fn put_counted(out: &mut Vec<u8>, bytes: &[u8]) -> Result<(), NoMemory>
    requires { length bytes.now ≤ 60000 }
    ensures { OnOk result (out.new.items ≡ out.old.items ++ (to_be_bytes w32 (length bytes.now) ++ bytes.now)) }
{
    put_u32(out, bytes.len() as u32)?;
    out.extend_from_slice(bytes)?;
    Ok(())
}
