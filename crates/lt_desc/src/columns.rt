//! Columns: of the first schema, and of a change that appends one.
ghost use Rattle.std.specs.Prelude.{◌≡◌, ◌<◌, ◌≤◌, ◌^◌, [], Ok, Err, IfOk, IsTrue, length, if◌then◌else◌};
ghost use Rattle.std.specs.Str.{is_utf8};
ghost use Rattle.std.specs.List.{list_any};
ghost use Rattle.lt_schema.specs.Lawful.{has_name};
ghost use Rattle.lt_schema.specs.Names.{is_name};
ghost use Rattle.lt_rec.specs.Reading.{Gives, Reads};
ghost use Rattle.lt_desc.specs.Reading.{kind_of, kind_at, value_at, is_new_name, may_be, blamed, column_at, repeated, next_column};

use crate::fields::{byte_from, counted_of, u32_from, u64_from};
use lt_rec::{Fault, FormatError, Label, NoMemory, Octets, place_of, test_at};
use lt_schema::{Column, Kind, Value};
use std::alloc::Global;

fn kind_by(byte: u8) -> Option<Kind>
    ensures { result ≡ kind_of byte }
{
    match byte {
        0 => Some(Kind::Int32),
        1 => Some(Kind::Int64),
        2 => Some(Kind::Time),
        3 => Some(Kind::Text),
        4 => Some(Kind::Blob),
        _ => None,
    }
}

#[tactic(auto, unfolding(crate::specs::Reading::kind_at))]
fn kind_of(total: u64, bytes: &[u8]) -> Result<(Kind, &[u8]), Fault>
    ensures exact { Reads (λ x. (x.0, x.1.now)) result (kind_at total bytes.now) }
{
    let (byte, rest) = byte_from(total, bytes)?;
    match kind_by(byte) {
        Some(kind) => Ok((kind, rest)),
        None => Err(Fault {
            at: place_of(total, bytes),
        }),
    }
}

/// A value of a kind's form.
#[tactic(auto, unfolding(crate::specs::Reading::value_at))]
fn value_of(
    alloc: Global,
    kind: Kind,
    total: u64,
    bytes: &[u8],
) -> Result<(Value, &[u8]), FormatError>
    ensures exact { Gives (λ x. (x.0, x.1.now)) result (value_at kind total bytes.now) }
{
    match kind {
        Kind::Int32 => {
            let (number, rest) = u32_from(total, bytes)?;
            Ok((Value::Int(i64::from(number.cast_signed())), rest))
        }
        Kind::Int64 | Kind::Time => {
            let (number, rest) = u64_from(total, bytes)?;
            Ok((Value::Int(number.cast_signed()), rest))
        }
        Kind::Text => {
            let (text, rest) = counted_of(total, bytes)?;
            let text = text_of(alloc, text, place_of(total, bytes))?;
            Ok((Value::Text(text), rest))
        }
        Kind::Blob => {
            let (blob, rest) = counted_of(total, bytes)?;
            Ok((Value::Blob(Octets::from_slice(alloc, blob)?), rest))
        }
    }
}

/// The text of these bytes, where they are UTF-8.
fn text_of(alloc: Global, bytes: &[u8], at: u64) -> Result<Label, FormatError>
    ensures exact { Gives (λ text. text) result (if is_utf8 bytes.now then Ok bytes.now else Err at) }
{
    match std::str::from_utf8(bytes) {
        Ok(text) => Ok(Label::copy_of(alloc, text)?),
        Err(_) => Err(FormatError::Bad { at }),
    }
}

/// A lawful name is ASCII.
fn name_of(alloc: Global, bytes: &[u8]) -> Result<Label, NoMemory>
    requires { IsTrue (is_name bytes.now) }
    ensures { IfOk result (λ name. name ≡ bytes.now) }
{
    match std::str::from_utf8(bytes) {
        Ok(text) => Label::copy_of(alloc, text),
        Err(_) => unreachable!(),
    }
}

fn is_new_name(before: &[Column], name: &[u8]) -> bool
    ensures { result ≡ is_new_name before.now name.now }
{
    Column::is_name(name) && !has_name(before, name)
}

fn has_name(columns: &[Column], name: &[u8]) -> bool
    ensures { result ≡ list_any (has_name name.now) columns.now }
{
    columns
        .iter()
        .any(|column| column.name().as_slice() == name)
}

/// The last column of the key is a time.
fn may_be(key_len: u32, before: &[Column], kind: Kind) -> bool
    requires { length before.now < 2 ^ 32 }
    ensures { result ≡ may_be key_len before.now kind }
{
    before.len() as u64 + 1 != u64::from(key_len) || kind.is_time()
}

/// The place of the change that a field is in, or its own.
fn blamed(tag: Option<u64>, at: u64) -> u64
    ensures { result ≡ blamed tag at }
{
    tag.unwrap_or(at)
}

/// A column behind others, of the first schema or of the change with this tag.
#[tactic(auto, unfolding(crate::specs::Reading::column_at))]
pub fn column_of<'a>(
    alloc: Global,
    tag: Option<u64>,
    key_len: u32,
    before: &[Column],
    total: u64,
    bytes: &'a [u8],
) -> Result<(Column, &'a [u8]), FormatError>
    requires { length before.now < 2 ^ 32 }
    ensures exact { Gives (λ x. (x.0, x.1.now)) result (column_at tag key_len before.now total bytes.now) }
{
    let (name, rest) = counted_of(total, bytes)?;
    test_at(
        is_new_name(before, name),
        blamed(tag, place_of(total, bytes)),
    )?;
    let name = name_of(alloc, name)?;
    let (kind, after) = kind_of(total, rest)?;
    test_at(may_be(key_len, before, kind), place_of(total, rest))?;
    let (default, rest) = value_of(alloc, kind, total, after)?;
    let column = Column::new(name, kind, default);
    test_at(
        column.has_lawful_default(),
        blamed(tag, place_of(total, after)),
    )?;
    Ok((column, rest))
}

/// The columns of the first schema.
pub fn columns_of<'a>(
    alloc: Global,
    key_len: u32,
    count: u32,
    total: u64,
    bytes: &'a [u8],
) -> Result<(Vec<Column>, &'a [u8]), FormatError>
    requires { count ≤ 64 }
    ensures exact { Gives (λ x. (x.0.items, x.1.now)) result (repeated (next_column key_len total) count [] bytes.now) }
{
    let mut columns = Vec::with_capacity(alloc, count as usize)?;
    let mut rest = bytes;
    for _ in 0..count {
        let (column, after) = column_of(alloc, None, key_len, columns.as_slice(), total, rest)?;
        columns.push(column)?;
        rest = after;
    }
    Ok((columns, rest))
}
