//! The first schema and its changes.
ghost use Rattle.lt_rec.specs.Reading.{Gives};
ghost use Rattle.lt_desc.specs.Reading.{append_at, widen_at, change_at, repeated, next_change, first_at, schemas_at};

use crate::columns::{column_of, columns_of};
use crate::fields::{byte_from, u32_from, u32_within};
use lt_rec::{FormatError, place_of, test_at};
use lt_schema::{Change, Columns, Kind, Schema, Schemas};
use std::alloc::Global;

/// The most changes that a descriptor may claim.
const MOST_CHANGES: u32 = 128;

#[tactic(auto, unfolding(crate::specs::Reading::append_at))]
fn append_of<'a>(
    alloc: Global,
    tag: u64,
    schema: &Schema,
    total: u64,
    bytes: &'a [u8],
) -> Result<(Change, &'a [u8]), FormatError>
    ensures exact { Gives (λ x. (x.0, x.1.now)) result (append_at tag schema.now total bytes.now) }
{
    let columns = schema.columns().as_slice();
    test_at(columns.len() < Schema::MOST_COLUMNS, tag)?;
    let (column, rest) = column_of(alloc, Some(tag), 0, columns, total, bytes)?;
    Ok((Change::Append(column), rest))
}

#[tactic(auto, unfolding(crate::specs::Reading::widen_at))]
fn widen_of<'a>(
    tag: u64,
    schema: &Schema,
    total: u64,
    bytes: &'a [u8],
) -> Result<(Change, &'a [u8]), FormatError>
    ensures exact { Gives (λ x. (x.0, x.1.now)) result (widen_at tag schema.now total bytes.now) }
{
    let (number, rest) = u32_from(total, bytes)?;
    match schema.columns().as_slice().get(number as usize) {
        Some(column) if column.kind() == Kind::Int32 => {
            Ok((Change::Widen(column.name().clone()?), rest))
        }
        _ => Err(FormatError::Bad { at: tag }),
    }
}

/// A change that the schema admits.
#[tactic(auto, unfolding(crate::specs::Reading::change_at))]
fn change_of<'a>(
    alloc: Global,
    schema: &Schema,
    total: u64,
    bytes: &'a [u8],
) -> Result<(Change, &'a [u8]), FormatError>
    ensures exact { Gives (λ x. (x.0, x.1.now)) result (change_at schema.now total bytes.now) }
{
    let (tag, rest) = byte_from(total, bytes)?;
    test_at(tag <= 1, place_of(total, bytes))?;
    if tag == 0 {
        append_of(alloc, place_of(total, bytes), schema, total, rest)
    } else {
        widen_of(place_of(total, bytes), schema, total, rest)
    }
}

/// So many changes more.
fn changes_of<'a>(
    alloc: Global,
    schemas: Schemas,
    count: u32,
    total: u64,
    bytes: &'a [u8],
) -> Result<(Schemas, &'a [u8]), FormatError>
    ensures exact { Gives (λ x. (x.0, x.1.now)) result (repeated (next_change total) count schemas bytes.now) }
{
    let mut schemas = schemas;
    let mut rest = bytes;
    for _ in 0..count {
        let (change, after) = change_of(alloc, schemas.newest(), total, rest)?;
        schemas = schemas.with(&change)?;
        rest = after;
    }
    Ok((schemas, rest))
}

#[tactic(auto, unfolding(crate::specs::Reading::first_at))]
fn first_of(alloc: Global, total: u64, bytes: &[u8]) -> Result<(Schema, &[u8]), FormatError>
    ensures exact { Gives (λ x. (x.0, x.1.now)) result (first_at total bytes.now) }
{
    let most = Schema::MOST_COLUMNS as u32;
    let (key_len, rest) = u32_within(1, most, total, bytes)?;
    let (count, rest) = u32_within(key_len, most, total, rest)?;
    let (columns, rest) = columns_of(alloc, key_len, count, total, rest)?;
    Ok((Schema::new(Columns::from_vec(columns), key_len), rest))
}

#[tactic(auto, unfolding(crate::specs::Reading::schemas_at))]
pub fn schemas_of(alloc: Global, total: u64, bytes: &[u8]) -> Result<(Schemas, &[u8]), FormatError>
    ensures exact { Gives (λ x. (x.0, x.1.now)) result (schemas_at total bytes.now) }
{
    let (first, rest) = first_of(alloc, total, bytes)?;
    let (count, rest) = u32_within(0, MOST_CHANGES, total, rest)?;
    let schemas = Schemas::of(alloc, first)?;
    changes_of(alloc, schemas, count, total, rest)
}
