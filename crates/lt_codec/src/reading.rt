// Records as rows, read from left to right.

ghost use Rattle.std.specs.Prelude.{◌≡◌, ◌≤◌, ◌+◌, ℕ, [], IfOk, IfErr, IfSome, OnOk, OnErr, Some, None, Option, length, option_map};
ghost use Rattle.lt_codec.specs.Reading.{Answers, IsCause, IsPushed, Leaves, all_at, behind_values, newest_row_in, reads_of, row_at, row_in, taken_value};

use crate::fault::CodecError;
use crate::taking::{Taken, take_from_body, take_from_key};
use lt_rec::{NoMemory, Rec};
use lt_schema::{Column, Kind, Row, RowsBuilder, Schema, Schemas};
use std::alloc::Global;

/// A part of a record.
#[derive(Clone, Copy, Debug, PartialEq, Eq)]
enum Part {
    Key,
    Body,
}

/// The row of a record under its version.
pub fn row_of(alloc: Global, schemas: &Schemas, rec: &Rec) -> Result<Row, CodecError>
    ensures exact { Answers result (row_in schemas.now rec.now) }
{
    let mut rows = RowsBuilder::new(alloc);
    read_row(alloc, schemas, rec, &mut rows)?;
    rows.end_row()?;
    let row = rows.finish().row(0).to_row(alloc)?;
    Ok(row)
}

/// Puts the row of a record, under the newest version, behind the others, without an allocation of its own; a row that
/// was begun is thrown away.
pub fn push_row(
    alloc: Global,
    schemas: &Schemas,
    rec: &Rec,
    rows: &mut RowsBuilder,
) -> Result<(), CodecError>
    ensures pushed { OnOk result (IsPushed rows.old (newest_row_in schemas.now rec.now) rows.new) }
    ensures cause { IfErr result (λ e. IsCause e (newest_row_in schemas.now rec.now)) }
    ensures unchanged { OnErr result (rows.new ≡ record { rows = rows.old.rows; row = [] }) }
{
    match add_row(alloc, schemas, rec, rows) {
        Ok(()) => Ok(()),
        Err(e) => {
            rows.drop_row();
            Err(e)
        }
    }
}

fn add_row(
    alloc: Global,
    schemas: &Schemas,
    rec: &Rec,
    rows: &mut RowsBuilder,
) -> Result<(), CodecError>
    ensures pushed { OnOk result (IsPushed rows.old (newest_row_in schemas.now rec.now) rows.new) }
    ensures cause { IfErr result (λ e. IsCause e (newest_row_in schemas.now rec.now)) }
    ensures whole { OnErr result (rows.new.rows ≡ rows.old.rows) }
{
    read_row(alloc, schemas, rec, rows)?;
    schemas.lift_begun(rec.ver(), rows)?;
    rows.end_row()?;
    Ok(())
}

/// Begins the row of a record, under its version, anew.
#[tactic(auto, unfolding(crate::specs::Reading::row_in))]
fn read_row(
    alloc: Global,
    schemas: &Schemas,
    rec: &Rec,
    rows: &mut RowsBuilder,
) -> Result<(), CodecError>
    ensures exact { Leaves rows.new.row result (row_in schemas.now rec.now) }
    ensures whole { rows.new.rows ≡ rows.old.rows }
{
    match schemas.version(rec.ver()) {
        None => Err(CodecError::Bad { at: 0 }),
        Some(schema) => read_under(alloc, schema, rec.key(), rec.body(), rows),
    }
}

#[tactic(auto, unfolding(crate::specs::Reading::row_at))]
fn read_under(
    alloc: Global,
    schema: &Schema,
    key: &[u8],
    body: &[u8],
    rows: &mut RowsBuilder,
) -> Result<(), CodecError>
    requires { length key.now + length body.now ≤ 65536 }
    ensures exact { Leaves rows.new.row result (row_at schema.now key.now body.now) }
    ensures whole { rows.new.rows ≡ rows.old.rows }
{
    let columns = schema.columns().as_slice();
    let (key_columns, body_columns) = columns.split_at(schema.key_len() as usize);
    rows.drop_row();
    let end = key.len() as u64;
    read_part(alloc, rows, Part::Key, end, key_columns, key)?;
    let end = end + body.len() as u64;
    read_part(alloc, rows, Part::Body, end, body_columns, body)?;
    Ok(())
}

/// Puts the values under these columns behind the others of the row that was begun. The bytes end at the given offset.
fn read_part(
    alloc: Global,
    rows: &mut RowsBuilder,
    part: Part,
    end: u64,
    columns: &[Column],
    bytes: &[u8],
) -> Result<(), CodecError>
    requires { length bytes.now ≤ end }
    ensures exact { Leaves rows.new.row result (behind_values rows.old.row (all_at (reads_of part) end columns.now bytes.now)) }
    ensures whole { rows.new.rows ≡ rows.old.rows }
{
    let mut left = bytes;
    for column in columns {
        match take_value(alloc, part, column.kind(), left)? {
            None => {
                return Err(CodecError::Bad {
                    at: end - left.len() as u64,
                });
            }
            Some((value, rest)) => {
                rows.push(value.view())?;
                left = rest;
            }
        }
    }
    if !left.is_empty() {
        return Err(CodecError::Bad {
            at: end - left.len() as u64,
        });
    }
    Ok(())
}

fn take_value<'a>(
    alloc: Global,
    part: Part,
    kind: Kind,
    bytes: &'a [u8],
) -> Result<Option<(Taken<'a>, &'a [u8])>, NoMemory>
    ensures exact { IfOk result (λ o. option_map (λ x. (taken_value x.0, x.1.now)) o ≡ reads_of part kind bytes.now) }
    ensures shorter { IfOk result (λ o. IfSome o (λ x. length x.1.now ≤ length bytes.now)) }
{
    match part {
        Part::Key => take_from_key(alloc, kind, bytes),
        Part::Body => Ok(take_from_body(kind, bytes)),
    }
}
