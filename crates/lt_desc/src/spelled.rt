//! Fields put behind others.
ghost use Rattle.std.specs.Prelude.{◌≡◌, ◌++◌, OnOk, IsTrue};
ghost use Rattle.std.specs.Int.{w32, w64, to_be_bytes};
ghost use Rattle.lt_schema.specs.Lawful.{has_lawful_default};
ghost use Rattle.lt_schema.specs.Versions.{is_admitted};
ghost use Rattle.lt_schema.specs.Values.{is_of_kind};
ghost use Rattle.lt_desc.specs.Lawful.{fits_value, fits_column, fits_change, fits_tablet};
ghost use Rattle.lt_desc.specs.Spelling.{counted, kind_byte, value_spelled, column_spelled, place_of, change_spelled, numbers, tablet_spelled, ttl_spelled};

use lt_rec::{Label, Listed, NoMemory, put_u32, put_u64};
use lt_schema::{Change, Column, Kind, Schema, Value};

/// The bytes behind their length.
fn put_counted(out: &mut Vec<u8>, bytes: &[u8]) -> Result<(), NoMemory>
    ensures { OnOk result (out.new.items ≡ out.old.items ++ counted bytes.now) }
{
    let len = u32::try_from(bytes.len()).map_err(|_| NoMemory)?;
    put_u32(out, len)?;
    out.extend_from_slice(bytes)?;
    Ok(())
}

fn kind_byte(kind: Kind) -> u8
    ensures { result ≡ kind_byte kind }
{
    match kind {
        Kind::Int32 => 0,
        Kind::Int64 => 1,
        Kind::Time => 2,
        Kind::Text => 3,
        Kind::Blob => 4,
    }
}

#[tactic(auto, unfolding(crate::specs::Spelling::value_spelled))]
fn put_value(out: &mut Vec<u8>, kind: Kind, value: &Value) -> Result<(), NoMemory>
    requires of_kind { IsTrue (is_of_kind kind value.now) }
    ensures ok { OnOk result (out.new.items ≡ out.old.items ++ value_spelled kind value.now) }
    ensures fits { OnOk result (IsTrue (fits_value value.now)) }
{
    match value {
        Value::Int(number) if kind == Kind::Int32 => {
            put_u32(out, (*number as i32).cast_unsigned())?;
            Ok(())
        }
        Value::Int(number) => {
            put_u64(out, number.cast_unsigned())?;
            Ok(())
        }
        Value::Text(text) => {
            put_counted(out, text.as_slice())?;
            Ok(())
        }
        Value::Blob(bytes) => put_counted(out, bytes.as_slice()),
    }
}

#[tactic(auto, unfolding(crate::specs::Spelling::column_spelled))]
pub fn put_column(out: &mut Vec<u8>, column: &Column) -> Result<(), NoMemory>
    requires lawful { IsTrue (has_lawful_default column.now) }
    ensures ok { OnOk result (out.new.items ≡ out.old.items ++ column_spelled column.now) }
    ensures fits { OnOk result (IsTrue (fits_column column.now)) }
{
    put_counted(out, column.name().as_slice())?;
    out.push(kind_byte(column.kind()))?;
    put_value(out, column.kind(), column.default())
}

/// Which of the columns has this name.
fn place_of(name: &Label, columns: &[Column]) -> usize
    ensures { result ≡ place_of name.now columns.now }
{
    for (at, column) in columns.iter().enumerate() {
        if column.name() == name {
            return at;
        }
    }
    columns.len()
}

/// A change of this schema.
#[tactic(auto, unfolding(crate::specs::Spelling::change_spelled))]
pub fn put_change(out: &mut Vec<u8>, schema: &Schema, change: &Change) -> Result<(), NoMemory>
    requires admitted { IsTrue (is_admitted schema.now change.now) }
    ensures ok { OnOk result (out.new.items ≡ out.old.items ++ change_spelled schema.now change.now) }
    ensures fits { OnOk result (IsTrue (fits_change change.now)) }
{
    match change {
        Change::Append(column) => {
            out.push(0)?;
            put_column(out, column)
        }
        Change::Widen(name) => {
            let place = place_of(name, schema.columns().as_slice());
            let place = u32::try_from(place).map_err(|_| NoMemory)?;
            out.push(1)?;
            put_u32(out, place)
        }
    }
}

fn put_numbers(out: &mut Vec<u8>, list: &[u64]) -> Result<(), NoMemory>
    ensures { OnOk result (out.new.items ≡ out.old.items ++ numbers list.now) }
{
    for number in list {
        put_u64(out, *number)?;
    }
    Ok(())
}

#[tactic(auto, unfolding(crate::specs::Spelling::tablet_spelled))]
pub fn put_tablet(out: &mut Vec<u8>, tablet: &Listed) -> Result<(), NoMemory>
    ensures ok { OnOk result (out.new.items ≡ out.old.items ++ tablet_spelled tablet.now) }
    ensures fits { OnOk result (IsTrue (fits_tablet tablet.now)) }
{
    let (rows, bytes) = (tablet.rows, tablet.bytes);
    put_numbers(
        out,
        &[
            tablet.file,
            rows,
            bytes,
            tablet.low,
            tablet.high,
            tablet.period.start(),
            tablet.period.len(),
            tablet.first,
            tablet.last,
        ],
    )
}

#[tactic(auto, unfolding(crate::specs::Spelling::ttl_spelled))]
pub fn put_ttl(out: &mut Vec<u8>, ttl: Option<u64>) -> Result<(), NoMemory>
    ensures { OnOk result (out.new.items ≡ out.old.items ++ ttl_spelled ttl) }
{
    match ttl {
        None => {
            out.push(0)?;
            Ok(())
        }
        Some(ttl) => {
            out.push(1)?;
            put_u64(out, ttl)
        }
    }
}
