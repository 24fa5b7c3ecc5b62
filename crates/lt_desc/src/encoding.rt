ghost use Rattle.std.specs.Prelude.{◌≡◌, ◌<◌, ◌≤◌, ◌^◌, ◌++◌, Ok, IfOk, OnOk, IsTrue, length};
ghost use Rattle.std.specs.List.{flat_map, list_all};
ghost use Rattle.lt_schema.specs.Lawful.{has_lawful_default};
ghost use Rattle.lt_schema.specs.Versions.{is_admitted, newest_version, schema_at};
ghost use Rattle.lt_desc.specs.Lawful.{IsStone, fits_column, fits_change, fits_tablet};
ghost use Rattle.lt_desc.specs.Spelling.{spelling, head_spelled, listing_spelled, column_spelled, change_spelled, changes_spelled, first_spelled, schemas_spelled, tablet_spelled};
ghost use Rattle.lt_desc.specs.Reading.{stone_at};

use crate::Stone;
use crate::head::{Head, MARK};
use crate::spelled::{put_change, put_column, put_tablet, put_ttl};
use lt_rec::{Listed, NoMemory, Octets, put_u32, put_u64};
use lt_schema::{Change, Column, Schema, Schemas};
use std::alloc::Global;

fn put_columns(out: &mut Vec<u8>, columns: &[Column]) -> Result<(), NoMemory>
    requires lawful { IsTrue (list_all has_lawful_default columns.now) }
    ensures ok { OnOk result (out.new.items ≡ out.old.items ++ flat_map column_spelled columns.now) }
    ensures fits { OnOk result (IsTrue (list_all fits_column columns.now)) }
{
    for column in columns {
        put_column(out, column)?;
    }
    Ok(())
}

/// A change of this version.
fn put_change_of(
    out: &mut Vec<u8>,
    schemas: &Schemas,
    ver: u32,
    change: &Change,
) -> Result<(), NoMemory>
    requires within { ver ≤ newest_version schemas.now }
    requires admitted { IsTrue (is_admitted (schema_at schemas.now ver) change.now) }
    ensures ok { OnOk result (out.new.items ≡ out.old.items ++ change_spelled (schema_at schemas.now ver) change.now) }
    ensures fits { OnOk result (IsTrue (fits_change change.now)) }
{
    match schemas.version(ver) {
        Some(schema) => put_change(out, schema, change),
        None => unreachable!(),
    }
}

/// Each change by the version before it.
fn put_changes(out: &mut Vec<u8>, schemas: &Schemas) -> Result<(), NoMemory>
    ensures ok { OnOk result (out.new.items ≡ out.old.items ++ changes_spelled schemas.now.first schemas.now.changes) }
    ensures fits { OnOk result (IsTrue (list_all fits_change schemas.now.changes)) }
{
    for (ver, change) in schemas.changes().iter().enumerate() {
        put_change_of(out, schemas, ver as u32, change)?;
    }
    Ok(())
}

#[tactic(auto, unfolding(crate::specs::Spelling::first_spelled))]
fn put_first(out: &mut Vec<u8>, schema: &Schema) -> Result<(), NoMemory>
    ensures ok { OnOk result (out.new.items ≡ out.old.items ++ first_spelled schema.now) }
    ensures fits { OnOk result (IsTrue (list_all fits_column schema.now.columns)) }
{
    let columns = schema.columns().as_slice();
    put_u32(out, schema.key_len())?;
    put_u32(out, columns.len() as u32)?;
    put_columns(out, columns)
}

#[tactic(auto, unfolding(crate::specs::Spelling::schemas_spelled))]
fn put_schemas(out: &mut Vec<u8>, schemas: &Schemas) -> Result<(), NoMemory>
    ensures ok { OnOk result (out.new.items ≡ out.old.items ++ schemas_spelled schemas.now) }
    ensures columns { OnOk result (IsTrue (list_all fits_column schemas.now.first.columns)) }
    ensures changes { OnOk result (IsTrue (list_all fits_change schemas.now.changes)) }
{
    put_first(out, schemas.first())?;
    put_u32(out, schemas.newest_version())?;
    put_changes(out, schemas)
}

#[tactic(auto, unfolding(crate::specs::Spelling::head_spelled))]
fn put_head(out: &mut Vec<u8>, head: Head) -> Result<(), NoMemory>
    ensures { OnOk result (out.new.items ≡ out.old.items ++ head_spelled head) }
{
    out.extend_from_slice(&MARK)?;
    put_u64(out, head.kept)?;
    put_u64(out, head.low)?;
    put_ttl(out, head.ttl)?;
    put_u64(out, head.next_file)?;
    Ok(())
}

#[tactic(auto, unfolding(crate::specs::Spelling::listing_spelled))]
fn put_listing(out: &mut Vec<u8>, tablets: &[Listed]) -> Result<(), NoMemory>
    requires few { length tablets.now < 2 ^ 32 }
    ensures ok { OnOk result (out.new.items ≡ out.old.items ++ listing_spelled tablets.now) }
    ensures fits { OnOk result (IsTrue (list_all fits_tablet tablets.now)) }
{
    put_u32(out, tablets.len() as u32)?;
    put_tablets(out, tablets)
}

fn put_tablets(out: &mut Vec<u8>, tablets: &[Listed]) -> Result<(), NoMemory>
    ensures ok { OnOk result (out.new.items ≡ out.old.items ++ flat_map tablet_spelled tablets.now) }
    ensures fits { OnOk result (IsTrue (list_all fits_tablet tablets.now)) }
{
    for tablet in tablets {
        put_tablet(out, tablet)?;
    }
    Ok(())
}

#[tactic(auto, unfolding(crate::specs::Spelling::spelling))]
fn spelled(alloc: Global, stone: &Stone) -> Result<Vec<u8>, NoMemory>
    ensures spelled { IfOk result (λ bytes. bytes.items ≡ spelling stone.now) }
    ensures lawful { IsStone stone.now }
    ensures columns { OnOk result (IsTrue (list_all fits_column stone.now.schemas.first.columns)) }
    ensures changes { OnOk result (IsTrue (list_all fits_change stone.now.schemas.changes)) }
    ensures tablets { OnOk result (IsTrue (list_all fits_tablet stone.now.tablets)) }
{
    let head = Head {
        kept: stone.kept(),
        low: stone.low(),
        ttl: stone.ttl(),
        next_file: stone.next_file(),
    };
    let mut out = Vec::new(alloc);
    put_head(&mut out, head)?;
    put_schemas(&mut out, stone.schemas())?;
    put_listing(&mut out, stone.tablets())?;
    Ok(out)
}

/// The spelling of the stone.
pub fn encode(alloc: Global, stone: &Stone) -> Result<Octets, NoMemory>
    ensures spelled { IfOk result (λ bytes. bytes ≡ spelling stone.now) }
    // It is read as the same stone.
    ensures read_back { IfOk result (λ bytes. stone_at bytes ≡ Ok stone.now) }
{
    let bytes = spelled(alloc, stone)?;
    Ok(Octets::from_vec(bytes))
}
