//! The rows that a scan shows.
ghost use Rattle.std.specs.Prelude.{◌≡◌, List, map, take, filter, IfOk, OnOk, IsPermutation, IsSorted};
ghost use Rattle.lt_plain.specs.Table.{is_shown, under_newest, numbered_cmp, IsPage};

use crate::boxes::shows;
use crate::numbered_row::NumberedRow;
use crate::rows::order;
use lt_command::Query;
use lt_rec::NoMemory;
use lt_schema::{Rows, RowsBuilder, Schema, Schemas};
use std::alloc::Global;

/// The rows that are shown, and whether there are others.
#[derive(Debug, Drop)]
pub struct Page {
    pub rows: Rows,
    pub more: bool,
}

/// The box's unexpired rows, in the order in which they stand.
fn found<'a>(
    alloc: Global,
    schema: &Schema,
    query: &Query,
    since: u64,
    rows: &'a [NumberedRow],
) -> Result<Vec<&'a NumberedRow>, NoMemory>
    ensures { IfOk result (λ found. map (λ numbered. numbered.now) found.items ≡ filter (is_shown schema.now query.now since) rows.now) }
{
    let mut found = Vec::new(alloc);
    for numbered in rows {
        if shows(schema, query, since, numbered) {
            found.push(numbered)?;
        }
    }
    Ok(found)
}

fn sort(schema: &Schema, down: bool, found: &mut Vec<&NumberedRow>) -> Result<(), NoMemory>
    ensures same { IsPermutation found.old.items found.new.items }
    ensures sorted { OnOk result (IsSorted (λ a b. numbered_cmp schema.now down a.now b.now) found.new.items) }
{
    found.sort_by(|a, b| order(schema, down, a.values(), b.values()))?;
    Ok(())
}

fn lifted(alloc: Global, schemas: &Schemas, found: &[&NumberedRow]) -> Result<Rows, NoMemory>
    ensures { IfOk result (λ rows. rows ≡ map (λ numbered. under_newest schemas.now numbered.now) found.now) }
{
    let mut rows = RowsBuilder::with_capacity(alloc, found.len(), 0, 0)?;
    for numbered in found {
        rows.push_values(numbered.values())?;
        schemas.lift_begun(numbered.ver(), &mut rows)?;
        rows.end_row()?;
    }
    Ok(rows.finish())
}

/// The first of the box's unexpired rows in the query's order, up to its limit, under the newest schema.
pub fn page_of(
    alloc: Global,
    schemas: &Schemas,
    query: &Query,
    since: u64,
    rows: &[NumberedRow],
) -> Result<Page, NoMemory>
    ensures { IfOk result (λ page. IsPage schemas.now query.now since rows.now page.rows page.more) }
{
    let schema = schemas.first();
    let mut found = found(alloc, schema, query, since, rows)?;
    sort(schema, query.down, &mut found)?;
    let limit = query.limit as usize;
    let more = found.as_slice().len() > limit;
    found.truncate(limit);
    let rows = lifted(alloc, schemas, found.as_slice())?;
    Ok(Page { rows, more })
}
