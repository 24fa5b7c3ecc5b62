//! Which rows lie in a box.
ghost use Rattle.std.specs.Prelude.{◌≡◌, ◌&&◌};
ghost use Rattle.lt_schema.specs.Values.{leading_cmp};
ghost use Rattle.lt_model.specs.Boxes.{meets_low, meets_high, is_limit};
ghost use Rattle.lt_plain.specs.Table.{box_has, is_shown};

use crate::numbered_row::NumberedRow;
use crate::rows::{key, leading, time};
use lt_command::{Edge, Query};
use lt_schema::{Schema, Value};
use std::cmp::Ordering;

/// The most rows that a scan shows.
const MOST: u64 = 10_000;

/// From 1 to 10,000.
pub fn may_limit(limit: u64) -> bool
    ensures { result ≡ is_limit limit }
{
    1 <= limit && limit <= MOST
}

fn compared(values: &[Value], key: &[Value]) -> Ordering
    ensures { result ≡ leading_cmp values.now key.now }
{
    values.cmp(leading(key, values.len()))
}

/// Not below the edge; at a strict edge it doesn't begin with it either.
fn is_above(edge: &Option<Edge>, key: &[Value]) -> bool
    ensures { result ≡ meets_low edge.now key.now }
{
    let Some(edge) = edge else {
        return true;
    };
    let order = compared(edge.values.as_slice(), key);
    if edge.strict {
        order.is_lt()
    } else {
        order.is_le()
    }
}

/// Not above the edge; at a strict edge it doesn't begin with it either.
fn is_below(edge: &Option<Edge>, key: &[Value]) -> bool
    ensures { result ≡ meets_high edge.now key.now }
{
    let Some(edge) = edge else {
        return true;
    };
    let order = compared(edge.values.as_slice(), key);
    if edge.strict {
        order.is_gt()
    } else {
        order.is_ge()
    }
}

/// The key meets both edges, and the timestamp is one of the times.
fn is_inside(schema: &Schema, query: &Query, row: &[Value]) -> bool
    ensures { result ≡ box_has schema.now query.now row.now }
{
    let key = key(schema, row);
    let time = time(schema, row);
    is_above(&query.lo, key) && is_below(&query.hi, key) && query.from <= time && time <= query.to
}

/// Inside the box, and unexpired.
pub fn shows(schema: &Schema, query: &Query, since: u64, numbered: &NumberedRow) -> bool
    ensures { result ≡ is_shown schema.now query.now since numbered.now }
{
    let row = numbered.values();
    is_inside(schema, query, row) && since <= time(schema, row)
}
