//! Why a query's edges are none.
ghost use Rattle.std.specs.Prelude.{◌≡◌};
ghost use Rattle.lt_model.specs.Boxes.{values_fault, edge_fault, query_fault};

use lt_command::{BoundFault, Edge, Query};
use lt_schema::{Schema, Value};

fn values_fault(schema: &Schema, values: &[Value]) -> Option<BoundFault>
    ensures { result ≡ values_fault schema.now values.now }
{
    if values.len() > schema.key_len() as usize {
        return Some(BoundFault::Count);
    }
    match schema.wrong_kind(values) {
        Some(column) => Some(BoundFault::WrongKind { column }),
        None => None,
    }
}

fn edge_fault(schema: &Schema, edge: &Option<Edge>) -> Option<BoundFault>
    ensures { result ≡ edge_fault schema.now edge.now }
{
    match edge {
        Some(edge) => values_fault(schema, edge.values.as_slice()),
        None => None,
    }
}

/// The low edge's fault, else the high one's.
pub fn query_fault(schema: &Schema, query: &Query) -> Option<BoundFault>
    ensures { result ≡ query_fault schema.now query.now }
{
    match edge_fault(schema, &query.lo) {
        Some(fault) => Some(fault),
        None => edge_fault(schema, &query.hi),
    }
}
