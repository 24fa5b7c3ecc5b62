//! What tables are made of: values, rows, columns, schemas and their changes.
//! A row's key is its first values, of which the last is its timestamp in microseconds since the Unix epoch.
#![tactic(auto)]

mod change;
mod changing;
mod checking;
mod column;
mod kind;
mod packed;
mod row;
mod row_view;
mod rows;
mod schema;
mod schemas;
mod value;
mod value_view;

pub use change::{AlterError, Change};
pub use checking::{body_len_in_bytes, key_len_in_bytes};
pub use column::{Column, Columns};
pub use kind::Kind;
pub use row::{Row, RowFault};
pub use row_view::RowView;
pub use rows::{Rows, RowsBuilder};
pub use schema::Schema;
pub use schemas::Schemas;
pub use value::{Value, key_cmp};
pub use value_view::ValueView;
