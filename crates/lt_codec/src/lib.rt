//! Rows as records and back. A key's bytes order as the keys do, whatever the versions of their rows.
#![tactic(auto)]

mod fault;
mod laws;
mod reading;
mod taking;
mod writing;

pub use fault::{BoundError, CodecError};
pub use laws::{
    cuts_stand_with_their_values, keys_order_as_their_bytes, rows_are_read_back,
    rows_have_one_spelling,
};
pub use reading::{push_row, row_of};
pub use writing::{cut_of, rec_of};
