//! A table of any schema as a plain list of rows, in the order of their numbers: slow, and plainly what the definitions
//! say. Faster bodies are compared with it.
#![tactic(auto)]

mod bounds;
mod boxes;
mod list_table;
mod numbered_row;
mod pages;
mod rows;

pub use list_table::ListTable;
pub use numbered_row::NumberedRow;
