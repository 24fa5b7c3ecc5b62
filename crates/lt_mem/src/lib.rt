//! Records in memory, in the order of their keys.
#![tactic(auto)]

mod add_error;
mod growing;
mod lead;
mod piece;
mod pieces;
mod reach;
mod search;
mod store;
mod tablet;
mod timed;
mod walk;

pub use add_error::AddError;
pub use tablet::MemTablet;
