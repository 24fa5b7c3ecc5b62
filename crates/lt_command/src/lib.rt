//! What the lines of a session ask and what answers them, as plain values.
#![tactic(auto)]

mod bound_fault;
mod command;
mod query;
mod reply;
mod upkeep;

pub use bound_fault::BoundFault;
pub use command::{Command, Line};
pub use query::{Edge, Query};
pub use reply::Reply;
pub use upkeep::{Listing, MergeEnd};
