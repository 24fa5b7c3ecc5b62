//! Which tablets in memory must go out together, so that what is kept after a stop is a front of the rows.
#![tactic(auto)]

mod deps;
mod places;

pub use deps::Deps;
