//! Runs of a turn: a counter to which many threads add, and what its end is.
#![tactic(auto)]

mod counter;
mod ends;
mod many;
mod runs;

pub use counter::Counter;
pub use ends::{Ending, end_of};
pub use many::total_of_many;
pub use runs::{Ends, add, add_many, look, total_of_two};

#[cfg(test)]
mod tests;
