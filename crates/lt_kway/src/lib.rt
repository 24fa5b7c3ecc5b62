//! The first records of several sorted sources, of which the next in the order of reading is taken.
#![tactic(auto)]

mod head;
mod heads;
mod place;
mod slots;

pub use head::{Head, HeadError};
pub use heads::Heads;
