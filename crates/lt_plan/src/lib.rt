//! The merge rule: which neighbours in the list of tablets are to be merged.
#![tactic(auto)]

mod law;
mod planning;
mod tablets;

pub use law::unmerged_sizes_halve;
pub use planning::{MOST_BYTES, plan};
pub use tablets::{Run, Weigh};
