//! Look-ups over tablet files: the record of a key, and the latest record of a prefix.
#![tactic(auto)]

mod asked;
mod block;
mod by_key;
mod by_prefix;
mod sought;
mod stem;

pub use by_key::present;
pub use by_prefix::latest;
pub use stem::Stem;
