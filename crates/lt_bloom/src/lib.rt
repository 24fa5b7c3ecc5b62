//! Bloom filters over hashes of 64 bits, ten bits a hash: seven bits are set for each, and a hash is admitted where all
//! seven of its bits are set. So a member is never denied.
#![tactic(auto)]

mod bits;
mod divisor;
mod filter;
mod hash;

pub use filter::Filter;
pub use hash::stem_hash;
