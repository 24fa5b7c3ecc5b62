//! The tablets in memory of one table: what takes a row, what goes out, and what is read of them.
#![tactic(auto)]

mod going;
mod held;
mod memory;
mod seek;
mod sharing;
mod take;
mod walks;

pub use going::{FreezeRefusal, FreezeWhat};
pub use memory::Memory;
pub use sharing::FrozenPart;
