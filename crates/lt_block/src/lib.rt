//! Blocks: a u32 number of records, at least one, then the records with rising keys, and nothing more.
//! A block is read exactly where its bytes are one; else the first broken rule is named by its offset.
#![tactic(auto)]

mod block;
mod laws;
mod reading;
mod table;
mod writer;

pub use block::Block;
pub use laws::block_laws;
pub use lt_rec::{Fault, FormatError, RecView};
pub use reading::record_of;
pub use writer::{Added, BlockWriter};
