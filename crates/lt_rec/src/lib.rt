//! Small types that the whole store shares: bytes and texts, records, boxes and periods, and the one refusal for want of
//! memory.
#![tactic(auto)]

mod cut;
mod fault;
mod files;
mod format;
mod label;
mod limits;
mod listed;
mod no_memory;
mod octets;
mod period;
mod raw_box;
mod rec;
mod rec_list;
mod steps;
mod view;

pub use cut::Cut;
pub use fault::{Fault, FormatError};
pub use files::Files;
pub use format::{byte_of, bytes_of, place_of, put_u32, put_u64, test_at, u32_at, u64_at};
pub use label::Label;
pub use limits::{LONGEST_BLOCK, NUMBERS_END};
pub use listed::{Listed, TabletId};
pub use no_memory::NoMemory;
pub use octets::Octets;
pub use period::Period;
pub use raw_box::RawBox;
pub use rec::Rec;
pub use rec_list::{Chunk, RecList};
pub use steps::Steps;
pub use view::RecView;
