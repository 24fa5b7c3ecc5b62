//! Tablet files over devices: loaded whole and checked, read block by block, and written. A file is loaded exactly where its
//! bytes are one and agree with its listing; else the first broken rule is named by its offset.
#![tactic(auto)]

mod block;
mod errors;
mod fresh;
mod loading;
mod tablet;
mod writer;

pub use errors::{ReadError, WriteError};
pub use fresh::Fresh;
pub use lt_layout::file_laws;
pub use tablet::Tablet;
pub use writer::TabletWriter;
