//! A cursor gives the records of a box of keys and times, over tablet files and lists in memory, in the order of their keys.
#![tactic(auto)]

mod cursor;
mod error;
mod merge;
mod opening;
mod page;
mod places;
mod source;
mod tablet_scan;

pub use cursor::Cursor;
pub use error::CursorError;
