//! Tablets in memory become tablet files: a flush writes one file for each, and takes nothing of the table's turn.
#![tactic(auto)]

mod flushing;
mod job;

pub use flushing::write_flush;
pub use job::{FlushDone, FlushJob, FlushPart, FlushedPart, Ticket};
