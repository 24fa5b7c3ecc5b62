//! The top call: from the words, the source's bytes and a directory to the sink's bytes, a status and the directory after.
#![tactic(auto)]

mod creating;
mod looking;
mod output;
mod refusals;
mod refusing;
mod serving;
mod session;
mod status;
mod store;
mod top;
mod words;

pub use status::Status;
pub use top::run;
pub use words::{Creation, creation_of, is_run};
