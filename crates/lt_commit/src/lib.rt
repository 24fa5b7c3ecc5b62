//! The replaced descriptor of a directory: which stones a stop may leave after each call, and which files a sweep takes.
#![tactic(auto)]

mod anchor;
mod creating;
mod errors;
mod opening;
mod publishing;
mod sweeping;

pub use anchor::Anchor;
pub use errors::{CommitError, CreateError, FreshError, LoadError};
