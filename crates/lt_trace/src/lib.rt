//! What a table's directory traces out: the notes beside a history, the records of files, and what an image opens to.
#![tactic(auto)]

pub mod laws;
