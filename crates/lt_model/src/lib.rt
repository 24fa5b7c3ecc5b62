//! What a table's history is, what may follow it, what answers it, and what a session of clients adds to it.
#![tactic(auto)]

pub mod laws;
