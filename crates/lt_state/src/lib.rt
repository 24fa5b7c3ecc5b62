//! The state of a table, what it stands for, and the facts that each stop relies on.
#![tactic(auto)]

pub mod laws;
