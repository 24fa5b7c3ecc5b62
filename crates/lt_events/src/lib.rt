//! What each event makes of a table's state: the laws that it stands for its story after it.
#![tactic(auto)]

pub mod laws;
