//! How descriptors are spelled and read, and what a stop leaves of a replaced one, against tables written by hand. It has tests alone.
#![tactic(auto)]

#[cfg(test)]
mod tests;
