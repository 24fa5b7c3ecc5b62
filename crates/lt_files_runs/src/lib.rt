//! How blocks and tablet files are written and read, byte by byte. It has tests alone.
#![tactic(auto)]

#[cfg(test)]
mod tests;
