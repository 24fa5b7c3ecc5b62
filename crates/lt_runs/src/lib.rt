//! What runs of the top call write, how they end, and what they leave of a directory in memory. It has tests alone.
#![tactic(auto)]

#[cfg(test)]
mod tests;
