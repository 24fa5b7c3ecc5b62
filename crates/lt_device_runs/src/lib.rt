//! What sources, sinks, clocks and devices in memory do where a call fails, against tables written by hand. It has tests alone.
#![tactic(auto)]

#[cfg(test)]
mod tests;
