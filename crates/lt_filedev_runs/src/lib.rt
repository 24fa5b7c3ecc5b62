//! What devices over real files do in a folder of the tests. It has tests alone.
#![tactic(auto)]

#[cfg(test)]
mod tests;
