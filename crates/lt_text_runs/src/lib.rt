//! How texts are read as schemas, rows and lines, and what replies look like, against tables written by hand. It has tests alone.
#![tactic(auto)]

#[cfg(test)]
mod tests;
