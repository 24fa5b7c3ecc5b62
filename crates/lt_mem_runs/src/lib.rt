//! What tablets in memory hold and give, beside a plain list. It has tests alone.
#![tactic(auto)]

#[cfg(test)]
mod tests;
