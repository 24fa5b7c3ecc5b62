//! What calls on records, lists, periods, plans, dependencies and filters give, against tables written by hand. It has tests alone.
#![tactic(auto)]

#[cfg(test)]
mod tests;
