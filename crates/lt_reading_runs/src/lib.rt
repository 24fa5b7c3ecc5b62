//! What cursors and look-ups give over three tablet files and two lists, and which blocks they read. It has tests alone.
#![tactic(auto)]

#[cfg(test)]
mod tests;
