//! The language of a session: what its lines ask.
//! An input is cut into lines, and a line is read exactly where it has the form of one.
#![tactic(auto)]

mod alters;
mod hex;
mod integers;
mod laws;
mod lines;
mod literals;
mod names;
mod scans;
mod sentences;
mod stop;
mod texts;
mod tokens;

pub use integers::read_count;
pub use laws::one_meaning;
pub use lines::next_line;
pub use sentences::read_line;
