//! The listed tablets of a table, loaded from its directory and checked: each file is there and keeps its format, and each
//! record is one of a row. Nothing of the directory is changed.
#![tactic(auto)]

mod refusal;
mod rows;
mod tablets;

pub use refusal::LoadRefusal;
pub use tablets::load_tablets;
