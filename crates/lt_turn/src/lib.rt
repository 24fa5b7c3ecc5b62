//! One value for many threads: what every thread adds to it is one list.
#![tactic(auto)]

mod rule;
mod seat;
mod turn;
mod view;

pub use seat::Seat;
pub use turn::Turn;
pub use view::{Role, View};
