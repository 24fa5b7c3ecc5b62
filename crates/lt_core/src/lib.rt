//! The state of one table that a turn guards: a machine without threads, each call of which is one step of the table's
//! history. For each story that it stood for, it stands after a call for that story with what the answer adds.
#![tactic(auto)]

mod altering;
mod errors;
mod laws;
mod part;
mod publishing;
mod rows;
mod seeking;
mod state;
mod tablets;
mod tickets;

pub use errors::{CoreAlterError, InsertError};
pub use laws::stories_grow_by_parts;
pub use part::Part;
pub use state::Core;
