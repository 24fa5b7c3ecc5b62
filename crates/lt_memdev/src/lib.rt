//! Devices over memory. What they hold is told, so all that is said of honest devices is proved of them.
#![tactic(auto)]

mod change;
mod content;
mod device;
mod dir;
mod fails;
mod file_map;
mod handles;
mod history;
mod image;
mod replay;

pub use device::MemDevice;
pub use dir::MemDir;
pub use fails::{Fail, Op};
pub use handles::{MemLent, MemPen, MemReader};
pub use image::{Choice, Loose};
