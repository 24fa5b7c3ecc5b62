//! Devices over real files. What they hold is told to nobody; that a real disk does what is supposed of one is not proved.
#![tactic(auto)]

mod buffer;
mod calls;
mod device;
mod dir;
mod folder;
mod handles;
mod lock;
mod names;
mod opening;
mod standard;
mod system;
mod trouble;

pub use device::FileDevice;
pub use dir::FileDir;
pub use handles::{FileLent, FilePen, FileReader};
pub use lock::OpenError;
pub use standard::{standard_input, standard_output};
pub use system::System;
pub use trouble::{Place, Trouble};
