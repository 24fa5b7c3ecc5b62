//! The outside, as the store sees it: where input comes from and output goes, the time, and where files are kept.
//! What an object has left or holds is told or not; a fault comes only where the object's count of faults rose.
#![tactic(auto)]

mod cause;
mod clock;
mod device;
mod device_error;
mod enters;
mod memory;
mod reading;
mod sink;
mod source;
mod std_io;
mod writing;

pub use cause::{SinkFault, SourceFault};
pub use clock::{Clock, FixedClock, StepClock};
pub use device::{Device, Listing};
pub use device_error::{DeviceError, Failed};
pub use enters::Enters;
pub use memory::{MemSink, MemSource};
pub use reading::{INPUT_LIMIT, ReadAllError, read_all};
pub use sink::Sink;
pub use source::Source;
pub use std_io::{ReaderSource, WriterSink};
pub use writing::write_all;
