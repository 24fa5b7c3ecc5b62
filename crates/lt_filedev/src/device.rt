ghost use Rattle.std.specs.Prelude.{◌≡◌, ◌≤◌, None, Some, IfOk, IsSome, option_copied};
ghost use Rattle.std.specs.IoError.{raw_os_error};
ghost use Rattle.lt_io.specs.Cause.{Rose};
ghost use Rattle.lt_io.specs.Device.{Counts};
ghost use Rattle.lt_io.specs.declared.device_error.DeviceError.TheVariants.{Failed as Fault};

use crate::buffer::ReadBuffer;
use crate::dir::FileDir;
use crate::folder::Folder;
use crate::system::System;
use crate::trouble::{Place, Trouble, is_want_of_memory};
use lt_io::{DeviceError, Failed};
use std::io;

/// A device over the files of a folder. It tells no contents.
#[derive(Debug, Drop)]
pub struct FileDevice<R: System> {
    pub(crate) folder: Folder<R>,
    pub(crate) buffer: ReadBuffer,
    pub(crate) faults: u64,
    first: Option<Trouble>,
}

impl<R: System> FileDevice<R> {
    /// A device for the folder of that directory.
    pub fn new(system: &R, dir: &FileDir) -> io::Result<FileDevice<R>>
        ensures faults { IfOk result (λ device. device.faults ≡ 0) }
        ensures first { IfOk result (λ device. device.first ≡ None) }
    {
        Ok(FileDevice {
            folder: Folder::new(system, dir.path(), dir.is_there())?,
            buffer: ReadBuffer::new(system.alloc()),
            faults: 0,
            first: None,
        })
    }

    /// The first error that it met.
    pub fn first_trouble(&self) -> Option<&Trouble>
        ensures { option_copied result ≡ self.now.first }
    {
        self.first.as_ref()
    }

    /// Counts a fault, and keeps the first.
    pub(crate) fn fail(&mut self, place: Place, error: io::Error) -> Failed
        ensures rose { Rose self.old.faults self.new.faults }
        ensures later { self.old.faults ≤ self.new.faults }
        ensures first { self.old.first ≡ None → self.new.first ≡ Some record { place = place; error = error } }
        ensures kept { IsSome self.old.first → self.new.first ≡ self.old.first }
    {
        self.faults = self.faults.saturating_add(1);
        if self.first.is_none() {
            self.first = Some(Trouble { place, error });
        }
        Failed
    }

    /// The program's own want of memory is no fault. Each error of the system is one.
    pub(crate) fn refuse(&mut self, place: Place, error: io::Error) -> DeviceError
        ensures cause { Counts self.old.faults self.new.faults (result ≡ Fault) }
        ensures system { IsSome (raw_os_error error) → result ≡ Fault }
        ensures first { result ≡ Fault → self.old.first ≡ None → self.new.first ≡ Some record { place = place; error = error } }
        ensures kept { IsSome self.old.first → self.new.first ≡ self.old.first }
    {
        if is_want_of_memory(&error) {
            return DeviceError::NoMemory;
        }
        DeviceError::from(self.fail(place, error))
    }
}
