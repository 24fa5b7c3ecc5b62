ghost use Rattle.std.specs.Prelude.{◌≡◌, ◌↔◌, true, None};
ghost use Rattle.std.specs.IoError.{error_kind, raw_os_error};
ghost use Rattle.std.specs.declared.io.ErrorKind.TheVariants.{OutOfMemory as WantOfMemory};

use std::io::ErrorKind;
use std::{fmt, io};

/// Whether the program's own memory ran out. Where the system says so of its own, what was asked may have been done in part.
pub(crate) fn is_want_of_memory(error: &io::Error) -> bool
    ensures { (result ≡ true) ↔ ((error_kind error.now ≡ WantOfMemory) × (raw_os_error error.now ≡ None)) }
{
    error.kind() == ErrorKind::OutOfMemory && error.raw_os_error().is_none()
}

/// What a failed call was about.
#[derive(Clone, Copy, Debug, PartialEq, Eq)]
pub enum Place {
    /// The file of that number.
    File(u64),
    Descriptor,
    /// The folder itself.
    Folder,
}

impl fmt::Display for Place {
    fn fmt<W: fmt::Write>(&self, f: &mut fmt::Formatter<W>) -> fmt::Result {
        match self {
            Place::File(number) => write!(f, "file {number}"),
            Place::Descriptor => write!(f, "DESCRIPTOR"),
            Place::Folder => write!(f, "the folder"),
        }
    }
}

/// An error of the system, and what it was about.
#[derive(Clone, Copy, Debug)]
pub struct Trouble {
    pub place: Place,
    pub error: io::Error,
}

impl fmt::Display for Trouble {
    fn fmt<W: fmt::Write>(&self, f: &mut fmt::Formatter<W>) -> fmt::Result {
        let (place, error) = (self.place, self.error);
        write!(f, "{place}: {error}")
    }
}
