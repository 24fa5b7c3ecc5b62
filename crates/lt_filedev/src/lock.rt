use crate::system::System;
use crate::trouble::is_want_of_memory;
use std::fs::{File, TryLockError};
use std::io::ErrorKind;
use std::{fmt, fs, io};

/// Why a folder was not opened.
#[derive(Debug, Drop)]
pub enum OpenError {
    /// Another program has it open.
    InUse,
    /// Memory ran out.
    NoMemory,
    /// The system refused.
    System(io::Error),
}

impl fmt::Display for OpenError {
    fn fmt<W: fmt::Write>(&self, f: &mut fmt::Formatter<W>) -> fmt::Result {
        match self {
            OpenError::InUse => write!(f, "another program has the folder open"),
            OpenError::NoMemory => write!(f, "no memory"),
            OpenError::System(error) => write!(f, "{error}"),
        }
    }
}

impl std::error::Error for OpenError {}

impl From<io::Error> for OpenError {
    fn from(error: io::Error) -> OpenError {
        if is_want_of_memory(&error) {
            return OpenError::NoMemory;
        }
        OpenError::System(error)
    }
}

/// Refuses what is no file, before it is opened: a pipe would make the program wait.
fn refuse_other<R: System>(system: &R, path: &str) -> io::Result<()> {
    match fs::metadata(system, path) {
        Ok(found) if !found.is_file() => Err(io::Error::other("LOCK is not a file")),
        Ok(_) => Ok(()),
        Err(error) if error.kind() == ErrorKind::NotFound => Ok(()),
        Err(error) => Err(error),
    }
}

/// Locks the file of that path, which is made where it is not there. The lock is held for as long as the file is open.
pub(crate) fn lock<R: System>(system: &R, path: &str) -> Result<File, OpenError> {
    refuse_other(system, path)?;
    let mut options = File::options();
    options.write(true).create(true);
    let file = options.open(system, path)?;
    match file.try_lock() {
        Ok(()) => Ok(file),
        Err(TryLockError::WouldBlock) => Err(OpenError::InUse),
        Err(TryLockError::Error(error)) => Err(OpenError::from(error)),
    }
}
