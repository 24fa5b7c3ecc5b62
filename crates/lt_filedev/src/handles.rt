use std::fs::File;
use std::marker::Model;

/// A file number that was lent. Contracts see the number.
#[derive(Debug, Drop)]
pub struct FileLent {
    pub(crate) number: u64,
}

impl Model for FileLent {
    ghost use Rattle.std.specs.Prelude.{ℕ};

    ghost Value = { ℕ };

    ghost view = { λ l. l.number };
}

/// A file that is being written. Contracts see its number.
#[derive(Debug, Drop)]
pub struct FilePen {
    pub(crate) number: u64,
    pub(crate) file: File,
    pub(crate) length: u64,
}

/// A sealed file. Contracts see its number and how many bytes it has.
#[derive(Debug, Drop)]
pub struct FileReader {
    pub(crate) number: u64,
    pub(crate) file: File,
    pub(crate) length: u64,
    // It was found under its own name.
    pub(crate) found: bool,
}
