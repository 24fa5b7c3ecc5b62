ghost use Rattle.std.specs.Prelude.{◌≡◌, ◌<◌, ◌^◌, Ok, Some, IfOk, IfSome, All};
ghost use Rattle.std.specs.List.Sorted.{IsStrictlyIncreasing};

use crate::handles::FileReader;
use crate::names::{Name, PathText, number_of};
use crate::opening::{is_there, named};
use crate::system::System;
use std::fs::{DirEntry, File};
use std::io::{ErrorKind, Read};
use std::{fs, io};

/// The files of a folder, by their names.
#[derive(Debug, Drop)]
pub(crate) struct Folder<R: System> {
    system: R,
    // Two, since a renaming has two paths.
    from: PathText,
    to: PathText,
    is_there: bool,
}

/// An error of kind `NotFound` becomes None.
fn if_there<T: Drop>(found: io::Result<T>) -> io::Result<Option<T>>
    ensures there { IfOk result (λ given. IfSome given (λ value. found ≡ Ok value)) }
    ensures given { IfOk found (λ value. result ≡ Ok (Some value)) }
{
    match found {
        Ok(value) => Ok(Some(value)),
        Err(error) if error.kind() == ErrorKind::NotFound => Ok(None),
        Err(error) => Err(error),
    }
}

fn create_new<R: System>(system: &R, path: &str) -> io::Result<File> {
    let mut options = File::options();
    options.read(true).write(true).create_new(true);
    options.open(system, path)
}

/// The number that an entry's name says, if it says one.
fn listed<R: System>(entry: io::Result<DirEntry<R>>) -> io::Result<Option<u64>>
    ensures { IfOk result (λ found. IfSome found (λ number. number < 2 ^ 62)) }
{
    match named(entry)? {
        Some(entry) => Ok(number_of(entry.file_name())),
        None => Ok(None),
    }
}

/// Puts the numbers in rising order, each once.
fn put_in_order(numbers: &mut Vec<u64>)
    ensures in_range { All (λ number. number < 2 ^ 62) numbers.old.items → All (λ number. number < 2 ^ 62) numbers.new.items }
    ensures rising { IsStrictlyIncreasing numbers.new.items }
{
    numbers.sort_unstable();
    numbers.dedup();
}

impl<R: System> Folder<R> {
    /// The path ends in a slash. A folder that is not there has no files, and none can be made.
    pub(crate) fn new(system: &R, path: &str, is_there: bool) -> io::Result<Folder<R>> {
        Ok(Folder {
            system: system.clone()?,
            from: PathText::new(system.alloc(), path)?,
            to: PathText::new(system.alloc(), path)?,
            is_there,
        })
    }

    /// Begins an empty file, under a name that no listing shows.
    pub(crate) fn begin(&mut self, number: u64) -> io::Result<File> {
        if !self.is_there {
            return Err(io::Error::from(ErrorKind::NotFound));
        }
        let path = self.from.of(Name::Unentered(number))?;
        match create_new(&self.system, path) {
            // What a stopped run left there is in the way.
            Err(error) if error.kind() == ErrorKind::AlreadyExists => {
                fs::remove_file(&self.system, path)?;
                create_new(&self.system, path)
            }
            made => made,
        }
    }

    /// Gives a file that was begun its own name. A file that has it already keeps it.
    pub(crate) fn name(&mut self, reader: &FileReader) -> io::Result<()> {
        let own = self.to.of(Name::File(reader.number))?;
        if !reader.found {
            let from = self.from.of(Name::Unentered(reader.number))?;
            if if_there(fs::rename(&self.system, from, own))?.is_some() {
                return Ok(());
            }
        }
        if is_there(&self.system, own)? {
            return Ok(());
        }
        Err(io::Error::from(ErrorKind::NotFound))
    }

    /// Puts the file in the descriptor's place. One that was entered keeps its own name too.
    pub(crate) fn point(&mut self, reader: &FileReader) -> io::Result<()> {
        if !reader.found {
            let from = self.from.of(Name::Unentered(reader.number))?;
            let to = self.to.of(Name::Descriptor)?;
            if if_there(fs::rename(&self.system, from, to))?.is_some() {
                return Ok(());
            }
        }
        self.link(reader.number)?;
        let from = self.from.of(Name::NextDescriptor)?;
        let to = self.to.of(Name::Descriptor)?;
        fs::rename(&self.system, from, to)
    }

    /// Gives an entered file a second name.
    fn link(&mut self, number: u64) -> io::Result<()> {
        let next = self.to.of(Name::NextDescriptor)?;
        if_there(fs::remove_file(&self.system, next))?;
        let own = self.from.of(Name::File(number))?;
        fs::hard_link(&self.system, own, next)
    }

    pub(crate) fn remove(&mut self, number: u64) -> io::Result<()> {
        if !self.is_there {
            return Ok(());
        }
        let own = self.from.of(Name::File(number))?;
        if_there(fs::remove_file(&self.system, own))?;
        Ok(())
    }

    /// The file of that name as it is, if it is there. What is no file is refused before it is opened.
    fn open(&mut self, name: Name) -> io::Result<Option<(File, u64)>> {
        if !self.is_there {
            return Ok(None);
        }
        let path = self.from.of(name)?;
        let Some(found) = if_there(fs::metadata(&self.system, path))? else {
            return Ok(None);
        };
        if !found.is_file() {
            return Err(io::Error::other("not a file"));
        }
        Ok(Some((File::open(&self.system, path)?, found.len())))
    }

    pub(crate) fn fetch(&mut self, number: u64) -> io::Result<Option<FileReader>>
        ensures number { IfOk result (λ found. IfSome found (λ reader. reader.number ≡ number)) }
    {
        let Some((file, length)) = self.open(Name::File(number))? else {
            return Ok(None);
        };
        Ok(Some(FileReader {
            number,
            file,
            length,
            found: true,
        }))
    }

    pub(crate) fn descriptor(&mut self) -> io::Result<Option<Vec<u8>>> {
        let Some((mut file, _)) = self.open(Name::Descriptor)? else {
            return Ok(None);
        };
        let mut bytes = Vec::new(self.system.alloc());
        file.read_to_end(&mut bytes)?;
        Ok(Some(bytes))
    }

    /// The numbers of the entered files.
    fn names(&mut self) -> io::Result<Vec<u64>>
        ensures in_range { IfOk result (λ numbers. All (λ number. number < 2 ^ 62) numbers.items) }
    {
        let mut numbers = Vec::new(self.system.alloc());
        if !self.is_there {
            return Ok(numbers);
        }
        for entry in fs::read_dir(&self.system, self.from.folder())? {
            if let Some(number) = listed(entry)? {
                numbers.push(number)?;
            }
        }
        Ok(numbers)
    }

    /// The numbers of the entered files, rising.
    pub(crate) fn numbers(&mut self) -> io::Result<Vec<u64>>
        ensures in_range { IfOk result (λ numbers. All (λ number. number < 2 ^ 62) numbers.items) }
        ensures rising { IfOk result (λ numbers. IsStrictlyIncreasing numbers.items) }
    {
        let mut numbers = self.names()?;
        put_in_order(&mut numbers);
        Ok(numbers)
    }
}
