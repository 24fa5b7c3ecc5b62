ghost use Rattle.std.specs.Prelude.{◌≡◌, ◌≤◌, ◌<◌, ◌^◌, ℕ, IfOk, decimal};
ghost use Rattle.std.specs.Fs.{dir_entry_name};

use crate::names::{Name, PathText, is_left_over, number_of};
use crate::system::System;
use std::alloc::Global;
use std::fs::{DirEntry, File};
use std::io::ErrorKind;
use std::path::Path;
use std::{fs, io};

pub(crate) fn with_slash(alloc: Global, path: &str) -> io::Result<String> {
    let mut text = String::from_str(alloc, path)?;
    if !path.ends_with('/') {
        text.push('/')?;
    }
    Ok(text)
}

/// The folder as it is opened for syncs. None where it is not there.
pub(crate) fn open_folder<R: System>(system: &R, path: &str) -> io::Result<Option<File>> {
    match fs::metadata(system, path) {
        Ok(found) if found.is_dir() => Ok(Some(File::open(system, path)?)),
        Ok(_) => Err(io::Error::from(ErrorKind::NotADirectory)),
        Err(error) if error.kind() == ErrorKind::NotFound => Ok(None),
        Err(error) => Err(error),
    }
}

/// Makes the folder, and syncs the one that it lies in.
pub(crate) fn make_folder<R: System>(system: &R, path: &str) -> io::Result<File> {
    fs::create_dir(system, path)?;
    let above = match Path::new(path).parent() {
        Some(above) if !above.as_str().is_empty() => File::open(system, above)?,
        _ => File::open(system, ".")?,
    };
    above.sync_all()?;
    File::open(system, path)
}

/// Whether something has that path, a symbolic link too.
pub(crate) fn is_there<R: System>(system: &R, path: &str) -> io::Result<bool> {
    match fs::symlink_metadata(system, path) {
        Ok(_) => Ok(true),
        Err(error) if error.kind() == ErrorKind::NotFound => Ok(false),
        Err(error) => Err(error),
    }
}

/// The entry, if its name is text. A name that is none is another program's.
pub(crate) fn named<R: System>(entry: io::Result<DirEntry<R>>) -> io::Result<Option<DirEntry<R>>> {
    match entry {
        Ok(entry) => Ok(Some(entry)),
        Err(error) if error.kind() == ErrorKind::InvalidFilename => Ok(None),
        Err(error) => Err(error),
    }
}

/// Removes the entry where a stopped run left it. Gives a ceiling that is also above the file, where it is an entered one.
fn sort_out<R: System>(system: &R, entry: &DirEntry<R>, ceiling: u64) -> u64
    requires { ceiling ≤ 2 ^ 62 }
    ensures no_lower { ceiling ≤ result }
    ensures above { (number : ℕ) → number < 2 ^ 62 → dir_entry_name entry.now ≡ decimal number → number < result }
    ensures in_range { result ≤ 2 ^ 62 }
{
    let name = entry.file_name();
    if is_left_over(name) {
        // What stays takes room, and is no harm else.
        let _ = fs::remove_file(system, entry.path());
    }
    match number_of(name) {
        Some(number) => ceiling.max(number + 1),
        None => ceiling,
    }
}

/// Removes what stopped runs left of files that were never entered. Gives a number above each entered file.
pub(crate) fn sort_out_all<R: System>(system: &R, folder: &str) -> io::Result<u64>
    ensures in_range { IfOk result (λ ceiling. ceiling ≤ 2 ^ 62) }
{
    let mut ceiling = 0;
    for entry in fs::read_dir(system, folder)? {
        if let Some(entry) = named(entry)? {
            ceiling = sort_out(system, &entry, ceiling);
        }
    }
    Ok(ceiling)
}
