ghost use Rattle.std.specs.Prelude.{◌≡◌, ◌≤◌, ◌<◌, ◌+◌, ◌^◌, IfOk, max};
ghost use Rattle.lt_filedev.specs.Opened.{IsUnused};

use crate::lock::{OpenError, lock};
use crate::names::{Name, PathText};
use crate::opening::{is_there, make_folder, open_folder, sort_out_all, with_slash};
use crate::system::System;
use std::alloc::Global;
use std::fs::File;
use std::io;
use std::marker::Model;

/// A folder as a directory. It is locked for as long as the value lives, unless it is not there.
#[derive(Debug, Drop)]
pub struct FileDir {
    // Ended by a slash.
    path: String,
    // None where it is not there.
    folder: Option<File>,
    _lock: Option<File>,
    // A sync of the folder failed. What is on the disk is not known from then on, and a later sync may hide it.
    unsure: bool,
    // Above each entered file that was there when it was opened, so none of them is written over.
    ceiling: u64,
    lends: u64,
    spare: u64,
}

impl Model for FileDir {
    ghost use Rattle.std.specs.Prelude.{◌≤◌, ◌^◌};
    ghost use Rattle.lt_filedev.specs.Opened.{Opened};

    ghost Value = { Opened };

    ghost view = { λ d. record { ceiling = d.ceiling; lends = d.lends; spare = d.spare } };

    ghost invariant = { λ d. (d.lends ≤ d.ceiling) × (d.ceiling ≤ 2 ^ 62) };
}

impl FileDir {
    fn of(path: String, folder: Option<File>, lock: Option<File>, ceiling: u64) -> FileDir
        requires { ceiling ≤ 2 ^ 62 }
        ensures { result ≡ record { ceiling = ceiling; lends = 0; spare = 0 } }
    {
        FileDir {
            path,
            folder,
            _lock: lock,
            unsure: false,
            ceiling,
            lends: 0,
            spare: 0,
        }
    }

    /// A folder that is not there. It holds nothing, and no file can be made in it.
    pub fn absent(alloc: Global, path: &str) -> io::Result<FileDir>
        ensures { IfOk result (λ dir. dir ≡ record { ceiling = 0; lends = 0; spare = 0 }) }
    {
        Ok(FileDir::of(with_slash(alloc, path)?, None, None, 0))
    }

    /// The folder of that path, locked. One without a descriptor is taken for one that is not there: nothing of it is read that
    /// another program may be writing.
    pub fn open<R: System>(system: &R, path: &str) -> Result<FileDir, OpenError>
        ensures { IfOk result IsUnused }
    {
        let Some(folder) = open_folder(system, path)? else {
            return Ok(FileDir::absent(system.alloc(), path)?);
        };
        let with_end = with_slash(system.alloc(), path)?;
        let mut names = PathText::new(system.alloc(), with_end.as_str())?;
        if !is_there(system, names.of(Name::Descriptor)?)? {
            return Ok(FileDir::absent(system.alloc(), path)?);
        }
        FileDir::locked(system, with_end, folder)
    }

    /// The folder of that path, locked. It is made where it is not there; the one that it lies in has to be there.
    pub fn make<R: System>(system: &R, path: &str) -> Result<FileDir, OpenError>
        ensures { IfOk result IsUnused }
    {
        let folder = match open_folder(system, path)? {
            Some(folder) => folder,
            None => make_folder(system, path)?,
        };
        FileDir::locked(system, with_slash(system.alloc(), path)?, folder)
    }

    fn locked<R: System>(system: &R, path: String, folder: File) -> Result<FileDir, OpenError>
        ensures { IfOk result IsUnused }
    {
        let mut names = PathText::new(system.alloc(), path.as_str())?;
        let lock = lock(system, names.of(Name::Lock)?)?;
        let ceiling = sort_out_all(system, path.as_str())?;
        Ok(FileDir::of(path, Some(folder), Some(lock), ceiling))
    }

    /// The folder's path, ended by a slash.
    pub(crate) fn path(&self) -> &str {
        self.path.as_str()
    }

    /// Whether the folder is there.
    pub(crate) fn is_there(&self) -> bool {
        self.folder.is_some()
    }

    pub(crate) fn ceiling(&self) -> u64
        ensures ceiling { result ≡ self.now.ceiling }
        ensures in_range { result ≤ 2 ^ 62 }
    {
        self.ceiling
    }

    pub(crate) fn lend(&mut self, file: u64)
        requires unlent { self.old.ceiling ≤ file }
        requires in_range { file < 2 ^ 62 }
        ensures ceiling { self.new.ceiling ≡ file + 1 }
        ensures lends { self.new.lends ≡ self.old.lends + 1 }
        ensures spare { self.new.spare ≡ self.old.spare }
    {
        self.ceiling = file + 1;
        self.lends += 1;
    }

    /// Makes room for a point and a settle.
    pub(crate) fn make_room(&mut self)
        ensures { self.new ≡ record self.old { spare = max self.old.spare 2 } }
    {
        self.spare = self.spare.max(2);
    }

    /// Uses room for a point or a settle.
    pub(crate) fn use_room(&mut self)
        requires { 0 < self.old.spare }
        ensures spare { self.new.spare + 1 ≡ self.old.spare }
        ensures ceiling { self.new.ceiling ≡ self.old.ceiling }
        ensures lends { self.new.lends ≡ self.old.lends }
    {
        self.spare -= 1;
    }

    /// Syncs the folder, if it is there. Once that has failed, it fails from then on.
    pub(crate) fn sync(&mut self) -> io::Result<()>
        ensures { self.new ≡ self.old }
    {
        let Some(folder) = &self.folder else {
            return Ok(());
        };
        if self.unsure {
            return Err(io::Error::other("an earlier sync of the folder failed"));
        }
        let synced = folder.sync_all();
        self.unsure = synced.is_err();
        synced
    }
}
