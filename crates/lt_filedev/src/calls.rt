ghost use Rattle.std.specs.Prelude.{◌≡◌, ◌≤◌, ◌<◌, ◌+◌, ◌^◌, [], false, All, IfSome, IfNone};
ghost use Rattle.lt_filedev.specs.Opened.{directory_of, untold};

use crate::device::FileDevice;
use crate::dir::FileDir;
use crate::handles::{FileLent, FilePen, FileReader};
use crate::system::System;
use crate::trouble::Place;
use bytes::Bytes;
use lt_io::{Device, DeviceError, Failed, Listing};
use lt_rec::{Files, NoMemory, Octets};
use std::io;
use std::io::{ErrorKind, Write};

/// The greatest of the numbers.
fn greatest(numbers: &[u64]) -> Option<u64>
    requires { All (λ number. number < 2 ^ 62) numbers.now }
    ensures none { IfNone result (numbers.now ≡ []) }
    ensures in_range { IfSome result (λ most. most < 2 ^ 62) }
    ensures greatest { IfSome result (λ most. All (λ number. number < most + 1) numbers.now) }
{
    numbers.iter().copied().max()
}

/// A number above each of the numbers and not below the ceiling.
fn ceiling_above(ceiling: u64, numbers: &[u64]) -> u64
    requires ceiling { ceiling ≤ 2 ^ 62 }
    requires numbers { All (λ number. number < 2 ^ 62) numbers.now }
    ensures above { All (λ number. number < result) numbers.now }
    ensures lent { ceiling ≤ result }
    ensures in_range { result ≤ 2 ^ 62 }
{
    match greatest(numbers) {
        Some(most) => ceiling.max(most + 1),
        None => ceiling,
    }
}

fn put(pen: &mut FilePen, bytes: &[u8]) -> io::Result<()>
    ensures { pen.new.number ≡ pen.old.number }
{
    let Some(length) = pen.length.checked_add(bytes.len() as u64) else {
        return Err(io::Error::from(ErrorKind::FileTooLarge));
    };
    pen.file.write_all(bytes)?;
    pen.length = length;
    Ok(())
}

impl<R: System + Send> Device for FileDevice<R> {
    type Dir = FileDir;

    type Lent = FileLent;

    type Pen = FilePen;

    type Reader = FileReader;

    ghost honest = { false };

    ghost faults = { λ d. d.faults };

    ghost directory = { directory_of };

    ghost spare = { λ d. d.spare };

    ghost lent_number = { λ l. l };

    ghost pen_number = { λ p. p.number };

    ghost pen_bytes = { λ _. [] };

    ghost reader_number = { λ r. r.number };

    ghost reader_size = { λ r. r.length };

    ghost reader_bytes = { λ _. [] };

    ghost sized = { λ _ told. untold told };

    fn lend(dir: &mut FileDir, file: u64) -> FileLent {
        dir.lend(file);
        FileLent { number: file }
    }

    fn number(lent: &FileLent) -> u64 {
        lent.number
    }

    fn create(&mut self, lent: FileLent) -> Result<FilePen, (FileLent, DeviceError)> {
        let number = lent.number;
        match self.folder.begin(number) {
            Ok(file) => Ok(FilePen {
                number,
                file,
                length: 0,
            }),
            Err(error) => Err((lent, self.refuse(Place::File(number), error))),
        }
    }

    fn append(&mut self, pen: &mut FilePen, bytes: &[u8]) -> Result<(), DeviceError> {
        match put(pen, bytes) {
            Ok(()) => Ok(()),
            Err(error) => Err(self.refuse(Place::File(pen.number), error)),
        }
    }

    fn seal(&mut self, pen: FilePen) -> Result<FileReader, DeviceError> {
        let FilePen {
            number,
            file,
            length,
        } = pen;
        match file.sync_data() {
            Ok(()) => Ok(FileReader {
                number,
                file,
                length,
                found: false,
            }),
            Err(error) => Err(self.refuse(Place::File(number), error)),
        }
    }

    fn length(reader: &FileReader) -> u64 {
        reader.length
    }

    fn enter(&mut self, dir: &mut FileDir, reader: &FileReader) -> Result<(), DeviceError> {
        let entered = match self.folder.name(reader) {
            Ok(()) => dir.sync(),
            Err(error) => Err(error),
        };
        match entered {
            Ok(()) => Ok(()),
            Err(error) => Err(self.refuse(Place::File(reader.number), error)),
        }
    }

    fn ready(&mut self, dir: &mut FileDir) -> Result<(), NoMemory> {
        dir.make_room();
        Ok(())
    }

    fn point(&mut self, dir: &mut FileDir, reader: &FileReader) -> Result<(), Failed> {
        dir.use_room();
        match self.folder.point(reader) {
            Ok(()) => Ok(()),
            Err(error) => Err(self.fail(Place::Descriptor, error)),
        }
    }

    fn settle(&mut self, dir: &mut FileDir) -> Result<(), Failed> {
        dir.use_room();
        match dir.sync() {
            Ok(()) => Ok(()),
            Err(error) => Err(self.fail(Place::Folder, error)),
        }
    }

    fn remove(&mut self, _dir: &mut FileDir, file: u64) -> Result<(), DeviceError> {
        match self.folder.remove(file) {
            Ok(()) => Ok(()),
            Err(error) => Err(self.refuse(Place::File(file), error)),
        }
    }

    fn descriptor(&mut self, _dir: &FileDir) -> Result<Option<Octets>, DeviceError> {
        match self.folder.descriptor() {
            Ok(found) => Ok(found.map(Octets::from_vec)),
            Err(error) => Err(self.refuse(Place::Descriptor, error)),
        }
    }

    fn fetch(&mut self, _dir: &FileDir, file: u64) -> Result<Option<FileReader>, DeviceError> {
        match self.folder.fetch(file) {
            Ok(found) => Ok(found),
            Err(error) => Err(self.refuse(Place::File(file), error)),
        }
    }

    fn list(&mut self, dir: &FileDir) -> Result<Listing, DeviceError> {
        match self.folder.numbers() {
            Ok(numbers) => {
                let ceiling = ceiling_above(dir.ceiling(), numbers.as_slice());
                Ok(Listing {
                    files: Files::from_vec(numbers),
                    ceiling,
                })
            }
            Err(error) => Err(self.refuse(Place::Folder, error)),
        }
    }

    fn read_at(&mut self, reader: &FileReader, at: u64, len: u64) -> Result<Bytes, DeviceError> {
        match self.buffer.read(&reader.file, at, len as usize) {
            Ok(given) => Ok(given),
            Err(error) => Err(self.refuse(Place::File(reader.number), error)),
        }
    }
}
