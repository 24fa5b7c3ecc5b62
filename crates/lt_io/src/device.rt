ghost use Rattle.std.specs.Prelude.{◌≡◌, ◌<◌, ◌≤◌, ◌+◌, ◌^◌, ℕ, Bool, List, [], ◌++◌, true, length, take, drop, All, IfOk, IfErr, IfSome, OnOk, OnErr, IsErrOf, IsErrAnd, Contains, ◌↔◌, IsSome};
ghost use Rattle.std.specs.List.Sorted.{IsStrictlyIncreasing};
ghost use Rattle.std.specs.Option.{option_map};
ghost use Rattle.std.specs.Map.{keys_of};
ghost use Rattle.lt_io.specs.Cause.{HasCause};
ghost use Rattle.lt_io.specs.Directory.{Directory, Fits, file_at, lent};
ghost use Rattle.lt_io.specs.Device.{Counts, KeepsLent, EntersFile, RemovesFile, PointsAt, Settles};

use crate::{DeviceError, Failed};
use bytes::Bytes;
use lt_rec::{Files, NoMemory, Octets};

/// The files that are there, rising, and a number above each of them from which on none was lent.
#[derive(Debug, Drop)]
pub struct Listing {
    pub files: Files,
    pub ceiling: u64,
}

/// Where files are written and read, and where one of them is the directory's descriptor.
///
/// A file is lent, created, appended to and sealed; none of these is a moment of a directory. Calls of `enter`,
/// `point`, `settle` and `remove` are its moments, unless they answer want of memory. A stop at a moment, or between
/// it and the next one, leaves one of the images that are possible at that moment.
pub trait Device: Send + Drop {
    type Dir: Send + Drop;

    type Lent: Send + Drop;

    type Pen: Drop;

    type Reader: Send + Sync + Drop;

    /// Whether all these devices and directories tell what they hold, or none does.
    ghost honest: { Bool };

    /// How often the device has failed; the count stands still at 2^64 - 1.
    ghost faults: { Self → ℕ };

    /// What the directory is. Its ceiling and its count of lends hold of every device, all else of honest ones.
    ghost directory: { Self.Dir → Directory };

    /// How many calls of `point` and `settle` it has room for.
    ghost spare: { Self.Dir → ℕ };

    ghost lent_number: { Self.Lent → ℕ };

    ghost pen_number: { Self.Pen → ℕ };

    ghost pen_bytes: { Self.Pen → List ℕ };

    ghost reader_number: { Self.Reader → ℕ };

    ghost reader_size: { Self.Reader → ℕ };

    ghost reader_bytes: { Self.Reader → List ℕ };

    /// Lends a number that was not lent before, and all below it. No moment goes by. Takes no memory.
    fn lend(dir: &mut Self::Dir, file: u64) -> Self::Lent
        requires unlent { (directory dir.old).now.ceiling ≤ file }
        requires in_range { file < 2 ^ 62 }
        ensures number { lent_number result ≡ file }
        ensures ceiling { (directory dir.new).now.ceiling ≡ file + 1 }
        ensures lends { (directory dir.new).lends ≡ (directory dir.old).lends + 1 }
        ensures spare { spare dir.new ≡ spare dir.old }
        ensures lent { honest ≡ true → directory dir.new ≡ lent (directory dir.old) file }
        ensures possible { honest ≡ true → Fits (directory dir.old).seen (directory dir.old).now };

    /// The file number that was lent. Takes no memory.
    fn number(lent: &Self::Lent) -> u64
        ensures { result ≡ lent_number lent.now };

    /// Begins an empty file. A refusal hands the number back.
    fn create(&mut self, lent: Self::Lent) -> Result<Self::Pen, (Self::Lent, DeviceError)>
        ensures number { IfOk result (λ pen. pen_number pen ≡ lent_number lent) }
        ensures empty { honest ≡ true → IfOk result (λ pen. pen_bytes pen ≡ []) }
        ensures back { IfErr result (λ refused. lent_number refused.0 ≡ lent_number lent) }
        ensures cause { Counts (faults self.old) (faults self.new) (IsErrAnd result (λ refused. refused.1 ≡ DeviceError.Failed)) };

    /// Puts the bytes last. After a refusal nothing is known of the pen's bytes.
    fn append(&mut self, pen: &mut Self::Pen, bytes: &[u8]) -> Result<(), DeviceError>
        ensures number { pen_number pen.new ≡ pen_number pen.old }
        ensures written { honest ≡ true → OnOk result (pen_bytes pen.new ≡ pen_bytes pen.old ++ bytes.now) }
        ensures cause { Counts (faults self.old) (faults self.new) (IsErrOf result DeviceError.Failed) };

    /// Ends the writing. The reader has these bytes for good.
    fn seal(&mut self, pen: Self::Pen) -> Result<Self::Reader, DeviceError>
        ensures number { IfOk result (λ reader. reader_number reader ≡ pen_number pen) }
        ensures bytes { honest ≡ true → IfOk result (λ reader. reader_bytes reader ≡ pen_bytes pen) }
        ensures cause { Counts (faults self.old) (faults self.new) (IsErrOf result DeviceError.Failed) };

    /// The number of its bytes. Takes no memory.
    fn length(reader: &Self::Reader) -> u64
        ensures { result ≡ reader_size reader.now };

    /// Enters the file: from Ok on a stop leaves it as it is. After `Failed` nothing is known of it.
    fn enter(&mut self, dir: &mut Self::Dir, reader: &Self::Reader) -> Result<(), DeviceError>
        requires { reader_number reader.now < (directory dir.old).now.ceiling }
        ensures entered { honest ≡ true → EntersFile (directory dir.old) (directory dir.new) (reader_number reader.now) (reader_bytes reader.now) result }
        ensures unchanged { IsErrOf result DeviceError.NoMemory → directory dir.new ≡ directory dir.old }
        ensures lent { KeepsLent (directory dir.old) (directory dir.new) }
        ensures spare { spare dir.new ≡ spare dir.old }
        ensures cause { Counts (faults self.old) (faults self.new) (IsErrOf result DeviceError.Failed) };

    /// Makes room for a `point` and a `settle`, which take no memory.
    fn ready(&mut self, dir: &mut Self::Dir) -> Result<(), NoMemory>
        ensures spare { OnOk result (2 ≤ spare dir.new) }
        ensures no_less { spare dir.old ≤ spare dir.new }
        ensures unchanged { directory dir.new ≡ directory dir.old }
        ensures possible { honest ≡ true → Fits (directory dir.old).seen (directory dir.old).now }
        ensures later { faults self.old ≤ faults self.new };

    /// Makes the reader's bytes a possible descriptor. After Ok they are the one that a read gives. Takes no memory.
    fn point(&mut self, dir: &mut Self::Dir, reader: &Self::Reader) -> Result<(), Failed>
        requires { 0 < spare dir.old }
        ensures pointed { honest ≡ true → PointsAt (directory dir.old) (directory dir.new) (reader_bytes reader.now) result }
        ensures lent { KeepsLent (directory dir.old) (directory dir.new) }
        ensures spare { spare dir.new + 1 ≡ spare dir.old }
        ensures cause { HasCause (faults self.old) (faults self.new) result };

    /// Makes the descriptor that a read gives the only possible one. Takes no memory.
    fn settle(&mut self, dir: &mut Self::Dir) -> Result<(), Failed>
        requires { 0 < spare dir.old }
        ensures settled { honest ≡ true → Settles (directory dir.old) (directory dir.new) result }
        ensures lent { KeepsLent (directory dir.old) (directory dir.new) }
        ensures spare { spare dir.new + 1 ≡ spare dir.old }
        ensures cause { HasCause (faults self.old) (faults self.new) result };

    /// Takes a file away. After Ok and after `Failed` nothing is known of it any more, and one that was not there is not there.
    fn remove(&mut self, dir: &mut Self::Dir, file: u64) -> Result<(), DeviceError>
        ensures removed { honest ≡ true → RemovesFile (directory dir.old) (directory dir.new) file result }
        ensures unchanged { IsErrOf result DeviceError.NoMemory → directory dir.new ≡ directory dir.old }
        ensures lent { KeepsLent (directory dir.old) (directory dir.new) }
        ensures spare { spare dir.new ≡ spare dir.old }
        ensures cause { Counts (faults self.old) (faults self.new) (IsErrOf result DeviceError.Failed) };

    /// The bytes of the descriptor, if there is one.
    fn descriptor(&mut self, dir: &Self::Dir) -> Result<Option<Octets>, DeviceError>
        ensures current { honest ≡ true → IfOk result (λ found. found ≡ (directory dir.now).seen.descriptor) }
        ensures possible { honest ≡ true → Fits (directory dir.now).seen (directory dir.now).now }
        ensures cause { Counts (faults self.old) (faults self.new) (IsErrOf result DeviceError.Failed) };

    /// A reader of the file as it is, if it is there.
    fn fetch(&mut self, dir: &Self::Dir, file: u64) -> Result<Option<Self::Reader>, DeviceError>
        ensures number { IfOk result (λ found. IfSome found (λ reader. reader_number reader ≡ file)) }
        ensures bytes { honest ≡ true → IfOk result (λ found. option_map reader_bytes found ≡ file_at (directory dir.now).seen.files file) }
        ensures possible { honest ≡ true → Fits (directory dir.now).seen (directory dir.now).now }
        ensures cause { Counts (faults self.old) (faults self.new) (IsErrOf result DeviceError.Failed) };

    /// The files that are there.
    fn list(&mut self, dir: &Self::Dir) -> Result<Listing, DeviceError>
        ensures rising { IfOk result (λ listing. IsStrictlyIncreasing listing.files) }
        ensures above { IfOk result (λ listing. All (λ number. number < listing.ceiling) listing.files) }
        ensures lent { IfOk result (λ listing. (directory dir.now).now.ceiling ≤ listing.ceiling) }
        ensures in_range { IfOk result (λ listing. listing.ceiling ≤ 2 ^ 62) }
        ensures files { honest ≡ true → IfOk result (λ listing. (number : ℕ) → Contains listing.files number ↔ IsSome (file_at (directory dir.now).seen.files number)) }
        ensures ceiling { honest ≡ true → IfOk result (λ listing. listing.ceiling ≡ (directory dir.now).now.ceiling) }
        ensures possible { honest ≡ true → Fits (directory dir.now).seen (directory dir.now).now }
        ensures cause { Counts (faults self.old) (faults self.new) (IsErrOf result DeviceError.Failed) };

    /// That many of the reader's bytes, also after its file was removed.
    fn read_at(&mut self, reader: &Self::Reader, at: u64, len: u64) -> Result<Bytes, DeviceError>
        requires { at + len ≤ reader_size reader.now }
        ensures length { IfOk result (λ given. length given ≡ len) }
        ensures bytes { honest ≡ true → IfOk result (λ given. given ≡ take len (drop at (reader_bytes reader.now))) }
        ensures cause { Counts (faults self.old) (faults self.new) (IsErrOf result DeviceError.Failed) };

    /// Where readers are honest, their bytes are as many as they say.
    ghost sized: { (reader : Self.Reader) → honest ≡ true → length (reader_bytes reader) ≡ reader_size reader };
}
