ghost use Rattle.std.specs.Prelude.{◌≡◌, ◌↔◌, ◌<◌, ◌≤◌, ◌+◌, ◌^◌, ◌++◌, [], ℕ, Some, None, true, false, IfOk, IfErr, OnOk, IfSome, IsSome, IsErr, IsErrOf, IsErrAnd, All, Contains, length, take, drop, replicate, refl};
ghost use Rattle.std.specs.Option.{option_map};
ghost use Rattle.std.specs.List.Sorted.{IsStrictlyIncreasing};
ghost use Rattle.lt_io.specs.Cause.{HasCause};
ghost use Rattle.lt_io.specs.Directory.{Fits, file_at};
ghost use Rattle.lt_io.specs.Device.{Counts, KeepsLent, EntersFile, RemovesFile, PointsAt, Settles};
ghost use Rattle.lt_memdev.specs.Fails.{next_fail, Counted};

use crate::content::Content;
use crate::dir::MemDir;
use crate::fails::{Fail, Op, Plan};
use crate::handles::{MemLent, MemPen, MemReader};
use bytes::Bytes;
use lt_io::{Device, DeviceError, Failed, Listing};
use lt_rec::{NoMemory, Octets};
use std::alloc::Global;
use std::marker::Model;

/// A device over memory. Its directories tell what they hold, and follow what is supposed of a disk.
#[derive(Debug, Drop)]
pub struct MemDevice {
    alloc: Global,
    plan: Plan,
}

impl Model for MemDevice {
    ghost use Rattle.lt_memdev.specs.Fails.{Planned};

    ghost Value = { Planned };

    ghost view = { λ d. d.plan };
}

impl MemDevice {
    /// The calls that are listed fail. Where a call is listed twice, the first one counts.
    pub fn new(alloc: Global, fails: &[Fail]) -> Result<MemDevice, NoMemory>
        ensures { IfOk result (λ device. device ≡ record { fails = fails.now; calls = replicate 11 0; faults = 0 }) }
    {
        let plan = Plan::new(alloc, fails)?;
        Ok(MemDevice { alloc, plan })
    }
}

impl Device for MemDevice {
    type Dir = MemDir;

    type Lent = MemLent;

    type Pen = MemPen;

    type Reader = MemReader;

    ghost honest = { true };

    ghost faults = { λ d. d.faults };

    ghost directory = { λ d. d.directory };

    ghost spare = { λ d. d.spare };

    ghost lent_number = { λ l. l };

    ghost pen_number = { λ p. p.number };

    ghost pen_bytes = { λ p. p.bytes };

    ghost reader_number = { λ r. r.number };

    ghost reader_size = { λ r. length r.bytes };

    ghost reader_bytes = { λ r. r.bytes };

    ghost sized = { λ reader told. refl };

    fn lend(dir: &mut MemDir, file: u64) -> MemLent {
        dir.lend(file);
        MemLent { number: file }
    }

    fn number(lent: &MemLent) -> u64 {
        lent.number
    }

    fn create(&mut self, lent: MemLent) -> Result<MemPen, (MemLent, DeviceError)>
        ensures number { IfOk result (λ pen. pen.number ≡ lent) }
        ensures empty { IfOk result (λ pen. pen.bytes ≡ []) }
        ensures back { IfErr result (λ refused. refused.0 ≡ lent) }
        ensures cause { Counts self.old.faults self.new.faults (IsErrAnd result (λ refused. refused.1 ≡ DeviceError.Failed)) }

        ensures plan { Counted self.old self.new Op.Create }
        ensures fails { IsSome (next_fail self.old Op.Create) → IsErr result }
        ensures only { IsErrAnd result (λ refused. refused.1 ≡ DeviceError.Failed) → IsSome (next_fail self.old Op.Create) }
    {
        if self.plan.begin(Op::Create).is_some() {
            return Err((lent, DeviceError::Failed));
        }
        Ok(MemPen {
            number: lent.number,
            bytes: Vec::new(self.alloc),
        })
    }

    fn append(&mut self, pen: &mut MemPen, bytes: &[u8]) -> Result<(), DeviceError>
        ensures number { pen.new.number ≡ pen.old.number }
        ensures written { OnOk result (pen.new.bytes ≡ pen.old.bytes ++ bytes.now) }
        ensures cause { Counts self.old.faults self.new.faults (IsErrOf result DeviceError.Failed) }

        ensures plan { Counted self.old self.new Op.Append }
        ensures fails { IsSome (next_fail self.old Op.Append) → IsErr result }
        ensures only { IsErrOf result DeviceError.Failed → IsSome (next_fail self.old Op.Append) }
        ensures done { next_fail self.old Op.Append ≡ Some true → IsErrOf result DeviceError.Failed → pen.new.bytes ≡ pen.old.bytes ++ bytes.now }
        ensures undone { next_fail self.old Op.Append ≡ Some false → pen.new.bytes ≡ pen.old.bytes }
    {
        let planned = self.plan.begin(Op::Append);
        if planned != Some(false) {
            pen.bytes.extend_from_slice(bytes)?;
        }
        match planned {
            None => Ok(()),
            Some(_) => Err(DeviceError::Failed),
        }
    }

    fn seal(&mut self, pen: MemPen) -> Result<MemReader, DeviceError>
        ensures number { IfOk result (λ reader. reader.number ≡ pen.number) }
        ensures bytes { IfOk result (λ reader. reader.bytes ≡ pen.bytes) }
        ensures cause { Counts self.old.faults self.new.faults (IsErrOf result DeviceError.Failed) }

        ensures plan { Counted self.old self.new Op.Seal }
        ensures fails { IsSome (next_fail self.old Op.Seal) → IsErr result }
        ensures only { IsErrOf result DeviceError.Failed → IsSome (next_fail self.old Op.Seal) }
    {
        if self.plan.begin(Op::Seal).is_some() {
            return Err(DeviceError::Failed);
        }
        let MemPen { number, bytes } = pen;
        Ok(MemReader {
            number,
            bytes: Content::keep(bytes),
        })
    }

    fn length(reader: &MemReader) -> u64 {
        reader.bytes.as_slice().len() as u64
    }

    fn enter(&mut self, dir: &mut MemDir, reader: &MemReader) -> Result<(), DeviceError>
        requires { reader.now.number < dir.old.directory.now.ceiling }
        ensures entered { EntersFile dir.old.directory dir.new.directory reader.now.number reader.now.bytes result }
        ensures unchanged { IsErrOf result DeviceError.NoMemory → dir.new.directory ≡ dir.old.directory }
        ensures lent { KeepsLent dir.old.directory dir.new.directory }
        ensures spare { dir.new.spare ≡ dir.old.spare }
        ensures cause { Counts self.old.faults self.new.faults (IsErrOf result DeviceError.Failed) }

        ensures plan { Counted self.old self.new Op.Enter }
        ensures fails { IsSome (next_fail self.old Op.Enter) → IsErr result }
        ensures only { IsErrOf result DeviceError.Failed → IsSome (next_fail self.old Op.Enter) }
        ensures done { next_fail self.old Op.Enter ≡ Some true → IsErrOf result DeviceError.Failed → file_at dir.new.directory.seen.files reader.now.number ≡ Some reader.now.bytes }
        ensures undone { next_fail self.old Op.Enter ≡ Some false → dir.new.directory.seen ≡ dir.old.directory.seen }
    {
        match self.plan.begin(Op::Enter) {
            None => Ok(dir.enter(reader.number, &reader.bytes)?),
            Some(true) => {
                dir.put_loose(reader.number, &reader.bytes)?;
                Err(DeviceError::Failed)
            }
            Some(false) => {
                dir.loosen(reader.number)?;
                Err(DeviceError::Failed)
            }
        }
    }

    fn ready(&mut self, dir: &mut MemDir) -> Result<(), NoMemory>
        ensures spare { OnOk result (2 ≤ dir.new.spare) }
        ensures no_less { dir.old.spare ≤ dir.new.spare }
        ensures unchanged { dir.new.directory ≡ dir.old.directory }
        ensures possible { Fits dir.old.directory.seen dir.old.directory.now }
        ensures later { self.old.faults ≤ self.new.faults }
        ensures counts_stay { self.new ≡ self.old }
    {
        dir.ready()
    }

    fn point(&mut self, dir: &mut MemDir, reader: &MemReader) -> Result<(), Failed>
        requires { 0 < dir.old.spare }
        ensures pointed { PointsAt dir.old.directory dir.new.directory reader.now.bytes result }
        ensures lent { KeepsLent dir.old.directory dir.new.directory }
        ensures spare { dir.new.spare + 1 ≡ dir.old.spare }
        ensures cause { HasCause self.old.faults self.new.faults result }

        ensures plan { Counted self.old self.new Op.Point }
        ensures fails { IsSome (next_fail self.old Op.Point) → IsErr result }
        ensures only { IsErr result → IsSome (next_fail self.old Op.Point) }
        ensures done { next_fail self.old Op.Point ≡ Some true → dir.new.directory.seen.descriptor ≡ Some reader.now.bytes }
        ensures undone { next_fail self.old Op.Point ≡ Some false → dir.new.directory.seen ≡ dir.old.directory.seen }
    {
        let planned = self.plan.begin(Op::Point);
        dir.point(&reader.bytes, planned != Some(false));
        match planned {
            None => Ok(()),
            Some(_) => Err(Failed),
        }
    }

    fn settle(&mut self, dir: &mut MemDir) -> Result<(), Failed>
        requires { 0 < dir.old.spare }
        ensures settled { Settles dir.old.directory dir.new.directory result }
        ensures lent { KeepsLent dir.old.directory dir.new.directory }
        ensures spare { dir.new.spare + 1 ≡ dir.old.spare }
        ensures cause { HasCause self.old.faults self.new.faults result }

        ensures plan { Counted self.old self.new Op.Settle }
        ensures fails { IsSome (next_fail self.old Op.Settle) → IsErr result }
        ensures only { IsErr result → IsSome (next_fail self.old Op.Settle) }
    {
        if self.plan.begin(Op::Settle).is_some() {
            dir.wait();
            return Err(Failed);
        }
        dir.settle();
        Ok(())
    }

    fn remove(&mut self, dir: &mut MemDir, file: u64) -> Result<(), DeviceError>
        ensures removed { RemovesFile dir.old.directory dir.new.directory file result }
        ensures unchanged { IsErrOf result DeviceError.NoMemory → dir.new.directory ≡ dir.old.directory }
        ensures lent { KeepsLent dir.old.directory dir.new.directory }
        ensures spare { dir.new.spare ≡ dir.old.spare }
        ensures cause { Counts self.old.faults self.new.faults (IsErrOf result DeviceError.Failed) }

        ensures plan { Counted self.old self.new Op.Remove }
        ensures fails { IsSome (next_fail self.old Op.Remove) → IsErr result }
        ensures only { IsErrOf result DeviceError.Failed → IsSome (next_fail self.old Op.Remove) }
        ensures done { next_fail self.old Op.Remove ≡ Some true → IsErrOf result DeviceError.Failed → file_at dir.new.directory.seen.files file ≡ None }
        ensures undone { next_fail self.old Op.Remove ≡ Some false → dir.new.directory.seen ≡ dir.old.directory.seen }
    {
        match self.plan.begin(Op::Remove) {
            None => Ok(dir.take(file)?),
            Some(true) => {
                dir.take(file)?;
                Err(DeviceError::Failed)
            }
            Some(false) => {
                dir.loosen(file)?;
                Err(DeviceError::Failed)
            }
        }
    }

    fn descriptor(&mut self, dir: &MemDir) -> Result<Option<Octets>, DeviceError>
        ensures current { IfOk result (λ found. found ≡ dir.now.directory.seen.descriptor) }
        ensures possible { Fits dir.now.directory.seen dir.now.directory.now }
        ensures cause { Counts self.old.faults self.new.faults (IsErrOf result DeviceError.Failed) }

        ensures plan { Counted self.old self.new Op.Descriptor }
        ensures fails { IsSome (next_fail self.old Op.Descriptor) → IsErr result }
        ensures only { IsErrOf result DeviceError.Failed → IsSome (next_fail self.old Op.Descriptor) }
    {
        let current = dir.current();
        if self.plan.begin(Op::Descriptor).is_some() {
            return Err(DeviceError::Failed);
        }
        match current {
            Some(content) => Ok(Some(Octets::from_slice(self.alloc, content.as_slice())?)),
            None => Ok(None),
        }
    }

    fn fetch(&mut self, dir: &MemDir, file: u64) -> Result<Option<MemReader>, DeviceError>
        ensures number { IfOk result (λ found. IfSome found (λ reader. reader.number ≡ file)) }
        ensures bytes { IfOk result (λ found. option_map (λ reader. reader.bytes) found ≡ file_at dir.now.directory.seen.files file) }
        ensures possible { Fits dir.now.directory.seen dir.now.directory.now }
        ensures cause { Counts self.old.faults self.new.faults (IsErrOf result DeviceError.Failed) }

        ensures plan { Counted self.old self.new Op.Fetch }
        ensures fails { IsSome (next_fail self.old Op.Fetch) → IsErr result }
        ensures only { IsErrOf result DeviceError.Failed → IsSome (next_fail self.old Op.Fetch) }
    {
        let found = dir.fetch(file);
        if self.plan.begin(Op::Fetch).is_some() {
            return Err(DeviceError::Failed);
        }
        Ok(found.map(|bytes| MemReader {
            number: file,
            bytes,
        }))
    }

    fn list(&mut self, dir: &MemDir) -> Result<Listing, DeviceError>
        ensures rising { IfOk result (λ listing. IsStrictlyIncreasing listing.files) }
        ensures above { IfOk result (λ listing. All (λ number. number < listing.ceiling) listing.files) }
        ensures lent { IfOk result (λ listing. dir.now.directory.now.ceiling ≤ listing.ceiling) }
        ensures in_range { IfOk result (λ listing. listing.ceiling ≤ 2 ^ 62) }
        ensures files { IfOk result (λ listing. (number : ℕ) → Contains listing.files number ↔ IsSome (file_at dir.now.directory.seen.files number)) }
        ensures ceiling { IfOk result (λ listing. listing.ceiling ≡ dir.now.directory.now.ceiling) }
        ensures possible { Fits dir.now.directory.seen dir.now.directory.now }
        ensures cause { Counts self.old.faults self.new.faults (IsErrOf result DeviceError.Failed) }

        ensures plan { Counted self.old self.new Op.List }
        ensures fails { IsSome (next_fail self.old Op.List) → IsErr result }
        ensures only { IsErrOf result DeviceError.Failed → IsSome (next_fail self.old Op.List) }
    {
        let ceiling = dir.ceiling();
        if self.plan.begin(Op::List).is_some() {
            return Err(DeviceError::Failed);
        }
        let files = dir.numbers(self.alloc)?;
        Ok(Listing { files, ceiling })
    }

    fn read_at(&mut self, reader: &MemReader, at: u64, len: u64) -> Result<Bytes, DeviceError>
        requires { at + len ≤ length reader.now.bytes }
        ensures length { IfOk result (λ given. length given ≡ len) }
        ensures bytes { IfOk result (λ given. given ≡ take len (drop at reader.now.bytes)) }
        ensures cause { Counts self.old.faults self.new.faults (IsErrOf result DeviceError.Failed) }

        ensures plan { Counted self.old self.new Op.ReadAt }
        ensures fails { IsSome (next_fail self.old Op.ReadAt) → IsErr result }
        ensures only { IsErrOf result DeviceError.Failed → IsSome (next_fail self.old Op.ReadAt) }
    {
        if self.plan.begin(Op::ReadAt).is_some() {
            return Err(DeviceError::Failed);
        }
        let (_, rest) = reader.bytes.as_slice().split_at(at as usize);
        let (given, _) = rest.split_at(len as usize);
        Ok(Bytes::from_static(given))
    }
}
