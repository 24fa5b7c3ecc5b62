// Calls whose conditions are asked for at run time, and directories as text.
ghost use Rattle.std.specs.Prelude.{◌≡◌, IfOk};

use bytes::Bytes;
use lt_io::{Device, DeviceError};
use lt_memdev::{Choice, Loose, MemDevice, MemDir, MemLent, MemReader};
use lt_rec::Octets;
use std::alloc::Global;
use std::marker::Model;
use std::process::Abort;
use std::test::Fail;

/// A sealed file, and its number.
#[derive(Drop)]
pub(super) struct Sealed {
    number: u64,
    pub reader: MemReader,
}

impl Model for Sealed {
    ghost use Rattle.std.specs.Prelude.{◌≡◌, ℕ};

    ghost Value = { ℕ };

    ghost view = { λ s. s.number };

    ghost invariant = { λ s. s.reader.number ≡ s.number };
}

/// Lends the number.
pub(super) fn lend(device: &mut MemDevice, dir: &mut MemDir, number: u64) -> Result<MemLent, Fail>
    ensures { IfOk result (λ lent. lent ≡ number) }
{
    if number < device.list(dir)?.ceiling || number >= 1 << 62 {
        return Err(Fail::from("the number is lent"));
    }
    Ok(MemDevice::lend(dir, number))
}

/// Lends the least number that can be lent.
pub(super) fn lend_next(device: &mut MemDevice, dir: &mut MemDir) -> Result<MemLent, Fail> {
    let number = device.list(dir)?.ceiling;
    lend(device, dir, number)
}

/// A sealed file with these bytes.
pub(super) fn write(
    device: &mut MemDevice,
    dir: &mut MemDir,
    number: u64,
    text: &str,
) -> Result<Sealed, Fail> {
    let lent = lend(device, dir, number)?;
    let mut pen = device.create(lent).ok().ok_or("no pen")?;
    device.append(&mut pen, text.as_bytes())?;
    let reader = device.seal(pen)?;
    Ok(Sealed { number, reader })
}

/// Whether the call failed. Want of memory breaks the test.
pub(super) fn failed<T: Drop>(answer: Result<T, DeviceError>) -> Result<bool, Fail> {
    match answer {
        Ok(_) => Ok(false),
        Err(DeviceError::Failed) => Ok(true),
        Err(DeviceError::NoMemory) => Err(Fail::from("no memory")),
    }
}

pub(super) fn enter(device: &mut MemDevice, dir: &mut MemDir, file: &Sealed) -> Result<bool, Fail> {
    if file.number >= device.list(dir)?.ceiling {
        return Err(Fail::from("the number was not lent"));
    }
    failed(device.enter(dir, &file.reader))
}

pub(super) fn point(device: &mut MemDevice, dir: &mut MemDir, file: &Sealed) -> Result<bool, Fail> {
    device.ready(dir)?;
    Ok(device.point(dir, &file.reader).is_err())
}

pub(super) fn settle(device: &mut MemDevice, dir: &mut MemDir) -> Result<bool, Fail> {
    device.ready(dir)?;
    Ok(device.settle(dir).is_err())
}

pub(super) fn read(
    device: &mut MemDevice,
    reader: &MemReader,
    at: u64,
    len: u64,
) -> Result<Bytes, Fail> {
    let all = MemDevice::length(reader);
    if at > all || len > all - at {
        return Err(Fail::from("beyond the file's end"));
    }
    Ok(device.read_at(reader, at, len)?)
}

/// The file's bytes as text.
fn push_file(
    device: &mut MemDevice,
    dir: &MemDir,
    number: u64,
    text: &mut String,
) -> Result<(), Fail> {
    let reader = device.fetch(dir, number)?.ok_or("a listed file is absent")?;
    let len = MemDevice::length(&reader);
    let bytes = read(device, &reader, 0, len)?;
    text.push_str(str::from_utf8(bytes.as_slice())?)?;
    Ok(())
}

/// What reads give of the directory: its descriptor, or `-` where there is none, and ` NUMBER=BYTES` of each file.
pub(super) fn shown(alloc: Global, dir: &MemDir) -> Result<String, Fail> {
    let mut device = MemDevice::new(alloc, &[])?;
    let mut text = String::new(alloc);
    match device.descriptor(dir)? {
        Some(bytes) => text.push_str(str::from_utf8(bytes.as_slice())?)?,
        None => text.push('-')?,
    }
    for number in device.list(dir)?.files.as_slice() {
        text.push_str(format!(in alloc; " {number}=")?.as_str())?;
        push_file(&mut device, dir, *number, &mut text)?;
    }
    Ok(text)
}

/// What each loose file is: absent, or with the byte `?`.
fn loose(alloc: Global, filled: bool) -> Result<Loose, Fail> {
    if filled {
        return Ok(Loose::Filled(Octets::from_slice(alloc, b"?")?));
    }
    Ok(Loose::Absent)
}

/// The image of that moment with the descriptor numbered `which`.
pub(super) fn image(
    alloc: Global,
    dir: &MemDir,
    moment: u64,
    which: u64,
    filled: bool,
) -> Result<MemDir, Fail> {
    if moment > dir.moments() {
        return Err(Fail::from("no such moment"));
    }
    let loose = loose(alloc, filled)?;
    Ok(dir.image(moment, &Choice { which, loose })?)
}

/// The same as text.
pub(super) fn image_shown(
    alloc: Global,
    dir: &MemDir,
    moment: u64,
    which: u64,
    filled: bool,
) -> Result<String, Fail> {
    shown(alloc, &image(alloc, dir, moment, which, filled)?)
}

/// Tells the case where what was found is another text.
pub(super) fn same(rt: &impl Abort, found: &str, wanted: &str, case: &str) {
    assert_eq!(rt; found, wanted, "{case}");
}
