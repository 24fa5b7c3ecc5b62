ghost use Rattle.std.specs.Prelude.{◌<◌, IfOk};

use bytes::Bytes;
use lt_filedev::{FileDevice, FileDir, FileLent, FileReader, OpenError};
use lt_io::{Device, DeviceError};
use std::fs;
use std::io::ErrorKind;
use std::os::unix::fs::symlink;
use std::test::Fail;

type Real = FileDevice<HostRuntime>;

/// The next free number.
fn lent(device: &mut Real, dir: &mut FileDir) -> Result<FileLent, Fail>
    ensures { IfOk result (λ lent. lent < dir.new.ceiling) }
{
    let file = device.list(dir)?.ceiling;
    if file >= 1 << 62 {
        return Err(Fail::new("no number is left"));
    }
    Ok(Real::lend(dir, file))
}

/// The bytes in two parts as a sealed file of the next free number.
fn sealed(device: &mut Real, dir: &mut FileDir, bytes: &[u8]) -> Result<FileReader, Fail>
    ensures { IfOk result (λ reader. reader.number < dir.new.ceiling) }
{
    let lent = lent(device, dir)?;
    let mut pen = device.create(lent).ok().ok_or("no pen")?;
    let (front, rest) = bytes.split_at(bytes.len() / 2);
    device.append(&mut pen, front)?;
    device.append(&mut pen, rest)?;
    Ok(device.seal(pen)?)
}

/// Whether all the reader's bytes are these.
fn has(device: &mut Real, reader: &FileReader, bytes: &[u8]) -> Result<bool, Fail> {
    let length = Real::length(reader);
    Ok(device.read_at(reader, 0, length)?.as_slice() == bytes)
}

/// That many bytes from that place of the file on.
fn piece(device: &mut Real, reader: &FileReader, at: u64, len: u64) -> Result<Bytes, Fail> {
    let length = Real::length(reader);
    if at > length || len > length - at {
        return Err(Fail::new("the file is too short"));
    }
    Ok(device.read_at(reader, at, len)?)
}

/// Whether these bytes stand from that place on.
fn stand_at(bytes: &[u8], at: u64, given: &[u8]) -> bool {
    match bytes.get(at as usize..) {
        Some(rest) => rest.starts_with(given),
        None => false,
    }
}

/// Whether the file is there and has these bytes.
fn holds(device: &mut Real, dir: &FileDir, file: u64, bytes: &[u8]) -> Result<bool, Fail> {
    match device.fetch(dir, file)? {
        Some(reader) => has(device, &reader, bytes),
        None => Ok(false),
    }
}

/// Makes the file the descriptor, and says whether its bytes are read as that.
fn points(device: &mut Real, dir: &mut FileDir, reader: &FileReader) -> Result<bool, Fail> {
    device.ready(dir)?;
    device.point(dir, reader)?;
    device.settle(dir)?;
    match device.descriptor(dir)? {
        Some(bytes) => has(device, reader, bytes.as_slice()),
        None => Ok(false),
    }
}

#[test]
fn a_file_is_there_from_its_entering_to_its_removal(rt: HostRuntime) -> Result<(), Fail> {
    let mut dir = FileDir::make(&rt, "entered")?;
    let mut device = FileDevice::new(&rt, &dir)?;
    let reader = sealed(&mut device, &mut dir, b"some bytes")?;
    assert!(rt; device.list(&dir)?.files.is_empty(), "sealed");
    assert!(rt; device.fetch(&dir, 0)?.is_none(), "sealed");
    device.enter(&mut dir, &reader)?;
    assert_eq!(rt; device.list(&dir)?.files.as_slice(), [0].as_slice());
    assert!(rt; holds(&mut device, &dir, 0, b"some bytes")?, "entered");
    device.remove(&mut dir, 0)?;
    device.remove(&mut dir, 0)?;
    assert!(rt; device.fetch(&dir, 0)?.is_none(), "removed");
    assert!(rt; has(&mut device, &reader, b"some bytes")?, "removed");
    assert!(rt; device.first_trouble().is_none());
    Ok(())
}

#[test]
fn reads_give_what_stands_at_their_offsets(rt: HostRuntime) -> Result<(), Fail> {
    let mut dir = FileDir::make(&rt, "offsets")?;
    let mut device = FileDevice::new(&rt, &dir)?;
    let bytes: Vec<u8> = (0..200_000u32)
        .map(|n| (n % 251) as u8)
        .collect(rt.alloc())?;
    let reader = sealed(&mut device, &mut dir, bytes.as_slice())?;
    let mut held = Vec::new(rt.alloc());
    for at in [0, 1, 100_001] {
        for len in [0, 1, 32_768, 32_769, 50_000, 65_536, 65_537, 90_000] {
            let given = piece(&mut device, &reader, at, len)?;
            assert!(rt;
                stand_at(bytes.as_slice(), at, given.as_slice()),
                "{len} at {at}"
            );
            drop(given);
            held.push((at, piece(&mut device, &reader, at, len)?))?;
        }
    }
    for (at, given) in held.iter() {
        assert!(rt; stand_at(bytes.as_slice(), *at, given.as_slice()), "held");
    }
    Ok(())
}

#[test]
fn a_descriptor_takes_the_place_of_another(rt: HostRuntime) -> Result<(), Fail> {
    let mut dir = FileDir::make(&rt, "pointed")?;
    let mut device = FileDevice::new(&rt, &dir)?;
    assert!(rt; device.descriptor(&dir)?.is_none());
    let first = sealed(&mut device, &mut dir, b"the first")?;
    assert!(rt; points(&mut device, &mut dir, &first)?, "a sealed file");
    let second = sealed(&mut device, &mut dir, b"the second")?;
    device.enter(&mut dir, &second)?;
    assert!(rt; points(&mut device, &mut dir, &second)?, "an entered file");
    assert!(rt;
        holds(&mut device, &dir, 1, b"the second")?,
        "it keeps its name"
    );
    let third = sealed(&mut device, &mut dir, b"the third")?;
    device.enter(&mut dir, &third)?;
    let found = device.fetch(&dir, 2)?.ok_or("it is there")?;
    assert!(rt;
        points(&mut device, &mut dir, &found)?,
        "a file that was found"
    );
    assert!(rt; device.first_trouble().is_none());
    Ok(())
}

#[test]
fn a_folder_is_open_once(rt: HostRuntime) -> Result<(), Fail> {
    let dir = FileDir::make(&rt, "locked")?;
    let again = FileDir::make(&rt, "locked");
    assert!(rt; matches!(&again, Err(OpenError::InUse)));
    drop(dir);
    assert!(rt; FileDir::make(&rt, "locked").is_ok());
    Ok(())
}

#[test]
fn names_of_others_are_left_alone(rt: HostRuntime) -> Result<(), Fail> {
    fs::create_dir(&rt, "shared")?;
    fs::write(&rt, "shared/notes", "mine")?;
    for name in ["007", "-1", "4611686018427387904", "18446744073709551616"] {
        fs::write(
            &rt,
            format!(in rt.alloc(); "shared/{name}")?.as_str(),
            "mine",
        )?;
    }
    let mut dir = FileDir::make(&rt, "shared")?;
    let mut device = FileDevice::new(&rt, &dir)?;
    assert!(rt; device.list(&dir)?.files.is_empty(), "no name of a file");
    symlink(&rt, "notes", "shared/vashmoon-0.new")?;
    let reader = sealed(&mut device, &mut dir, b"ours")?;
    device.enter(&mut dir, &reader)?;
    assert!(rt; holds(&mut device, &dir, 0, b"ours")?);
    assert_eq!(rt; fs::read_to_string(&rt, "shared/notes")?.as_str(), "mine");
    assert_eq!(rt;
        fs::read_dir(&rt, "shared")?.count(),
        7,
        "all of them and the lock"
    );
    Ok(())
}

#[test]
fn what_a_stopped_run_left_is_removed_when_it_is_opened(rt: HostRuntime) -> Result<(), Fail> {
    fs::create_dir(&rt, "stopped")?;
    let kept = [
        "3",
        "vashmoon-03.new",
        "vashmoon-.new",
        "vashmoon-notes.new",
        "vashmoon-3.newer",
        "DESCRIPTOR",
    ];
    for name in ["vashmoon-3.new", "vashmoon-descriptor.new"]
        .iter()
        .chain(kept.iter())
    {
        fs::write(&rt, format!(in rt.alloc(); "stopped/{name}")?.as_str(), "")?;
    }
    let dir = FileDir::open(&rt, "stopped")?;
    for name in kept {
        let path = format!(in rt.alloc(); "stopped/{name}")?;
        assert!(rt; fs::exists(&rt, path.as_str())?, "{name}");
    }
    assert_eq!(rt;
        fs::read_dir(&rt, "stopped")?.count(),
        7,
        "these and the lock"
    );
    assert_eq!(rt;
        FileDevice::new(&rt, &dir)?.list(&dir)?.files.as_slice(),
        [3].as_slice()
    );
    Ok(())
}

#[test]
fn a_folder_without_a_descriptor_is_not_looked_into(rt: HostRuntime) -> Result<(), Fail> {
    fs::create_dir(&rt, "empty")?;
    let dir = FileDir::open(&rt, "empty")?;
    fs::write(&rt, "empty/DESCRIPTOR", "another program's, by now")?;
    let mut device = FileDevice::new(&rt, &dir)?;
    assert!(rt; device.descriptor(&dir)?.is_none());
    Ok(())
}

/// Whether the first trouble that the device met is told so.
fn tells(rt: &HostRuntime, device: &Real, text: &str) -> Result<bool, Fail> {
    match device.first_trouble() {
        Some(trouble) => Ok(format!(in rt.alloc(); "{trouble}")?.as_str() == text),
        None => Ok(false),
    }
}

#[test]
fn what_stands_in_the_way_is_told(rt: HostRuntime) -> Result<(), Fail> {
    fs::create_dir(&rt, "blocked")?;
    fs::create_dir(&rt, "blocked/DESCRIPTOR")?;
    fs::create_dir(&rt, "blocked/5")?;
    let dir = FileDir::open(&rt, "blocked")?;
    let mut device = FileDevice::new(&rt, &dir)?;
    assert!(rt; device.descriptor(&dir) == Err(DeviceError::Failed));
    assert!(rt; matches!(&device.fetch(&dir, 5), Err(DeviceError::Failed)));
    assert!(rt; tells(&rt, &device, "DESCRIPTOR: not a file")?);
    fs::write(&rt, "a file", "")?;
    let refused = FileDir::open(&rt, "a file");
    assert!(rt;
        matches!(&refused, Err(OpenError::System(error)) if error.kind() == ErrorKind::NotADirectory)
    );
    Ok(())
}

#[test]
fn a_folder_that_is_not_there_holds_nothing(rt: HostRuntime) -> Result<(), Fail> {
    let mut dir = FileDir::open(&rt, "nowhere")?;
    let mut device = FileDevice::new(&rt, &dir)?;
    device.ready(&mut dir)?;
    device.settle(&mut dir)?;
    assert!(rt; device.descriptor(&dir)?.is_none());
    assert!(rt; device.list(&dir)?.files.is_empty());
    let lent = lent(&mut device, &mut dir)?;
    assert!(rt; device.create(lent).is_err());
    assert!(rt; !fs::exists(&rt, "nowhere")?);
    Ok(())
}
