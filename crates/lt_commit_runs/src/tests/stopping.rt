//! What no clause says: that calls succeed, and what a stop leaves, against tables written by hand.
ghost use Rattle.std.specs.Prelude.{◌≡◌, ◌≤◌, ◌+◌, OnOk};

use lt_commit::{Anchor, CommitError};
use lt_desc::{Stone, decode};
use lt_io::Device;
use lt_memdev::{Choice, Fail as Failing, Loose, MemDevice, MemDir, Op};
use lt_rec::Octets;
use std::alloc::Global;
use std::process::Abort;
use std::test::Fail;

// A table of one column `ts`, without rows: low 1, next file 1, no tablet.
static EMPTY: [u8; 64] = [
    76, 84, 68, 69, 83, 67, 82, 49, 0, 0, 0, 0, 0, 0, 0, 1, 0, 0, 0, 0, //
    0, 0, 0, 1, 0, 0, 0, 0, 0, 0, 0, 0, 1, 0, 0, 0, 1, 0, 0, 0, //
    1, 0, 0, 0, 2, 116, 115, 2, 0, 0, 0, 0, 0, 0, 0, 0, 0, 0, 0, 0, //
    0, 0, 0, 0, //
];

// A tablet of one row, of file 1.
static TABLET: [u8; 72] = [
    0, 0, 0, 0, 0, 0, 0, 1, 0, 0, 0, 0, 0, 0, 0, 1, 0, 0, 0, 0, //
    0, 0, 0, 1, 0, 0, 0, 0, 0, 0, 0, 0, 0, 0, 0, 0, 0, 0, 0, 0, //
    0, 0, 0, 0, 0, 0, 0, 0, 0, 0, 0, 3, 90, 78, 144, 0, 0, 0, 0, 0, //
    0, 0, 0, 0, 0, 0, 0, 0, 0, 0, 0, 0, //
];

/// A descriptor with that low, that next file, and a tablet of that file, if any.
fn descriptor(alloc: Global, low: u8, next: u8, file: Option<u8>) -> Result<Vec<u8>, Fail> {
    let mut bytes = EMPTY;
    bytes[23] = low;
    bytes[32] = next;
    let mut tablet = TABLET;
    if let Some(file) = file {
        bytes[63] = 1;
        tablet[7] = file;
    }
    let mut text = Vec::from_slice(alloc, &bytes)?;
    if file.is_some() {
        text.extend_from_slice(&tablet)?;
    }
    Ok(text)
}

fn stone(alloc: Global, low: u8, next: u8, file: Option<u8>) -> Result<Stone, Fail> {
    Ok(
        decode(alloc, descriptor(alloc, low, next, file)?.as_slice())
            .ok()
            .ok_or("no stone")?,
    )
}

/// The low of a stone, or - where there is none.
fn told(alloc: Global, stone: Option<&Stone>) -> Result<String, Fail> {
    match stone {
        Some(stone) => Ok(format!(in alloc; "{}", stone.low())?),
        None => Ok(format!(in alloc; "-")?),
    }
}

/// What the directory loads as: the low of its stone, or why it doesn't.
fn loaded<V: Device>(alloc: Global, dev: &mut V, dir: V::Dir) -> Result<String, Fail> {
    match Anchor::load(alloc, dev, dir) {
        Ok((anchor, _next)) => told(alloc, anchor.stone()),
        Err((_, refused)) => Ok(format!(in alloc; "{refused:?}")?),
    }
}

fn created<V: Device>(alloc: Global, dev: &mut V, dir: V::Dir) -> Result<V::Dir, Fail> {
    let schema = stone(alloc, 0, 0, None)?.schemas().first().clone()?;
    match Anchor::create(alloc, dev, dir, schema, None) {
        Ok(anchor) => Ok(anchor.into_dir()),
        Err((_, refused)) => Err(Fail::from(refused)),
    }
}

/// Publishes, and tells the answer and the low of the stone that joined last.
fn publish<V: Device>(
    alloc: Global,
    dev: &mut V,
    anchor: &mut Anchor<V>,
    file: u64,
    stone: Stone,
) -> Result<String, Fail>
    requires { anchor.old.directory.now.ceiling ≤ file }
    ensures { OnOk result (anchor.new.directory.now.ceiling ≡ file + 1) }
{
    if file >= 1 << 62 {
        return Err(Fail::from("no number is left"));
    }
    let answer = match anchor.publish(dev, file, stone) {
        Ok(()) => "ok",
        Err(CommitError::Fault) => "fault",
        Err(_) => "else",
    };
    let low = told(alloc, anchor.stone())?;
    Ok(format!(in alloc; "{answer} {}", low.as_str())?)
}

/// The same over a directory that is loaded first.
fn published<V: Device>(
    alloc: Global,
    dev: &mut V,
    dir: V::Dir,
    low: u8,
) -> Result<(String, V::Dir), Fail> {
    match Anchor::load(alloc, dev, dir) {
        Ok((mut anchor, next)) => {
            let answer = publish(alloc, dev, &mut anchor, next, stone(alloc, low, 9, None)?)?;
            Ok((answer, anchor.into_dir()))
        }
        Err((_, refused)) => Err(Fail::from(refused)),
    }
}

/// A directory of four files, with a descriptor of that low, that next file, and a tablet of that file, if any.
fn directory(alloc: Global, low: u8, next: u8, file: Option<u8>) -> Result<MemDir, Fail> {
    let files = [
        (1, Octets::from_slice(alloc, b"1")?),
        (2, Octets::from_slice(alloc, b"2")?),
        (3, Octets::from_slice(alloc, b"3")?),
        (4, Octets::from_slice(alloc, b"4")?),
    ];
    let bytes = Octets::from_vec(descriptor(alloc, low, next, file)?);
    Ok(MemDir::with(alloc, files.as_slice(), Some(bytes))?)
}

/// What a directory loads as on a device that never fails.
fn loaded_as(alloc: Global, dir: MemDir) -> Result<String, Fail> {
    let mut dev = MemDevice::new(alloc, &[])?;
    loaded(alloc, &mut dev, dir)
}

/// What each loose file is: absent, or with the byte `?`.
fn loose(alloc: Global, filled: bool) -> Result<Loose, Fail> {
    if filled {
        return Ok(Loose::Filled(Octets::from_slice(alloc, b"?")?));
    }
    Ok(Loose::Absent)
}

/// What the image of that moment loads as.
fn image(
    alloc: Global,
    dir: &MemDir,
    moment: u64,
    which: u64,
    filled: bool,
) -> Result<String, Fail> {
    if moment > dir.moments() {
        return Err(Fail::from("no such moment"));
    }
    let loose = loose(alloc, filled)?;
    loaded_as(alloc, dir.image(moment, &Choice { which, loose })?)
}

/// What the images of a moment load as: with the first possible descriptor, loose files absent and filled, and with the
/// second one.
fn images(alloc: Global, dir: &MemDir, moment: u64) -> Result<String, Fail> {
    let mut text = String::new(alloc);
    for (which, filled) in [(0, false), (0, true), (1, false), (1, true)] {
        text.push_str(image(alloc, dir, moment, which, filled)?.as_str())?;
        text.push(' ')?;
    }
    Ok(text)
}

/// The images of each moment.
static MADE: [&str; 7] = [
    "NoTable NoTable NoTable NoTable ",
    "NoTable NoTable NoTable NoTable ",
    "NoTable NoTable 0 0 ",
    "0 0 0 0 ",
    "0 0 0 0 ",
    "0 0 7 7 ",
    "7 7 7 7 ",
];

/// A table that is made, and published once.
fn made(alloc: Global) -> Result<(String, MemDir), Fail> {
    let mut dev = MemDevice::new(alloc, &[])?;
    let dir = created(alloc, &mut dev, MemDir::new(alloc)?)?;
    published(alloc, &mut dev, dir, 7)
}

#[test]
fn each_image_of_a_table_that_is_made(rt: HostRuntime) -> Result<(), Fail> {
    let (answer, dir) = made(rt.alloc())?;
    assert_eq!(rt; answer.as_str(), "ok 7", "the answer");
    for (moment, wanted) in MADE.iter().enumerate() {
        let found = images(rt.alloc(), &dir, moment as u64)?;
        assert_eq!(rt; found.as_str(), *wanted, "moment {moment}");
    }
    Ok(())
}

/// The call that fails, which of its kind, whether its change took place, the answer, and what is loaded then.
static FAILS: [(Op, u64, bool, &str); 11] = [
    (Op::Create, 1, false, "fault 1, 1"),
    (Op::Create, 1, true, "fault 1, 1"),
    (Op::Append, 1, false, "fault 1, 1"),
    (Op::Append, 1, true, "fault 1, 1"),
    (Op::Seal, 1, false, "fault 1, 1"),
    (Op::Seal, 1, true, "fault 1, 1"),
    (Op::Point, 1, false, "fault 2, 1"),
    (Op::Point, 1, true, "fault 2, 2"),
    (Op::Settle, 2, false, "fault 2, 2"),
    (Op::Settle, 2, true, "fault 2, 2"),
    (Op::Settle, 3, true, "ok 2, 2"),
];

/// The answer of a publishing in which a call fails, and what is loaded then.
fn failing(alloc: Global, fail: Failing) -> Result<String, Fail> {
    let mut dev = MemDevice::new(alloc, &[fail])?;
    let dir = directory(alloc, 1, 9, None)?;
    let (answer, dir) = published(alloc, &mut dev, dir, 2)?;
    let later = loaded_as(alloc, dir)?;
    Ok(format!(in alloc; "{}, {}", answer.as_str(), later.as_str())?)
}

#[test]
fn each_call_of_a_publishing_fails(rt: HostRuntime) -> Result<(), Fail> {
    for (op, nth, done, wanted) in FAILS.iter() {
        let fail = Failing {
            op: *op,
            nth: *nth,
            done: *done,
        };
        let found = failing(rt.alloc(), fail)?;
        assert_eq!(rt; found.as_str(), *wanted, "{op:?} {nth}, done {done}");
    }
    Ok(())
}

/// The answer of a sweep and the files that are there then.
fn swept<V: Device>(
    alloc: Global,
    dev: &mut V,
    anchor: &mut Anchor<V>,
    busy: &[u64],
) -> Result<String, Fail>
    ensures { OnOk result (anchor.new.directory.now.ceiling ≡ anchor.old.directory.now.ceiling) }
{
    let count = anchor.sweep(dev, busy)?;
    let mut text = format!(in alloc; "{count}:")?;
    for file in 1..5 {
        if anchor.fetch(dev, file)?.is_some() {
            text.push_str(format!(in alloc; " {file}")?.as_str())?;
        }
    }
    Ok(text)
}

/// Publishes a stone of that low which lists file 2, and sweeps.
fn publishes_and_sweeps<V: Device>(
    alloc: Global,
    dev: &mut V,
    anchor: &mut Anchor<V>,
    file: u64,
    low: u8,
    busy: &[u64],
) -> Result<String, Fail>
    requires { anchor.old.directory.now.ceiling ≤ file }
    ensures { OnOk result (anchor.new.directory.now.ceiling ≡ file + 1) }
{
    publish(alloc, dev, anchor, file, stone(alloc, low, 9, Some(2))?)?;
    swept(alloc, dev, anchor, busy)
}

/// File 1 is listed by the stone that is there, file 2 by the one whose settling fails, and file 3 is busy. Then file 2 is
/// listed alone.
fn sweeps<V: Device>(alloc: Global, dev: &mut V, dir: V::Dir) -> Result<(String, String), Fail> {
    match Anchor::load(alloc, dev, dir) {
        Ok((mut anchor, next)) => {
            let first = publishes_and_sweeps(alloc, dev, &mut anchor, next, 2, &[3])?;
            let second = publishes_and_sweeps(alloc, dev, &mut anchor, next + 1, 3, &[])?;
            Ok((first, second))
        }
        Err((_, refused)) => Err(Fail::from(refused)),
    }
}

#[test]
fn listed_and_busy_files_stay(rt: HostRuntime) -> Result<(), Fail> {
    let fail = Failing {
        op: Op::Settle,
        nth: 2,
        done: false,
    };
    let mut dev = MemDevice::new(rt.alloc(), &[fail])?;
    let dir = directory(rt.alloc(), 1, 9, Some(1))?;
    let (first, second) = sweeps(rt.alloc(), &mut dev, dir)?;
    assert_eq!(rt;
        (first.as_str(), second.as_str()),
        ("1: 1 2 3", "2: 2"),
        "two stones are possible, then one"
    );
    Ok(())
}

/// Why nothing is begun there.
fn begun<V: Device>(alloc: Global, dev: &mut V, dir: V::Dir) -> Result<String, Fail> {
    match Anchor::fresh(alloc, dev, dir) {
        Ok((anchor, next)) => {
            let low = told(alloc, anchor.stone())?;
            Ok(format!(in alloc; "{} {next}", low.as_str())?)
        }
        Err((_, refused)) => Ok(format!(in alloc; "{refused:?}")?),
    }
}

/// The same on a device that never fails.
fn begun_as(alloc: Global, dir: MemDir) -> Result<String, Fail> {
    let mut dev = MemDevice::new(alloc, &[])?;
    begun(alloc, &mut dev, dir)
}

fn same(rt: &impl Abort, found: &str, wanted: &str, case: &str) {
    assert_eq!(rt; found, wanted, "{case}");
}

#[test]
fn what_is_loaded_is_told(rt: HostRuntime) -> Result<(), Fail> {
    let none = loaded_as(rt.alloc(), MemDir::new(rt.alloc())?)?;
    same(&rt, none.as_str(), "NoTable", "an empty directory");
    let bad = loaded_as(rt.alloc(), directory(rt.alloc(), 1, 2, Some(2))?)?;
    same(
        &rt,
        bad.as_str(),
        "Bad { at: 64 }",
        "a file not below the next one",
    );
    Ok(())
}

#[test]
fn what_is_begun_is_told(rt: HostRuntime) -> Result<(), Fail> {
    let fresh = begun_as(rt.alloc(), MemDir::new(rt.alloc())?)?;
    same(&rt, fresh.as_str(), "- 0", "an empty directory");
    let exists = begun_as(rt.alloc(), directory(rt.alloc(), 1, 9, None)?)?;
    same(&rt, exists.as_str(), "Exists", "a directory with a table");
    Ok(())
}
