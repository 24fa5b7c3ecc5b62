mod creating;
mod directories;
mod faults;
mod statuses;

use lt_io::{FixedClock, MemSink, MemSource};
use lt_memdev::{Fail as Failing, MemDevice, MemDir};
use lt_rec::Octets;
use lt_serve::{Status, run};
use std::alloc::{AllocError, Global};
use std::process::Abort;
use std::test::Fail;

pub const SESSION: [&str; 3] = ["run", ".", "--leave"];

pub const SCHEMA: &str =
    r#"{"columns":[{"name":"net","kind":"text"},{"name":"dev","kind":"int32"},{"name":"ts","kind":"time"},{"name":"bytes","kind":"int64","default":0}],"key":3}"#;

pub const CREATE: [&str; 3] = ["create", ".", SCHEMA];

const CLOCK: FixedClock = FixedClock {
    at: 1_500_000_000_000_000,
};

fn words(alloc: Global, given: &[&str]) -> Result<Vec<String>, AllocError> {
    let mut words = Vec::new(alloc);
    for word in given {
        words.push(String::from_str(alloc, word)?)?;
    }
    Ok(words)
}

/// How a run ended, what it wrote, and the directory after it.
#[derive(Drop)]
pub(super) struct Ran {
    pub status: Status,
    pub text: Vec<u8>,
    pub dir: MemDir,
}

/// Runs the words over the directory, on a device with these faults.
pub(super) fn run_over(
    alloc: Global,
    dir: MemDir,
    fails: &[Failing],
    given: &[&str],
    input: &[u8],
) -> Result<Ran, Fail> {
    let words = words(alloc, given)?;
    let mut source = MemSource::new(alloc, Octets::from_slice(alloc, input)?, &[])?;
    let mut sink = MemSink::new(alloc, &[])?;
    let mut devices = Vec::new(alloc);
    devices.push(MemDevice::new(alloc, fails)?)?;
    let (status, dir) = run(
        alloc,
        &words,
        &mut source,
        &mut sink,
        dir,
        &mut devices,
        &CLOCK,
    );
    let text = Vec::from_slice(alloc, sink.bytes())?;
    Ok(Ran { status, text, dir })
}

/// A session of these lines over a table that these words made.
pub(super) fn begun(alloc: Global, create: &[&str], input: &str) -> Result<Ran, Fail> {
    let dir = MemDir::new(alloc)?;
    let made = run_over(alloc, dir, &[], create, b"")?;
    run_over(alloc, made.dir, &[], &SESSION, input.as_bytes())
}

/// Runs the words over an empty directory, without lines.
fn run_anew(alloc: Global, given: &[&str]) -> Result<Ran, Fail> {
    run_over(alloc, MemDir::new(alloc)?, &[], given, b"")
}

/// What a session of these lines writes over a directory.
fn written(alloc: Global, dir: MemDir, input: &str) -> Result<Vec<u8>, Fail> {
    Ok(run_over(alloc, dir, &[], &SESSION, input.as_bytes())?.text)
}

/// Tells the case where another text was written.
fn same(rt: &impl Abort, found: &[u8], wanted: &str, case: &str) {
    assert_eq!(rt; found, wanted.as_bytes(), "{case}");
}
