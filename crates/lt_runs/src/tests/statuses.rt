// How a run may end.
use super::{CLOCK, CREATE, SCHEMA, SESSION, begun, run_anew, words};
use lt_io::{INPUT_LIMIT, MemSink, MemSource, Source, SourceFault};
use lt_memdev::MemDevice;
use lt_rec::Octets;
use lt_serve::{Status, run};
use std::alloc::Global;
use std::test::Fail;

/// Makes its bytes as they are asked for.
#[derive(Drop)]
struct Blank(usize);

impl Source for Blank {
    ghost use Rattle.std.specs.Prelude.{None};

    ghost left = { λ _. None };

    ghost faults = { λ _. 0 };

    fn read(&mut self, buf: &mut [u8]) -> Result<usize, SourceFault> {
        let count = buf.len().min(self.0);
        self.0 -= count;
        Ok(count)
    }
}

const USAGE: &str =
    "usage: create DIR SCHEMA [TTL] | run DIR [--leave] | make SEED CLIENTS ROWS | drill DIR SEED CLIENTS ROWS\n";

static WORDS_OF_NO_FORM: [&[&str]; 12] = [
    &[],
    &["run"],
    &["run", "."],
    &["run", ".", "--leave", "x"],
    &["sing", ".", "--leave"],
    &["create", "."],
    &["create", ".", SCHEMA, "0"],
    &["create", ".", SCHEMA, ""],
    &["create", ".", SCHEMA, "-1"],
    &["create", ".", SCHEMA, "4611686018427387904"],
    &["create", ".", SCHEMA, "00000000000000000001"],
    &["create", ".", SCHEMA, "1", "2"],
];

#[test]
fn words_of_no_form_are_usage(rt: HostRuntime) -> Result<(), Fail> {
    for given in WORDS_OF_NO_FORM.iter() {
        let ran = run_anew(rt.alloc(), *given)?;
        assert_eq!(rt;
            (ran.status, ran.text.as_slice()),
            (Status::Usage, USAGE.as_bytes()),
            "the words {given:?}"
        );
    }
    Ok(())
}

/// Runs a session whose source and sink fail at these calls.
fn ran_between(
    alloc: Global,
    input: &[u8],
    reads: &[u64],
    writes: &[u64],
) -> Result<(Status, Vec<u8>), Fail> {
    let words = words(alloc, &SESSION)?;
    let mut source = MemSource::new(alloc, Octets::from_slice(alloc, input)?, reads)?;
    let mut sink = MemSink::new(alloc, writes)?;
    let mut devices = Vec::new(alloc);
    devices.push(MemDevice::new(alloc, &[])?)?;
    let dir = begun(alloc, &CREATE, "")?.dir;
    let (status, _) = run(
        alloc,
        &words,
        &mut source,
        &mut sink,
        dir,
        &mut devices,
        &CLOCK,
    );
    Ok((status, Vec::from_slice(alloc, sink.bytes())?))
}

/// Lines, the reads and the writes that fail, how the session ends, and what it writes.
type Case = (
    &'static [u8],
    &'static [u64],
    &'static [u64],
    Status,
    &'static str,
);

static FAULTS: [Case; 7] = [
    (b"", &[1], &[], Status::SourceFault, "error: source\n"),
    (b"x", &[2], &[], Status::SourceFault, "error: source\n"),
    (b"", &[2], &[], Status::Done, "end next 0 kept 0\n"),
    (b"", &[1], &[1], Status::SourceFault, ""),
    (b"", &[], &[1], Status::SinkFault, ""),
    (b"", &[], &[2], Status::Done, "end next 0 kept 0\n"),
    (b"a: flush", &[], &[1], Status::NotYet { line: 0 }, ""),
];

#[test]
fn faults_of_either_end(rt: HostRuntime) -> Result<(), Fail> {
    for (input, reads, writes, wanted, text) in FAULTS.iter() {
        let (status, written) = ran_between(rt.alloc(), *input, *reads, *writes)?;
        assert_eq!(rt; status, *wanted, "reads {reads:?}, writes {writes:?}");
        assert_eq!(rt;
            written.as_slice(),
            text.as_bytes(),
            "reads {reads:?}, writes {writes:?}"
        );
    }
    Ok(())
}

/// How a session over so many bytes ends.
fn ended(alloc: Global, len: usize) -> Result<Status, Fail> {
    let words = words(alloc, &SESSION)?;
    let mut sink = MemSink::new(alloc, &[])?;
    let mut devices = Vec::new(alloc);
    devices.push(MemDevice::new(alloc, &[])?)?;
    let dir = begun(alloc, &CREATE, "")?.dir;
    let (status, _) = run(
        alloc,
        &words,
        &mut Blank(len),
        &mut sink,
        dir,
        &mut devices,
        &CLOCK,
    );
    Ok(status)
}

#[test]
fn the_limit_and_one_more(rt: HostRuntime) -> Result<(), Fail> {
    for (len, wanted) in [
        (INPUT_LIMIT, Status::Done),
        (INPUT_LIMIT + 1, Status::TooLong),
    ] {
        let status = ended(rt.alloc(), len)?;
        assert_eq!(rt; status, wanted, "an input of {len} bytes");
    }
    Ok(())
}
