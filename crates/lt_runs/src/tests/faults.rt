// What the failing calls of a device leave of a directory.
use super::{CREATE, Ran, SESSION, begun, run_over, written};
use lt_memdev::{Choice, Fail as Failing, Loose, MemDir, Op};
use lt_rec::Octets;
use std::alloc::Global;
use std::test::Fail;

/// A call of the device that fails, and what a session of one change and a scan writes then.
static FAULTS: [(Op, u64, &str); 8] = [
    (Op::Settle, 1, "error: device\n"),
    (Op::Descriptor, 1, "error: device\n"),
    (Op::List, 1, "error: device\n"),
    (
        Op::Create,
        1,
        "client a\nfault\nversion 1\nend next 0 kept 0\n",
    ),
    (
        Op::Append,
        1,
        "client a\nfault\nversion 1\nend next 0 kept 0\n",
    ),
    (
        Op::Seal,
        1,
        "client a\nfault\nversion 1\nend next 0 kept 0\n",
    ),
    (
        Op::Point,
        1,
        "client a\nfault\nversion 1\nend next 0 kept 0\n",
    ),
    (
        Op::Settle,
        2,
        "client a\nfault\nversion 1\nend next 0 kept 0\n",
    ),
];

/// What a session over a new table writes where a call fails, and the directory after it.
fn failing(alloc: Global, fail: Failing, input: &str) -> Result<Ran, Fail> {
    let made = begun(alloc, &CREATE, "")?;
    run_over(alloc, made.dir, &[fail], &SESSION, input.as_bytes())
}

#[test]
fn each_call_of_a_device_fails_once(rt: HostRuntime) -> Result<(), Fail> {
    for (op, nth, text) in FAULTS.iter() {
        for done in [false, true] {
            let fail = Failing {
                op: *op,
                nth: *nth,
                done,
            };
            let ran = failing(rt.alloc(), fail, "a: alter widen dev\na: alter widen dev")?;
            assert_eq!(rt; ran.text.as_slice(), text.as_bytes(), "{op:?} {nth} {done}");
        }
    }
    Ok(())
}

/// A call of the device that fails while a column is appended, and what the next session tells of a row without it, where
/// the call was not done and where it was.
static FOUND: [(Op, u64, [&str; 2]); 5] = [
    (Op::Create, 1, [OLD, OLD]),
    (Op::Append, 1, [OLD, OLD]),
    (Op::Seal, 1, [OLD, OLD]),
    (Op::Point, 1, [OLD, NEW]),
    (Op::Settle, 2, [NEW, NEW]),
];

const OLD: &str = "client a\nfault\nend next 0 kept 0\nclient a\nok 0\nend next 1 kept 0\n";

const NEW: &str =
    "client a\nfault\nend next 0 kept 0\nclient a\nbad row arity 5 4\nend next 0 kept 0\n";

/// What a session whose change fails writes, and what the next one writes of a row without the column.
fn found_after(alloc: Global, fail: Failing) -> Result<Vec<u8>, Fail> {
    let first = failing(alloc, fail, "a: alter append up int64")?;
    let mut text = first.text;
    let next = written(alloc, first.dir, "a: insert \"x\" 1 5 10")?;
    text.extend_from_slice(next.as_slice())?;
    Ok(text)
}

#[test]
fn a_change_that_failed_is_found_or_not(rt: HostRuntime) -> Result<(), Fail> {
    for (op, nth, texts) in FOUND.iter() {
        for (done, text) in [(false, texts[0]), (true, texts[1])] {
            let fail = Failing {
                op: *op,
                nth: *nth,
                done,
            };
            let found = found_after(rt.alloc(), fail)?;
            assert_eq!(rt; found.as_slice(), text.as_bytes(), "{op:?} {done}");
        }
    }
    Ok(())
}

const FAILED: &str = "error: device\n";

const NONE: &str = "error: no table\n";

const MADE: &str = "end next 0 kept 0\n";

const NEVER: &[[&str; 2]] = &[[NONE, NONE], [NONE, NONE]];

/// A call of the device that fails while a table is made, what is told, and for each moment what the first and the second
/// possible descriptor open to.
static MAKINGS: [(Op, u64, &str, &[[&str; 2]]); 9] = [
    (Op::Settle, 1, FAILED, NEVER),
    (Op::Descriptor, 1, FAILED, NEVER),
    (Op::List, 1, FAILED, NEVER),
    (Op::Create, 1, FAILED, NEVER),
    (Op::Append, 1, FAILED, NEVER),
    (Op::Seal, 1, FAILED, NEVER),
    (
        Op::Point,
        1,
        FAILED,
        &[[NONE, NONE], [NONE, NONE], [NONE, MADE]],
    ),
    (
        Op::Settle,
        2,
        FAILED,
        &[[NONE, NONE], [NONE, NONE], [NONE, MADE], [NONE, MADE]],
    ),
    (
        Op::Settle,
        3,
        "created\n",
        &[[NONE, NONE], [NONE, NONE], [NONE, MADE], [MADE, MADE]],
    ),
];

/// What a session writes over an image of that moment.
fn opened(alloc: Global, dir: &MemDir, moment: u64, which: u64) -> Result<Vec<u8>, Fail> {
    if moment > dir.moments() {
        return Err(Fail::from("no such moment"));
    }
    let loose = Loose::Filled(Octets::from_slice(alloc, b"?")?);
    let image = dir.image(moment, &Choice { which, loose })?;
    written(alloc, image, "")
}

/// The first moment and descriptor whose image opens to another text.
fn opened_otherwise(
    alloc: Global,
    dir: &MemDir,
    moments: &[[&str; 2]],
) -> Result<Option<(usize, usize)>, Fail> {
    for (moment, texts) in moments.iter().enumerate() {
        for (which, text) in texts.iter().enumerate() {
            let found = opened(alloc, dir, moment as u64, which as u64)?;
            if found.as_slice() != text.as_bytes() {
                return Ok(Some((moment, which)));
            }
        }
    }
    Ok(None)
}

fn making(alloc: Global, fail: Failing) -> Result<Ran, Fail> {
    run_over(alloc, MemDir::new(alloc)?, &[fail], &CREATE, b"")
}

/// Whether a making in which that call fails is told so, and opens to no other texts and at no more moments.
fn is_as_told(
    alloc: Global,
    fail: Failing,
    told: &str,
    moments: &[[&str; 2]],
) -> Result<bool, Fail> {
    let ran = making(alloc, fail)?;
    let few = ran.dir.moments() < moments.len() as u64;
    let same = ran.text.as_slice() == told.as_bytes();
    Ok(few && same && opened_otherwise(alloc, &ran.dir, moments)?.is_none())
}

#[test]
fn each_call_fails_while_a_table_is_made(rt: HostRuntime) -> Result<(), Fail> {
    for (op, nth, told, moments) in MAKINGS.iter() {
        for done in [false, true] {
            let fail = Failing {
                op: *op,
                nth: *nth,
                done,
            };
            let same = is_as_told(rt.alloc(), fail, *told, *moments)?;
            assert!(rt; same, "{op:?} {nth} {done}");
        }
    }
    Ok(())
}
