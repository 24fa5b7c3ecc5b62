mod stems;

ghost use Rattle.std.specs.Prelude.{◌≡◌, ◌<◌, ◌^◌, IfOk};

use lt_io::{Device, DeviceError};
use lt_memdev::{Fail as Failing, MemDevice, MemDir, MemReader, Op};
use lt_probe::{Stem, latest, present};
use lt_rec::{Listed, Period, Rec, Steps};
use lt_tablet::{ReadError, Tablet};
use std::alloc::Global;
use std::marker::Brand;
use std::sync::Arc;
use std::sync::ledger::{Blank, Ledger};
use std::test::Fail;
use stems::{best_of, is_whole};

// Keys are a byte and a timestamp. One block: a5 and b6, numbered 0 and 1.
static OLDER: [u8; 203] = [
    76, 84, 84, 65, 66, 76, 69, 49, 0, 0, 0, 2, 0, 0, 0, 9, 0, 0, 0, 0, //
    0, 0, 0, 0, 0, 0, 0, 0, 0, 0, 0, 0, 97, 0, 0, 0, 0, 0, 0, 0, //
    5, 0, 0, 0, 9, 0, 0, 0, 0, 0, 0, 0, 0, 0, 0, 0, 1, 0, 0, 0, //
    0, 98, 0, 0, 0, 0, 0, 0, 0, 6, 0, 0, 0, 0, 0, 0, 0, 8, 0, 0, //
    0, 62, 0, 0, 0, 2, 0, 0, 0, 9, 97, 0, 0, 0, 0, 0, 0, 0, 5, 0, //
    0, 0, 9, 98, 0, 0, 0, 0, 0, 0, 0, 6, 182, 108, 91, 0, 0, 0, 0, 0, //
    0, 0, 70, 0, 0, 0, 0, 0, 0, 0, 1, 0, 0, 0, 0, 0, 0, 0, 112, 0, //
    0, 0, 0, 0, 0, 0, 3, 0, 0, 0, 0, 0, 0, 0, 2, 0, 0, 0, 0, 0, //
    0, 0, 5, 0, 0, 0, 0, 0, 0, 0, 6, 0, 0, 0, 0, 0, 0, 0, 0, 0, //
    0, 0, 0, 0, 0, 0, 1, 0, 0, 0, 0, 0, 0, 0, 0, 76, 84, 84, 65, 66, //
    69, 78, 68, //
];

// Two blocks: a3 and a9; c9. They are numbered 2, 3 and 4.
static NEWER: [u8; 278] = [
    76, 84, 84, 65, 66, 76, 69, 49, 0, 0, 0, 2, 0, 0, 0, 9, 0, 0, 0, 0, //
    0, 0, 0, 0, 0, 0, 0, 2, 0, 0, 0, 0, 97, 0, 0, 0, 0, 0, 0, 0, //
    3, 0, 0, 0, 9, 0, 0, 0, 0, 0, 0, 0, 0, 0, 0, 0, 3, 0, 0, 0, //
    0, 97, 0, 0, 0, 0, 0, 0, 0, 9, 0, 0, 0, 1, 0, 0, 0, 9, 0, 0, //
    0, 0, 0, 0, 0, 0, 0, 0, 0, 4, 0, 0, 0, 0, 99, 0, 0, 0, 0, 0, //
    0, 0, 9, 0, 0, 0, 0, 0, 0, 0, 8, 0, 0, 0, 62, 0, 0, 0, 2, 0, //
    0, 0, 9, 97, 0, 0, 0, 0, 0, 0, 0, 3, 0, 0, 0, 9, 97, 0, 0, 0, //
    0, 0, 0, 0, 9, 0, 0, 0, 0, 0, 0, 0, 70, 0, 0, 0, 33, 0, 0, 0, //
    1, 0, 0, 0, 9, 99, 0, 0, 0, 0, 0, 0, 0, 9, 0, 0, 0, 9, 99, 0, //
    0, 0, 0, 0, 0, 0, 9, 51, 204, 71, 0, 0, 0, 0, 0, 0, 0, 103, 0, 0, //
    0, 0, 0, 0, 0, 2, 0, 0, 0, 0, 0, 0, 0, 187, 0, 0, 0, 0, 0, 0, //
    0, 3, 0, 0, 0, 0, 0, 0, 0, 3, 0, 0, 0, 0, 0, 0, 0, 3, 0, 0, //
    0, 0, 0, 0, 0, 9, 0, 0, 0, 0, 0, 0, 0, 2, 0, 0, 0, 0, 0, 0, //
    0, 4, 0, 0, 0, 0, 0, 0, 0, 0, 76, 84, 84, 65, 66, 69, 78, 68, //
];

fn listing(file: u64, bytes: u64, rows: u64, times: (u64, u64), numbers: (u64, u64)) -> Listed
    ensures { result.file ≡ file }
{
    Listed {
        file,
        rows,
        bytes,
        low: times.0,
        high: times.1,
        period: Period::new(0, Period::FOUR_HOURS),
        first: numbers.0,
        last: numbers.1,
    }
}

fn sealed(alloc: Global, file: u64, bytes: &[u8]) -> Result<MemReader, DeviceError>
    requires { file < 2 ^ 62 }
    ensures { IfOk result (λ reader. reader.number ≡ file) }
{
    let mut dev = MemDevice::new(alloc, &[])?;
    let mut dir = MemDir::new(alloc)?;
    let lent = MemDevice::lend(&mut dir, file);
    let mut pen = match dev.create(lent) {
        Ok(pen) => pen,
        Err((_, refused)) => return Err(refused),
    };
    dev.append(&mut pen, bytes)?;
    dev.seal(pen)
}

#[derive(Clone, Copy, Debug)]
enum Ask {
    Key(&'static [u8]),
    Prefix(&'static [u8], u64),
    /// A whole stem, from a timestamp on, and the key and number of the best record so far.
    Stem(&'static [u8], u64, Option<(&'static [u8], u64)>),
}

type Answer = Result<Option<u64>, ReadError>;

fn numbered(answer: Result<Option<Rec>, ReadError>) -> Answer {
    match answer {
        Ok(Some(rec)) => Ok(Some(rec.seq())),
        Ok(None) => Ok(None),
        Err(why) => Err(why),
    }
}

/// What is answered for a whole stem; an error where it isn't one, or the best record so far isn't asked for.
fn of_stem<V: Device, L: Ledger>(
    alloc: Global,
    loads: &mut V,
    dev: &mut V,
    stem: &[u8],
    since: u64,
    best: Option<(&[u8], u64)>,
    tablets: &[Arc<Tablet<V>>],
    steps: &mut Steps<L>,
) -> Result<Answer, Fail> {
    if !is_whole(alloc, loads, tablets, stem, steps)? {
        return Err("a longer stem begins with this one".into());
    }
    let best = match best {
        Some((key, seq)) => best_of(alloc, stem, since, key, seq)?,
        None => None,
    };
    Ok(numbered(latest(alloc, dev, stem, Stem::Whole, since, tablets, best, steps)))
}

/// What is answered over both tablets, of which the newer one comes first where it is so asked.
fn answer<V: Device, L: Ledger>(
    alloc: Global,
    loads: &mut V,
    dev: &mut V,
    readers: (V::Reader, V::Reader),
    newer_first: bool,
    ask: Ask,
    steps: &mut Steps<L>,
) -> Result<Answer, Fail>
    requires older { V.reader_number readers.0 ≡ 1 }
    requires newer { V.reader_number readers.1 ≡ 2 }
{
    let older = Tablet::load(alloc, loads, readers.0, listing(1, 203, 2, (5, 6), (0, 1)))?;
    let newer = Tablet::load(alloc, loads, readers.1, listing(2, 278, 3, (3, 9), (2, 4)))?;
    let mut tablets = Vec::new(alloc);
    tablets.push(Arc::new(alloc, older)?)?;
    tablets.push(Arc::new(alloc, newer)?)?;
    if newer_first {
        tablets.reverse();
    }
    match ask {
        Ask::Key(key) => Ok(present(alloc, dev, key, tablets.as_slice(), steps)),
        Ask::Prefix(prefix, since) => Ok(numbered(latest(
            alloc,
            dev,
            prefix,
            Stem::Part,
            since,
            tablets.as_slice(),
            None,
            steps,
        ))),
        Ask::Stem(stem, since, best) => {
            of_stem(
                alloc,
                loads,
                dev,
                stem,
                since,
                best,
                tablets.as_slice(),
                steps,
            )
        }
    }
}

fn counted<L: Ledger>(
    alloc: Global,
    fails: &[Failing],
    newer_first: bool,
    ask: Ask,
    blank: Blank,
) -> Result<Answer, Fail>
    requires name { blank.name ≡ L.name }
    requires parts { blank.parts ≡ L.parts }
    requires some { 0 < blank.parts }
{
    let mut loads = MemDevice::new(alloc, &[])?;
    let mut dev = MemDevice::new(alloc, fails)?;
    let older = sealed(alloc, 1, &OLDER).map_err(|_| "seal")?;
    let newer = sealed(alloc, 2, &NEWER).map_err(|_| "seal")?;
    let mut steps = Steps::<L>::new(blank);
    answer(
        alloc,
        &mut loads,
        &mut dev,
        (older, newer),
        newer_first,
        ask,
        &mut steps,
    )
}

fn found(alloc: Global, fails: &[Failing], newer_first: bool, ask: Ask) -> Result<Answer, Fail> {
    counted::<Brand>(alloc, fails, newer_first, ask, Blank::new(1))
}

static A5: [u8; 9] = [b'a', 0, 0, 0, 0, 0, 0, 0, 5];

static A9: [u8; 9] = [b'a', 0, 0, 0, 0, 0, 0, 0, 9];

static A4: [u8; 9] = [b'a', 0, 0, 0, 0, 0, 0, 0, 4];

static A12: [u8; 9] = [b'a', 0, 0, 0, 0, 0, 0, 0, 12];

static C9: [u8; 9] = [b'c', 0, 0, 0, 0, 0, 0, 0, 9];

static X5: [u8; 9] = [b'x', 0, 0, 0, 0, 0, 0, 0, 5];

#[test]
fn keys_and_prefixes(rt: HostRuntime) -> Result<(), Fail> {
    let cases: [(Ask, Option<u64>); 11] = [
        (Ask::Key(&A5), Some(0)),
        (Ask::Key(&A9), Some(3)),
        (Ask::Key(&C9), Some(4)),
        (Ask::Key(&A4), None),
        (Ask::Key(&X5), None),
        (Ask::Key(b"a"), None),
        (Ask::Prefix(b"a", 0), Some(3)),
        (Ask::Prefix(b"a", 10), None),
        (Ask::Prefix(b"b", 6), Some(1)),
        (Ask::Prefix(b"", 0), Some(4)),
        (Ask::Prefix(b"d", 0), None),
    ];
    for (ask, wanted) in cases {
        for newer_first in [false, true] {
            let given = found(rt.alloc(), &[], newer_first, ask)?;
            assert_eq!(rt; given, Ok(wanted), "{ask:?}, the newer first {newer_first}");
        }
    }
    Ok(())
}

#[test]
fn whole_stems(rt: HostRuntime) -> Result<(), Fail> {
    let cases: [(
        &'static [u8],
        u64,
        Option<(&'static [u8], u64)>,
        Option<u64>,
    ); 10] = [
        (b"a", 0, None, Some(3)),
        (b"a", 9, None, Some(3)),
        (b"a", 10, None, None),
        (b"a", 0, Some((&A4, 7)), Some(3)),
        (b"a", 0, Some((&A12, 7)), Some(7)),
        (b"a", 10, Some((&A12, 7)), Some(7)),
        (b"b", 0, None, Some(1)),
        (b"c", 0, Some((&C9, 4)), Some(4)),
        (b"x", 0, None, None),
        (b"x", 0, Some((&X5, 8)), Some(8)),
    ];
    for (stem, since, best, wanted) in cases {
        for newer_first in [false, true] {
            let given = found(rt.alloc(), &[], newer_first, Ask::Stem(stem, since, best))?;
            assert_eq!(rt;
                given,
                Ok(wanted),
                "{stem:?} from {since}, best {best:?}, the newer first {newer_first}"
            );
        }
    }
    Ok(())
}

#[test]
fn a_read_that_fails(rt: HostRuntime) -> Result<(), Fail> {
    let cases: [(Ask, u64, Answer); 5] = [
        (Ask::Key(&A9), 1, Err(ReadError::Fault)),
        (Ask::Prefix(b"a", 0), 1, Err(ReadError::Fault)),
        (Ask::Prefix(b"a", 0), 2, Err(ReadError::Fault)),
        (Ask::Prefix(b"a", 0), 3, Ok(Some(3))),
        // The filters deny the stem, so nothing is read.
        (Ask::Key(&X5), 1, Ok(None)),
    ];
    for (ask, nth, wanted) in cases {
        let fail = Failing {
            op: Op::ReadAt,
            nth,
            done: false,
        };
        let given = found(rt.alloc(), &[fail], false, ask)?;
        assert_eq!(rt; given, wanted, "{ask:?}, read {nth} fails");
    }
    Ok(())
}
