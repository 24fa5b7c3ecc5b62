mod files;
mod opened;

ghost use Rattle.std.specs.Prelude.{◌≡◌, ◌<◌, ◌^◌, true, IfOk, IfErr};

use files::{FIRST, SECOND, THIRD};
use lt_cursor::{Cursor, CursorError};
use lt_io::{Device, DeviceError};
use lt_memdev::{Fail as Failing, MemDevice, MemDir, MemReader, Op};
use lt_rec::{Chunk, Cut, Listed, NoMemory, Octets, Period, RawBox, Rec, RecList, Steps};
use lt_tablet::{ReadError, Tablet};
use opened::opened;
use std::alloc::Global;
use std::marker::Brand;
use std::sync::Arc;
use std::sync::ledger::{Blank, Ledger};
use std::test::Fail;

fn listing(file: u64, bytes: u64, rows: u64, times: (u64, u64), numbers: (u64, u64)) -> Listed
    ensures { result.file ≡ file }
{
    Listed {
        file,
        rows,
        bytes,
        low: times.0,
        high: times.1,
        period: Period::new(0, Period::FOUR_HOURS),
        first: numbers.0,
        last: numbers.1,
    }
}

fn sealed(alloc: Global, file: u64, bytes: &[u8]) -> Result<MemReader, DeviceError>
    requires { file < 2 ^ 62 }
    ensures { IfOk result (λ reader. reader.number ≡ file) }
{
    let mut dev = MemDevice::new(alloc, &[])?;
    let mut dir = MemDir::new(alloc)?;
    let lent = MemDevice::lend(&mut dir, file);
    let mut pen = match dev.create(lent) {
        Ok(pen) => pen,
        Err((_, refused)) => return Err(refused),
    };
    dev.append(&mut pen, bytes)?;
    dev.seal(pen)
}

/// A record of the fourteen: a byte, a timestamp and its number.
fn rec_of(alloc: Global, stem: u8, ts: u64, seq: u64) -> Result<Rec, Fail> {
    let mut key = Vec::from_slice(alloc, &[stem])?;
    key.extend_from_slice(&ts.to_be_bytes())?;
    if !Rec::fits(key.as_slice(), seq, &[]) {
        return Err("no record".into());
    }
    Ok(Rec::new(alloc, key.as_slice(), seq, 0, &[])?)
}

/// Two lists in the order of reading: b5 and h6; a1, c7 and i30.
fn lists_of(alloc: Global, down: bool) -> Result<Vec<RecList>, Fail> {
    let mut lists = Vec::new(alloc);
    let cases: [&[(u8, u64, u64)]; 2] = [
        &[(b'b', 5, 3), (b'h', 6, 12)],
        &[(b'a', 1, 0), (b'c', 7, 6), (b'i', 30, 13)],
    ];
    for parts in cases {
        let mut recs = Vec::new(alloc);
        for (stem, ts, seq) in parts {
            recs.push(rec_of(alloc, *stem, *ts, *seq)?)?;
        }
        let to = recs.as_slice().len();
        let mut list = RecList::new(alloc);
        list.push(Chunk::new(Arc::new(alloc, recs)?, 0, to, down))?;
        lists.push(list)?;
    }
    Ok(lists)
}

/// What a whole cursor gave: the numbers of its records, and what it answered at its end and once more.
#[derive(Debug, Drop)]
struct Given {
    seqs: Vec<u64>,
    end: Option<CursorError>,
    again: Option<CursorError>,
}

fn refusal_of(answer: Result<Option<Rec>, CursorError>) -> Option<CursorError> {
    match answer {
        Ok(_) => None,
        Err(why) => Some(why),
    }
}

fn given_by<V: Device, L: Ledger>(
    alloc: Global,
    cursor: &mut Cursor<V>,
    dev: &mut V,
    steps: &mut Steps<L>,
) -> Result<Given, NoMemory> {
    let mut seqs = Vec::new(alloc);
    for _ in 0..100 {
        match cursor.next(dev, steps) {
            Ok(Some(rec)) => seqs.push(rec.seq())?,
            answer => {
                let end = refusal_of(answer);
                let again = refusal_of(cursor.next(dev, steps));
                return Ok(Given { seqs, end, again });
            }
        }
    }
    Err(NoMemory)
}

/// A whole cursor over the three tablets and the two lists, whose blocks are read from the last device alone.
fn whole<V: Device, L: Ledger>(
    alloc: Global,
    loads: &mut V,
    dev: &mut V,
    readers: (V::Reader, V::Reader, V::Reader),
    raw_box: RawBox,
    down: bool,
    steps: &mut Steps<L>,
) -> Result<Option<Given>, Fail>
    requires honest { V.honest ≡ true }
    requires first { V.reader_number readers.0 ≡ 1 }
    requires second { V.reader_number readers.1 ≡ 2 }
    requires third { V.reader_number readers.2 ≡ 3 }
{
    let (first, second, third) = readers;
    let mut tablets = Vec::new(alloc);
    let listed = listing(1, 354, 4, (5, 8), (1, 10));
    tablets.push(Arc::new(alloc, Tablet::load(alloc, loads, first, listed)?)?)?;
    let listed = listing(2, 279, 3, (20, 22), (4, 11));
    tablets.push(Arc::new(alloc, Tablet::load(alloc, loads, second, listed)?)?)?;
    let listed = listing(3, 203, 2, (9, 10), (2, 9));
    tablets.push(Arc::new(alloc, Tablet::load(alloc, loads, third, listed)?)?)?;
    let lists = lists_of(alloc, down)?;
    match opened(alloc, loads, tablets, lists, raw_box, down, steps)? {
        Some(mut cursor) => Ok(Some(given_by(alloc, &mut cursor, dev, steps)?)),
        None => Ok(None),
    }
}

/// The same over devices in memory.
fn shown<L: Ledger>(
    alloc: Global,
    dev: &mut MemDevice,
    raw_box: RawBox,
    down: bool,
    blank: Blank,
) -> Result<Given, Fail>
    requires name { blank.name ≡ L.name }
    requires parts { blank.parts ≡ L.parts }
    requires some { 0 < blank.parts }
{
    let mut loads = MemDevice::new(alloc, &[])?;
    let first = sealed(alloc, 1, &FIRST).map_err(|_| "seal")?;
    let second = sealed(alloc, 2, &SECOND).map_err(|_| "seal")?;
    let third = sealed(alloc, 3, &THIRD).map_err(|_| "seal")?;
    let mut steps = Steps::<L>::new(blank);
    let given = whole(
        alloc,
        &mut loads,
        dev,
        (first, second, third),
        raw_box,
        down,
        &mut steps,
    )?;
    Ok(given.ok_or("two records have one key")?)
}

fn walked(alloc: Global, fails: &[Failing], raw_box: RawBox, down: bool) -> Result<Given, Fail> {
    let mut dev = MemDevice::new(alloc, fails)?;
    shown::<Brand>(alloc, &mut dev, raw_box, down, Blank::new(1))
}

fn cut(alloc: Global, bound: Option<(&[u8], bool)>) -> Result<Option<Cut>, Fail> {
    match bound {
        None => Ok(None),
        Some((bytes, after)) => Ok(Some(Cut {
            bytes: Octets::from_slice(alloc, bytes)?,
            after,
        })),
    }
}

fn turned(alloc: Global, seqs: &[u64], down: bool) -> Result<Vec<u64>, Fail> {
    let mut turned = Vec::from_slice(alloc, seqs)?;
    if down {
        turned.reverse();
    }
    Ok(turned)
}

static C7: [u8; 9] = [b'c', 0, 0, 0, 0, 0, 0, 0, 7];

static D21: [u8; 9] = [b'd', 0, 0, 0, 0, 0, 0, 0, 21];

#[test]
fn boxes_in_both_directions(rt: HostRuntime) -> Result<(), Fail> {
    let cases: [(
        Option<(&[u8], bool)>,
        Option<(&[u8], bool)>,
        (u64, u64),
        &[u64],
    ); 11] = [
        (
            None,
            None,
            (0, 100),
            &[0, 1, 2, 3, 4, 5, 6, 7, 8, 9, 10, 11, 12, 13],
        ),
        (
            Some((b"c", false)),
            None,
            (0, 100),
            &[5, 6, 7, 8, 9, 10, 11, 12, 13],
        ),
        (Some((b"c", true)), None, (0, 100), &[8, 9, 10, 11, 12, 13]),
        (None, Some((b"c", false)), (0, 100), &[0, 1, 2, 3, 4]),
        (
            None,
            Some((b"c", true)),
            (0, 100),
            &[0, 1, 2, 3, 4, 5, 6, 7],
        ),
        (
            Some((b"bb", false)),
            Some((b"f", false)),
            (0, 100),
            &[5, 6, 7, 8, 9],
        ),
        (Some((&C7, false)), Some((&C7, true)), (0, 100), &[6]),
        (Some((&C7, true)), Some((&D21, false)), (0, 100), &[7]),
        (None, None, (20, 22), &[4, 8, 11]),
        (None, None, (6, 8), &[5, 6, 7, 10, 12]),
        (Some((b"i", true)), None, (0, 100), &[]),
    ];
    for (lo, hi, (from, to), numbers) in cases {
        for down in [false, true] {
            let raw_box = RawBox {
                lo: cut(rt.alloc(), lo)?,
                hi: cut(rt.alloc(), hi)?,
                from,
                to,
            };
            let given = walked(rt.alloc(), &[], raw_box, down)?;
            let wanted = turned(rt.alloc(), numbers, down)?;
            assert_eq!(rt;
                given.seqs.as_slice(),
                wanted.as_slice(),
                "{lo:?} {hi:?} {from} {to} down {down}"
            );
            assert_eq!(rt; given.end, None, "the end");
            assert_eq!(rt; given.again, None, "the end again");
        }
    }
    Ok(())
}

/// What a whole cursor over these times answers where the nth read fails.
fn failing(alloc: Global, nth: u64, from: u64, to: u64) -> Result<Given, Fail> {
    let fail = Failing {
        op: Op::ReadAt,
        nth,
        done: false,
    };
    let raw_box = RawBox {
        lo: None,
        hi: None,
        from,
        to,
    };
    walked(alloc, &[fail], raw_box, false)
}

#[test]
fn each_block_is_read_when_it_is_needed(rt: HostRuntime) -> Result<(), Fail> {
    // Six blocks: the first of each tablet at once, then those behind a5, c8 and d21.
    let cases: [(u64, &[u64]); 6] = [
        (1, &[]),
        (2, &[]),
        (3, &[]),
        (4, &[0, 1]),
        (5, &[0, 1, 2, 3, 4, 5, 6, 7]),
        (6, &[0, 1, 2, 3, 4, 5, 6, 7, 8]),
    ];
    for (nth, numbers) in cases {
        let given = failing(rt.alloc(), nth, 0, 100)?;
        assert_eq!(rt; given.seqs.as_slice(), numbers, "read {nth} fails");
        assert_eq!(rt;
            given.end,
            Some(CursorError::Read(ReadError::Fault)),
            "read {nth} fails"
        );
        assert_eq!(rt;
            given.again,
            Some(CursorError::Ended(ReadError::Fault)),
            "after read {nth}"
        );
    }
    let given = failing(rt.alloc(), 7, 0, 100)?;
    assert_eq!(rt; given.end, None, "there is no seventh read");
    Ok(())
}

#[test]
fn a_tablet_outside_the_times_is_not_read(rt: HostRuntime) -> Result<(), Fail> {
    let given = failing(rt.alloc(), 3, 20, 22)?;
    assert_eq!(rt;
        given.seqs.as_slice(),
        [4, 8, 11].as_slice(),
        "two blocks are read"
    );
    assert_eq!(rt; given.end, None, "two blocks are read");
    let given = failing(rt.alloc(), 2, 20, 22)?;
    assert_eq!(rt;
        given.seqs.as_slice(),
        [4, 8].as_slice(),
        "one block is read"
    );
    assert_eq!(rt;
        given.end,
        Some(CursorError::Read(ReadError::Fault)),
        "the second one"
    );
    Ok(())
}
