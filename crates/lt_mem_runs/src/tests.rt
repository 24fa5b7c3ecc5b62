use lt_mem::{AddError, MemTablet};
use lt_rec::{Cut, Octets, RawBox, Rec, RecList};
use std::alloc::Global;
use std::process::Abort;
use std::test::Fail;

fn rec_with(alloc: Global, key: &[u8], seq: u64, body: &[u8]) -> Result<Rec, Fail> {
    if Rec::fits(key, seq, body) {
        return Ok(Rec::new(alloc, key, seq, 1, body)?);
    }
    Err(Fail::from("the record does not fit"))
}

/// Whether the record was added, or the number of the one that has its key.
fn add_to(tablet: &mut MemTablet, rec: Rec) -> Result<Option<u64>, Fail> {
    if tablet.bytes() > 1 << 60 || rec.stored_len() > 1 << 60 {
        return Err(Fail::from("too many bytes"));
    }
    match tablet.add(rec) {
        Ok(()) => Ok(None),
        Err((_, AddError::Present { seq })) => Ok(Some(seq)),
        Err((_, AddError::NoMemory)) => Err(Fail::from("no memory")),
    }
}

/// The records numbered from 0 up to `count`, with these numbers as keys and timestamps, added in a shuffled order.
fn shuffled(alloc: Global, count: u64) -> Result<MemTablet, Fail> {
    let mut tablet = MemTablet::new(alloc);
    for step in 0..count {
        let number = step.wrapping_mul(7_919) % count;
        let rec = rec_with(alloc, &number.to_be_bytes(), number, b"body")?;
        if add_to(&mut tablet, rec)?.is_some() {
            return Err(Fail::from("a key that is held"));
        }
    }
    Ok(tablet)
}

#[test]
fn records_in_any_order_are_found(rt: HostRuntime) -> Result<(), Fail> {
    let mut tablet = shuffled(rt.alloc(), 2_000)?;
    for number in 0..2_000u64 {
        let found = tablet.get(number.to_be_bytes().as_slice());
        assert_eq!(rt; found.map(|rec| rec.seq()), Some(number), "record {number}");
    }
    let again = rec_with(rt.alloc(), &1_234u64.to_be_bytes(), 7, b"other")?;
    assert_eq!(rt;
        add_to(&mut tablet, again)?,
        Some(1_234),
        "a key that is held"
    );
    assert!(rt;
        tablet.get(2_000u64.to_be_bytes().as_slice()).is_none(),
        "above all keys"
    );
    assert_eq!(rt; tablet.seqs(), Some((0, 1_999)), "numbers");
    assert_eq!(rt; tablet.span(), Some((0, 1_999)), "times");
    assert_eq!(rt; tablet.bytes(), 64_000, "2,000 records of 32 bytes");
    Ok(())
}

#[test]
fn lengths_at_their_limits_are_added_up(rt: HostRuntime) -> Result<(), Fail> {
    let mut tablet = MemTablet::new(rt.alloc());
    assert_eq!(rt; tablet.seqs(), None, "numbers of an empty tablet");
    let key = vec![in rt.alloc(); 1; Rec::LONGEST_KEY]?;
    let body = vec![in rt.alloc(); 2; Rec::LONGEST_BODY]?;
    let last = Rec::SEQ_END - 1;
    for (key, seq, body, bytes) in [
        (key.as_slice(), last, body.as_slice(), 64_116),
        (b"12345678".as_slice(), 0, b"".as_slice(), 64_144),
    ] {
        let refused = add_to(&mut tablet, rec_with(rt.alloc(), key, seq, body)?)?;
        assert_eq!(rt; refused, None, "record {seq}");
        assert_eq!(rt; tablet.bytes(), bytes, "with record {seq}");
    }
    assert_eq!(rt; tablet.seqs(), Some((0, last)), "numbers");
    Ok(())
}

/// Where a walk begins or ends: at the number's key or, with `true`, after it.
type Bound = Option<(u64, bool)>;

#[derive(Clone, Copy)]
struct Case {
    name: &'static str,
    records: u64,
    lo: Bound,
    hi: Bound,
    times: (u64, u64),
    limit: u64,
}

fn meets(case: &Case, number: u64) -> bool {
    let lo = match case.lo {
        Some((least, after)) => least < number || (least == number && !after),
        None => true,
    };
    let hi = match case.hi {
        Some((end, after)) => number < end || (number == end && after),
        None => true,
    };
    lo && hi && case.times.0 <= number && number <= case.times.1
}

/// The numbers that a walk is to give, from a plain list of all.
fn wanted(alloc: Global, case: &Case, down: bool) -> Result<Vec<u64>, Fail> {
    let mut numbers = Vec::new(alloc);
    for step in 0..case.records {
        let number = if down { case.records - 1 - step } else { step };
        if meets(case, number) && (numbers.len() as u64) < case.limit {
            numbers.push(number)?;
        }
    }
    Ok(numbers)
}

fn numbers_of(alloc: Global, mut list: RecList) -> Result<Vec<u64>, Fail> {
    let mut numbers = Vec::new(alloc);
    for _ in 0..list.len() {
        if let Some(rec) = list.first() {
            numbers.push(rec.seq())?;
        }
        list.skip_first();
    }
    Ok(numbers)
}

fn cut_of(alloc: Global, bound: Bound) -> Result<Option<Cut>, Fail> {
    match bound {
        Some((number, after)) => {
            let bytes = Octets::from_slice(alloc, &number.to_be_bytes())?;
            Ok(Some(Cut { bytes, after }))
        }
        None => Ok(None),
    }
}

/// What a walk gives, and what it is to give.
fn both(alloc: Global, case: &Case, down: bool) -> Result<(Vec<u64>, Vec<u64>), Fail> {
    let tablet = shuffled(alloc, case.records)?;
    let raw_box = RawBox {
        lo: cut_of(alloc, case.lo)?,
        hi: cut_of(alloc, case.hi)?,
        from: case.times.0,
        to: case.times.1,
    };
    let list = tablet.walk(&raw_box, down, case.limit)?;
    Ok((numbers_of(alloc, list)?, wanted(alloc, case, down)?))
}

const ALL: (u64, u64) = (0, u64::MAX);

fn make(
    name: &'static str,
    records: u64,
    lo: Bound,
    hi: Bound,
    times: (u64, u64),
    limit: u64,
) -> Case {
    Case {
        name,
        records,
        lo,
        hi,
        times,
        limit,
    }
}

fn check_walks(rt: &impl Abort, alloc: Global, case: &Case) -> Result<(), Fail> {
    for down in [false, true] {
        let (given, wanted) = both(alloc, case, down)?;
        assert_eq!(rt;
            given.as_slice(),
            wanted.as_slice(),
            "{}, down {down}",
            case.name
        );
    }
    Ok(())
}

#[test]
fn walks_go_both_ways_over_pieces(rt: HostRuntime) -> Result<(), Fail> {
    for case in [
        make("no record", 0, None, None, ALL, 9),
        make("one record", 1, None, None, ALL, 9),
        make("one record below the cut", 1, Some((0, true)), None, ALL, 9),
        make("a piece that is nearly full", 127, None, None, ALL, 9_999),
        make("a full piece", 128, None, Some((127, false)), ALL, 9_999),
        make("two halves", 129, Some((64, false)), None, ALL, 9_999),
        make("all", 2_000, None, None, ALL, u64::MAX),
        make("limit 0", 2_000, None, None, ALL, 0),
    ] {
        check_walks(&rt, rt.alloc(), &case)?;
    }
    Ok(())
}

#[test]
fn walks_go_both_ways_between_cuts_and_times(rt: HostRuntime) -> Result<(), Fail> {
    for case in [
        make(
            "between cuts",
            2_000,
            Some((99, true)),
            Some((1_900, true)),
            ALL,
            9_999,
        ),
        make(
            "cuts that cross",
            2_000,
            Some((1_500, false)),
            Some((300, true)),
            ALL,
            9_999,
        ),
        make(
            "cuts that meet",
            2_000,
            Some((700, false)),
            Some((700, true)),
            ALL,
            9_999,
        ),
        make("a box with no times", 2_000, None, None, (800, 700), 9_999),
        make(
            "some times of many pieces",
            2_000,
            Some((100, false)),
            None,
            (300, 1_400),
            9_999,
        ),
        make(
            "a limit in mid-piece",
            2_000,
            Some((100, false)),
            None,
            (300, 1_400),
            700,
        ),
    ] {
        check_walks(&rt, rt.alloc(), &case)?;
    }
    Ok(())
}
