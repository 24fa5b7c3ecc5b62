use lt_rec::{Chunk, Cut, Label, Octets, RawBox, Rec, RecList};
use std::alloc::Global;
use std::cmp::Ordering;
use std::process::Abort;
use std::sync::Arc;
use std::test::Fail;

#[test]
fn texts_are_kept_and_ordered(rt: HostRuntime) -> Result<(), Fail> {
    for (low, high) in [("", "a"), ("a", "a\0"), ("a\0", "a\u{1}"), ("z", "\u{e9}")] {
        let below = Label::copy_of(rt.alloc(), low)?;
        let above = Label::copy_of(rt.alloc(), high)?;
        assert_eq!(rt;
            (below.cmp(&above), above.as_text()),
            (Ordering::Less, high),
            "{low:?} before {high:?}"
        );
    }
    Ok(())
}

// A record with these first bytes of the key and this timestamp.
fn rec_of(alloc: Global, stem: &[u8], ts: u8, seq: u64) -> Result<Rec, Fail> {
    let mut key = Vec::from_slice(alloc, stem)?;
    key.extend_from_slice(&[0, 0, 0, 0, 0, 0, 0, ts])?;
    if !Rec::fits(key.as_slice(), seq, b"body") {
        Err("no record")?;
    }
    Ok(Rec::new(alloc, key.as_slice(), seq, 3, b"body")?)
}

#[test]
fn a_record_is_taken_apart(rt: HostRuntime) -> Result<(), Fail> {
    let rec = rec_of(rt.alloc(), b"ab", 200, 7)?;
    assert_eq!(rt;
        (rec.stem(), rec.ts(), rec.stored_len()),
        (b"ab".as_slice(), 200, 34),
        "the stem, the timestamp, and 20 and key and body"
    );
    Ok(())
}

fn cut_of(alloc: Global, bytes: &str, after: bool) -> Result<Cut, Fail> {
    let bytes = Octets::from_slice(alloc, bytes.as_bytes())?;
    Ok(Cut { bytes, after })
}

// A key, the bytes of a cut, and whether the key is below the cut before and after them.
const CUTS: [(&str, &str, bool, bool); 6] = [
    ("a", "b", true, true),
    ("b", "b", false, true),
    ("bb", "b", false, true),
    ("c", "b", false, false),
    ("b", "bb", true, true),
    ("", "", false, true),
];

#[test]
fn keys_are_below_cuts(rt: HostRuntime) -> Result<(), Fail> {
    for (key, bytes, before, after) in CUTS {
        let found = (
            cut_of(rt.alloc(), bytes, false)?.below(key.as_bytes()),
            cut_of(rt.alloc(), bytes, true)?.below(key.as_bytes()),
        );
        assert_eq!(rt; found, (before, after), "{key:?} below {bytes:?}");
    }
    Ok(())
}

// From before b up to after d, from 5 to 9.
fn box_of(alloc: Global) -> Result<RawBox, Fail> {
    Ok(RawBox {
        lo: Some(cut_of(alloc, "b", false)?),
        hi: Some(cut_of(alloc, "d", true)?),
        from: 5,
        to: 9,
    })
}

// A stem, a timestamp, and whether the box has a record of these.
const BOXED: [(&str, u8, bool); 8] = [
    ("a", 7, false),
    ("b", 7, true),
    ("d", 7, true),
    ("e", 7, false),
    ("c", 4, false),
    ("c", 5, true),
    ("c", 9, true),
    ("c", 10, false),
];

#[test]
fn a_box_has_its_bounds(rt: HostRuntime) -> Result<(), Fail> {
    let raw_box = box_of(rt.alloc())?;
    for (stem, ts, inside) in BOXED {
        let rec = rec_of(rt.alloc(), stem.as_bytes(), ts, 0)?;
        assert_eq!(rt; raw_box.has(&rec), inside, "{stem:?} at {ts}");
    }
    Ok(())
}

// Four records in one vector, with numbers from 0.
fn four(alloc: Global) -> Result<Vec<Rec>, Fail> {
    let mut recs = Vec::new(alloc);
    for seq in 0..4 {
        recs.push(rec_of(alloc, b"stem", 1, seq)?)?;
    }
    Ok(recs)
}

// Three pieces of them: the second and the third, none, and all four downward.
fn pieces_of_four(alloc: Global) -> Result<RecList, Fail> {
    let recs = Arc::new(alloc, four(alloc)?)?;
    if recs.len() != 4 {
        return Err("four records".into());
    }
    let mut list = RecList::new(alloc);
    for (from, to, down) in [(1, 3, false), (2, 2, false), (0, 4, true)] {
        list.push(Chunk::new(recs.clone()?, from, to, down))?;
    }
    Ok(list)
}

// The numbers of the list's records from its front on.
fn from_front(alloc: Global, mut list: RecList) -> Result<Vec<u64>, Fail> {
    let mut numbers = Vec::new(alloc);
    for _ in 0..8 {
        if let Some(rec) = list.first() {
            numbers.push(rec.seq())?;
        }
        list.skip_first();
    }
    Ok(numbers)
}

// The same from its end on.
fn from_end(alloc: Global, mut list: RecList) -> Result<Vec<u64>, Fail> {
    let mut numbers = Vec::new(alloc);
    for _ in 0..8 {
        if let Some(rec) = list.last() {
            numbers.push(rec.seq())?;
        }
        list.skip_last();
    }
    Ok(numbers)
}

fn same(rt: &impl Abort, found: &[u64], wanted: &[u64], case: &str) {
    assert_eq!(rt; found, wanted, "{case}");
}

#[test]
fn lists_share_their_records(rt: HostRuntime) -> Result<(), Fail> {
    let list = pieces_of_four(rt.alloc())?;
    let front = from_front(rt.alloc(), list.front(3)?)?;
    same(&rt, front.as_slice(), &[1, 2, 3], "the first three");
    let up = from_front(rt.alloc(), list.clone()?)?;
    same(&rt, up.as_slice(), &[1, 2, 3, 2, 1, 0], "from the front");
    let down = from_end(rt.alloc(), list)?;
    same(&rt, down.as_slice(), &[0, 1, 2, 3, 2, 1], "from the end");
    Ok(())
}
