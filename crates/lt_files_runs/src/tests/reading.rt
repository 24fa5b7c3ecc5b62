ghost use Rattle.std.specs.Prelude.{◌≡◌, IfOk};

use super::files::{LEAST, ONE_ROW, PLACES, THREE};
use lt_io::{Device, DeviceError};
use lt_memdev::{Fail as Failing, MemDevice, MemDir, MemReader, Op};
use lt_rec::{Cut, Listed, Octets, Period, RawBox};
use lt_tablet::{ReadError, Tablet};
use std::alloc::Global;
use std::test::*;

fn listing(bytes: u64, rows: u64, low: u64, high: u64, last: u64) -> Listed
    ensures { result.file ≡ 1 }
{
    Listed {
        file: 1,
        rows,
        bytes,
        low,
        high,
        period: Period::new(0, Period::FOUR_HOURS),
        first: 0,
        last,
    }
}

fn one_row(bytes: u64) -> Listed
    ensures { result.file ≡ 1 }
{
    listing(bytes, 1, 1_500_000_000_000_000, 1_500_000_000_000_000, 0)
}

fn sealed(dev: &mut MemDevice, alloc: Global, bytes: &[u8]) -> Result<MemReader, DeviceError>
    ensures { IfOk result (λ reader. reader.number ≡ 1) }
{
    let mut dir = MemDir::new(alloc)?;
    let lent = MemDevice::lend(&mut dir, 1);
    let mut pen = match dev.create(lent) {
        Ok(pen) => pen,
        Err((_, refused)) => return Err(refused),
    };
    dev.append(&mut pen, bytes)?;
    dev.seal(pen)
}

/// What loading answers: nothing, or the refusal.
fn refusal<V: Device>(
    alloc: Global,
    dev: &mut V,
    reader: V::Reader,
    listed: Listed,
) -> Option<ReadError>
    requires { V.reader_number reader ≡ listed.file }
{
    match Tablet::load(alloc, dev, reader, listed) {
        Ok(_) => None,
        Err(why) => Some(why),
    }
}

/// The offset that is named, if the file is refused.
fn place(alloc: Global, bytes: &[u8], listed: Listed) -> Result<Option<u64>, Fail>
    requires { listed.file ≡ 1 }
{
    let mut dev = MemDevice::new(alloc, &[])?;
    let reader = sealed(&mut dev, alloc, bytes).map_err(|_| "seal")?;
    match refusal(alloc, &mut dev, reader, listed) {
        None => Ok(None),
        Some(ReadError::Bad { file: _, at }) => Ok(Some(at)),
        Some(_) => Ok(Some(u64::MAX)),
    }
}

fn flipped(alloc: Global, at: usize) -> Result<Vec<u8>, Fail> {
    let mut bytes = Vec::from_slice(alloc, &ONE_ROW)?;
    if let Some(byte) = bytes.get_mut(at) {
        *byte ^= 0xff;
    }
    Ok(bytes)
}

#[test]
fn the_least_file_is_read(rt: HostRuntime) -> Result<(), Fail> {
    let found = place(rt.alloc(), &LEAST, listing(170, 1, 1, 1, 0))?;
    assert_eq!(rt; found, None, "the file of 170 bytes");
    Ok(())
}

/// The offset that is named where a byte of the file is turned.
fn place_of_turned(alloc: Global, at: usize) -> Result<Option<u64>, Fail> {
    let bytes = flipped(alloc, at)?;
    place(alloc, bytes.as_slice(), one_row(211))
}

#[test]
fn each_byte_counts(rt: HostRuntime) -> Result<(), Fail> {
    for (at, named) in PLACES.iter().enumerate() {
        let wanted = match *named {
            255 => None,
            named => Some(u64::from(named)),
        };
        assert_eq!(rt;
            place_of_turned(rt.alloc(), at)?,
            wanted,
            "byte {at} is turned"
        );
    }
    Ok(())
}

#[test]
fn a_cut_file_is_named_by_its_length(rt: HostRuntime) -> Result<(), Fail> {
    for len in 0..211usize {
        let (front, _) = ONE_ROW.split_at(len);
        let found = place(rt.alloc(), front, one_row(211))?;
        assert_eq!(rt; found, Some(len as u64), "cut to {len} bytes");
    }
    Ok(())
}

/// Two bytes that are changed, and the place that is named.
static PAIRS: [(usize, usize, u64); 6] = [
    (0, 123, 123),
    (0, 59, 0),
    (8, 59, 59),
    (8, 121, 8),
    (121, 122, 121),
    (131, 147, 147),
];

fn place_of_pair(alloc: Global, first: usize, second: usize) -> Result<Option<u64>, Fail> {
    let mut bytes = flipped(alloc, first)?;
    if let Some(byte) = bytes.get_mut(second) {
        *byte ^= 0xff;
    }
    place(alloc, bytes.as_slice(), one_row(211))
}

#[test]
fn the_first_check_counts(rt: HostRuntime) -> Result<(), Fail> {
    for (first, second, wanted) in PAIRS.iter() {
        let found = place_of_pair(rt.alloc(), *first, *second)?;
        assert_eq!(rt; found, Some(*wanted), "bytes {first} and {second}");
    }
    Ok(())
}

#[test]
fn the_total_of_rows_is_counted(rt: HostRuntime) -> Result<(), Fail> {
    let mut bytes = Vec::from_slice(rt.alloc(), &ONE_ROW)?;
    if let Some(byte) = bytes.get_mut(162) {
        *byte = 2;
    }
    let listed = listing(211, 2, 1_500_000_000_000_000, 1_500_000_000_000_000, 0);
    let found = place(rt.alloc(), bytes.as_slice(), listed)?;
    assert_eq!(rt; found, Some(155), "a footer and a listing of two rows");
    Ok(())
}

#[test]
fn a_cut_file_that_is_listed_so(rt: HostRuntime) -> Result<(), Fail> {
    for len in 0..355usize {
        let (front, _) = THREE.split_at(len);
        let found = place(rt.alloc(), front, listing(len as u64, 4, 5, 8, 3))?;
        // The last 88 bytes are read as a footer, of which twice the index's place and the number of blocks are lawful.
        let wanted = match len {
            0..=169 => 0,
            267 => 195,
            309 => 237,
            _ => len as u64 - 88,
        };
        assert_eq!(rt; found, Some(wanted), "listed and cut to {len} bytes");
    }
    Ok(())
}

fn range_in<V: Device>(
    alloc: Global,
    dev: &mut V,
    reader: V::Reader,
    raw_box: &RawBox,
) -> Option<(u64, u64)>
    requires { V.reader_number reader ≡ 1 }
{
    match Tablet::load(alloc, dev, reader, listing(355, 4, 5, 8, 3)) {
        Ok(tablet) => Some(tablet.index_range(raw_box)),
        Err(_) => None,
    }
}

fn cut(alloc: Global, bytes: &[u8]) -> Result<Option<Cut>, Fail> {
    Ok(Some(Cut {
        bytes: Octets::from_slice(alloc, bytes)?,
        after: false,
    }))
}

fn range_of(alloc: Global, lo: &[u8], hi: &[u8], from: u64) -> Result<Option<(u64, u64)>, Fail> {
    let raw_box = RawBox {
        lo: cut(alloc, lo)?,
        hi: cut(alloc, hi)?,
        from,
        to: 100,
    };
    let mut dev = MemDevice::new(alloc, &[])?;
    let reader = sealed(&mut dev, alloc, &THREE).map_err(|_| "seal")?;
    Ok(range_in(alloc, &mut dev, reader, &raw_box))
}

/// A low and a high cut, a timestamp to begin with, and the blocks from one place up to another.
static RANGES: [(&[u8], &[u8], u64, (u64, u64), &str); 3] = [
    (&[0], &[255], 0, (0, 3), "all keys"),
    (
        &[98, 0, 0, 0, 0, 0, 0, 0, 7],
        &[99, 0, 0, 0, 0, 0, 0, 0, 8],
        8,
        (1, 2),
        "from the last key of a block up to the first of the next",
    ),
    (&[0], &[255], 9, (0, 0), "behind the last timestamp"),
];

#[test]
fn blocks_of_a_box(rt: HostRuntime) -> Result<(), Fail> {
    for (lo, hi, from, wanted, case) in RANGES.iter() {
        let found = range_of(rt.alloc(), *lo, *hi, *from)?;
        assert_eq!(rt; found, Some(*wanted), "{case}");
    }
    Ok(())
}

/// What loading answers where the nth read fails.
fn refusal_at(alloc: Global, nth: u64) -> Result<Option<ReadError>, Fail> {
    let fail = Failing {
        op: Op::ReadAt,
        nth,
        done: false,
    };
    let mut dev = MemDevice::new(alloc, &[fail])?;
    let reader = sealed(&mut dev, alloc, &THREE).map_err(|_| "seal")?;
    Ok(refusal(alloc, &mut dev, reader, listing(355, 4, 5, 8, 3)))
}

#[test]
fn a_device_that_fails(rt: HostRuntime) -> Result<(), Fail> {
    for nth in 1..8 {
        let answer = refusal_at(rt.alloc(), nth)?;
        assert_eq!(rt; answer, Some(ReadError::Fault), "read {nth} fails");
    }
    Ok(())
}
