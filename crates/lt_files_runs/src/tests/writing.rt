ghost use Rattle.std.specs.Prelude.{◌≡◌, ◌≤◌, ◌<◌, ◌∷◌, [], IfOk, length};

use super::files::LEAST;
use bytes::Bytes;
use lt_io::{Device, Enters};
use lt_memdev::{Fail as Failing, MemDevice, MemDir, Op};
use lt_rec::{NoMemory, Octets, Period, Rec};
use lt_tablet::{Fresh, TabletWriter, WriteError};
use std::alloc::Global;
use std::test::*;

/// A record whose key is its timestamp.
fn rec_of(alloc: Global, ts: u8, body: Octets) -> Result<Rec, NoMemory>
    requires { length body ≤ 60000 }
    ensures key { IfOk result (λ r. r.key ≡ 0 ∷ 0 ∷ 0 ∷ 0 ∷ 0 ∷ 0 ∷ 0 ∷ ts ∷ []) }
    ensures ts { IfOk result (λ r. r.ts ≡ ts) }
{
    Rec::new(alloc, &[0, 0, 0, 0, 0, 0, 0, ts], 0, 0, body.as_slice())
}

fn body_of(alloc: Global, len: usize) -> Result<Octets, NoMemory>
    requires { len ≤ 40000 }
    ensures { IfOk result (λ body. length body ≤ 60000) }
{
    Ok(Octets::from_vec(vec![in alloc; 7; len]?))
}

/// A tablet of one record without a body.
fn least<V: Device>(alloc: Global, dev: &mut V, lent: V::Lent) -> Result<Fresh<V>, WriteError>
    ensures { IfOk result (λ fresh. fresh.listed.file ≡ V.lent_number lent) }
{
    let rec = rec_of(alloc, 1, Octets::from_slice(alloc, &[])?)?;
    let period = Period::new(0, Period::FOUR_HOURS);
    let mut writer = TabletWriter::new(alloc, dev, lent, period)?;
    writer.add(dev, &rec)?;
    writer.finish(dev)
}

/// A tablet of three records with bodies of that length.
fn three<V: Device>(
    alloc: Global,
    dev: &mut V,
    lent: V::Lent,
    len: usize,
) -> Result<Fresh<V>, WriteError>
    requires { len ≤ 40000 }
    ensures { IfOk result (λ fresh. fresh.listed.file ≡ V.lent_number lent) }
{
    let first = rec_of(alloc, 1, body_of(alloc, len)?)?;
    let second = rec_of(alloc, 2, body_of(alloc, len)?)?;
    let third = rec_of(alloc, 3, body_of(alloc, len)?)?;
    let period = Period::new(0, Period::FOUR_HOURS);
    let mut writer = TabletWriter::new(alloc, dev, lent, period)?;
    writer.add(dev, &first)?;
    writer.add(dev, &second)?;
    writer.add(dev, &third)?;
    writer.finish(dev)
}

/// The bytes of a tablet that was entered.
fn entered<V: Device>(dev: &mut V, dir: &mut V::Dir, fresh: &Fresh<V>) -> Option<Bytes>
    requires { fresh.now.listed.file < (V.directory dir.old).now.ceiling }
{
    let tablet = fresh.tablet();
    if tablet.enter(dev, dir).is_err() {
        return None;
    }
    match dev.fetch(dir, fresh.listed().file) {
        Ok(Some(reader)) => {
            let len = V::length(&reader);
            dev.read_at(&reader, 0, len).ok()
        }
        _ => None,
    }
}

fn least_bytes<V: Device>(alloc: Global, dev: &mut V, dir: &mut V::Dir) -> Option<Bytes>
    requires { (V.directory dir.old).now.ceiling ≤ 1 }
{
    let lent = V::lend(dir, 1);
    match least(alloc, dev, lent) {
        Ok(fresh) => entered(dev, dir, &fresh),
        Err(_) => None,
    }
}

#[test]
fn the_least_file_is_written(rt: HostRuntime) -> Result<(), Fail> {
    let mut dev = MemDevice::new(rt.alloc(), &[])?;
    let mut dir = MemDir::new(rt.alloc())?;
    let bytes = least_bytes(rt.alloc(), &mut dev, &mut dir).ok_or("no file")?;
    assert!(rt;
        bytes.as_slice() == LEAST.as_slice(),
        "the file of 170 bytes"
    );
    Ok(())
}

/// What writing answers: the number of blocks and the file's length, or the refusal.
fn answer<V: Device>(
    alloc: Global,
    dev: &mut V,
    lent: V::Lent,
    len: usize,
) -> Result<(u64, u64), WriteError>
    requires { len ≤ 40000 }
{
    let fresh = three(alloc, dev, lent, len)?;
    Ok((fresh.tablet().count(), fresh.listed().bytes))
}

/// The same where the call that is named fails.
fn answer_of(
    alloc: Global,
    op: Op,
    nth: u64,
    len: usize,
) -> Result<Result<(u64, u64), WriteError>, NoMemory>
    requires { len ≤ 40000 }
{
    let fail = Failing {
        op,
        nth,
        done: false,
    };
    let mut dev = MemDevice::new(alloc, &[fail])?;
    let mut dir = MemDir::new(alloc)?;
    let lent = MemDevice::lend(&mut dir, 1);
    Ok(answer(alloc, &mut dev, lent, len))
}

/// The call that fails, which of its kind, the length of each body, and the answer. With long bodies the header, three
/// blocks, the index, the filter and the footer are appended.
static FAULTS: [(Op, u64, usize, Result<(u64, u64), WriteError>); 11] = [
    (Op::Append, 1, 40_000, Err(WriteError::Fault)),
    (Op::Append, 2, 40_000, Err(WriteError::Fault)),
    (Op::Append, 3, 40_000, Err(WriteError::Fault)),
    (Op::Append, 4, 40_000, Err(WriteError::Fault)),
    (Op::Append, 5, 40_000, Err(WriteError::Fault)),
    (Op::Append, 6, 40_000, Err(WriteError::Fault)),
    (Op::Append, 7, 40_000, Err(WriteError::Fault)),
    (Op::Create, 1, 40_000, Err(WriteError::Fault)),
    (Op::Seal, 1, 40_000, Err(WriteError::Fault)),
    (Op::Append, 8, 40_000, Ok((3, 120_314))),
    (Op::Append, 6, 0, Ok((1, 226))),
];

#[test]
fn a_writer_tells_each_fault(rt: HostRuntime) -> Result<(), Fail> {
    for (op, nth, len, wanted) in FAULTS.iter() {
        let len = (*len).min(40_000);
        let found = answer_of(rt.alloc(), *op, *nth, len)?;
        assert_eq!(rt; found, *wanted, "{op:?} {nth} fails, bodies of {len} bytes");
    }
    Ok(())
}
