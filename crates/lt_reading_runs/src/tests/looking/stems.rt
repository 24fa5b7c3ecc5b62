// What a look-up of a whole stem asks of its tablets and of its best record, seen before it is made.
ghost use Rattle.std.specs.Prelude.{◌≡◌, ◌≤◌, true, length, IsTrue, IfOk, IfSome, map};
ghost use Rattle.std.specs.Arc.{arc_value};
ghost use Rattle.lt_rec.specs.Bytes.{begins_with};
ghost use Rattle.lt_rec.specs.Record.{stem_of};
ghost use Rattle.lt_tablet.specs.Loaded.{records_in};
ghost use Rattle.lt_probe.specs.Latest.{IsWholeIn, is_asked, records_of};

use lt_block::Block;
use lt_io::Device;
use lt_rec::{Rec, Steps};
use lt_tablet::{ReadError, Tablet};
use std::alloc::Global;
use std::sync::Arc;
use std::sync::ledger::Ledger;
use std::test::Fail;

/// Whether the key has the bytes as its stem, or doesn't begin with them.
fn is_whole_in_key(key: &[u8], bytes: &[u8]) -> bool
    requires { 8 ≤ length key.now }
    ensures { IsTrue result → begins_with key.now bytes.now ≡ true → stem_of key.now ≡ bytes.now }
{
    let (stem, _) = key.split_at(key.len() - 8);
    stem == bytes || !key.starts_with(bytes)
}

fn is_whole_in_block(block: &Block, bytes: &[u8]) -> bool
    ensures { IsTrue result → IsWholeIn block.now bytes.now }
{
    for at in 0..block.count() {
        let rec = block.get(at);
        if !is_whole_in_key(rec.key(), bytes) {
            return false;
        }
    }
    true
}

fn is_whole_in_tablet<V: Device, L: Ledger>(
    alloc: Global,
    dev: &mut V,
    tablet: &Tablet<V>,
    bytes: &[u8],
    steps: &mut Steps<L>,
) -> Result<bool, ReadError>
    ensures { V.honest ≡ true → IfOk result (λ yes. IsTrue yes → IsWholeIn (records_in tablet.now) bytes.now) }
{
    for at in 0..tablet.count() {
        let block = tablet.block(alloc, dev, at, steps)?;
        if !is_whole_in_block(&block, bytes) {
            return Ok(false);
        }
    }
    Ok(true)
}

/// Whether the bytes are the whole stem of each key of the tablets that begins with them.
pub fn is_whole<V: Device, L: Ledger>(
    alloc: Global,
    dev: &mut V,
    tablets: &[Arc<Tablet<V>>],
    bytes: &[u8],
    steps: &mut Steps<L>,
) -> Result<bool, ReadError>
    ensures { V.honest ≡ true → IfOk result (λ yes. IsTrue yes → IsWholeIn (records_of (map arc_value tablets.now)) bytes.now) }
{
    for tablet in tablets {
        if !is_whole_in_tablet(alloc, dev, tablet, bytes, steps)? {
            return Ok(false);
        }
    }
    Ok(true)
}

/// A best record so far, of this key and number; none where it isn't asked for.
pub fn best_of(
    alloc: Global,
    prefix: &[u8],
    since: u64,
    key: &[u8],
    seq: u64,
) -> Result<Option<Rec>, Fail>
    ensures { IfOk result (λ best. IfSome best (λ b. is_asked prefix.now since b ≡ true)) }
{
    if !Rec::fits(key, seq, &[]) {
        return Err("no record".into());
    }
    let rec = Rec::new(alloc, key, seq, 0, &[])?;
    if rec.key().starts_with(prefix) && since <= rec.ts() {
        Ok(Some(rec))
    } else {
        Ok(None)
    }
}
