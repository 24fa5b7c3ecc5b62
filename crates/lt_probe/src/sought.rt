ghost use Rattle.std.specs.Prelude.{◌≡◌, ◌≤◌, [], ◌∷◌, ◌++◌, length, IfOk};
ghost use Rattle.lt_rec.specs.Record.{stem_of, time_of};
ghost use Rattle.lt_probe.specs.Sought.{IsSought, cut_before};

use lt_bloom::stem_hash;
use lt_rec::{Cut, NoMemory, Octets, RawBox};
use std::alloc::Global;

/// A key that is sought: the cut right before it, the box that has it alone, and the hash of its stem.
#[derive(Drop)]
pub struct Sought {
    pub cut: Cut,
    pub raw_box: RawBox,
    pub hash: u64,
}

impl Sought {
    pub fn new(alloc: Global, key: &[u8]) -> Result<Sought, NoMemory>
        ensures { IfOk result (λ sought. IsSought key.now sought) }
    {
        let (stem, time) = parts_of(key);
        let hash = stem_hash(stem);
        let raw_box = RawBox {
            lo: Some(before(alloc, key)?),
            hi: Some(behind(alloc, key)?),
            from: time,
            to: time,
        };
        let cut = before(alloc, key)?;
        Ok(Sought { cut, raw_box, hash })
    }
}

/// The key without its timestamp, and that. Where the key is too short to have one, nothing is known of either.
fn parts_of(key: &[u8]) -> (&[u8], u64)
    ensures stem { 8 ≤ length key.now → result.0.now ≡ stem_of key.now }
    ensures time { 8 ≤ length key.now → result.1 ≡ time_of key.now }
{
    match key.split_last_chunk::<8>() {
        Some((stem, time)) => (stem, u64::from_be_bytes(*time)),
        None => (key, 0),
    }
}

/// The cut right before the key.
pub fn before(alloc: Global, key: &[u8]) -> Result<Cut, NoMemory>
    ensures { IfOk result (λ cut. cut ≡ cut_before key.now) }
{
    let bytes = Octets::from_slice(alloc, key)?;
    Ok(Cut {
        bytes,
        after: false,
    })
}

/// The cut right behind the key.
fn behind(alloc: Global, key: &[u8]) -> Result<Cut, NoMemory>
    ensures { IfOk result (λ cut. cut ≡ cut_before (key.now ++ 0 ∷ [])) }
{
    let mut bytes = Vec::with_capacity(alloc, key.len() + 1)?;
    bytes.extend_from_slice(key)?;
    bytes.push(0)?;
    let bytes = Octets::from_vec(bytes);
    Ok(Cut {
        bytes,
        after: false,
    })
}
