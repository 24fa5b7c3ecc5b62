//! One pass over a block: are its records those that the tablet asks for, and what are they together with those before?
ghost use Rattle.std.specs.Prelude.{◌≡◌, ◌<◌, ◌≤◌, ◌++◌, ◌∷◌, [], List, Ok, Some, OnOk, IfErr, option_copied, option_map, not, length, if◌then◌else◌};
ghost use Rattle.lt_rec.specs.Record.{Record, stem_of};
ghost use Rattle.lt_bloom.specs.Hash.{hash_of};
ghost use Rattle.lt_rec.specs.Reading.{Fails};
ghost use Rattle.lt_block.specs.Reading.{block_at};
ghost use Rattle.lt_layout.specs.Spelling.{differs};
ghost use Rattle.lt_layout.specs.Reading.{own_block_at};
ghost use Rattle.lt_layout.specs.Surveying.{Checks, IsWithin, last_of, found_in};

use crate::index::IndexEntry;
use crate::records::{own_record_of, stem_of};
use crate::totals::Totals;
use lt_bloom::stem_hash;
use lt_rec::{Fault, FormatError, NoMemory, test_at, u32_at};
use std::alloc::Global;
use std::marker::Model;

/// What was found of the records so far: their totals, and a hash for each whose stem differs from that of the one before.
#[derive(Drop)]
pub struct Survey {
    totals: Totals,
    hashes: Vec<u64>,
}

impl Model for Survey {
    ghost use Rattle.lt_layout.specs.Surveying.{Found};

    ghost Value = { Found };

    ghost view = { λ s. record { totals = s.totals; hashes = s.hashes.items } };
}

impl Survey {
    /// Of no records. Takes no memory.
    pub fn new(alloc: Global) -> Survey
        ensures { result ≡ found_in [] }
    {
        Survey {
            totals: Totals::none(),
            hashes: Vec::new(alloc),
        }
    }

    /// The totals of the records so far.
    pub fn totals(&self) -> &Totals
        ensures { result.now ≡ self.now.totals }
    {
        &self.totals
    }

    /// A hash for each stem that differs from the one before it, in the order of the records.
    pub fn hashes(&self) -> &[u64]
        ensures { result.now ≡ self.now.hashes }
    {
        self.hashes.as_slice()
    }

    /// One record more, whose key and timestamp and number these are; `before` is the key of the one before it.
    pub fn add(
        &mut self,
        before: Option<&[u8]>,
        key: &[u8],
        ts: u64,
        seq: u64,
    ) -> Result<(), NoMemory>
        ensures { OnOk result ((recs : List Record) (r : Record) → r.key ≡ key.now → r.ts ≡ ts → r.seq ≡ seq → option_copied before.entry ≡ last_of recs → self.old ≡ found_in recs → self.new ≡ found_in (recs ++ r ∷ [])) }
    {
        note_stem(&mut self.hashes, is_new(before, key), key)?;
        self.totals.add(ts, seq)
    }
}

/// A hash for a key's stem that is new.
fn note_stem(hashes: &mut Vec<u64>, is_new: bool, key: &[u8]) -> Result<(), NoMemory>
    ensures { OnOk result (hashes.new.items ≡ hashes.old.items ++ (if is_new then hash_of (stem_of key.now) ∷ [] else [])) }
{
    if is_new {
        push_hash(hashes, key)?;
    }
    Ok(())
}

// Apart, so that the loop over records that mostly have the stem before keeps its registers.
#[inline(never)]
fn push_hash(hashes: &mut Vec<u64>, key: &[u8]) -> Result<(), NoMemory>
    ensures { OnOk result (hashes.new.items ≡ hashes.old.items ++ hash_of (stem_of key.now) ∷ []) }
{
    hashes.push(stem_hash(stem_of(key)))?;
    Ok(())
}

/// There is no key before, or its stem is another one.
fn is_new(before: Option<&[u8]>, key: &[u8]) -> bool
    ensures { result ≡ differs (option_map stem_of (option_copied before.entry)) (stem_of key.now) }
{
    match before {
        Some(last) => stem_of(last) != stem_of(key),
        None => true,
    }
}

/// The key's stem is new: of the first one in a block it is asked, of the others it was seen.
fn starts_stem(done: u32, before: Option<&[u8]>, key: &[u8], is_alike: bool) -> bool
    ensures first { done ≡ 0 → result ≡ differs (option_map stem_of (option_copied before.entry)) (stem_of key.now) }
    ensures later { 0 < done → result ≡ not is_alike }
{
    if done == 0 {
        is_new(before, key)
    } else {
        !is_alike
    }
}

/// The records of an entry's block are those of a block, and meet what the tablet asks; else the offset of the first
/// fault, in the block. Takes no memory.
#[tactic(auto, unfolding(crate::specs::Reading::own_block_at))]
pub fn check_block(totals: &Totals, entry: &IndexEntry, bytes: &[u8]) -> Result<(), Fault>
    requires { length bytes.now ≤ 65536 }
    ensures exact { Checks result (own_block_at totals.now entry.now bytes.now) }
    ensures within { IfErr result (λ fault. fault.at ≤ length bytes.now) }
    // They are a block's.
    ensures block { OnOk result ((recs : List Record) → 0 < entry.now.count → own_block_at totals.now entry.now bytes.now ≡ Ok recs → block_at bytes.now ≡ Ok recs) }
{
    let (count, behind) = u32_at(0, bytes)?;
    test_at(entry.count == count, 0)?;
    let mut last: &[u8] = &[];
    let mut rest = behind;
    for done in 0..count {
        let at = (bytes.len() - rest.len()) as u64;
        let seen = own_record_of(totals, entry, count - done - 1, at, last, rest)?;
        last = seen.key;
        rest = seen.rest;
    }
    test_at(rest.is_empty(), (bytes.len() - rest.len()) as u64)
}

/// The same, and the records are surveyed; `before` is the last key of the block before, or there is none.
#[inline(never)]
#[tactic(auto, unfolding(crate::specs::Reading::own_block_at))]
pub fn survey_block(
    totals: &Totals,
    entry: &IndexEntry,
    before: Option<&[u8]>,
    bytes: &[u8],
    survey: &mut Survey,
) -> Result<(), FormatError>
    requires { length bytes.now ≤ 65536 }
    ensures found { OnOk result ((recs : List Record) → option_copied before.entry ≡ last_of recs → survey.old ≡ found_in recs → (own : List Record) × (own_block_at totals.now entry.now bytes.now ≡ Ok own) × (survey.new ≡ found_in (recs ++ own)) × (0 < entry.now.count → last_of own ≡ Some entry.now.last)) }
    ensures fault { IfErr result (λ why. Fails why (own_block_at totals.now entry.now bytes.now)) }
    ensures within { IfErr result (λ why. IsWithin (length bytes.now) why) }
{
    let (count, behind) = u32_at(0, bytes)?;
    test_at(entry.count == count, 0)?;
    // A copy of the totals stays out of memory in the loop.
    let mut found = survey.totals;
    let mut last: &[u8] = &[];
    let mut rest = behind;
    for done in 0..count {
        let at = (bytes.len() - rest.len()) as u64;
        let seen = own_record_of(totals, entry, count - done - 1, at, last, rest)?;
        let is_new = starts_stem(done, before, seen.key, seen.is_alike);
        note_stem(&mut survey.hashes, is_new, seen.key)?;
        found.add(seen.ts, seen.seq)?;
        last = seen.key;
        rest = seen.rest;
    }
    survey.totals = found;
    Ok(test_at(rest.is_empty(), (bytes.len() - rest.len()) as u64)?)
}
