ghost use Rattle.std.specs.Prelude.{◌≡◌, ℕ, false, not, List, IfOk, Contains};
ghost use Rattle.lt_bloom.specs.Filter.{filter_bytes};
ghost use Rattle.lt_bloom.specs.Hash.{hash_of};
ghost use Rattle.lt_probe.specs.Asked.{admits_question, cut_behind, hash_if, prefix_box};
ghost use Rattle.lt_probe.specs.Sought.{cut_before};

use crate::sought::before;
use lt_bloom::{Filter, stem_hash};
use lt_rec::{Cut, NoMemory, Octets, RawBox};
use std::alloc::Global;
use std::marker::Model;

/// A prefix that is asked for: the cuts right before and right behind its keys, the box of its keys and times, and where it
/// is a whole stem the hash of it. Contracts see the question.
#[derive(Drop)]
pub struct Asked {
    lo: Cut,
    hi: Cut,
    raw_box: RawBox,
    hash: Option<u64>,
}

impl Model for Asked {
    ghost use Rattle.lt_probe.specs.Asked.{Question, IsAsked, is_some};

    ghost Value = { Question };

    ghost view = { λ a. record { prefix = a.lo.bytes; whole = is_some a.hash; since = a.raw_box.from } };

    ghost invariant = { λ a. IsAsked (record { prefix = a.lo.bytes; whole = is_some a.hash; since = a.raw_box.from }) a.lo a.hi a.raw_box a.hash };
}

impl Asked {
    pub fn new(alloc: Global, prefix: &[u8], whole: bool, since: u64) -> Result<Asked, NoMemory>
        ensures { IfOk result (λ asked. asked ≡ record { prefix = prefix.now; whole = whole; since = since }) }
    {
        let raw_box = RawBox {
            lo: Some(before(alloc, prefix)?),
            hi: Some(behind_all(alloc, prefix)?),
            from: since,
            to: u64::MAX,
        };
        let lo = before(alloc, prefix)?;
        let hi = behind_all(alloc, prefix)?;
        let hash = hash_of_whole(prefix, whole);
        Ok(Asked {
            lo,
            hi,
            raw_box,
            hash,
        })
    }

    pub fn lo(&self) -> &Cut
        ensures { result.now ≡ cut_before self.now.prefix }
    {
        &self.lo
    }

    pub fn hi(&self) -> &Cut
        ensures { result.now ≡ cut_behind self.now.prefix }
    {
        &self.hi
    }

    pub fn raw_box(&self) -> &RawBox
        ensures { result.now ≡ prefix_box self.now.prefix self.now.since }
    {
        &self.raw_box
    }

    pub fn since(&self) -> u64
        ensures { result ≡ self.now.since }
    {
        self.raw_box.from
    }

    pub fn is_whole(&self) -> bool
        ensures { result ≡ self.now.whole }
    {
        self.hash.is_some()
    }

    /// Whether the prefix is a whole stem and the filter denies it.
    pub fn is_denied_by(&self, filter: &Filter) -> bool
        ensures exact { result ≡ not (admits_question self.now filter.now) }
        // No filter over a prefix that is a whole stem denies it.
        ensures member { (hashes : List ℕ) → filter.now ≡ filter_bytes hashes → Contains hashes (hash_of self.now.prefix) → result ≡ false }
    {
        match self.hash {
            Some(hash) => !filter.may(hash),
            None => false,
        }
    }
}

fn hash_of_whole(prefix: &[u8], whole: bool) -> Option<u64>
    ensures { result ≡ hash_if prefix.now whole }
{
    if whole { Some(stem_hash(prefix)) } else { None }
}

/// The cut right behind all keys that begin with these bytes.
fn behind_all(alloc: Global, bytes: &[u8]) -> Result<Cut, NoMemory>
    ensures { IfOk result (λ cut. cut ≡ cut_behind bytes.now) }
{
    let bytes = Octets::from_slice(alloc, bytes)?;
    Ok(Cut { bytes, after: true })
}
