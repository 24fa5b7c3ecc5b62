ghost use Rattle.std.specs.Prelude.{◌≡◌};
ghost use Rattle.lt_rec.specs.Boxes.{meets_lo, meets_hi, admits, in_box};

use crate::{Cut, Rec};

/// A box of keys and times: keys from `lo` on and below `hi`, where they are given, and timestamps from `from` to `to`,
/// both included, in microseconds since the Unix epoch.
#[derive(Debug, Drop, PartialEq, Eq)]
pub struct RawBox {
    pub lo: Option<Cut>,
    pub hi: Option<Cut>,
    pub from: u64,
    pub to: u64,
}

impl RawBox {
    /// Whether the lower bound, if any, isn't above the key's place. Takes no memory.
    pub fn meets_lo(&self, key: &[u8]) -> bool
        ensures exact { result ≡ meets_lo self.now.lo key.now }
    {
        match &self.lo {
            Some(lo) => !lo.below(key),
            None => true,
        }
    }

    /// Whether the upper bound, if any, is above the key's place. Takes no memory.
    pub fn meets_hi(&self, key: &[u8]) -> bool
        ensures exact { result ≡ meets_hi self.now.hi key.now }
    {
        match &self.hi {
            Some(hi) => hi.below(key),
            None => true,
        }
    }

    /// Whether a record of that key and timestamp is in the box. Takes no memory.
    pub fn admits(&self, key: &[u8], ts: u64) -> bool
        ensures exact { result ≡ admits self.now key.now ts }
    {
        self.from <= ts && ts <= self.to && self.meets_lo(key) && self.meets_hi(key)
    }

    /// Whether the record is in the box. Takes no memory.
    pub fn has(&self, rec: &Rec) -> bool
        ensures exact { result ≡ in_box self.now rec.now }
    {
        self.admits(rec.key(), rec.ts())
    }
}
