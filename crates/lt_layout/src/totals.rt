ghost use Rattle.std.specs.Prelude.{◌≡◌, ◌++◌, ◌∷◌, [], List, OnOk, OnErr};
ghost use Rattle.lt_rec.specs.Record.{Record};
ghost use Rattle.lt_layout.specs.Spelling.{footer_numbers, listed_totals, totals_of};
ghost use Rattle.lt_rec.specs.Reading.{is_within};

use lt_rec::{Listed, NoMemory};
use std::marker::Model;

/// Of all records of a file: how many they are, their least and greatest timestamps in microseconds since the Unix
/// epoch, and their least and greatest numbers.
#[derive(Clone, Copy, Debug, PartialEq, Eq)]
pub struct Totals {
    pub rows: u64,
    pub low: u64,
    pub high: u64,
    pub first: u64,
    pub last: u64,
}

impl Model for Totals {
    ghost use Rattle.lt_layout.specs.Spelling.{Totals as TotalsOf};

    ghost Value = { TotalsOf };

    ghost view = { λ t. record { rows = t.rows; low = t.low; high = t.high; first = t.first; last = t.last } };

    ghost inverse = { λ v. record { rows = v.rows; low = v.low; high = v.high; first = v.first; last = v.last } };
}

impl Totals {
    /// What a listing says of its file's records.
    pub fn listed(listed: &Listed) -> Totals
        ensures { result ≡ listed_totals listed.now }
    {
        Totals {
            rows: listed.rows,
            low: listed.low,
            high: listed.high,
            first: listed.first,
            last: listed.last,
        }
    }

    /// The six numbers of a footer behind its places: these five, and that nothing is packed.
    pub(crate) fn footer_numbers(&self) -> [u64; 6]
        ensures { result ≡ footer_numbers self.now }
    {
        [self.rows, self.low, self.high, self.first, self.last, 0]
    }

    /// Of no records.
    pub(crate) fn none() -> Totals
        ensures { result ≡ totals_of [] }
    {
        Totals {
            rows: 0,
            low: 0,
            high: 0,
            first: 0,
            last: 0,
        }
    }

    /// One record more. A number that passes 2^64 is answered as want of memory, and changes nothing.
    pub(crate) fn add(&mut self, ts: u64, seq: u64) -> Result<(), NoMemory>
        ensures ok { OnOk result ((recs : List Record) (r : Record) → self.old ≡ totals_of recs → r.ts ≡ ts → r.seq ≡ seq → self.new ≡ totals_of (recs ++ r ∷ [])) }
        ensures unchanged { OnErr result (self.new ≡ self.old) }
    {
        let rows = self.rows.checked_add(1).ok_or(NoMemory)?;
        *self = if self.rows == 0 {
            Totals {
                rows,
                low: ts,
                high: ts,
                first: seq,
                last: seq,
            }
        } else {
            Totals {
                rows,
                low: self.low.min(ts),
                high: self.high.max(ts),
                first: self.first.min(seq),
                last: self.last.max(seq),
            }
        };
        Ok(())
    }

    pub(crate) fn has_time(&self, ts: u64) -> bool
        ensures { result ≡ is_within self.now.low self.now.high ts }
    {
        self.low <= ts && ts <= self.high
    }

    pub(crate) fn has_number(&self, seq: u64) -> bool
        ensures { result ≡ is_within self.now.first self.now.last seq }
    {
        self.first <= seq && seq <= self.last
    }
}
