ghost use Rattle.std.specs.Prelude.{◌≡◌, ◌↔◌, ◌%◌, IsTrue};
ghost use Rattle.lt_rec.specs.Periods.{IsPeriod, InPeriod, is_period_len};

use std::marker::Model;

/// Four hours, a day or a week, from a multiple of its length on, in microseconds since the Unix epoch.
#[derive(Clone, Copy, Debug, PartialEq, Eq)]
pub struct Period {
    start: u64,
    len: u64,
}

impl Model for Period {
    ghost use Rattle.lt_rec.specs.Periods.{Stretch, IsPeriod};

    ghost Value = { Stretch };

    ghost view = { λ p. record { start = p.start; len = p.len } };

    ghost invariant = { λ p. IsPeriod (record { start = p.start; len = p.len }) };

    ghost inverse = { λ v. record { start = v.start; len = v.len } };
}

impl Period {
    pub const FOUR_HOURS: u64 = 14_400_000_000;

    pub const DAY: u64 = 86_400_000_000;

    pub const WEEK: u64 = 604_800_000_000;

    /// Whether periods may be that long.
    pub fn is_len(len: u64) -> bool
        ensures exact { result ≡ is_period_len len }
    {
        len == Period::FOUR_HOURS || len == Period::DAY || len == Period::WEEK
    }

    pub fn new(start: u64, len: u64) -> Period
        requires length { IsTrue (is_period_len len) }
        requires aligned { start % len ≡ 0 }
        ensures parts { result ≡ record { start = start; len = len } }
        ensures lawful { IsPeriod result }
    {
        Period { start, len }
    }

    pub fn start(&self) -> u64
        ensures value { result ≡ self.now.start }
        ensures lawful { IsPeriod self.now }
    {
        self.start
    }

    pub fn len(&self) -> u64
        ensures value { result ≡ self.now.len }
        ensures lawful { IsPeriod self.now }
    {
        self.len
    }

    /// Whether the moment lies in the period.
    pub fn has(&self, ts: u64) -> bool
        ensures exact { IsTrue result ↔ InPeriod self.now ts }
    {
        self.start <= ts && ts - self.start < self.len
    }
}
