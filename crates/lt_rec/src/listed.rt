use crate::Period;
use std::marker::Model;

/// The number of a tablet in memory. Contracts see the number.
#[derive(Clone, Copy, Debug, PartialEq, Eq, PartialOrd, Ord)]
pub struct TabletId(pub u64);

impl Model for TabletId {
    ghost use Rattle.std.specs.Prelude.{ℕ};

    ghost Value = { ℕ };

    ghost view = { λ t. t.0 };

    ghost inverse = { λ n. record { 0 = n } };
}

/// A tablet's entry in the list of tablets: its file's number, how many rows and bytes it has, its least and greatest
/// timestamps, a period that has them, and its rows' least and greatest numbers.
#[derive(Clone, Copy, Debug, PartialEq, Eq)]
pub struct Listed {
    pub file: u64,
    pub rows: u64,
    pub bytes: u64,
    pub low: u64,
    pub high: u64,
    pub period: Period,
    pub first: u64,
    pub last: u64,
}
