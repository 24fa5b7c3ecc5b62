use lt_schema::{Row, Value};
use std::marker::Model;

/// A row with its number, and the version of the schema that it was written under.
#[derive(Debug, Drop)]
pub struct NumberedRow {
    seq: u64,
    ver: u32,
    row: Row,
}

impl Model for NumberedRow {
    ghost use Rattle.lt_model.specs.History.{Numbered};

    ghost Value = { Numbered };

    ghost view = { λ s. record { seq = s.seq; ver = s.ver; row = s.row } };
}

impl NumberedRow {
    ghost use Rattle.std.specs.Prelude.{◌≡◌, ◌<◌, ◌^◌};

    pub fn new(seq: u64, ver: u32, row: Row) -> NumberedRow
        ensures { result ≡ record { seq = seq; ver = ver; row = row } }
    {
        NumberedRow { seq, ver, row }
    }

    pub fn seq(&self) -> u64
        ensures { result ≡ self.now.seq }
    {
        self.seq
    }

    pub fn ver(&self) -> u32
        ensures { result ≡ self.now.ver }
    {
        self.ver
    }

    pub fn row(&self) -> &Row
        ensures { result.now ≡ self.now.row }
    {
        &self.row
    }

    pub fn values(&self) -> &[Value]
        ensures { result.now ≡ self.now.row }
    {
        self.row.as_slice()
    }
}
