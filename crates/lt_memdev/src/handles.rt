use crate::content::Content;
use std::marker::Model;

/// A number that a directory in memory lent. Contracts see the number.
#[derive(Debug, Drop)]
pub struct MemLent {
    pub(crate) number: u64,
}

impl Model for MemLent {
    ghost use Rattle.std.specs.Prelude.{ℕ};

    ghost Value = { ℕ };

    ghost view = { λ l. l.number };
}

/// A file in memory that is being written. Contracts see its number and its bytes so far.
#[derive(Debug, Drop)]
pub struct MemPen {
    pub(crate) number: u64,
    pub(crate) bytes: Vec<u8>,
}

impl Model for MemPen {
    ghost use Rattle.lt_memdev.specs.Written.{Written};

    ghost Value = { Written };

    ghost view = { λ p. record { number = p.number; bytes = p.bytes.items } };
}

/// A sealed file in memory. Contracts see its number and its bytes.
#[derive(Debug, Drop)]
pub struct MemReader {
    pub(crate) number: u64,
    pub(crate) bytes: Content,
}

impl Model for MemReader {
    ghost use Rattle.lt_memdev.specs.Written.{Written};

    ghost Value = { Written };

    ghost view = { λ r. record { number = r.number; bytes = r.bytes } };
}
