use crate::Tablets;
use lt_rec::Listed;
use lt_schema::Schemas;
use std::alloc::AllocError;
use std::marker::Model;

/// What a descriptor says of a table. Rows numbered below `kept` are in the tablets' files, rows older than `low` are gone,
/// a time to live is in microseconds, and files from `next_file` on are free. The tablets rise by least timestamp, and then
/// by file.
#[derive(Debug, Drop)]
pub struct Stone {
    kept: u64,
    low: u64,
    ttl: Option<u64>,
    next_file: u64,
    schemas: Schemas,
    tablets: Tablets,
}

impl Model for Stone {
    ghost use Rattle.lt_desc.specs.Shape.{StoneShape};
    ghost use Rattle.lt_desc.specs.Lawful.{IsStone};

    ghost Value = { StoneShape };

    ghost view = { λ s. record { kept = s.kept; low = s.low; ttl = s.ttl; next_file = s.next_file; schemas = s.schemas; tablets = s.tablets } };

    ghost invariant = { λ s. IsStone (record { kept = s.kept; low = s.low; ttl = s.ttl; next_file = s.next_file; schemas = s.schemas; tablets = s.tablets }) };
}

impl Stone {
    ghost use Rattle.std.specs.Prelude.{◌≡◌};
    ghost use Rattle.lt_desc.specs.Lawful.{IsStone, lists_file};

    /// Numbers of rows and files, and moments, are below it; a bound of them is at most it.
    pub const MOST: u64 = 1 << 62;

    /// The stone of these parts. Takes no memory.
    pub fn new(
        kept: u64,
        low: u64,
        ttl: Option<u64>,
        next_file: u64,
        schemas: Schemas,
        tablets: Tablets,
    ) -> Stone
        requires lawful { IsStone (record { kept = kept; low = low; ttl = ttl; next_file = next_file; schemas = schemas; tablets = tablets }) }
        ensures parts { result ≡ record { kept = kept; low = low; ttl = ttl; next_file = next_file; schemas = schemas; tablets = tablets } }
    {
        Stone {
            kept,
            low,
            ttl,
            next_file,
            schemas,
            tablets,
        }
    }

    /// Rows with smaller numbers are settled. Takes no memory.
    pub fn kept(&self) -> u64
        ensures value { result ≡ self.now.kept }
        ensures lawful { IsStone self.now }
    {
        self.kept
    }

    /// Rows with smaller timestamps are gone. Takes no memory.
    pub fn low(&self) -> u64
        ensures value { result ≡ self.now.low }
        ensures lawful { IsStone self.now }
    {
        self.low
    }

    /// The time to live, in microseconds. Takes no memory.
    pub fn ttl(&self) -> Option<u64>
        ensures value { result ≡ self.now.ttl }
        ensures lawful { IsStone self.now }
    {
        self.ttl
    }

    /// One above the number of the descriptor's own file; no tablet's file has it or a greater one. Takes no memory.
    pub fn next_file(&self) -> u64
        ensures value { result ≡ self.now.next_file }
        ensures lawful { IsStone self.now }
    {
        self.next_file
    }

    /// Takes no memory.
    pub fn schemas(&self) -> &Schemas
        ensures value { result.now ≡ self.now.schemas }
        ensures lawful { IsStone self.now }
    {
        &self.schemas
    }

    /// Takes no memory.
    pub fn tablets(&self) -> &[Listed]
        ensures value { result.now ≡ self.now.tablets }
        ensures lawful { IsStone self.now }
    {
        self.tablets.as_slice()
    }

    /// The list of tablets given back. Takes no memory.
    pub fn into_tablets(self) -> Tablets
        ensures value { result ≡ self.tablets }
    {
        let Stone { tablets, .. } = self;
        tablets
    }

    /// Whether one of the tablets has this file. Takes no memory.
    pub fn names(&self, file: u64) -> bool
        ensures exact { result ≡ lists_file self.now.tablets file }
    {
        self.tablets
            .as_slice()
            .iter()
            .any(|tablet| tablet.file == file)
    }
}

impl Clone for Stone {
    ghost use Rattle.std.specs.Prelude.{◌≡◌};

    ghost is_clone = { λ x y. x ≡ y };

    fn clone(&self) -> Result<Stone, AllocError> {
        Ok(Stone {
            kept: self.kept,
            low: self.low,
            ttl: self.ttl,
            next_file: self.next_file,
            schemas: self.schemas.clone()?,
            tablets: self.tablets.clone()?,
        })
    }
}
