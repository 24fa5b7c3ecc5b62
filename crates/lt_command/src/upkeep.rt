use lt_rec::Listed;
use std::marker::Model;

/// How a merge of tablets ended.
#[derive(Clone, Copy, Debug, PartialEq, Eq)]
pub enum MergeEnd {
    /// This file has what is left of its inputs, and stands in their place.
    Merged { file: u64 },
    /// Nothing was left of its inputs, which left the list.
    Emptied,
    /// This input, the first in the run's order, was no longer listed, and nothing changed.
    Gone { file: u64 },
}

/// Entries of the list of tablets, in its order. Contracts see the list of them.
#[derive(Debug, Drop)]
pub struct Listing {
    entries: Vec<Listed>,
}

impl Model for Listing {
    ghost use Rattle.std.specs.Prelude.{List};
    ghost use Rattle.lt_rec.specs.declared.listed.Listed.{Listed as Tablet};

    ghost Value = { List Tablet };

    ghost view = { λ l. l.entries.items };
}

impl Listing {
    ghost use Rattle.std.specs.Prelude.{◌≡◌};

    /// The same entries. Takes no memory.
    pub fn from_vec(entries: Vec<Listed>) -> Listing
        ensures { result ≡ entries.items }
    {
        Listing { entries }
    }

    /// The entries given back. Takes no memory.
    pub fn into_vec(self) -> Vec<Listed>
        ensures { result.items ≡ self }
    {
        let Listing { entries } = self;
        entries
    }

    pub fn as_slice(&self) -> &[Listed]
        ensures { result.now ≡ self.now }
    {
        self.entries.as_slice()
    }
}
