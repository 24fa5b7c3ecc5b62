ghost use Rattle.std.specs.Prelude.{◌≡◌};

use lt_rec::Listed;
use std::alloc::AllocError;
use std::marker::Model;

/// Listed tablets. Contracts see the list of them.
#[derive(Debug, Drop)]
pub struct Tablets {
    entries: Vec<Listed>,
}

impl Model for Tablets {
    ghost use Rattle.std.specs.Prelude.{List};
    ghost use Rattle.lt_rec.specs.declared.listed.Listed.{Listed as Tablet};

    ghost Value = { List Tablet };

    ghost view = { λ t. t.entries.items };
}

impl Tablets {
    /// The same entries. Takes no memory.
    pub fn from_vec(entries: Vec<Listed>) -> Tablets
        ensures { result ≡ entries.items }
    {
        Tablets { entries }
    }

    /// The entries given back. Takes no memory.
    pub fn into_vec(self) -> Vec<Listed>
        ensures { result.items ≡ self }
    {
        let Tablets { entries } = self;
        entries
    }

    pub fn as_slice(&self) -> &[Listed]
        ensures { result.now ≡ self.now }
    {
        self.entries.as_slice()
    }
}

impl Clone for Tablets {
    ghost is_clone = { λ x y. x ≡ y };

    fn clone(&self) -> Result<Tablets, AllocError> {
        let entries = Vec::from_slice(*self.entries.allocator(), self.entries.as_slice())?;
        Ok(Tablets { entries })
    }
}
