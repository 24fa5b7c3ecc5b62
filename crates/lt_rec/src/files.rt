ghost use Rattle.std.specs.Prelude.{◌≡◌, ℕ, List, length, nat_eq};
ghost use Rattle.std.specs.Ordering.{nat_cmp};
ghost use Rattle.std.specs.Cmp.Lexicographic.{pointwise, nat_list_eq_equiv};
ghost use Rattle.std.specs.Cmp as Cmp;

use std::alloc::AllocError;
use std::marker::Model;

/// Numbers of files. Contracts see the list of them.
#[derive(Debug, Drop)]
pub struct Files {
    numbers: Vec<u64>,
}

impl Model for Files {
    ghost Value = { List ℕ };

    ghost view = { λ f. f.numbers.items };
}

impl Files {
    /// The same numbers. Takes no memory.
    pub fn from_vec(numbers: Vec<u64>) -> Files
        ensures { result ≡ numbers.items }
    {
        Files { numbers }
    }

    /// The numbers given back. Takes no memory.
    pub fn into_vec(self) -> Vec<u64>
        ensures { result.items ≡ self }
    {
        let Files { numbers } = self;
        numbers
    }

    pub fn as_slice(&self) -> &[u64]
        ensures { result.now ≡ self.now }
    {
        self.numbers.as_slice()
    }

    pub fn len(&self) -> usize
        ensures { result ≡ length self.now }
    {
        self.numbers.as_slice().len()
    }

    pub fn is_empty(&self) -> bool
        ensures { result ≡ nat_eq (length self.now) 0 }
    {
        self.numbers.as_slice().is_empty()
    }
}

impl Clone for Files {
    ghost is_clone = { λ x y. x ≡ y };

    fn clone(&self) -> Result<Files, AllocError> {
        let numbers = Vec::from_slice(*self.numbers.allocator(), self.numbers.as_slice())?;
        Ok(Files { numbers })
    }
}

impl PartialEq for Files {
    ghost eq = { pointwise nat_eq };

    ghost laws = { Cmp.partial_equiv_from_equiv nat_list_eq_equiv };

    fn eq(&self, other: &Files) -> bool {
        self.as_slice() == other.as_slice()
    }
}

impl Eq for Files {
    ghost laws = { nat_list_eq_equiv };
}
