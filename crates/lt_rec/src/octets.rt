ghost use Rattle.std.specs.Prelude.{◌≡◌, ℕ, List, Some, IfOk, length, nat_eq, refl};
ghost use Rattle.std.specs.Ordering.{nat_cmp};
ghost use Rattle.std.specs.Cmp.Lexicographic.{slice_cmp, pointwise, nat_list_eq_equiv, nat_list_cmp_total, texts_po, texts_ties};
ghost use Rattle.std.specs.Cmp as Cmp;

use crate::NoMemory;
use std::alloc::{AllocError, Global};
use std::cmp::Ordering;
use std::marker::Model;

/// Bytes. Contracts see the list of them; they are ordered byte by byte, a proper prefix first.
#[derive(Debug, Drop)]
pub struct Octets {
    bytes: Vec<u8>,
}

impl Model for Octets {
    ghost Value = { List ℕ };

    ghost view = { λ o. o.bytes.items };
}

impl Octets {
    /// The same bytes. Takes no memory.
    pub fn from_vec(bytes: Vec<u8>) -> Octets
        ensures { result ≡ bytes.items }
    {
        Octets { bytes }
    }

    /// A copy of the slice.
    pub fn from_slice(alloc: Global, bytes: &[u8]) -> Result<Octets, NoMemory>
        ensures { IfOk result (λ octets. octets ≡ bytes.now) }
    {
        let bytes = Vec::from_slice(alloc, bytes)?;
        Ok(Octets { bytes })
    }

    /// The bytes given back. Takes no memory.
    pub fn into_vec(self) -> Vec<u8>
        ensures { result.items ≡ self }
    {
        let Octets { bytes } = self;
        bytes
    }

    pub fn as_slice(&self) -> &[u8]
        ensures { result.now ≡ self.now }
    {
        self.bytes.as_slice()
    }

    pub fn len(&self) -> usize
        ensures { result ≡ length self.now }
    {
        self.bytes.as_slice().len()
    }

    pub fn is_empty(&self) -> bool
        ensures { result ≡ nat_eq (length self.now) 0 }
    {
        self.bytes.as_slice().is_empty()
    }
}

impl Clone for Octets {
    ghost is_clone = { λ x y. x ≡ y };

    fn clone(&self) -> Result<Octets, AllocError> {
        let bytes = Vec::from_slice(*self.bytes.allocator(), self.bytes.as_slice())?;
        Ok(Octets { bytes })
    }
}

impl PartialEq for Octets {
    ghost eq = { pointwise nat_eq };

    ghost laws = { Cmp.partial_equiv_from_equiv nat_list_eq_equiv };

    fn eq(&self, other: &Octets) -> bool {
        self.as_slice() == other.as_slice()
    }
}

impl Eq for Octets {
    ghost laws = { nat_list_eq_equiv };
}

impl PartialOrd for Octets {
    ghost partial_cmp = { λ x y. Some (slice_cmp nat_cmp x y) };

    ghost laws = { texts_po };

    fn partial_cmp(&self, other: &Octets) -> Option<Ordering> {
        Some(self.cmp(other))
    }
}

impl Ord for Octets {
    ghost cmp = { slice_cmp nat_cmp };

    ghost total = { nat_list_cmp_total };

    ghost matches_partial_cmp = { λ x y. refl };

    ghost matches_eq = { texts_ties };

    fn cmp(&self, other: &Octets) -> Ordering {
        self.as_slice().cmp(other.as_slice())
    }
}
