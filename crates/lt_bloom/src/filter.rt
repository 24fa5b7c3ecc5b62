ghost use Rattle.std.specs.Prelude.{◌≡◌, ◌↔◌, ℕ, List, true, ◌*◌, ◌<◌, ◌≤◌, ◌^◌, length, IfOk, IfSome, IsSome, Contains};
ghost use Rattle.lt_bloom.specs.Filter.{bytes_for, filter_bytes, admits};

use crate::bits::{are_places_set, set_hashes};
use crate::divisor::Divisor;
use lt_rec::{NoMemory, Octets};
use std::alloc::Global;
use std::marker::Model;

/// A filter over hashes. It has eight bits a byte, and at least one byte. Contracts see its bytes.
#[derive(Debug, Drop)]
pub struct Filter {
    bytes: Octets,
    bits: Divisor,
}

impl Model for Filter {
    ghost use Rattle.std.specs.Prelude.{ℕ, List};
    ghost use Rattle.lt_bloom.specs.Filter.{HasBits};

    ghost Value = { List ℕ };

    ghost view = { λ f. f.bytes };

    ghost invariant = { λ f. HasBits f.bytes f.bits };
}

impl Filter {
    /// A filter is over no more hashes than these.
    pub const MOST_HASHES: u64 = 1 << 56;

    /// The filter over these hashes.
    pub fn of(alloc: Global, hashes: &[u64]) -> Result<Filter, NoMemory>
        requires some { 0 < length hashes.now }
        ensures exact { IfOk result (λ filter. filter ≡ filter_bytes hashes.now) }
        ensures len { IfOk result (λ filter. length filter ≡ bytes_for (length hashes.now)) }
    {
        let count = hashes.len() as u64;
        if count > Filter::MOST_HASHES {
            return Err(NoMemory);
        }
        let len = bytes_of_count(count);
        let bits = Divisor::new(8 * len);
        let mut bytes = vec![in alloc; 0; len as usize]?;
        set_hashes(&mut bytes, &bits, hashes);
        let bytes = Octets::from_vec(bytes);
        Ok(Filter { bytes, bits })
    }

    /// The filter over so many hashes that these bytes are; `None` exactly where a filter over them has another number
    /// of bytes, or where there is no hash or more than the most. Takes no memory.
    pub fn from_bytes(bytes: Octets, hashes: u64) -> Option<Filter>
        ensures right { IsSome result ↔ ((0 < hashes) × (hashes ≤ 2 ^ 56) × (length bytes ≡ bytes_for hashes)) }
        ensures same { IfSome result (λ filter. filter ≡ bytes) }
    {
        if hashes == 0
            || hashes > Filter::MOST_HASHES
            || bytes.len() as u64 != bytes_of_count(hashes)
        {
            return None;
        }
        let bits = Divisor::new(8 * bytes_of_count(hashes));
        Some(Filter { bytes, bits })
    }

    /// Whether all seven bits of a hash are set. Takes no memory.
    pub fn may(&self, hash: u64) -> bool
        ensures exact { result ≡ admits self.now hash }
        // A member is never denied.
        ensures member { (hashes : List ℕ) → self.now ≡ filter_bytes hashes → Contains hashes hash → result ≡ true }
    {
        are_places_set(self.bytes.as_slice(), &self.bits, hash)
    }

    pub fn as_slice(&self) -> &[u8]
        ensures { result.now ≡ self.now }
    {
        self.bytes.as_slice()
    }
}

/// How many bytes a filter over so many hashes has: ten bits a hash, rounded up to whole bytes.
fn bytes_of_count(hashes: u64) -> u64
    requires { hashes ≤ 2 ^ 56 }
    ensures { result ≡ bytes_for hashes }
{
    (10 * hashes + 7) / 8
}
