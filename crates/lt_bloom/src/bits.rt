// Bits in a run of bytes: bit p is the bit of value 2^(p mod 8) in byte p / 8.

ghost use Rattle.std.specs.Prelude.{◌≡◌, ◌==◌, ◌||◌, ℕ, ◌*◌, ◌<◌, length, replicate};
ghost use Rattle.lt_bloom.specs.Filter.{is_set, stride_of, place, is_place, admits, bytes_for, filter_bytes};

use crate::divisor::Divisor;

/// What lies between two probes of a hash.
fn stride_of(hash: u64) -> u64
    ensures { result ≡ stride_of hash }
{
    hash.rotate_left(32) | 1
}

/// The place of the `i`-th probe of a hash in a filter of so many bits.
fn place_of(bits: &Divisor, hash: u64, i: u64) -> u64
    ensures exact { result ≡ place bits.now hash i }
    ensures within { result < bits.now }
{
    bits.left_of(hash.wrapping_add(i.wrapping_mul(stride_of(hash))))
}

pub fn is_bit_set(bytes: &[u8], at: u64) -> bool
    requires { at < 8 * length bytes.now }
    ensures exact { result ≡ is_set bytes.now at }
{
    (bytes[(at / 8) as usize] >> (at % 8)) & 1 == 1
}

pub fn set_bit(bytes: &mut [u8], at: u64)
    requires { at < 8 * length bytes.old }
    ensures len { length bytes.new ≡ length bytes.old }
    ensures set { (p : ℕ) → is_set bytes.new p ≡ (is_set bytes.old p || (at == p)) }
{
    bytes[(at / 8) as usize] |= 1 << (at % 8);
}

/// Sets the seven bits of a hash.
fn set_places(bytes: &mut [u8], bits: &Divisor, hash: u64)
    requires { bits.now ≡ 8 * length bytes.old }
    ensures len { length bytes.new ≡ length bytes.old }
    ensures set { (p : ℕ) → is_set bytes.new p ≡ (is_set bytes.old p || is_place bits.now hash p) }
{
    for i in 0..7 {
        set_bit(bytes, place_of(bits, hash, i));
    }
}

/// Whether the seven bits of a hash are set.
#[tactic(auto, unfolding(crate::specs::Filter::admits))]
pub fn are_places_set(bytes: &[u8], bits: &Divisor, hash: u64) -> bool
    requires { bits.now ≡ 8 * length bytes.now }
    ensures exact { result ≡ admits bytes.now hash }
{
    (0..7).all(|i| is_bit_set(bytes, place_of(bits, hash, i)))
}

/// Sets the bits of all hashes in bytes of which none is set.
pub fn set_hashes(bytes: &mut [u8], bits: &Divisor, hashes: &[u64])
    requires clear { bytes.old ≡ replicate (bytes_for (length hashes.now)) 0 }
    requires bits { bits.now ≡ 8 * length bytes.old }
    ensures len { length bytes.new ≡ length bytes.old }
    ensures exact { bytes.new ≡ filter_bytes hashes.now }
{
    for hash in hashes {
        set_places(bytes, bits, *hash);
    }
}
