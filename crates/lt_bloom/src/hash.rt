ghost use Rattle.std.specs.Prelude.{◌≡◌};
ghost use Rattle.lt_bloom.specs.Hash.{hash_of};

const BASIS: u64 = 0xcbf2_9ce4_8422_2325;

const PRIME: u64 = 0x0100_0000_01b3;

/// FNV-1a with 64 bits. Takes no memory.
pub fn stem_hash(stem: &[u8]) -> u64
    ensures exact { result ≡ hash_of stem.now }
{
    stem.iter().fold(
        BASIS,
        |hash, byte| (hash ^ u64::from(*byte)).wrapping_mul(PRIME),
    )
}
