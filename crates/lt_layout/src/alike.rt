//! Whether two slices have the same bytes, eight of which are compared at a time.
ghost use Rattle.std.specs.Prelude.{◌≡◌, ◌-◌, ◌<◌, nat_eq, length, drop};
ghost use Rattle.std.specs.Cmp.Lexicographic.{pointwise};

/// The same bytes. Takes no memory.
#[inline(always)]
pub fn are_same(one: &[u8], other: &[u8]) -> bool
    ensures { result ≡ pointwise nat_eq one.now other.now }
{
    match (one.split_last_chunk::<8>(), other.split_last_chunk::<8>()) {
        (Some((_, end)), Some((_, other_end))) => {
            one.len() == other.len() && is_same_word(end, other_end) && are_same_before(one, other)
        }
        _ => one == other,
    }
}

/// The same eight bytes.
fn is_same_word(one: &[u8; 8], other: &[u8; 8]) -> bool
    ensures { result ≡ pointwise nat_eq one.now other.now }
{
    u64::from_be_bytes(*one) == u64::from_be_bytes(*other)
}

/// The same bytes, where the last eight are known to be, or all that there are.
fn are_same_before(one: &[u8], other: &[u8]) -> bool
    requires len { length one.now ≡ length other.now }
    requires ends { drop (length one.now - 8) one.now ≡ drop (length other.now - 8) other.now }
    ensures { result ≡ pointwise nat_eq one.now other.now }
{
    if one.len() <= 8 {
        return true;
    }
    match (one.split_first_chunk::<8>(), other.split_first_chunk::<8>()) {
        (Some((front, behind)), Some((other_front, other_behind))) => {
            is_same_word(front, other_front) && are_same_before(behind, other_behind)
        }
        _ => unreachable!(),
    }
}
