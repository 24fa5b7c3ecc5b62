ghost use Rattle.std.specs.Prelude.{◌≡◌, ℕ, ◌<◌, ◌≤◌, true, IfOk, IfErr, length, slice_index_or};
ghost use Rattle.std.specs.Ordering.{MatchOrdering};
ghost use Rattle.lt_kway.specs.Heads.{is_before, AreRanked};
ghost use Rattle.lt_kway.specs.declared.head.Head.{Head as HeadOf};

use crate::slots::Slots;
use std::cmp::Ordering;

/// `Less` where the key is read before the one that is held, and `Greater` where it is read after it.
fn order(held: &[u8], key: &[u8], down: bool) -> Ordering
    ensures { MatchOrdering result (is_before down key.now held.now ≡ true) (held.now ≡ key.now) (is_before down held.now key.now ≡ true) }
{
    if down { held.cmp(key) } else { key.cmp(held) }
}

/// Where the head of this key stands, or else where it would.
pub fn place_of(heads: &Slots, key: &[u8], down: bool) -> Result<usize, usize>
    requires ranked { AreRanked down heads.now }
    ensures found { IfOk result (λ place. (place < length heads.now) × ((d : HeadOf) → (slice_index_or heads.now place d).rec.key ≡ key.now)) }
    ensures within { IfErr result (λ place. place ≤ length heads.now) }
    ensures later { IfErr result (λ place. (k : ℕ) (d : HeadOf) → k < place → is_before down key.now (slice_index_or heads.now k d).rec.key ≡ true) }
    ensures earlier { IfErr result (λ place. (k : ℕ) (d : HeadOf) → place ≤ k → k < length heads.now → is_before down (slice_index_or heads.now k d).rec.key key.now ≡ true) }
{
    let mut low = 0;
    let mut high = heads.len();
    while low < high {
        let mid = low + (high - low) / 2;
        let held = heads.get(mid);
        match order(held.rec.key(), key, down) {
            Ordering::Less => low = mid + 1,
            Ordering::Equal => return Ok(mid),
            Ordering::Greater => high = mid,
        }
    }
    Err(low)
}
