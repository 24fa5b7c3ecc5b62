ghost use Rattle.std.specs.Prelude.{◌≡◌, ◌≢◌, ℕ, ◌+◌, ◌<◌, ◌≤◌, Bool, true, IfSome, IfNone, IfOk, length, slice_index, drop};
ghost use Rattle.std.specs.List.{prefix_len};
ghost use Rattle.std.specs.List.Sorted.{IsPermutation, IsStrictlyIncreasing};
ghost use Rattle.std.specs.Vec.{vec_capacity, vec_len};
ghost use Rattle.lt_rec.specs.Closure.{has};
ghost use Rattle.lt_deps.specs.Kept.{AreDistinct, AreUpTo};

use lt_rec::{NoMemory, TabletId};
use std::alloc::Global;

/// Where the tablet stands, if it is as far from the first one as its number: so tablets do whose numbers were handed out
/// one after the other.
fn in_turn(tablets: &[TabletId], tablet: TabletId) -> Option<usize>
    ensures { IfSome result (λ place. (place < length tablets.now) × (slice_index tablets.now place ≡ tablet)) }
{
    let first = tablets.first()?;
    let place = tablet.0.checked_sub(first.0)? as usize;
    let held = tablets.get(place)?;
    if held.0 == tablet.0 {
        Some(place)
    } else {
        None
    }
}

/// Where the tablet stands, in whatever order.
fn anywhere(tablets: &[TabletId], tablet: TabletId) -> Option<usize>
    ensures found { IfSome result (λ place. (place < length tablets.now) × (slice_index tablets.now place ≡ tablet)) }
    ensures none { IfNone result ((k : ℕ) → k < length tablets.now → slice_index tablets.now k ≢ tablet) }
{
    for (place, held) in tablets.iter().enumerate() {
        if held.0 == tablet.0 {
            return Some(place);
        }
    }
    None
}

/// Where the tablet stands. Tablets whose numbers were handed out one after the other, and a number above all, take no
/// search.
pub fn place_of(tablets: &[TabletId], greatest: u64, tablet: TabletId) -> Option<usize>
    requires bounded { AreUpTo tablets.now greatest }
    ensures found { IfSome result (λ place. (place < length tablets.now) × (slice_index tablets.now place ≡ tablet)) }
    ensures none { IfNone result ((k : ℕ) → k < length tablets.now → slice_index tablets.now k ≢ tablet) }
{
    if tablet.0 > greatest {
        return None;
    }
    match in_turn(tablets, tablet) {
        Some(place) => Some(place),
        None => anywhere(tablets, tablet),
    }
}

/// Whether the tablet is one of these.
pub fn holds(set: &[TabletId], tablet: TabletId) -> bool
    ensures { result ≡ has set.now tablet }
{
    match in_turn(set, tablet) {
        Some(_) => true,
        None => set.iter().any(|held| held.0 == tablet.0),
    }
}

/// How many of the tablets, from the first on, are in the set.
pub fn front_in(tablets: &[TabletId], set: &[TabletId]) -> usize
    ensures exact { result ≡ prefix_len (λ tablet. has set.now tablet) tablets.now }
    ensures within { result ≤ length tablets.now }
{
    tablets
        .iter()
        .take_while(|tablet| holds(set, **tablet))
        .count()
}

/// The end of the least front that has `place` and, with each place, all places up to the one that it reaches.
pub fn front_of(ahead: &[usize], place: usize) -> usize
    requires held { place < length ahead.now }
    requires within { (j : ℕ) → j < length ahead.now → j + slice_index ahead.now j < length ahead.now }
    ensures within { result ≤ length ahead.now }
    ensures holds { place < result }
    ensures closed { (j : ℕ) → j < result → j + slice_index ahead.now j < result }
    ensures least { (p : ℕ → Bool) → ((i : ℕ) → i ≤ place → p i ≡ true) → ((i j : ℕ) → j < length ahead.now → p j ≡ true → i ≤ j + slice_index ahead.now j → p i ≡ true) → (i : ℕ) → i < result → p i ≡ true }
{
    let mut end = place + 1;
    let mut seen = 0;
    while seen < end {
        end = end.max(seen + ahead[seen] + 1);
        seen += 1;
    }
    end
}

/// Leaves the first elements out. Takes no memory.
pub fn leave_front<T: Drop>(items: &mut Vec<T>, count: usize)
    requires { count ≤ length items.old.items }
    ensures items { items.new.items ≡ drop count items.old.items }
    ensures capacity { vec_capacity items.new ≡ vec_capacity items.old }
{
    let left = items.as_slice().len() - count;
    items.rotate_left(count);
    items.truncate(left);
}

fn rises(tablets: &[TabletId]) -> bool
    ensures { result ≡ true → IsStrictlyIncreasing tablets.now }
{
    for next in 1..tablets.len() {
        let before = tablets[next - 1];
        let here = tablets[next];
        if here.0 <= before.0 {
            return false;
        }
    }
    true
}

/// These tablets, rising where they all differ. Those that rise already are not sorted.
pub fn rising(alloc: Global, tablets: &[TabletId]) -> Result<Vec<TabletId>, NoMemory>
    ensures same { IfOk result (λ found. IsPermutation tablets.now found.items) }
    ensures rising { IfOk result (λ found. AreDistinct tablets.now → IsStrictlyIncreasing found.items) }
{
    let mut found = Vec::from_slice(alloc, tablets)?;
    if rises(tablets) {
        return Ok(found);
    }
    found.sort()?;
    Ok(found)
}
