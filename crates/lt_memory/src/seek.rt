ghost use Rattle.std.specs.Prelude.{◌≡◌, ◌<◌, true, false, IfSome, IfNone, Contains, length, slice_index_or};
ghost use Rattle.lt_state.specs.State.{Filled};
ghost use Rattle.lt_memory.specs.Tablets.{HaveTime, IsKeyHeld, NoneBeside, NoneHasKey};
ghost use Rattle.lt_memory.specs.Inserting.{takes};

use crate::held::Held;
use lt_rec::{Period, Rec};

/// Some record of this key and timestamp in some tablet but the one at the place.
pub fn find_beside<'a>(tablets: &'a [Held], place: usize, key: &[u8], ts: u64) -> Option<&'a Rec>
    requires timed { HaveTime tablets.now key.now ts }
    ensures found { IfSome result (λ rec. IsKeyHeld tablets.now key.now rec.now) }
    ensures none { IfNone result (NoneBeside tablets.now place key.now) }
{
    for (at, tablet) in tablets.iter().enumerate() {
        if at == place {
            continue;
        }
        if let Some(rec) = tablet.get(key, ts) {
            return Some(rec);
        }
    }
    None
}

/// Some record of this key and timestamp in some tablet.
pub fn find<'a>(tablets: &'a [Held], key: &[u8], ts: u64) -> Option<&'a Rec>
    requires timed { HaveTime tablets.now key.now ts }
    ensures found { IfSome result (λ rec. IsKeyHeld tablets.now key.now rec.now) }
    ensures none { IfNone result (NoneHasKey tablets.now key.now) }
{
    find_beside(tablets, tablets.len(), key, ts)
}

/// Where the first tablet stands that takes rows of the period and has room for so many bytes more.
pub fn place_for(tablets: &[Held], period: Period, len: usize) -> Option<usize>
    ensures found { IfSome result (λ place. (place < length tablets.now) × ((d : Filled) → takes period len (slice_index_or tablets.now place d) ≡ true)) }
    ensures none { IfNone result ((tablet : Filled) → Contains tablets.now tablet → takes period len tablet ≡ false) }
{
    tablets
        .iter()
        .position(|tablet| tablet.is_open(period) && tablet.has_room(len))
}
