ghost use Rattle.std.specs.Prelude.{◌≡◌, ◌<◌, [], ◌∷◌, ◌++◌, true, false, OnOk, OnErr, IfOk, IfErr, Contains, length, map, slice_index_or};
ghost use Rattle.lt_rec.specs.Periods.{InPeriod, Stretch};
ghost use Rattle.lt_rec.specs.Record.{IsRecord, stored_len};
ghost use Rattle.lt_period.specs.Moments.{period_at};
ghost use Rattle.lt_state.specs.State.{Filled};
ghost use Rattle.lt_memory.specs.Tablets.{HaveTime, NoneHasKey, SaysOfKey};
ghost use Rattle.lt_memory.specs.Inserting.{Began, Grew, Took, filled_up, has_room, is_open, takes};

use crate::held::Held;
use crate::seek::{find, find_beside, place_for};
use lt_mem::AddError;
use lt_period::period_of;
use lt_rec::{Period, Rec, TabletId};

/// Adds the record to the tablet at the place, which takes rows and has room.
fn grow(tablets: &mut Vec<Held>, place: usize, rec: Rec) -> Result<TabletId, AddError>
    requires held { place < length tablets.old.items }
    requires room { (d : Filled) → has_room (stored_len rec) (slice_index_or tablets.old.items place d) ≡ true }
    requires timed { HaveTime tablets.old.items rec.key rec.ts }
    ensures ok { IfOk result (λ id. (period : Stretch) → ((d : Filled) → is_open period (slice_index_or tablets.old.items place d) ≡ true) → Grew tablets.old.items tablets.new.items period id rec) }
    ensures distinct { OnOk result (NoneHasKey tablets.old.items rec.key) }
    ensures cause { IfErr result (SaysOfKey tablets.old.items rec.key) }
    ensures unchanged { OnErr result (tablets.new.items ≡ tablets.old.items) }
{
    if let Some(other) = find_beside(tablets.as_slice(), place, rec.key(), rec.ts()) {
        return Err(AddError::Present { seq: other.seq() });
    }
    let tablet = &mut tablets[place];
    match tablet.add(rec) {
        Ok(()) => Ok(tablet.id()),
        Err(refused) => Err(refused),
    }
}

/// Those that take rows of the period take no more, for their size.
fn fill_up(tablets: &mut [Held], period: Period)
    ensures { tablets.new ≡ map (filled_up period) tablets.old }
{
    for tablet in tablets.iter_mut() {
        tablet.fill_up(period);
    }
}

/// Puts the tablet behind the others. Those of them that took rows of the period are full.
fn put_behind(tablets: &mut Vec<Held>, period: Period, tablet: Held) -> Result<(), AddError>
    ensures ok { OnOk result (tablets.new.items ≡ map (filled_up period) tablets.old.items ++ tablet ∷ []) }
    ensures unchanged { OnErr result (tablets.new.items ≡ tablets.old.items) }
    ensures cause { IfErr result (λ refused. refused ≡ AddError.NoMemory) }
{
    let count = tablets.len();
    if tablets.push(tablet).is_err() {
        return Err(AddError::NoMemory);
    }
    let (older, _) = tablets.as_mut_slice().split_at_mut(count);
    fill_up(older, period);
    Ok(())
}

/// Begins a tablet with the record, since none that takes rows of the period has room for it.
fn begin(
    tablets: &mut Vec<Held>,
    id: TabletId,
    period: Period,
    rec: Rec,
    now: u64,
) -> Result<TabletId, AddError>
    requires full { (tablet : Filled) → Contains tablets.old.items tablet → takes period (stored_len rec) tablet ≡ false }
    requires lawful { IsRecord rec }
    requires timed { HaveTime tablets.old.items rec.key rec.ts }
    ensures number { IfOk result (λ number. number ≡ id) }
    ensures ok { OnOk result (Began tablets.old.items tablets.new.items period id rec now) }
    ensures distinct { OnOk result (NoneHasKey tablets.old.items rec.key) }
    ensures cause { IfErr result (SaysOfKey tablets.old.items rec.key) }
    ensures unchanged { OnErr result (tablets.new.items ≡ tablets.old.items) }
{
    if let Some(other) = find(tablets.as_slice(), rec.key(), rec.ts()) {
        return Err(AddError::Present { seq: other.seq() });
    }
    let Ok(tablet) = Held::begin(*tablets.allocator(), id, period, rec, now) else {
        return Err(AddError::NoMemory);
    };
    put_behind(tablets, period, tablet)?;
    Ok(id)
}

/// The record goes to a tablet of its timestamp's period at the moment: to one that takes rows and has room for it, or else
/// to a new one of the next number.
pub fn take(tablets: &mut Vec<Held>, next: u64, rec: Rec, now: u64) -> Result<TabletId, AddError>
    requires timed { HaveTime tablets.old.items rec.key rec.ts }
    ensures ok { IfOk result (λ id. Took tablets.old.items tablets.new.items next (period_at rec.ts now) id rec now) }
    ensures distinct { OnOk result (NoneHasKey tablets.old.items rec.key) }
    ensures cause { IfErr result (SaysOfKey tablets.old.items rec.key) }
    ensures lawful { IsRecord rec }
    ensures within { InPeriod (period_at rec.ts now) rec.ts }
    ensures unchanged { OnErr result (tablets.new.items ≡ tablets.old.items) }
{
    let period = period_of(rec.ts(), now);
    match place_for(tablets.as_slice(), period, rec.stored_len()) {
        Some(place) => grow(tablets, place, rec),
        None => begin(tablets, TabletId(next), period, rec, now),
    }
}
