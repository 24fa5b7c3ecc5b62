ghost use Rattle.std.specs.Prelude.{◌≡◌, List, [], ◌∷◌, ◌++◌, IfOk};
ghost use Rattle.std.specs.Arc.{arc_value};
ghost use Rattle.lt_state.specs.State.{Filled};
ghost use Rattle.lt_memory.specs.Sharing.{TopOf, frozen_among, greater_of, left_by, shares_among};

use crate::going::holds;
use crate::held::Held;
use lt_mem::MemTablet;
use lt_rec::{NoMemory, Period, TabletId};
use std::alloc::Global;
use std::marker::Model;
use std::sync::Arc;

/// A tablet that goes out: its number, its records and their period. Contracts see these.
#[derive(Drop)]
pub struct FrozenPart {
    tablet: TabletId,
    recs: Arc<MemTablet>,
    period: Period,
}

impl Model for FrozenPart {
    ghost use Rattle.std.specs.Arc.{arc_value};
    ghost use Rattle.lt_memory.specs.Sharing.{Share};

    ghost Value = { Share };

    ghost view = { λ p. record { tablet = p.tablet; period = p.period; recs = arc_value p.recs } };
}

impl FrozenPart {
    pub fn new(tablet: TabletId, recs: Arc<MemTablet>, period: Period) -> FrozenPart
        ensures { result ≡ record { tablet = tablet; period = period; recs = arc_value recs } }
    {
        FrozenPart {
            tablet,
            recs,
            period,
        }
    }

    /// The tablet, its records and their period.
    pub fn into_parts(self) -> (TabletId, Arc<MemTablet>, Period)
        ensures tablet { result.0 ≡ self.tablet }
        ensures recs { arc_value result.1 ≡ self.recs }
        ensures period { result.2 ≡ self.period }
    {
        let FrozenPart {
            tablet,
            recs,
            period,
        } = self;
        (tablet, recs, period)
    }
}

/// The shares of these tablets.
pub fn share_all(
    alloc: Global,
    tablets: &[Held],
    parts: &[TabletId],
) -> Result<Vec<FrozenPart>, NoMemory>
    ensures { IfOk result (λ shares. shares.items ≡ shares_among parts.now tablets.now) }
{
    let mut shares = Vec::new(alloc);
    for tablet in tablets {
        if holds(parts, tablet.id()) {
            shares.push(tablet.share()?)?;
        }
    }
    Ok(shares)
}

fn mark(tablets: &mut [Held], parts: &[TabletId])
    ensures { tablets.new ≡ frozen_among parts.now tablets.old }
{
    for tablet in tablets.iter_mut() {
        tablet.freeze(parts);
    }
}

/// These tablets take no more rows.
pub fn freeze_all(tablets: &mut Vec<Held>, parts: &[TabletId])
    ensures { tablets.new.items ≡ frozen_among parts.now tablets.old.items }
{
    mark(tablets.as_mut_slice(), parts);
}

/// The greatest number of a record in these tablets.
pub fn top_of(tablets: &[Held], parts: &[TabletId]) -> Option<u64>
    ensures { TopOf tablets.now parts.now result }
{
    let mut top = None;
    for tablet in tablets {
        top = top_with(top, tablet, parts);
    }
    top
}

/// The greatest number, with one tablet more.
fn top_with(top: Option<u64>, tablet: &Held, parts: &[TabletId]) -> Option<u64>
    ensures { (tablets : List Filled) → TopOf tablets parts.now top → TopOf (tablets ++ tablet.now ∷ []) parts.now result }
{
    if !holds(parts, tablet.id()) {
        return top;
    }
    greater(top, tablet.last())
}

fn greater(one: Option<u64>, other: Option<u64>) -> Option<u64>
    ensures { result ≡ greater_of one other }
{
    match (one, other) {
        (Some(a), Some(b)) => Some(a.max(b)),
        (Some(a), None) => Some(a),
        (None, other) => other,
    }
}

/// Leaves these tablets out. Takes no memory.
pub fn leave_out(tablets: &mut Vec<Held>, parts: &[TabletId])
    ensures { tablets.new.items ≡ left_by parts.now tablets.old.items }
{
    tablets.retain(|tablet| !holds(parts, tablet.id()));
}
