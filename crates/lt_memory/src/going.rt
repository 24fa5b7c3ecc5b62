ghost use Rattle.std.specs.Prelude.{◌≡◌, ℕ, List, [], ◌∷◌, true, OnOk, IfOk, IfErr, filter};
ghost use Rattle.std.specs.List.Sorted.{IsStrictlyIncreasing};
ghost use Rattle.lt_rec.specs.Closure.{has, IsClosed};
ghost use Rattle.lt_deps.specs.Kept.{StandsFor};
ghost use Rattle.lt_memory.specs.Going.{IsCause, named};
ghost use Rattle.lt_memory.specs.Waiting.{HasAll, is_due, numbers_of};

use crate::held::Held;
use lt_deps::Deps;
use lt_rec::{NoMemory, TabletId};
use std::alloc::Global;

/// Which tablets are to go out.
#[derive(Clone, Copy, Debug)]
pub enum FreezeWhat {
    /// All tablets in memory.
    All,
    /// Those that must go out with this one.
    One(TabletId),
    /// Those that must go out with the ones that are full, or whose first row came at least ten minutes before the moment,
    /// in microseconds since the Unix epoch.
    Due { now: u64 },
}

/// Why no tablets were named.
#[derive(Clone, Copy, Debug)]
pub enum FreezeRefusal {
    /// No tablet in memory has the number.
    NoTablet { id: u64 },
    NoMemory,
}

impl From<NoMemory> for FreezeRefusal {
    ghost use Rattle.std.specs.Prelude.{◌≡◌};
    ghost use Rattle.lt_memory.specs.declared.going.FreezeRefusal.TheVariants.{NoMemory as WantOfMemory};

    ghost from_gives = { λ _ e. e ≡ WantOfMemory };

    fn from(_refused: NoMemory) -> FreezeRefusal {
        FreezeRefusal::NoMemory
    }
}

/// Whether the number is one of these.
pub fn holds(set: &[TabletId], id: TabletId) -> bool
    ensures { result ≡ has set.now id }
{
    set.iter().any(|held| held.0 == id.0)
}

fn numbers(alloc: Global, tablets: &[Held]) -> Result<Vec<TabletId>, NoMemory>
    ensures { IfOk result (λ ids. ids.items ≡ numbers_of tablets.now) }
{
    Ok(tablets.iter().map(|tablet| tablet.id()).collect(alloc)?)
}

fn due(alloc: Global, tablets: &[Held], now: u64) -> Result<Vec<TabletId>, NoMemory>
    ensures { IfOk result (λ ids. ids.items ≡ numbers_of (filter (is_due now) tablets.now)) }
{
    Ok(
        tablets
            .iter()
            .filter(|tablet| tablet.is_due(now))
            .map(|tablet| tablet.id())
            .collect(alloc)?,
    )
}

/// Whether a tablet has the number.
fn is_held(tablets: &[Held], id: TabletId) -> bool
    ensures { result ≡ has (numbers_of tablets.now) id }
{
    tablets
        .iter()
        .map(|tablet| tablet.id())
        .any(|held| held.0 == id.0)
}

/// The number, which a tablet has.
fn one(alloc: Global, tablets: &[Held], id: TabletId) -> Result<Vec<TabletId>, FreezeRefusal>
    ensures ok { IfOk result (λ ids. ids.items ≡ id ∷ []) }
    ensures held { OnOk result (has (numbers_of tablets.now) id ≡ true) }
    ensures cause { IfErr result (IsCause (FreezeWhat.One id) tablets.now) }
{
    if !is_held(tablets, id) {
        return Err(FreezeRefusal::NoTablet { id: id.0 });
    }
    match Vec::from_slice(alloc, &[id]) {
        Ok(ids) => Ok(ids),
        Err(_) => Err(FreezeRefusal::NoMemory),
    }
}

/// The numbers of the tablets that are named.
pub fn numbers_named(
    alloc: Global,
    tablets: &[Held],
    what: FreezeWhat,
) -> Result<Vec<TabletId>, FreezeRefusal>
    ensures ok { IfOk result (λ ids. ids.items ≡ named what tablets.now) }
    ensures held { IfOk result (λ ids. HasAll ids.items (numbers_of tablets.now)) }
    ensures cause { IfErr result (IsCause what tablets.now) }
{
    match what {
        FreezeWhat::All => Ok(numbers(alloc, tablets)?),
        FreezeWhat::One(id) => one(alloc, tablets, id),
        FreezeWhat::Due { now } => Ok(due(alloc, tablets, now)?),
    }
}

/// The tablets that must go out with the named ones, these among them.
pub fn needed_by(alloc: Global, deps: &Deps, named: &[TabletId]) -> Result<Vec<TabletId>, NoMemory>
    ensures named { IfOk result (λ needed. (notes : List ℕ) → StandsFor deps.now notes → HasAll named.now needed.items) }
    ensures closed { IfOk result (λ needed. (notes : List ℕ) → StandsFor deps.now notes → IsClosed notes needed.items) }
    ensures least { IfOk result (λ needed. (notes other : List ℕ) → StandsFor deps.now notes → IsClosed notes other → HasAll named.now other → HasAll needed.items other) }
{
    let mut needed = Vec::new(alloc);
    // The youngest first: with it goes most of what must go out with older ones.
    for step in 0..named.len() {
        let id = named[named.len() - 1 - step];
        if !holds(needed.as_slice(), id) {
            let more = deps.closure(id)?;
            needed.extend_from_slice(more.as_slice())?;
        }
    }
    Ok(needed)
}

/// The numbers of the tablets that are in the set, in the tablets' order.
pub fn among(alloc: Global, tablets: &[Held], set: &[TabletId]) -> Result<Vec<TabletId>, NoMemory>
    ensures { IfOk result (λ ids. ids.items ≡ filter (has set.now) (numbers_of tablets.now)) }
{
    Ok(
        tablets
            .iter()
            .map(|tablet| tablet.id())
            .filter(|id| holds(set, *id))
            .collect(alloc)?,
    )
}

/// The tablets that must go out with the named ones, in the tablets' order.
pub fn with_needed(
    alloc: Global,
    tablets: &[Held],
    deps: &Deps,
    named: &[TabletId],
) -> Result<Vec<TabletId>, NoMemory>
    requires rising { IsStrictlyIncreasing (numbers_of tablets.now) }
    requires held { HasAll named.now (numbers_of tablets.now) }
    ensures rising { IfOk result (λ found. IsStrictlyIncreasing found.items) }
    ensures held { IfOk result (λ found. HasAll found.items (numbers_of tablets.now)) }
    ensures named { IfOk result (λ found. (notes : List ℕ) → StandsFor deps.now notes → HasAll named.now found.items) }
    ensures closed { IfOk result (λ found. (notes : List ℕ) → StandsFor deps.now notes → HasAll notes (numbers_of tablets.now) → IsClosed notes found.items) }
    ensures least { IfOk result (λ found. (notes other : List ℕ) → StandsFor deps.now notes → IsClosed notes other → HasAll named.now other → HasAll found.items other) }
{
    let needed = needed_by(alloc, deps, named)?;
    let found = among(alloc, tablets, needed.as_slice())?;
    Ok(found)
}
