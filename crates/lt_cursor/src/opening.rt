// The sources of a cursor that begins.
ghost use Rattle.std.specs.Prelude.{◌≡◌, ◌<◌, ◌++◌, ℕ, true, [], filter, length, map, IfOk, OnOk, All, Contains};
ghost use Rattle.std.specs.Arc.{arc_value};
ghost use Rattle.std.specs.List.{sum_by};
ghost use Rattle.lt_rec.specs.Boxes.{in_box};
ghost use Rattle.lt_cursor.specs.Boxed.{range_lens};
ghost use Rattle.lt_cursor.specs.Opening.{lefts_of_tablets, lefts_of_lists, AreInOrder};
ghost use Rattle.lt_cursor.specs.Strands.{left_of};

use crate::source::Source;
use lt_io::Device;
use lt_rec::{NoMemory, RawBox, RecList};
use lt_tablet::Tablet;
use std::alloc::Global;
use std::sync::Arc;

/// A source for each tablet.
fn of_tablets<V: Device>(
    alloc: Global,
    tablets: Vec<Arc<Tablet<V>>>,
    raw_box: &RawBox,
    down: bool,
) -> Result<Vec<Source<V>>, NoMemory>
    ensures blocks { IfOk result (λ sources. sum_by (λ s. s.blocks) sources.items ≡ range_lens raw_box.now (map arc_value tablets.items)) }
    ensures records { V.honest ≡ true → IfOk result (λ sources. map (left_of raw_box.now) sources.items ≡ lefts_of_tablets raw_box.now down (map arc_value tablets.items)) }
    ensures ordered { V.honest ≡ true → OnOk result (AreInOrder down (map arc_value tablets.items)) }
{
    let mut sources = Vec::new(alloc);
    for tablet in tablets {
        sources.push(Source::of_tablet(tablet, raw_box, down))?;
    }
    Ok(sources)
}

/// A source more for each list in memory.
fn add_lists<V: Device>(
    sources: &mut Vec<Source<V>>,
    mems: Vec<RecList>,
    raw_box: &RawBox,
) -> Result<(), NoMemory>
    ensures blocks { OnOk result (sum_by (λ s. s.blocks) sources.new.items ≡ sum_by (λ s. s.blocks) sources.old.items) }
    ensures records { OnOk result (map (left_of raw_box.now) sources.new.items ≡ map (left_of raw_box.now) sources.old.items ++ lefts_of_lists raw_box.now mems.items) }
{
    for list in mems {
        sources.push(Source::of_list(list))?;
    }
    Ok(())
}

/// A source for each tablet and for each list.
pub fn sources_of<V: Device>(
    alloc: Global,
    tablets: Vec<Arc<Tablet<V>>>,
    mems: Vec<RecList>,
    raw_box: &RawBox,
    down: bool,
) -> Result<Vec<Source<V>>, NoMemory>
    ensures blocks { IfOk result (λ sources. sum_by (λ s. s.blocks) sources.items ≡ range_lens raw_box.now (map arc_value tablets.items)) }
    ensures records { V.honest ≡ true → IfOk result (λ sources. map (left_of raw_box.now) sources.items ≡ lefts_of_tablets raw_box.now down (map arc_value tablets.items) ++ lefts_of_lists raw_box.now mems.items) }
    ensures ordered { V.honest ≡ true → OnOk result (AreInOrder down (map arc_value tablets.items)) }
{
    let mut sources = of_tablets(alloc, tablets, raw_box, down)?;
    add_lists(&mut sources, mems, raw_box)?;
    Ok(sources)
}

/// The places of all of so many elements.
pub fn all_places(alloc: Global, count: usize) -> Result<Vec<usize>, NoMemory>
    ensures within { IfOk result (λ places. All (λ at. at < count) places.items) }
    ensures all { IfOk result (λ places. (at : ℕ) → at < count → Contains places.items at) }
{
    let mut places = Vec::new(alloc);
    for at in 0..count {
        places.push(at)?;
    }
    Ok(places)
}
