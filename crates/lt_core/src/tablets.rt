ghost use Rattle.std.specs.Prelude.{◌≡◌, map, IfOk};
ghost use Rattle.std.specs.Arc.{arc_value};
ghost use Rattle.lt_core.specs.Parts.{entry_of};

use lt_io::Device;
use lt_rec::{Listed, NoMemory};
use lt_tablet::Tablet;
use std::alloc::Global;
use std::sync::Arc;

/// What the list of tablets says of each, in order.
pub(crate) fn listing_of<V: Device>(
    alloc: Global,
    tablets: &[Arc<Tablet<V>>],
) -> Result<Vec<Listed>, NoMemory>
    ensures { IfOk result (λ listing. listing.items ≡ map (λ tablet. entry_of (arc_value tablet)) tablets.now) }
{
    let mut listing = Vec::with_capacity(alloc, tablets.len())?;
    for tablet in tablets {
        listing.push(*tablet.listed())?;
    }
    Ok(listing)
}
