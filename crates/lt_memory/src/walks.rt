ghost use Rattle.std.specs.Prelude.{◌≡◌, ◌++◌, All, IfOk, OnOk, option_to_list};
ghost use Rattle.lt_mem.specs.Rising.{IsInOrder};
ghost use Rattle.lt_memory.specs.Walking.{walk_if, walks_of};

use crate::held::Held;
use lt_rec::{NoMemory, RawBox, RecList};
use std::alloc::Global;

/// Of each tablet whose span meets that of the box, its first records of the box.
pub fn walk_all(
    alloc: Global,
    tablets: &[Held],
    raw_box: &RawBox,
    down: bool,
    limit: u64,
) -> Result<Vec<RecList>, NoMemory>
    ensures exact { IfOk result (λ lists. lists.items ≡ walks_of raw_box.now down limit tablets.now) }
    ensures sorted { IfOk result (λ lists. All (IsInOrder down) lists.items) }
{
    let mut lists = Vec::new(alloc);
    for tablet in tablets {
        add_walk(&mut lists, tablet, raw_box, down, limit)?;
    }
    Ok(lists)
}

/// Adds the tablet's list, where its span meets that of the box.
fn add_walk(
    lists: &mut Vec<RecList>,
    tablet: &Held,
    raw_box: &RawBox,
    down: bool,
    limit: u64,
) -> Result<(), NoMemory>
    ensures exact { OnOk result (lists.new.items ≡ lists.old.items ++ option_to_list (walk_if raw_box.now down limit tablet.now)) }
    ensures sorted { OnOk result (All (IsInOrder down) lists.old.items → All (IsInOrder down) lists.new.items) }
{
    let Some(list) = tablet.walk(raw_box, down, limit)? else {
        return Ok(());
    };
    lists.push(list)?;
    Ok(())
}
