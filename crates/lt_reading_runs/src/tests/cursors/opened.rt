// Cursors, begun where the records of all sources were read first and meet the cursor's conditions.
ghost use Rattle.std.specs.Prelude.{◌≡◌, ◌≢◌, ◌<◌, ◌≤◌, ℕ, true, ◌++◌, IsTrue, OnOk, IfOk, All, length, map, slice_index_or};
ghost use Rattle.std.specs.Arc.{arc_value};
ghost use Rattle.lt_rec.specs.Record.{Record};
ghost use Rattle.lt_kway.specs.Heads.{is_before};
ghost use Rattle.lt_tablet.specs.Loaded.{records_in};
ghost use Rattle.lt_cursor.specs.Boxed.{gathered};
ghost use Rattle.lt_cursor.specs.Order.{HaveDistinctKeys, IsInOrder};

use lt_block::Block;
use lt_cursor::Cursor;
use lt_io::Device;
use lt_rec::{NoMemory, RawBox, Rec, RecList, Steps};
use lt_tablet::{ReadError, Tablet};
use std::alloc::Global;
use std::sync::Arc;
use std::sync::ledger::Ledger;

fn add_block(all: &mut Vec<Rec>, block: &Block) -> Result<(), NoMemory>
    ensures { OnOk result (all.new.items ≡ all.old.items ++ block.now) }
{
    let alloc = *all.allocator();
    for i in 0..block.count() {
        all.push(block.rec(alloc, i)?)?;
    }
    Ok(())
}

fn add_tablet<V: Device, L: Ledger>(
    all: &mut Vec<Rec>,
    dev: &mut V,
    tablet: &Tablet<V>,
    steps: &mut Steps<L>,
) -> Result<(), ReadError>
    ensures { V.honest ≡ true → OnOk result (all.new.items ≡ all.old.items ++ records_in tablet.now) }
{
    let alloc = *all.allocator();
    for i in 0..tablet.count() {
        let block = tablet.block(alloc, dev, i, steps)?;
        add_block(all, &block)?;
    }
    Ok(())
}

fn add_list(all: &mut Vec<Rec>, list: &RecList) -> Result<(), NoMemory>
    ensures { OnOk result (all.new.items ≡ all.old.items ++ list.now) }
{
    let mut left = list.clone()?;
    while let Some(rec) = left.first() {
        all.push(rec.clone()?)?;
        left.skip_first();
    }
    Ok(())
}

/// The records of all sources, one source after the other.
fn all_of<V: Device, L: Ledger>(
    alloc: Global,
    dev: &mut V,
    tablets: &[Arc<Tablet<V>>],
    lists: &[RecList],
    steps: &mut Steps<L>,
) -> Result<Vec<Rec>, ReadError>
    ensures { V.honest ≡ true → IfOk result (λ all. all.items ≡ gathered true (map arc_value tablets.now) lists.now) }
{
    let mut all = Vec::new(alloc);
    for tablet in tablets {
        add_tablet(&mut all, dev, tablet, steps)?;
    }
    for list in lists {
        add_list(&mut all, list)?;
    }
    Ok(all)
}

/// Whether none of the records up to a place has the key.
fn is_new(recs: &[Rec], end: usize, key: &[u8]) -> bool
    requires { end ≤ length recs.now }
    ensures { IsTrue result → (i : ℕ) (d : Record) → i < end → (slice_index_or recs.now i d).key ≢ key.now }
{
    for i in 0..end {
        let rec = &recs[i];
        if rec.key() == key {
            return false;
        }
    }
    true
}

fn have_distinct_keys(recs: &[Rec]) -> bool
    ensures { IsTrue result → HaveDistinctKeys recs.now }
{
    for j in 0..recs.len() {
        let rec = &recs[j];
        if !is_new(recs, j, rec.key()) {
            return false;
        }
    }
    true
}

fn comes_before(key: &[u8], other: &[u8], down: bool) -> bool
    ensures { result ≡ is_before down key.now other.now }
{
    if down {
        other.cmp(key).is_lt()
    } else {
        key.cmp(other).is_lt()
    }
}

/// Whether each record up to a place is read before the key.
fn is_behind(recs: &[Rec], end: usize, key: &[u8], down: bool) -> bool
    requires { end ≤ length recs.now }
    ensures { IsTrue result → (i : ℕ) (d : Record) → i < end → is_before down (slice_index_or recs.now i d).key key.now ≡ true }
{
    for i in 0..end {
        let rec = &recs[i];
        if !comes_before(rec.key(), key, down) {
            return false;
        }
    }
    true
}

fn are_in_order(recs: &[Rec], down: bool) -> bool
    ensures { IsTrue result → IsInOrder down recs.now }
{
    for j in 0..recs.len() {
        let rec = &recs[j];
        if !is_behind(recs, j, rec.key(), down) {
            return false;
        }
    }
    true
}

fn is_in_order(alloc: Global, list: &RecList, down: bool) -> Result<bool, NoMemory>
    ensures { IfOk result (λ yes. IsTrue yes → IsInOrder down list.now) }
{
    let mut recs = Vec::new(alloc);
    add_list(&mut recs, list)?;
    Ok(are_in_order(recs.as_slice(), down))
}

fn lists_are_in_order(alloc: Global, lists: &[RecList], down: bool) -> Result<bool, NoMemory>
    ensures { IfOk result (λ yes. IsTrue yes → All (IsInOrder down) lists.now) }
{
    for list in lists {
        if !is_in_order(alloc, list, down)? {
            return Ok(false);
        }
    }
    Ok(true)
}

/// A cursor; `None` where two records have one key, or a list isn't in the order of reading.
pub fn opened<V: Device, L: Ledger>(
    alloc: Global,
    dev: &mut V,
    tablets: Vec<Arc<Tablet<V>>>,
    lists: Vec<RecList>,
    raw_box: RawBox,
    down: bool,
    steps: &mut Steps<L>,
) -> Result<Option<Cursor<V>>, ReadError>
    requires { V.honest ≡ true }
{
    let all = all_of(alloc, dev, tablets.as_slice(), lists.as_slice(), steps)?;
    if !have_distinct_keys(all.as_slice()) || !lists_are_in_order(alloc, lists.as_slice(), down)? {
        return Ok(None);
    }
    Ok(Some(Cursor::new(alloc, tablets, lists, raw_box, down)?))
}
