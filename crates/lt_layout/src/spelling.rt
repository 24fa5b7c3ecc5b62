//! The index and the footer of a file, spelled.
ghost use Rattle.std.specs.Prelude.{◌≡◌, ◌++◌, IfOk, OnOk};
ghost use Rattle.std.specs.List.{flat_map};
ghost use Rattle.lt_layout.specs.Spelling.{key_spelled, entry_spelled, footer_spelled, numbers};

use crate::footer::{MARK, Parts};
use crate::index::IndexEntry;
use crate::totals::Totals;
use lt_rec::{NoMemory, put_u32, put_u64};
use std::alloc::Global;

fn put_key(out: &mut Vec<u8>, key: &[u8]) -> Result<(), NoMemory>
    ensures { OnOk result (out.new.items ≡ out.old.items ++ key_spelled key.now) }
{
    let len = u32::try_from(key.len()).map_err(|_| NoMemory)?;
    put_u32(out, len)?;
    out.extend_from_slice(key)?;
    Ok(())
}

fn put_entry(out: &mut Vec<u8>, entry: &IndexEntry) -> Result<(), NoMemory>
    ensures { OnOk result (out.new.items ≡ out.old.items ++ entry_spelled entry.now) }
{
    put_u64(out, entry.offset)?;
    put_u32(out, entry.len)?;
    put_u32(out, entry.count)?;
    put_key(out, entry.first.as_slice())?;
    put_key(out, entry.last.as_slice())?;
    Ok(())
}

/// The bytes of an index with these entries.
pub fn spell_index(alloc: Global, index: &[IndexEntry]) -> Result<Vec<u8>, NoMemory>
    ensures { IfOk result (λ bytes. bytes.items ≡ flat_map entry_spelled index.now) }
{
    let mut out = Vec::new(alloc);
    for entry in index {
        put_entry(&mut out, entry)?;
    }
    Ok(out)
}

fn put_numbers(out: &mut Vec<u8>, list: &[u64]) -> Result<(), NoMemory>
    ensures { OnOk result (out.new.items ≡ out.old.items ++ numbers list.now) }
{
    for number in list {
        put_u64(out, *number)?;
    }
    Ok(())
}

/// The 88 bytes of a footer.
pub fn spell_footer(alloc: Global, parts: &Parts, totals: &Totals) -> Result<Vec<u8>, NoMemory>
    ensures { IfOk result (λ bytes. bytes.items ≡ footer_spelled parts.now totals.now) }
{
    let mut out = Vec::new(alloc);
    put_numbers(
        &mut out,
        &[parts.index, parts.blocks, parts.filter, parts.filter_len],
    )?;
    put_numbers(&mut out, &totals.footer_numbers())?;
    out.extend_from_slice(&MARK)?;
    Ok(out)
}
