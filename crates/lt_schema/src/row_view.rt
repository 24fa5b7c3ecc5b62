ghost use Rattle.std.specs.Prelude.{◌≡◌, ◌+◌, ◌≤◌, length};
ghost use Rattle.std.specs.Str.{IsUtf8};
ghost use Rattle.lt_schema.specs.Packing.{value_in, value_of, LiesIn, part};

use crate::packed::Slot;
use crate::{Row, ValueView};
use lt_rec::NoMemory;
use std::alloc::Global;
use std::marker::Model;

/// The values of a row that lies in one buffer with others. Contracts see the list of them.
#[derive(Debug, Drop)]
pub struct RowView<'a> {
    slots: &'a [Slot],
    bytes: &'a [u8],
}

impl<'a> Model for RowView<'a> {
    ghost use Rattle.std.specs.Prelude.{List, map};
    ghost use Rattle.std.specs.List.{All};
    ghost use Rattle.lt_schema.specs.declared.value.Value.{Value as Datum};
    ghost use Rattle.lt_schema.specs.Packing.{value_in, LiesIn};

    ghost Value = { List Datum };

    ghost view = { λ r. map (value_in r.bytes.now) r.slots.now };

    ghost invariant = { λ r. All (LiesIn r.bytes.now) r.slots.now };
}

impl<'a> RowView<'a> {
    ghost use Rattle.std.specs.Prelude.{◌≡◌, ◌<◌, IfOk, length, map, slice_index_or};
    ghost use Rattle.std.specs.List.{All};
    ghost use Rattle.lt_schema.specs.Packing.{value_in, value_of, LiesIn};

    pub(crate) fn new(slots: &'a [Slot], bytes: &'a [u8]) -> RowView<'a>
        requires { All (LiesIn bytes.now) slots.now }
        ensures { result ≡ map (value_in bytes.now) slots.now }
    {
        RowView { slots, bytes }
    }

    pub fn len(&self) -> usize
        ensures { result ≡ length self.now }
    {
        self.slots.len()
    }

    /// The value at this place.
    pub fn get(&self, at: usize) -> ValueView<'a>
        requires { at < length self.now }
        ensures { value_of result ≡ slice_index_or self.now at (value_of result) }
    {
        view_of(self.bytes, self.slots[at])
    }

    /// A copy of the row.
    pub fn to_row(&self, alloc: Global) -> Result<Row, NoMemory>
        ensures { IfOk result (λ row. row ≡ self.now) }
    {
        let mut values = Vec::with_capacity(alloc, self.len())?;
        for at in 0..self.len() {
            values.push(self.get(at).to_value(alloc)?)?;
        }
        Ok(Row::from_vec(values))
    }
}

fn view_of(bytes: &[u8], slot: Slot) -> ValueView<'_>
    requires { LiesIn bytes.now slot }
    ensures { value_of result ≡ value_in bytes.now slot }
{
    match slot {
        Slot::Int(number) => ValueView::Int(number),
        Slot::Text { from, len } => ValueView::Text(text_in(bytes, from, len)),
        Slot::Blob { from, len } => ValueView::Blob(part_of(bytes, from, len)),
    }
}

fn part_of(bytes: &[u8], from: usize, len: usize) -> &[u8]
    requires { from + len ≤ length bytes.now }
    ensures { result.now ≡ part from len bytes.now }
{
    let (_, rest) = bytes.split_at(from);
    let (part, _) = rest.split_at(len);
    part
}

fn text_in(bytes: &[u8], from: usize, len: usize) -> &str
    requires within { from + len ≤ length bytes.now }
    requires text { IsUtf8 (part from len bytes.now) }
    ensures { result.now ≡ part from len bytes.now }
{
    unsafe { str::from_utf8_unchecked(part_of(bytes, from, len)) }
}
