use crate::{RowView, ValueView};
use lt_rec::NoMemory;
use std::alloc::Global;
use std::marker::Model;

/// Where a value lies: an integer here, a text or bytes as so many bytes from a place on.
#[derive(Clone, Copy, Debug)]
pub enum Slot {
    Int(i64),
    Text { from: usize, len: usize },
    Blob { from: usize, len: usize },
}

/// Values one behind the other, whose texts and bytes lie in one piece of memory. Contracts see the list of them.
#[derive(Debug, Drop)]
pub struct Packed {
    slots: Vec<Slot>,
    bytes: Vec<u8>,
}

impl Model for Packed {
    ghost use Rattle.std.specs.Prelude.{List, map};
    ghost use Rattle.std.specs.List.{All};
    ghost use Rattle.lt_schema.specs.declared.value.Value.{Value as Datum};
    ghost use Rattle.lt_schema.specs.Packing.{value_in, LiesIn};

    ghost Value = { List Datum };

    ghost view = { λ p. map (value_in p.bytes.items) p.slots.items };

    ghost invariant = { λ p. All (LiesIn p.bytes.items) p.slots.items };
}

impl Packed {
    ghost use Rattle.std.specs.Prelude.{◌≡◌, ◌+◌, ◌≤◌, ◌++◌, ◌∷◌, [], IfOk, OnOk, OnErr, length, take};
    ghost use Rattle.lt_schema.specs.declared.value.Value.TheVariants.{Int, Text, Blob};
    ghost use Rattle.lt_schema.specs.Packing.{part, value_of};

    /// No values. Takes no memory.
    pub fn new(alloc: Global) -> Packed
        ensures { result ≡ [] }
    {
        Packed {
            slots: Vec::new(alloc),
            bytes: Vec::new(alloc),
        }
    }

    /// No values, with room for so many, and for so many bytes of texts and bytes.
    pub fn with_capacity(alloc: Global, values: usize, bytes: usize) -> Result<Packed, NoMemory>
        ensures { IfOk result (λ packed. packed ≡ []) }
    {
        Ok(Packed {
            slots: Vec::with_capacity(alloc, values)?,
            bytes: Vec::with_capacity(alloc, bytes)?,
        })
    }

    pub fn len(&self) -> usize
        ensures { result ≡ length self.now }
    {
        self.slots.len()
    }

    fn push_int(&mut self, number: i64) -> Result<(), NoMemory>
        ensures pushed { OnOk result (self.new ≡ self.old ++ Int number ∷ []) }
        ensures unchanged { OnErr result (self.new ≡ self.old) }
    {
        self.slots.push(Slot::Int(number))?;
        Ok(())
    }

    fn push_text(&mut self, text: &str) -> Result<(), NoMemory>
        ensures pushed { OnOk result (self.new ≡ self.old ++ Text text.now ∷ []) }
        ensures unchanged { OnErr result (self.new ≡ self.old) }
    {
        let from = self.bytes.as_slice().len();
        self.bytes.extend_from_slice(text.as_bytes())?;
        let len = text.len();
        self.slots.push(Slot::Text { from, len })?;
        Ok(())
    }

    fn push_blob(&mut self, bytes: &[u8]) -> Result<(), NoMemory>
        ensures pushed { OnOk result (self.new ≡ self.old ++ Blob bytes.now ∷ []) }
        ensures unchanged { OnErr result (self.new ≡ self.old) }
    {
        let from = self.bytes.as_slice().len();
        self.bytes.extend_from_slice(bytes)?;
        let len = bytes.len();
        self.slots.push(Slot::Blob { from, len })?;
        Ok(())
    }

    /// Adds a value at the end.
    pub fn push(&mut self, value: ValueView<'_>) -> Result<(), NoMemory>
        ensures pushed { OnOk result (self.new ≡ self.old ++ value_of value.entry ∷ []) }
        ensures unchanged { OnErr result (self.new ≡ self.old) }
    {
        match value {
            ValueView::Int(number) => self.push_int(number),
            ValueView::Text(text) => self.push_text(text),
            ValueView::Blob(bytes) => self.push_blob(bytes),
        }
    }

    /// The first so many stay.
    pub fn truncate(&mut self, len: usize)
        ensures { self.new ≡ take len self.old }
    {
        self.slots.truncate(len);
    }

    /// So many values from a place on.
    pub fn part(&self, from: usize, len: usize) -> RowView<'_>
        requires { from + len ≤ length self.now }
        ensures { result ≡ part from len self.now }
    {
        let (_, rest) = self.slots.as_slice().split_at(from);
        let (slots, _) = rest.split_at(len);
        RowView::new(slots, self.bytes.as_slice())
    }
}
