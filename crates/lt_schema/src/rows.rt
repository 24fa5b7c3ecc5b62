use crate::packed::Packed;
use crate::{RowView, Value, ValueView};
use lt_rec::NoMemory;
use std::alloc::Global;
use std::marker::Model;

/// Where a row lies: so many values from a place on.
#[derive(Clone, Copy, Debug)]
pub struct Place {
    pub from: usize,
    pub len: usize,
}

/// Rows in order, whose values lie in one buffer. Contracts see the list of them.
#[derive(Debug, Drop)]
pub struct Rows {
    values: Packed,
    places: Vec<Place>,
}

impl Model for Rows {
    ghost use Rattle.std.specs.Prelude.{List, length, map};
    ghost use Rattle.std.specs.List.{All};
    ghost use Rattle.lt_schema.specs.declared.value.Value.{Value as Datum};
    ghost use Rattle.lt_schema.specs.Placing.{row_in, EndsBy};

    ghost Value = { List (List Datum) };

    ghost view = { λ r. map (row_in r.values) r.places.items };

    ghost invariant = { λ r. All (EndsBy (length r.values)) r.places.items };
}

impl Rows {
    ghost use Rattle.std.specs.Prelude.{◌≡◌, ◌<◌, IfOk, length, map, slice_index_or};

    /// How many rows there are.
    pub fn len(&self) -> usize
        ensures { result ≡ length self.now }
    {
        self.places.len()
    }

    /// The row at this place. Takes no memory.
    pub fn row(&self, at: usize) -> RowView<'_>
        requires { at < length self.now }
        ensures { result ≡ slice_index_or self.now at result }
    {
        let place = self.places[at];
        self.values.part(place.from, place.len)
    }
}

/// Rows that are being made, value by value and without an allocation for each row. Contracts see the rows that are whole,
/// and the values of the row that was begun.
#[derive(Debug, Drop)]
pub struct RowsBuilder {
    values: Packed,
    places: Vec<Place>,
    begin: usize,
}

impl Model for RowsBuilder {
    ghost use Rattle.std.specs.Prelude.{◌≤◌, length};
    ghost use Rattle.std.specs.List.{All};
    ghost use Rattle.lt_schema.specs.Placing.{RowsSoFar, so_far, EndsBy};

    ghost Value = { RowsSoFar };

    ghost view = { λ r. so_far r.values r.places.items r.begin };

    ghost invariant = { λ r. All (EndsBy r.begin) r.places.items × (r.begin ≤ length r.values) };
}

impl RowsBuilder {
    ghost use Rattle.std.specs.Prelude.{◌≡◌, ◌++◌, ◌∷◌, [], IfOk, OnOk, OnErr};
    ghost use Rattle.lt_schema.specs.Packing.{value_of};

    /// No rows. Takes no memory.
    pub fn new(alloc: Global) -> RowsBuilder
        ensures { result ≡ record { rows = []; row = [] } }
    {
        RowsBuilder {
            values: Packed::new(alloc),
            places: Vec::new(alloc),
            begin: 0,
        }
    }

    /// No rows, with room for so many rows, values of theirs, and bytes of their texts and bytes.
    pub fn with_capacity(
        alloc: Global,
        rows: usize,
        values: usize,
        bytes: usize,
    ) -> Result<RowsBuilder, NoMemory>
        ensures { IfOk result (λ made. made ≡ record { rows = []; row = [] }) }
    {
        Ok(RowsBuilder {
            values: Packed::with_capacity(alloc, values, bytes)?,
            places: Vec::with_capacity(alloc, rows)?,
            begin: 0,
        })
    }

    /// Adds a value to the row that was begun.
    pub fn push(&mut self, value: ValueView<'_>) -> Result<(), NoMemory>
        ensures pushed { OnOk result (self.new ≡ record { rows = self.old.rows; row = self.old.row ++ value_of value.entry ∷ [] }) }
        ensures unchanged { OnErr result (self.new ≡ self.old) }
    {
        self.values.push(value)
    }

    /// The row that was begun is whole.
    pub fn end_row(&mut self) -> Result<(), NoMemory>
        ensures ended { OnOk result (self.new ≡ record { rows = self.old.rows ++ self.old.row ∷ []; row = [] }) }
        ensures unchanged { OnErr result (self.new ≡ self.old) }
    {
        let end = self.values.len();
        let place = Place {
            from: self.begin,
            len: end - self.begin,
        };
        self.places.push(place)?;
        self.begin = end;
        Ok(())
    }

    /// Throws the row away that was begun. Takes no memory.
    pub fn drop_row(&mut self)
        ensures { self.new ≡ record { rows = self.old.rows; row = [] } }
    {
        self.values.truncate(self.begin);
    }

    /// Adds a row; one that was begun is thrown away.
    pub fn push_row(&mut self, row: &[Value]) -> Result<(), NoMemory>
        ensures pushed { OnOk result (self.new ≡ record { rows = self.old.rows ++ row.now ∷ []; row = [] }) }
        ensures unchanged { OnErr result (self.new ≡ record { rows = self.old.rows; row = [] }) }
    {
        self.drop_row();
        match self.add_row(row) {
            Ok(()) => Ok(()),
            Err(NoMemory) => {
                self.drop_row();
                Err(NoMemory)
            }
        }
    }

    fn add_row(&mut self, values: &[Value]) -> Result<(), NoMemory>
        ensures pushed { OnOk result (self.new ≡ record { rows = self.old.rows ++ (self.old.row ++ values.now) ∷ []; row = [] }) }
        ensures whole { OnErr result (self.new.rows ≡ self.old.rows) }
    {
        self.push_values(values)?;
        self.end_row()
    }

    /// Adds values to the row that was begun; on an error some of them may be there.
    pub fn push_values(&mut self, values: &[Value]) -> Result<(), NoMemory>
        ensures pushed { OnOk result (self.new ≡ record { rows = self.old.rows; row = self.old.row ++ values.now }) }
        ensures whole { self.new.rows ≡ self.old.rows }
    {
        for value in values {
            self.push(value.view())?;
        }
        Ok(())
    }

    /// The rows that are whole. Takes no memory.
    pub fn finish(self) -> Rows
        ensures { result ≡ self.rows }
    {
        let RowsBuilder { values, places, .. } = self;
        Rows { values, places }
    }
}
