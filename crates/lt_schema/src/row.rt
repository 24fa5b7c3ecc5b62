use crate::Value;
use std::alloc::AllocError;
use std::marker::Model;

/// The values of one row. Contracts see the list of them.
#[derive(Debug, Drop)]
pub struct Row {
    values: Vec<Value>,
}

impl Model for Row {
    ghost use Rattle.std.specs.Prelude.{List};
    ghost use Rattle.lt_schema.specs.declared.value.Value.{Value as Datum};

    ghost Value = { List Datum };

    ghost view = { λ r. r.values.items };
}

impl Row {
    ghost use Rattle.std.specs.Prelude.{◌≡◌, length};

    /// The same values. Takes no memory.
    pub fn from_vec(values: Vec<Value>) -> Row
        ensures { result ≡ values.items }
    {
        Row { values }
    }

    /// The values given back. Takes no memory.
    pub fn into_vec(self) -> Vec<Value>
        ensures { result.items ≡ self }
    {
        let Row { values } = self;
        values
    }

    pub fn as_slice(&self) -> &[Value]
        ensures { result.now ≡ self.now }
    {
        self.values.as_slice()
    }
}

impl Clone for Row {
    ghost use Rattle.std.specs.Prelude.{◌≡◌};

    ghost is_clone = { λ x y. x ≡ y };

    fn clone(&self) -> Result<Row, AllocError> {
        let mut values = Vec::with_capacity(*self.values.allocator(), self.values.len())?;
        for value in self.values.as_slice() {
            values.push(value.clone()?)?;
        }
        Ok(Row { values })
    }
}

/// Why a row does not pass a schema: the first of these that holds.
#[derive(Clone, Copy, Debug, PartialEq, Eq)]
pub enum RowFault {
    /// The number of values differs from the number of columns.
    Arity { want: u32, got: u64 },
    /// The value of this column, the least such one, isn't of its kind.
    WrongKind { column: u32 },
    /// The key takes more than 4,096 bytes.
    KeyLong { len: u64 },
    /// The values after the key take more than 60,000 bytes.
    BodyLong { len: u64 },
}
