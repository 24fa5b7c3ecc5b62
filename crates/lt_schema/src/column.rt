ghost use Rattle.std.specs.Prelude.{◌≡◌};
ghost use Rattle.std.specs.List.{list_all};
ghost use Rattle.lt_schema.specs.Names.{is_letter, is_name_byte};

use crate::{Kind, Value};
use lt_rec::Label;
use std::alloc::{AllocError, Global};
use std::marker::Model;

/// A column of a lawful name: 1 to 64 of `a` to `z`, `0` to `9` and `_`, a letter first.
#[derive(Debug, Drop)]
pub struct Column {
    name: Label,
    kind: Kind,
    default: Value,
}

impl Model for Column {
    ghost use Rattle.std.specs.Prelude.{IsTrue};
    ghost use Rattle.lt_schema.specs.Shapes.{ColumnShape};
    ghost use Rattle.lt_schema.specs.Names.{is_name};

    ghost Value = { ColumnShape };

    ghost view = { λ c. record { name = c.name; kind = c.kind; default = c.default } };

    ghost invariant = { λ c. IsTrue (is_name c.name) };
}

impl Column {
    ghost use Rattle.std.specs.Prelude.{◌≡◌, ◌&&◌, IsTrue};
    ghost use Rattle.lt_schema.specs.Names.{is_name, is_name_byte};
    ghost use Rattle.lt_schema.specs.Lawful.{has_lawful_default, is_short};
    ghost use Rattle.lt_schema.specs.Values.{is_of_kind};
    ghost use Rattle.lt_schema.specs.declared.kind.Kind.TheVariants.{Int64};

    /// The most bytes of a name.
    pub const LONGEST_NAME: usize = 64;
    /// The most bytes of a default that is a text or bytes.
    pub const LONGEST_DEFAULT: usize = 1_024;

    /// A column with the value that rows written before it take.
    pub fn new(name: Label, kind: Kind, default: Value) -> Column
        requires { IsTrue (is_name name) }
        ensures { result ≡ record { name = name; kind = kind; default = default } }
    {
        Column {
            name,
            kind,
            default,
        }
    }

    /// Whether a column may have this name: 1 to 64 of `a` to `z`, `0` to `9` and `_`, a letter first. Takes no memory.
    pub fn is_name(name: &[u8]) -> bool
        ensures { result ≡ is_name name.now }
    {
        match name.split_first() {
            None => false,
            Some((first, others)) => {
                is_letter(*first) && are_name_bytes(others) && others.len() < Column::LONGEST_NAME
            }
        }
    }

    /// Whether a name may have this byte: `a` to `z`, `0` to `9` or `_`. Takes no memory.
    pub fn is_name_byte(byte: u8) -> bool
        ensures { result ≡ is_name_byte byte }
    {
        is_letter(byte) || (b'0' <= byte && byte <= b'9') || byte == b'_'
    }

    pub fn name(&self) -> &Label
        ensures name { result.now ≡ self.now.name }
        ensures lawful { IsTrue (is_name self.now.name) }
    {
        &self.name
    }

    pub fn kind(&self) -> Kind
        ensures { result ≡ self.now.kind }
    {
        self.kind
    }

    pub fn default(&self) -> &Value
        ensures { result.now ≡ self.now.default }
    {
        &self.default
    }

    /// Whether a column of this kind may have this default: it is of the kind, and as a text or bytes has at most 1,024
    /// bytes. Takes no memory.
    pub fn is_default(kind: Kind, value: &Value) -> bool
        ensures { result ≡ (is_of_kind kind value.now && is_short value.now) }
    {
        kind.has(value) && Column::is_short(value)
    }

    fn is_short(value: &Value) -> bool
        ensures { result ≡ is_short value.now }
    {
        match value {
            Value::Int(_) => true,
            Value::Text(text) => text.len() <= Column::LONGEST_DEFAULT,
            Value::Blob(bytes) => bytes.len() <= Column::LONGEST_DEFAULT,
        }
    }

    /// Whether the default is of the column's kind, and as a text or bytes has at most 1,024 bytes. Takes no memory.
    pub fn has_lawful_default(&self) -> bool
        ensures { result ≡ has_lawful_default self.now }
    {
        Column::is_default(self.kind, &self.default)
    }

    /// The same column with integers of 64 bits.
    pub fn widen(&mut self)
        ensures { self.new ≡ record self.old { kind = Int64 } }
    {
        self.kind = Kind::Int64;
    }
}

fn is_letter(byte: u8) -> bool
    ensures { result ≡ is_letter byte }
{
    b'a' <= byte && byte <= b'z'
}

fn are_name_bytes(bytes: &[u8]) -> bool
    ensures { result ≡ list_all is_name_byte bytes.now }
{
    for byte in bytes {
        if !Column::is_name_byte(*byte) {
            return false;
        }
    }
    true
}

impl Clone for Column {
    ghost use Rattle.std.specs.Prelude.{◌≡◌};

    ghost is_clone = { λ x y. x ≡ y };

    fn clone(&self) -> Result<Column, AllocError> {
        Ok(Column {
            name: self.name.clone()?,
            kind: self.kind,
            default: self.default.clone()?,
        })
    }
}

/// Columns in order. Contracts see the list of them.
#[derive(Debug, Drop)]
pub struct Columns {
    columns: Vec<Column>,
}

impl Model for Columns {
    ghost use Rattle.std.specs.Prelude.{List};
    ghost use Rattle.lt_schema.specs.Shapes.{ColumnShape};

    ghost Value = { List ColumnShape };

    ghost view = { λ c. c.columns.items };
}

impl Columns {
    ghost use Rattle.std.specs.Prelude.{◌≡◌};

    /// The same columns. Takes no memory.
    pub fn from_vec(columns: Vec<Column>) -> Columns
        ensures { result ≡ columns.items }
    {
        Columns { columns }
    }

    /// The columns given back. Takes no memory.
    pub fn into_vec(self) -> Vec<Column>
        ensures { result.items ≡ self }
    {
        let Columns { columns } = self;
        columns
    }

    pub fn as_slice(&self) -> &[Column]
        ensures { result.now ≡ self.now }
    {
        self.columns.as_slice()
    }

    /// The allocator that the columns came from.
    pub(crate) fn allocator(&self) -> Global {
        *self.columns.allocator()
    }
}

impl Clone for Columns {
    ghost use Rattle.std.specs.Prelude.{◌≡◌};

    ghost is_clone = { λ x y. x ≡ y };

    fn clone(&self) -> Result<Columns, AllocError> {
        let mut columns = Vec::with_capacity(*self.columns.allocator(), self.columns.len())?;
        for column in self.columns.as_slice() {
            columns.push(column.clone()?)?;
        }
        Ok(Columns { columns })
    }
}
