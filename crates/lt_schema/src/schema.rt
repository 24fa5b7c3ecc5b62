use crate::Columns;
use std::alloc::AllocError;
use std::marker::Model;

/// A lawful schema: 1 to 64 columns of different names, of which the first `key_len` are the key;
/// the last of those is a time, and each default is of its column's kind and at most 1,024 bytes.
#[derive(Debug, Drop)]
pub struct Schema {
    columns: Columns,
    key_len: u32,
}

impl Model for Schema {
    ghost use Rattle.std.specs.Prelude.{IsTrue};
    ghost use Rattle.lt_schema.specs.Shapes.{SchemaShape};
    ghost use Rattle.lt_schema.specs.Lawful.{is_schema};

    ghost Value = { SchemaShape };

    ghost view = { λ s. record { columns = s.columns; key_len = s.key_len } };

    ghost invariant = { λ s. IsTrue (is_schema (record { columns = s.columns; key_len = s.key_len })) };
}

impl Schema {
    ghost use Rattle.std.specs.Prelude.{◌≡◌, IsTrue};
    ghost use Rattle.lt_schema.specs.Lawful.{is_schema};

    pub fn new(columns: Columns, key_len: u32) -> Schema
        requires { IsTrue (is_schema (record { columns = columns; key_len = key_len })) }
        ensures { result ≡ record { columns = columns; key_len = key_len } }
    {
        Schema { columns, key_len }
    }

    pub fn columns(&self) -> &Columns
        ensures columns { result.now ≡ self.now.columns }
        ensures lawful { IsTrue (is_schema self.now) }
    {
        &self.columns
    }

    pub fn key_len(&self) -> u32
        ensures { result ≡ self.now.key_len }
    {
        self.key_len
    }
}

impl Clone for Schema {
    ghost use Rattle.std.specs.Prelude.{◌≡◌};

    ghost is_clone = { λ x y. x ≡ y };

    fn clone(&self) -> Result<Schema, AllocError> {
        Ok(Schema {
            columns: self.columns.clone()?,
            key_len: self.key_len,
        })
    }
}
