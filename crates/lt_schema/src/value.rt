ghost use Rattle.std.specs.Prelude.{◌≡◌};
ghost use Rattle.lt_schema.specs.Values.{key_cmp};

use crate::ValueView;
use lt_rec::{Label, Octets};
use std::alloc::AllocError;
use std::cmp::Ordering;

/// A value. Integers are ordered by number, texts and bytes by their bytes with a proper prefix first.
#[derive(Debug, Drop, PartialEq, Eq, PartialOrd, Ord)]
pub enum Value {
    Int(i64),
    Text(Label),
    Blob(Octets),
}

impl Value {
    ghost use Rattle.std.specs.Prelude.{◌≡◌};
    ghost use Rattle.lt_schema.specs.Packing.{value_of};

    /// The value in place.
    pub fn view(&self) -> ValueView<'_>
        ensures { value_of result ≡ self.now }
    {
        match self {
            Value::Int(number) => ValueView::Int(*number),
            Value::Text(text) => ValueView::Text(text.as_text()),
            Value::Blob(bytes) => ValueView::Blob(bytes.as_slice()),
        }
    }
}

impl Clone for Value {
    ghost is_clone = { λ x y. x ≡ y };

    fn clone(&self) -> Result<Value, AllocError> {
        match self {
            Value::Int(number) => Ok(Value::Int(*number)),
            Value::Text(text) => Ok(Value::Text(text.clone()?)),
            Value::Blob(bytes) => Ok(Value::Blob(bytes.clone()?)),
        }
    }
}

/// The order of two keys, or of any lists of values: value by value, a proper prefix first.
pub fn key_cmp(a: &[Value], b: &[Value]) -> Ordering
    ensures { result ≡ key_cmp a.now b.now }
{
    a.cmp(b)
}
