ghost use Rattle.std.specs.Prelude.{◌≡◌, IfOk};
ghost use Rattle.lt_schema.specs.Packing.{value_of};

use crate::Value;
use lt_rec::{Label, NoMemory, Octets};
use std::alloc::Global;

/// A value in place: of a row that lies in one buffer with others, or of bytes that spell one.
#[derive(Clone, Copy, Debug)]
pub enum ValueView<'a> {
    Int(i64),
    Text(&'a str),
    Blob(&'a [u8]),
}

impl ValueView<'_> {
    /// A copy of the value.
    pub fn to_value(self, alloc: Global) -> Result<Value, NoMemory>
        ensures { IfOk result (λ value. value ≡ value_of self.entry) }
    {
        match self {
            ValueView::Int(number) => Ok(Value::Int(number)),
            ValueView::Text(text) => Ok(Value::Text(Label::copy_of(alloc, text)?)),
            ValueView::Blob(bytes) => Ok(Value::Blob(Octets::from_slice(alloc, bytes)?)),
        }
    }
}
