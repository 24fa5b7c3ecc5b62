ghost use Rattle.std.specs.Prelude.{◌≡◌};
ghost use Rattle.lt_schema.specs.Values.{is_of_kind, blank_of};
ghost use Rattle.lt_schema.specs.Names.{kind_named};
ghost use Rattle.lt_schema.specs.Lawful.{is_time_kind};
ghost use Rattle.lt_schema.specs.Packing.{value_of};
ghost use Rattle.lt_schema.specs.declared.value.Value.TheVariants.{Int};

use crate::{Value, ValueView};
use lt_rec::{Label, Octets};
use std::alloc::Global;

/// The kind of a column.
#[derive(Clone, Copy, Debug, PartialEq, Eq)]
pub enum Kind {
    /// An integer within 32 bits, signed.
    Int32,
    /// An integer within 64 bits, signed.
    Int64,
    /// Microseconds since the Unix epoch, below 2^62.
    Time,
    /// A text in UTF-8.
    Text,
    /// Bytes.
    Blob,
}

impl Kind {
    /// Times are below this one.
    pub const TIME_END: i64 = 1 << 62;

    /// The kind of this name. Takes no memory.
    #[tactic(auto, unfolding(crate::specs::Names::kind_named))]
    pub fn named(name: &[u8]) -> Option<Kind>
        ensures exact { result ≡ kind_named name.now }
    {
        if name == b"int32".as_slice() {
            Some(Kind::Int32)
        } else if name == b"int64".as_slice() {
            Some(Kind::Int64)
        } else if name == b"time".as_slice() {
            Some(Kind::Time)
        } else if name == b"text".as_slice() {
            Some(Kind::Text)
        } else if name == b"blob".as_slice() {
            Some(Kind::Blob)
        } else {
            None
        }
    }

    /// 0, or an empty text or no bytes. Takes no memory.
    pub fn blank(self, alloc: Global) -> Value
        ensures exact { result ≡ blank_of self }
    {
        match self {
            Kind::Int32 | Kind::Int64 | Kind::Time => Value::Int(0),
            Kind::Text => Value::Text(Label::from_string(String::new(alloc))),
            Kind::Blob => Value::Blob(Octets::from_vec(Vec::new(alloc))),
        }
    }

    /// Whether it is that of times. Takes no memory.
    pub fn is_time(self) -> bool
        ensures exact { result ≡ is_time_kind self }
    {
        match self {
            Kind::Time => true,
            Kind::Int32 | Kind::Int64 | Kind::Text | Kind::Blob => false,
        }
    }

    /// Whether a value is of this kind: an integer within the kind's range, a text, or bytes. Takes no memory.
    pub fn has(self, value: &Value) -> bool
        ensures exact { result ≡ is_of_kind self value.now }
    {
        self.has_view(value.view())
    }

    /// The same of a value in place.
    pub fn has_view(self, value: ValueView<'_>) -> bool
        ensures exact { result ≡ is_of_kind self (value_of value.entry) }
    {
        match value {
            ValueView::Int(number) => self.has_number(number),
            ValueView::Text(_) => self == Kind::Text,
            ValueView::Blob(_) => self == Kind::Blob,
        }
    }

    fn has_number(self, number: i64) -> bool
        ensures { result ≡ is_of_kind self (Int number) }
    {
        match self {
            Kind::Int32 => i64::from(i32::MIN) <= number && number <= i64::from(i32::MAX),
            Kind::Int64 => true,
            Kind::Time => 0 <= number && number < Kind::TIME_END,
            Kind::Text | Kind::Blob => false,
        }
    }
}
