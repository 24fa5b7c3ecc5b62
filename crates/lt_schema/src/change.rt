ghost use Rattle.std.specs.Prelude.{◌≡◌};

use crate::Column;
use lt_rec::Label;
use std::alloc::AllocError;

/// A change of a schema.
#[derive(Debug, Drop)]
pub enum Change {
    /// A column more, at the end.
    Append(Column),
    /// The column of this name, of 32 bits, gets 64.
    Widen(Label),
}

impl Clone for Change {
    ghost is_clone = { λ x y. x ≡ y };

    fn clone(&self) -> Result<Change, AllocError> {
        match self {
            Change::Append(column) => Ok(Change::Append(column.clone()?)),
            Change::Widen(name) => Ok(Change::Widen(name.clone()?)),
        }
    }
}

/// Why a change is not admitted: the first of these that holds.
#[derive(Clone, Copy, Debug, PartialEq, Eq)]
pub enum AlterError {
    /// A column has the appended name.
    Exists,
    /// There are 64 columns.
    TooMany,
    /// The default isn't of its column's kind, or is longer than 1,024 bytes.
    BadDefault,
    /// No column has the widened name.
    NoColumn,
    /// The widened column isn't of 32 bits.
    NotInt32,
}
