/// Why leading values are no bound of a key: the first of these that holds.
#[derive(Clone, Copy, Debug, PartialEq, Eq)]
pub enum BoundFault {
    /// There are more values than the key has columns, or where a prefix is asked for, as many.
    Count,
    /// The value of this column, the least such one, isn't of its kind.
    WrongKind { column: u32 },
}
