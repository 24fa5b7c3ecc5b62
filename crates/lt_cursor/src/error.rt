use lt_tablet::ReadError;

/// Why a cursor gave no record.
#[derive(Clone, Copy, Debug, PartialEq, Eq)]
pub enum CursorError {
    /// A block was not read, or a record not copied. The cursor gives nothing more.
    Read(ReadError),
    /// An earlier call was refused, for this reason.
    Ended(ReadError),
}
