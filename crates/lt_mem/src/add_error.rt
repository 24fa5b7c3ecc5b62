/// Why a record was not added.
#[derive(Clone, Copy, Debug, PartialEq, Eq)]
pub enum AddError {
    /// A record that is held has the same key; its number.
    Present { seq: u64 },
    NoMemory,
}
