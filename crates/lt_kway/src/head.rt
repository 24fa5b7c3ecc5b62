use lt_rec::Rec;

/// A source's number and the record that it gives next.
#[derive(Debug, Drop)]
pub struct Head {
    pub source: u64,
    pub rec: Rec,
}

/// Why a head was not put.
#[derive(Clone, Copy, Debug, PartialEq, Eq)]
pub enum HeadError {
    /// A head that is held has the same key; its source.
    Clash { source: u64 },
    NoMemory,
}
