use crate::content::Content;

/// What a call made of what stands for good.
#[derive(Debug, Drop)]
pub(crate) enum Change {
    /// The file stands so.
    Entered { file: u64, bytes: Content },
    /// Nothing is known of the file.
    Loosened { file: u64 },
    /// The bytes joined the possible descriptors.
    Joined { bytes: Content },
    /// The descriptor is the only possible one.
    Settled { descriptor: Option<Content> },
    Nothing,
}

/// A moment: what it changed, and the ceiling that stood at the end of the one before.
#[derive(Debug, Drop)]
pub(crate) struct Moment {
    pub ceiling: u64,
    pub change: Change,
}
