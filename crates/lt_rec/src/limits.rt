// The limits that the whole store keeps to.

/// Numbers of rows and of files, and timestamps, are below this one.
pub const NUMBERS_END: u64 = 1 << 62;
/// The most bytes of a block.
pub const LONGEST_BLOCK: usize = 65_536;
