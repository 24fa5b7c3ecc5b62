/// What the merge rule weighs of a tablet: its file's number, its least and greatest timestamps in microseconds since the
/// Unix epoch, and how many bytes its file has.
#[derive(Clone, Copy, Debug, PartialEq, Eq)]
pub struct Weigh {
    pub file: u64,
    pub low: u64,
    pub high: u64,
    pub bytes: u64,
}

/// Neighbours in a list: the place of the first one, and how many they are.
#[derive(Clone, Copy, Debug, PartialEq, Eq)]
pub struct Run {
    pub first: u64,
    pub count: u64,
}
