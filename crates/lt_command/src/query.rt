use lt_schema::Row;

/// One end of a range of keys: leading values of a key. A strict edge excludes the keys that begin with them.
#[derive(Debug, Drop)]
pub struct Edge {
    pub values: Row,
    pub strict: bool,
}

/// A box of keys and times, with a direction and a limit. Both times, in microseconds, are included.
#[derive(Debug, Drop)]
pub struct Query {
    pub lo: Option<Edge>,
    pub hi: Option<Edge>,
    pub from: u64,
    pub to: u64,
    pub down: bool,
    pub limit: u64,
}
