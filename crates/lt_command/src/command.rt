use crate::Query;
use lt_rec::Label;
use lt_schema::{Change, Row};

/// What a line asks.
#[derive(Debug, Drop)]
pub enum Command {
    /// Adds a row.
    Insert { row: Row },
    /// Shows the unexpired rows of a box.
    Scan { query: Query },
    /// Shows the latest unexpired row whose key begins with these values.
    Latest { prefix: Row },
    /// Makes a tablet in memory durable, with those that must go with it, or all.
    Flush { tablet: Option<u64> },
    /// Drops what is expired, merges once and removes files that nothing names.
    Upkeep,
    /// Changes the schema.
    Alter { change: Change },
    /// Shows the tablets on disk.
    Tablets,
}

/// A line of the input.
#[derive(Debug, Drop)]
pub enum Line {
    /// An empty line or a remark, which belongs to nobody.
    Skip,
    /// A line outside the grammar, and the offset of the first token that can't stand in its place.
    Bad {
        client: Label,
        at: u64,
    },
    /// A client's command, and its moment where the line tells one.
    Command {
        client: Label,
        moment: Option<u64>,
        command: Command,
    },
}
