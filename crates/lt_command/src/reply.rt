use crate::{BoundFault, Listing, MergeEnd};
use lt_rec::Files;
use lt_schema::{AlterError, Row, RowFault, Rows};

/// The answer to a line.
#[derive(Debug, Drop)]
pub enum Reply {
    /// The line is outside the grammar from this offset on.
    BadLine {
        at: u64,
    },
    /// The row was added under this number.
    Inserted {
        seq: u64,
    },
    /// The row does not pass the schema.
    BadRow {
        fault: RowFault,
    },
    /// The row's timestamp is below this bound.
    TooOld {
        since: u64,
    },
    /// The row of this number has the key.
    Present {
        seq: u64,
    },
    /// No number is left.
    Spent,
    /// The first rows of the box, whether there are more, the place of the history that they are read at, and
    /// the bound from which rows are unexpired there.
    Rows {
        rows: Rows,
        more: bool,
        place: u64,
        since: u64,
    },
    /// The latest row of a prefix, with its place and bound.
    Latest {
        row: Option<Row>,
        place: u64,
        since: u64,
    },
    /// The limit isn't from 1 to 10,000.
    BadLimit {
        given: u64,
    },
    /// The values are no bound of a key.
    BadBound {
        fault: BoundFault,
    },
    /// All rows below this number are durable; the tablets in memory that were written, rising by number.
    Flushed {
        kept: u64,
        tablets: Files,
    },
    /// No tablet in memory has this number.
    NoTablet {
        id: u64,
    },
    /// The low bound after an upkeep, the inputs of its merge in the run's order and how it ended, and how many files
    /// were removed. The end is None where there was no run.
    Upkept {
        low: u64,
        run: Files,
        end: Option<MergeEnd>,
        swept: u64,
    },
    /// The schema's new version.
    Version {
        version: u64,
    },
    /// The change is not admitted.
    Refused {
        why: AlterError,
    },
    /// The tablets on disk.
    Tablets {
        listing: Listing,
    },
    /// A file is damaged at this offset.
    Damaged {
        file: u64,
        at: u64,
    },
    /// A device failed.
    Fault,
    /// Memory ran out.
    NoMemory,
}
