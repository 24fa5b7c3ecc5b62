use lt_command::{BoundFault, Listing, MergeEnd, Reply};
use lt_rec::{Files, Label, Listed, Octets, Period};
use lt_reply::reply_text;
use lt_schema::{AlterError, Row, RowFault, RowsBuilder, Value};
use std::alloc::Global;
use std::process::Abort;
use std::test::Fail;

const ONE_ROW: &str =
    "rows 1 more place 7 since 3\nrow \"a\\\"b\\\\c\\x0a\\x7f\u{e9}\" 0x00a9ff -9223372036854775808 0\n";

const LATEST_ROW: &str =
    "latest one place 1 since 2\nrow \"a\\\"b\\\\c\\x0a\\x7f\u{e9}\" 0x00a9ff -9223372036854775808 0\n";

fn row(alloc: Global) -> Result<Row, Fail> {
    let text = Label::copy_of(alloc, "a\"b\\c\n\u{7f}\u{e9}")?;
    let bytes = Octets::from_slice(alloc, &[0, 0xa9, 0xff])?;
    let values = vec![in alloc;
        Value::Text(text),
        Value::Blob(bytes),
        Value::Int(-9223372036854775808),
        Value::Int(0),
    ]?;
    Ok(Row::from_vec(values))
}

/// Tells the case where the reply has another text.
fn same(rt: &impl Abort, alloc: Global, reply: &Reply, wanted: &str) -> Result<(), Fail> {
    let text = reply_text(alloc, reply)?;
    assert_eq!(rt; text.as_slice(), wanted.as_bytes(), "the text of {reply:?}");
    Ok(())
}

fn rows(alloc: Global, row: Option<Row>, more: bool) -> Result<Reply, Fail> {
    let mut rows = RowsBuilder::new(alloc);
    if let Some(row) = row {
        rows.push_row(row.as_slice())?;
    }
    Ok(Reply::Rows {
        rows: rows.finish(),
        more,
        place: 7,
        since: 3,
    })
}

#[test]
fn rows_are_printed_value_by_value(rt: HostRuntime) -> Result<(), Fail> {
    let one = rows(rt.alloc(), Some(row(rt.alloc())?), true)?;
    same(&rt, rt.alloc(), &one, ONE_ROW)?;
    let none = rows(rt.alloc(), None, false)?;
    same(&rt, rt.alloc(), &none, "rows 0 all place 7 since 3\n")
}

fn latest(row: Option<Row>) -> Reply {
    Reply::Latest {
        row,
        place: 1,
        since: 2,
    }
}

#[test]
fn a_latest_row_is_one_line(rt: HostRuntime) -> Result<(), Fail> {
    let one = latest(Some(row(rt.alloc())?));
    same(&rt, rt.alloc(), &one, LATEST_ROW)?;
    same(
        &rt,
        rt.alloc(),
        &latest(None),
        "latest none place 1 since 2\n",
    )
}

fn replies() -> [(Reply, &'static str); 11] {
    [
        (Reply::BadLine { at: 12 }, "bad line at 12\n"),
        (
            Reply::Inserted {
                seq: 4611686018427387903,
            },
            "ok 4611686018427387903\n",
        ),
        (Reply::TooOld { since: 5 }, "too old 5\n"),
        (Reply::Present { seq: 0 }, "present 0\n"),
        (Reply::Spent, "spent\n"),
        (Reply::BadLimit { given: 10001 }, "bad limit 10001\n"),
        (Reply::NoTablet { id: 9 }, "no tablet 9\n"),
        (Reply::Version { version: 1 }, "version 1\n"),
        (Reply::Damaged { file: 1, at: 210 }, "damaged 1 210\n"),
        (Reply::Fault, "fault\n"),
        (Reply::NoMemory, "no memory\n"),
    ]
}

#[test]
fn replies_are_lines(rt: HostRuntime) -> Result<(), Fail> {
    for (reply, wanted) in replies() {
        same(&rt, rt.alloc(), &reply, wanted)?;
    }
    Ok(())
}

static FLUSHES: [(u64, &[u64], &str); 2] = [
    (4, &[0, 1, 2], "flushed 4 tablets 0 1 2\n"),
    (0, &[], "flushed 0 tablets\n"),
];

fn flushed(alloc: Global, kept: u64, tablets: &[u64]) -> Result<Reply, Fail> {
    Ok(Reply::Flushed {
        kept,
        tablets: Files::from_vec(Vec::from_slice(alloc, tablets)?),
    })
}

#[test]
fn flushes_are_lines(rt: HostRuntime) -> Result<(), Fail> {
    for (kept, tablets, wanted) in FLUSHES.iter() {
        let reply = flushed(rt.alloc(), *kept, *tablets)?;
        same(&rt, rt.alloc(), &reply, *wanted)?;
    }
    Ok(())
}

static UPKEEPS: [(&[u64], Option<MergeEnd>, u64, &str); 4] = [
    (&[], None, 2, "upkeep low 5 run none swept 2\n"),
    (
        &[3, 1],
        Some(MergeEnd::Merged { file: 7 }),
        2,
        "upkeep low 5 run 3 1 into 7 swept 2\n",
    ),
    (
        &[3, 1],
        Some(MergeEnd::Emptied),
        0,
        "upkeep low 5 run 3 1 into none swept 0\n",
    ),
    (
        &[3, 1],
        Some(MergeEnd::Gone { file: 3 }),
        1,
        "upkeep low 5 run 3 1 gone 3 swept 1\n",
    ),
];

fn upkept(alloc: Global, run: &[u64], end: Option<MergeEnd>, swept: u64) -> Result<Reply, Fail> {
    Ok(Reply::Upkept {
        low: 5,
        run: Files::from_vec(Vec::from_slice(alloc, run)?),
        end,
        swept,
    })
}

#[test]
fn upkeeps_are_lines(rt: HostRuntime) -> Result<(), Fail> {
    for (run, end, swept, wanted) in UPKEEPS.iter() {
        let reply = upkept(rt.alloc(), *run, *end, *swept)?;
        same(&rt, rt.alloc(), &reply, *wanted)?;
    }
    Ok(())
}

fn tablet() -> Listed {
    Listed {
        file: 5,
        rows: 2,
        bytes: 258,
        low: 1500000000000000,
        high: 1500000000000001,
        period: Period::new(1499990400000000, Period::FOUR_HOURS),
        first: 0,
        last: 1,
    }
}

const ONE_TABLET: &str =
    "tablets 1\ntablet 5 rows 2 bytes 258 span 1500000000000000 1500000000000001 period 1499990400000000 14400000000 numbers 0 1\n";

#[test]
fn a_listing_has_a_line_a_tablet(rt: HostRuntime) -> Result<(), Fail> {
    let listing = Listing::from_vec(vec![in rt.alloc(); tablet()]?);
    same(&rt, rt.alloc(), &Reply::Tablets { listing }, ONE_TABLET)?;
    let listing = Listing::from_vec(Vec::new(rt.alloc()));
    same(&rt, rt.alloc(), &Reply::Tablets { listing }, "tablets 0\n")
}

fn refusals() -> [(Reply, &'static str); 11] {
    [
        (
            Reply::BadRow {
                fault: RowFault::Arity { want: 4, got: 5 },
            },
            "bad row arity 4 5\n",
        ),
        (
            Reply::BadRow {
                fault: RowFault::WrongKind { column: 2 },
            },
            "bad row kind 2\n",
        ),
        (
            Reply::BadRow {
                fault: RowFault::KeyLong { len: 4097 },
            },
            "bad row key 4097\n",
        ),
        (
            Reply::BadRow {
                fault: RowFault::BodyLong { len: 60001 },
            },
            "bad row body 60001\n",
        ),
        (
            Reply::BadBound {
                fault: BoundFault::Count,
            },
            "bad bound count\n",
        ),
        (
            Reply::BadBound {
                fault: BoundFault::WrongKind { column: 1 },
            },
            "bad bound kind 1\n",
        ),
        (
            Reply::Refused {
                why: AlterError::Exists,
            },
            "exists\n",
        ),
        (
            Reply::Refused {
                why: AlterError::TooMany,
            },
            "too many columns\n",
        ),
        (
            Reply::Refused {
                why: AlterError::BadDefault,
            },
            "bad default\n",
        ),
        (
            Reply::Refused {
                why: AlterError::NoColumn,
            },
            "no column\n",
        ),
        (
            Reply::Refused {
                why: AlterError::NotInt32,
            },
            "not int32\n",
        ),
    ]
}

#[test]
fn refusals_are_lines(rt: HostRuntime) -> Result<(), Fail> {
    for (reply, wanted) in refusals() {
        same(&rt, rt.alloc(), &reply, wanted)?;
    }
    Ok(())
}
