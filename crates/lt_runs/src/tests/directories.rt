// What is found in a directory: descriptors, and the last numbers of rows and files.
use super::{CREATE, SCHEMA, SESSION, begun, run_over, same, written};
use lt_desc::{Stone, Tablets, encode};
use lt_json::schema_from_json;
use lt_memdev::MemDir;
use lt_rec::Octets;
use lt_schema::Schemas;
use lt_serve::Status;
use std::alloc::Global;
use std::test::Fail;

#[test]
fn a_session_keeps_its_schema(rt: HostRuntime) -> Result<(), Fail> {
    let change = "a: insert \"x\" 1 5 10\na: alter append up int64 3";
    let dir = begun(rt.alloc(), &CREATE, change)?.dir;
    let next = written(rt.alloc(), dir, "a: insert \"x\" 1 5 10 7\na: scan")?;
    let text =
        "client a\nok 0\nrows 1 all place 1 since 0\nrow \"x\" 1 5 10 7\nend next 1 kept 0\n";
    same(&rt, next.as_slice(), text, "a column that was appended");
    Ok(())
}

/// A descriptor of the schema with a time to live.
fn descriptor(alloc: Global) -> Result<Vec<u8>, Fail> {
    let Ok(schema) = schema_from_json(alloc, SCHEMA.as_bytes()) else {
        return Err("no schema".into());
    };
    let schemas = Schemas::of(alloc, schema)?;
    let _first = schemas.first();
    let tablets = Tablets::from_vec(Vec::new(alloc));
    let stone = Stone::new(0, 0, Some(604_800_000_000), 1, schemas, tablets);
    Ok(encode(alloc, &stone)?.into_vec())
}

#[test]
fn a_byte_too_many_is_named(rt: HostRuntime) -> Result<(), Fail> {
    let mut bytes = descriptor(rt.alloc())?;
    bytes.push(0)?;
    let dir = MemDir::with(rt.alloc(), &[], Some(Octets::from_vec(bytes)))?;
    let ran = run_over(rt.alloc(), dir, &[], &SESSION, b"")?;
    assert_eq!(rt;
        (ran.status.code(), ran.text.as_slice()),
        (9, b"error: bad descriptor at 114\n".as_slice())
    );
    Ok(())
}

const NO_TABLET: [u8; 4] = [0; 4];

/// The list of one tablet: file 1, one row of one byte, its timestamp 0 in a period of four hours, its number 0.
const ONE_TABLET: [u8; 76] = [
    0, 0, 0, 1, //
    0, 0, 0, 0, 0, 0, 0, 1, 0, 0, 0, 0, 0, 0, 0, 1, 0, 0, 0, 0, 0, 0, 0, 1, //
    0, 0, 0, 0, 0, 0, 0, 0, 0, 0, 0, 0, 0, 0, 0, 0, 0, 0, 0, 0, 0, 0, 0, 0, //
    0, 0, 0, 3, 90, 78, 144, 0, 0, 0, 0, 0, 0, 0, 0, 0, 0, 0, 0, 0, 0, 0, 0, 0, //
];

/// A directory without files, whose descriptor is that of a table of one column `ts` without a time to live.
fn described(alloc: Global, kept: u64, next_file: u64, tablets: &[u8]) -> Result<MemDir, Fail> {
    let mut text = Vec::from_slice(alloc, b"LTDESCR1")?;
    text.extend_from_slice(&kept.to_be_bytes())?;
    text.extend_from_slice(&[0; 9])?;
    text.extend_from_slice(&next_file.to_be_bytes())?;
    text.extend_from_slice(&[0, 0, 0, 1, 0, 0, 0, 1, 0, 0, 0, 2, 116, 115, 2])?;
    text.extend_from_slice(&[0; 12])?;
    text.extend_from_slice(tablets)?;
    Ok(MemDir::with(alloc, &[], Some(Octets::from_vec(text)))?)
}

#[test]
fn a_table_with_rows_in_files_is_not_opened(rt: HostRuntime) -> Result<(), Fail> {
    for input in ["", "# remark", "\na: scan\nb: scan", "a: scan\na: flush"] {
        let dir = described(rt.alloc(), 1, 2, &ONE_TABLET)?;
        let text = written(rt.alloc(), dir, input)?;
        same(&rt, text.as_slice(), "error: not yet at line 0\n", input);
    }
    Ok(())
}

/// The number below which all is durable, the next file's number, and a session's lines with what it writes.
static LAST_NUMBERS: [(u64, u64, &str, &str); 4] = [
    (
        4611686018427387903,
        1,
        "a: insert 5\na: insert 6\na: insert 5",
        "client a\nok 4611686018427387903\nspent\npresent 4611686018427387903\nend next 4611686018427387904 kept 4611686018427387903\n",
    ),
    (
        4611686018427387904,
        1,
        "a: insert 5\na: scan",
        "client a\nspent\nrows 0 all place 4611686018427387904 since 0\nend next 4611686018427387904 kept 4611686018427387904\n",
    ),
    (
        0,
        4611686018427387903,
        "a: alter append up text\na: alter append down text\na: insert 5 \"\"",
        "client a\nversion 1\nspent\nok 0\nend next 1 kept 0\n",
    ),
    (
        0,
        4611686018427387904,
        "a: alter widen ts\na: alter append up text\na: insert 5",
        "client a\nnot int32\nspent\nok 0\nend next 1 kept 0\n",
    ),
];

#[test]
fn the_last_numbers_and_none_after_them(rt: HostRuntime) -> Result<(), Fail> {
    for (kept, next_file, input, text) in LAST_NUMBERS.iter() {
        let dir = described(rt.alloc(), *kept, *next_file, &NO_TABLET)?;
        let found = written(rt.alloc(), dir, *input)?;
        same(&rt, found.as_slice(), *text, *input);
    }
    Ok(())
}

/// A directory with a file of the last number.
fn strayed(alloc: Global, descriptor: Option<Octets>) -> Result<MemDir, Fail> {
    let files = [(4611686018427387903, Octets::from_slice(alloc, b"?")?)];
    Ok(MemDir::with(alloc, files.as_slice(), descriptor)?)
}

#[test]
fn no_table_is_made_beside_a_file_of_the_last_number(rt: HostRuntime) -> Result<(), Fail> {
    let made = run_over(rt.alloc(), strayed(rt.alloc(), None)?, &[], &CREATE, b"")?;
    assert_eq!(rt;
        (made.status, made.text.as_slice()),
        (Status::Spent, b"error: spent\n".as_slice())
    );
    Ok(())
}

#[test]
fn a_table_beside_a_file_of_the_last_number_takes_rows_alone(rt: HostRuntime) -> Result<(), Fail> {
    let bytes = Octets::from_vec(descriptor(rt.alloc())?);
    let dir = strayed(rt.alloc(), Some(bytes))?;
    let input = "a: alter widen dev\na: insert \"x\" 1 1500000000000000 10";
    let found = written(rt.alloc(), dir, input)?;
    same(
        &rt,
        found.as_slice(),
        "client a\nspent\nok 0\nend next 1 kept 0\n",
        input,
    );
    Ok(())
}
