// Tables that are made, one that is there, and the texts that say no schema.
use super::{CREATE, SCHEMA, SESSION, begun, run_anew, run_over, same, written};
use itoa::Buffer;
use std::alloc::{AllocError, Global};
use std::test::Fail;

/// The words that make a table.
static MAKINGS: [&[&str]; 4] = [
    &CREATE,
    &["create", ".", SCHEMA, "1"],
    &["create", ".", SCHEMA, "4611686018427387903"],
    &["create", ".", SCHEMA, "0000000000000000001"],
];

/// What a session, the making, and the same making again write over one directory.
fn made_twice(alloc: Global, given: &[&str]) -> Result<Vec<u8>, Fail> {
    let none = run_anew(alloc, &SESSION)?;
    let mut text = none.text;
    let made = run_over(alloc, none.dir, &[], given, b"")?;
    text.extend_from_slice(made.text.as_slice())?;
    let again = run_over(alloc, made.dir, &[], given, b"")?;
    text.extend_from_slice(again.text.as_slice())?;
    Ok(text)
}

#[test]
fn a_table_is_made_once(rt: HostRuntime) -> Result<(), Fail> {
    for given in MAKINGS.iter() {
        let text = made_twice(rt.alloc(), *given)?;
        assert_eq!(rt;
            text.as_slice(),
            b"error: no table\ncreated\nerror: exists\n".as_slice(),
            "{given:?}"
        );
    }
    Ok(())
}

/// What `create` writes over a table whose schema was changed, and then a session that finds it.
fn made_over_changed(alloc: Global) -> Result<Vec<u8>, Fail> {
    let table = begun(alloc, &CREATE, "a: alter append up int64 3")?;
    let again = run_over(alloc, table.dir, &[], &CREATE, b"")?;
    let mut text = again.text;
    let found = written(alloc, again.dir, "a: insert \"x\" 1 5 10 7\na: scan")?;
    text.extend_from_slice(found.as_slice())?;
    Ok(text)
}

#[test]
fn a_table_that_exists_keeps_what_it_has(rt: HostRuntime) -> Result<(), Fail> {
    let text = made_over_changed(rt.alloc())?;
    let wanted =
        "error: exists\nclient a\nok 0\nrows 1 all place 1 since 0\nrow \"x\" 1 5 10 7\nend next 1 kept 0\n";
    same(&rt, text.as_slice(), wanted, "a table that is there");
    Ok(())
}

static NO_SCHEMAS: [(&str, &str); 5] = [
    ("{", "error: schema not json\n"),
    (
        r#"{"columns":[{"name":"a","kind":"text"}],"key":1}"#,
        "error: schema no time\n",
    ),
    (
        r#"{"columns":[{"name":"a","kind":"text"}],"key":2}"#,
        "error: schema shape 2\n",
    ),
    (
        r#"{"columns":[{"name":"a","kind":"time"},{"name":"a","kind":"time"}],"key":1}"#,
        "error: schema twice 1\n",
    ),
    (
        r#"{"columns":[{"name":"a","kind":"time","default":-1}],"key":1}"#,
        "error: schema default 0\n",
    ),
];

#[test]
fn texts_that_say_no_schema(rt: HostRuntime) -> Result<(), Fail> {
    for (schema, text) in NO_SCHEMAS.iter() {
        let ran = run_anew(rt.alloc(), &["create", ".", *schema])?;
        assert_eq!(rt; ran.status.code(), 12, "the schema {schema}");
        assert_eq!(rt; ran.text.as_slice(), text.as_bytes(), "the schema {schema}");
    }
    Ok(())
}

/// The text of a schema with so many columns.
fn schema_of_times(alloc: Global, columns: usize) -> Result<String, AllocError> {
    let mut text = String::from_str(alloc, r#"{"columns":["#)?;
    for at in 0..columns {
        text.push_str(if at > 0 { "," } else { "" })?;
        text.push_str(r#"{"name":"c"#)?;
        text.push_str(Buffer::new().format(at))?;
        text.push_str(r#"","kind":"time"}"#)?;
    }
    text.push_str(r#"],"key":1}"#)?;
    Ok(text)
}

#[test]
fn a_schema_of_sixty_four_columns_and_one_more(rt: HostRuntime) -> Result<(), Fail> {
    for (columns, text) in [(64, "created\n"), (65, "error: schema too many 65\n")] {
        let schema = schema_of_times(rt.alloc(), columns)?;
        let ran = run_anew(rt.alloc(), &["create", ".", schema.as_str()])?;
        assert_eq!(rt; ran.text.as_slice(), text.as_bytes(), "{columns} columns");
    }
    Ok(())
}
