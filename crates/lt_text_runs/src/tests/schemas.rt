use lt_json::{SchemaError, schema_from_json};
use lt_schema::{Kind, Value};
use std::alloc::Global;
use std::test::Fail;

const DEVICES: &str =
    r#"{"columns":[{"name":"net","kind":"text"},{"name":"dev","kind":"int32"},{"name":"ts","kind":"time"},{"name":"bytes","kind":"int64","default":0}],"key":3}"#;

#[test]
fn a_schema_of_devices_is_read(rt: HostRuntime) {
    let schema = match schema_from_json(rt.alloc(), DEVICES.as_bytes()) {
        Ok(schema) => schema,
        Err(_) => panic!(rt; "refused"),
    };
    assert_eq!(rt; schema.key_len(), 3);
    let columns = schema.columns().as_slice();
    let wanted = [
        ("net", Kind::Text),
        ("dev", Kind::Int32),
        ("ts", Kind::Time),
        ("bytes", Kind::Int64),
    ];
    assert_eq!(rt; columns.len(), wanted.len());
    for (column, (name, kind)) in columns.iter().zip(wanted) {
        assert_eq!(rt; column.name().as_text(), name);
        assert_eq!(rt; column.kind(), kind, "{name}");
    }
}

fn refusal_of(alloc: Global, text: &str) -> Option<SchemaError> {
    match schema_from_json(alloc, text.as_bytes()) {
        Ok(_) => None,
        Err(refusal) => Some(refusal),
    }
}

#[test]
fn a_text_is_refused_for_its_form(rt: HostRuntime) {
    for (text, refusal) in [
        ("{", SchemaError::NotJson),
        ("[]", SchemaError::Shape { field: 0 }),
        (
            r#"{"columns":[],"key":1,"x":1}"#,
            SchemaError::Shape { field: 0 },
        ),
        (r#"{"columns":[],"key":1}"#, SchemaError::Shape { field: 1 }),
        (
            r#"{"columns":[{"name":"a","kind":"text"}],"key":2}"#,
            SchemaError::Shape { field: 2 },
        ),
        (
            r#"{"columns":[{"name":"a","kind":"time"}],"key":1.0}"#,
            SchemaError::Shape { field: 2 },
        ),
        (
            r#"{"columns":[{"name":"a","kind":"time"},{"name":"A","kind":"time"}],"key":1}"#,
            SchemaError::Shape { field: 4 },
        ),
    ] {
        assert_eq!(rt; refusal_of(rt.alloc(), text), Some(refusal), "{text}");
    }
}

#[test]
fn a_schema_is_refused_for_its_meaning(rt: HostRuntime) {
    for (text, refusal) in [
        (
            r#"{"columns":[{"name":"a","kind":"text"}],"key":1}"#,
            SchemaError::NoTime,
        ),
        (
            r#"{"columns":[{"name":"a","kind":"time"},{"name":"a","kind":"text"}],"key":1}"#,
            SchemaError::Twice { column: 1 },
        ),
        (
            r#"{"columns":[{"name":"a","kind":"time","default":-1}],"key":1}"#,
            SchemaError::BadDefault { column: 0 },
        ),
        (
            r#"{"columns":[{"name":"a","kind":"time"},{"name":"b","kind":"int64","default":9223372036854775808}],"key":1}"#,
            SchemaError::BadDefault { column: 1 },
        ),
        (
            r#"{"columns":[{"name":"a","kind":"time"},{"name":"b","kind":"blob","default":"0fe"}],"key":1}"#,
            SchemaError::BadDefault { column: 1 },
        ),
    ] {
        assert_eq!(rt; refusal_of(rt.alloc(), text), Some(refusal), "{text}");
    }
}

fn default_of(alloc: Global, member: &str) -> Result<Option<Value>, std::alloc::AllocError> {
    let text = format!(in alloc;
        r#"{{"columns":[{{"name":"a","kind":"time"}},{{"name":"b",{member}}}],"key":1}}"#
    )?;
    let Ok(schema) = schema_from_json(alloc, text.as_bytes()) else {
        return Ok(None);
    };
    match schema.columns().as_slice() {
        [_, column] => Ok(Some(column.default().clone()?)),
        _ => Ok(None),
    }
}

#[test]
fn defaults_are_read(rt: HostRuntime) {
    for (member, number) in [
        (r#""kind":"int32","default":-2147483648"#, -2147483648),
        (
            r#""kind":"time","default":4611686018427387903"#,
            4611686018427387903,
        ),
        (r#""kind":"int64""#, 0),
    ] {
        let Ok(Some(Value::Int(found))) = default_of(rt.alloc(), member) else {
            panic!(rt; "{member}");
        };
        assert_eq!(rt; found, number, "{member}");
    }
    let Ok(Some(Value::Blob(found))) = default_of(rt.alloc(), r#""kind":"blob","default":"00fFa1""#)
    else {
        panic!(rt; "no bytes");
    };
    assert_eq!(rt; found.as_slice(), [0u8, 255, 161].as_slice());
}
