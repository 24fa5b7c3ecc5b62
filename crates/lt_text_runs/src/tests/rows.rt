use lt_codec::{BoundError, cut_of, rec_of, row_of};
use lt_json::schema_from_json;
use lt_rec::{Label, Rec};
use lt_schema::{Schema, Schemas, Value};
use std::alloc::Global;
use std::test::Fail;

const NARROW: &str =
    r#"{"columns":[{"name":"net","kind":"text"},{"name":"dev","kind":"int32"},{"name":"ts","kind":"time"},{"name":"bytes","kind":"int64"}],"key":3}"#;

const WIDE: &str =
    r#"{"columns":[{"name":"net","kind":"text"},{"name":"dev","kind":"int64"},{"name":"ts","kind":"time"},{"name":"bytes","kind":"int64"}],"key":3}"#;

/// The record of a row, under a schema that it passes.
fn record(alloc: Global, schema: &Schema, net: &str, device: i64) -> Option<Rec> {
    let Ok(net) = Label::copy_of(alloc, net) else {
        return None;
    };
    let row = [
        Value::Text(net),
        Value::Int(device),
        Value::Int(1),
        Value::Int(-2),
    ];
    match schema.check(row.as_slice()) {
        Ok(()) => rec_of(alloc, schema, 0, 7, row.as_slice()).ok(),
        Err(_) => None,
    }
}

fn record_under(alloc: Global, text: &str, net: &str, device: i64) -> Option<Rec> {
    match schema_from_json(alloc, text.as_bytes()) {
        Ok(schema) => record(alloc, &schema, net, device),
        Err(_) => None,
    }
}

#[test]
fn a_key_has_its_bytes_under_both_widths(rt: HostRuntime) {
    let key: [u8; 19] = [
        0x61, 0, 0, 0x80, 0, 0, 0, 0, 0, 0, 5, 0, 0, 0, 0, 0, 0, 0, 1,
    ];
    let body: [u8; 8] = [255, 255, 255, 255, 255, 255, 255, 254];
    for text in [NARROW, WIDE] {
        let Some(rec) = record_under(rt.alloc(), text, "a", 5) else {
            panic!(rt; "{text}");
        };
        assert_eq!(rt; rec.key(), key.as_slice(), "{text}");
        assert_eq!(rt; rec.body(), body.as_slice(), "{text}");
    }
}

#[test]
fn keys_rise_with_their_values(rt: HostRuntime) {
    for (low_net, low, high_net, high) in [
        ("a", 1, "a\x00", 1),
        ("a\x00", 1, "a\x01", 1),
        ("x", -2147483648, "x", -1),
        ("x", -1, "x", 0),
        ("x", 0, "x", 2147483647),
    ] {
        let (Some(below), Some(above)) = (
            record_under(rt.alloc(), NARROW, low_net, low),
            record_under(rt.alloc(), NARROW, high_net, high),
        ) else {
            panic!(rt; "{low_net} {low}");
        };
        assert!(rt;
            below.key() < above.key(),
            "{low_net} {low} {high_net} {high}"
        );
    }
}

#[test]
fn a_row_is_read_back(rt: HostRuntime) {
    let Ok(schema) = schema_from_json(rt.alloc(), NARROW.as_bytes()) else {
        panic!(rt; "no schema");
    };
    let Some(rec) = record(rt.alloc(), &schema, "a\x00b", -5) else {
        panic!(rt; "no record");
    };
    let Ok(schemas) = Schemas::of(rt.alloc(), schema) else {
        panic!(rt; "no memory");
    };
    let Ok(row) = row_of(rt.alloc(), &schemas, &rec) else {
        panic!(rt; "no row");
    };
    let [
        Value::Text(net),
        Value::Int(device),
        Value::Int(time),
        Value::Int(bytes),
    ] = row.as_slice()
    else {
        panic!(rt; "another row");
    };
    assert_eq!(rt; net.as_text(), "a\x00b");
    assert_eq!(rt; [*device, *time, *bytes], [-5, 1, -2]);
}

#[test]
fn a_bound_has_the_bytes_of_its_values(rt: HostRuntime) {
    let Ok(schema) = schema_from_json(rt.alloc(), NARROW.as_bytes()) else {
        panic!(rt; "no schema");
    };
    let Ok(net) = Label::copy_of(rt.alloc(), "a") else {
        panic!(rt; "no memory");
    };
    let Ok(cut) = cut_of(rt.alloc(), &schema, [Value::Text(net)].as_slice(), true) else {
        panic!(rt; "no bound");
    };
    assert_eq!(rt; cut.bytes.as_slice(), [0x61u8, 0, 0].as_slice());
    assert!(rt; cut.after);
    match cut_of(rt.alloc(), &schema, [Value::Int(5)].as_slice(), true) {
        Err(BoundError::WrongKind { column }) => assert_eq!(rt; column, 0),
        _ => panic!(rt; "an integer for a text"),
    }
}
