use lt_command::Line;
use lt_lang::{one_meaning, read_line};
use std::test::Fail;

static BAD: [(&str, &str, u64); 62] = [
    ("Hello", "?", 0),
    ("A: scan", "?", 0),
    ("a scan", "?", 0),
    ("  a scan", "?", 2),
    (": scan", "?", 0),
    ("a:scan", "?", 0),
    ("012345678901234567890123456789012: scan", "?", 0),
    ("\u{e9}: scan", "?", 0),
    ("\"a\": scan", "?", 0),
    ("a:", "a", 2),
    ("a: ", "a", 3),
    ("a: insrt \"x\"", "a", 3),
    ("  a:  bogus  ", "a", 6),
    ("a: scan\r", "a", 3),
    ("a:\tscan", "?", 0),
    ("a: @1", "a", 5),
    ("a: @ scan", "a", 3),
    ("a: @4611686018427387904 scan", "a", 3),
    ("a: @-1 scan", "a", 3),
    ("a: @1 @2 scan", "a", 6),
    ("a: insert 1 x", "a", 12),
    ("a: insert \"x", "a", 10),
    ("a: insert \"x\"1", "a", 10),
    ("a: insert \"\\q\"", "a", 10),
    ("a: insert \"\\x80\"", "a", 10),
    ("a: insert \"\\x4\"", "a", 10),
    ("a: insert 0x0", "a", 10),
    ("a: insert 0xgg", "a", 10),
    ("a: insert 0X00", "a", 10),
    ("a: insert 9223372036854775808", "a", 10),
    ("a: insert 1 -9223372036854775809", "a", 12),
    ("a: insert 00000000000000000001", "a", 10),
    ("a: insert -", "a", 10),
    ("a: insert +1", "a", 10),
    ("a: scan limit", "a", 13),
    ("a: scan ge", "a", 10),
    ("a: scan ge le 1", "a", 11),
    ("a: scan le 1 ge 2", "a", 13),
    ("a: scan ge 1 gt 2", "a", 13),
    ("a: scan ge 1 12x", "a", 13),
    ("a: scan time 1", "a", 14),
    ("a: scan time 1 -2", "a", 15),
    ("a: scan asc desc", "a", 12),
    ("a: scan limit 1 asc", "a", 16),
    ("a: scan limit 1 limit 2", "a", 16),
    ("a: scan 1", "a", 8),
    ("a: flush x", "a", 9),
    ("a: flush 1 2", "a", 11),
    ("a: upkeep 1", "a", 10),
    ("a: tablets x", "a", 11),
    ("a: latest x", "a", 10),
    ("a: alter", "a", 8),
    ("a: alter drop x", "a", 9),
    ("a: alter append", "a", 15),
    ("a: alter append x", "a", 17),
    ("a: alter append X int32", "a", 16),
    ("a: alter append 1x int32", "a", 16),
    ("a: alter append x int16", "a", 18),
    ("a: alter append x int32 y", "a", 24),
    ("a: alter append x int32 1 2", "a", 26),
    ("a: alter widen", "a", 14),
    ("a: alter widen x y", "a", 17),
];

#[test]
fn lines_are_bad_from_the_first_token_that_cannot_stand(rt: HostRuntime) -> Result<(), Fail> {
    for (line, name, offset) in BAD.iter() {
        let read = read_line(rt.alloc(), line.as_bytes())?;
        let same = match &read {
            Line::Bad { client, at } => client.as_text() == *name && *at == *offset,
            _ => false,
        };
        assert!(rt; same, "{line:?} gave {read:?}");
    }
    Ok(())
}

static NOT_UTF8: [&[u8]; 3] = [
    b"a: insert 1 \"\xff\"",
    b"a: insert 1 \"\xe2\\x41\"",
    b"a: insert 1 \xff",
];

#[test]
fn bytes_that_are_no_text_are_bad(rt: HostRuntime) -> Result<(), Fail> {
    for line in NOT_UTF8.iter() {
        let read = read_line(rt.alloc(), line)?;
        let same = matches!(&read, Line::Bad { client: _, at: 12 });
        assert!(rt; same, "{line:?} gave {read:?}");
    }
    Ok(())
}

#[test]
fn remarks_are_skipped(rt: HostRuntime) -> Result<(), Fail> {
    for line in ["", "   ", "#", "  # a: scan", "#a: scan"] {
        let read = read_line(rt.alloc(), line.as_bytes())?;
        assert!(rt; matches!(&read, Line::Skip), "{line:?} gave {read:?}");
    }
    one_meaning();
    Ok(())
}

static LAWFUL: [(&str, &str); 18] = [
    ("a: tablets", "a None Tablets"),
    ("a: @5 upkeep", "a Some(5) Upkeep"),
    (
        "a: @4611686018427387903 flush",
        "a Some(4611686018427387903) Flush { tablet: None }",
    ),
    ("  a:   flush 007  ", "a None Flush { tablet: Some(7) }"),
    (
        "01234567890123456789012345678901: latest",
        "01234567890123456789012345678901 None Latest { prefix: Row { values: [] } }",
    ),
    ("a_9: insert", "a_9 None Insert { row: Row { values: [] } }"),
    (
        "a: insert -0 0x \"\"",
        "a None Insert { row: Row { values: [Int(0), Blob(Octets { bytes: [] }), Text(Label { text: \"\" })] } }",
    ),
    (
        "a: insert 0x00fF -9223372036854775808",
        "a None Insert { row: Row { values: [Blob(Octets { bytes: [0, 255] }), Int(-9223372036854775808)] } }",
    ),
    (
        "a: insert \"a b\" \"\\\"\\\\\\x41\"",
        "a None Insert { row: Row { values: [Text(Label { text: \"a b\" }), Text(Label { text: \"\\\"\\\\A\" })] } }",
    ),
    (
        "a: scan",
        "a None Scan { query: Query { lo: None, hi: None, from: 0, to: 4611686018427387903, down: false, limit: 1000 } }",
    ),
    (
        "a: scan asc",
        "a None Scan { query: Query { lo: None, hi: None, from: 0, to: 4611686018427387903, down: false, limit: 1000 } }",
    ),
    (
        "a: scan desc",
        "a None Scan { query: Query { lo: None, hi: None, from: 0, to: 4611686018427387903, down: true, limit: 1000 } }",
    ),
    (
        "a: @1 scan gt \"x\" 1 le \"y\" time 3 2 limit 0",
        "a Some(1) Scan { query: Query { lo: Some(Edge { values: Row { values: [Text(Label { text: \"x\" }), Int(1)] }, strict: true }), hi: Some(Edge { values: Row { values: [Text(Label { text: \"y\" })] }, strict: false }), from: 3, to: 2, down: false, limit: 0 } }",
    ),
    (
        "a: alter widen dev",
        "a None Alter { change: Widen(Label { text: \"dev\" }) }",
    ),
    (
        "a: alter append flag int32",
        "a None Alter { change: Append(Column { name: Label { text: \"flag\" }, kind: Int32, default: Int(0) }) }",
    ),
    (
        "a: alter append n text \"-\"",
        "a None Alter { change: Append(Column { name: Label { text: \"n\" }, kind: Text, default: Text(Label { text: \"-\" }) }) }",
    ),
    (
        "a: alter append raw blob",
        "a None Alter { change: Append(Column { name: Label { text: \"raw\" }, kind: Blob, default: Blob(Octets { bytes: [] }) }) }",
    ),
    (
        "a: alter append t time \"x\"",
        "a None Alter { change: Append(Column { name: Label { text: \"t\" }, kind: Time, default: Text(Label { text: \"x\" }) }) }",
    ),
];

#[test]
fn lawful_lines_are_commands(rt: HostRuntime) -> Result<(), Fail> {
    for (line, wanted) in LAWFUL.iter() {
        let read = read_line(rt.alloc(), line.as_bytes())?;
        let Line::Command {
            client,
            moment,
            command,
        } = &read
        else {
            panic!(rt; "{line:?} gave {read:?}");
        };
        let name = client.as_text();
        let text = format!(in rt.alloc(); "{name} {moment:?} {command:?}")?;
        assert_eq!(rt; text.as_str(), *wanted, "the line {line:?}");
    }
    Ok(())
}
