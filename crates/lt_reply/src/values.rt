//! The text of a row: each value after one space.
ghost use Rattle.std.specs.Prelude.{◌≡◌, ◌<◌, ◌++◌, OnOk, decimal};
ghost use Rattle.std.specs.List.{flat_map, list_all};
ghost use Rattle.std.specs.Fmt.{signed_decimal};
ghost use Rattle.lt_reply.specs.Texts.{is_plain, hex_byte, hex_digit, quoted_byte, row_line, spaced_value};
ghost use Rattle.lt_schema.specs.Packing.{value_of};

use itoa::Buffer;
use lt_rec::NoMemory;
use lt_schema::{Row, RowView, Rows, ValueView};

/// Appends a number's decimal digits.
pub fn put_number(out: &mut Vec<u8>, number: u64) -> Result<(), NoMemory>
    ensures { OnOk result (out.new.items ≡ out.old.items ++ decimal number) }
{
    let mut digits = Buffer::new();
    out.extend_from_slice(digits.format(number).as_bytes())?;
    Ok(())
}

fn put_integer(out: &mut Vec<u8>, integer: i64) -> Result<(), NoMemory>
    ensures { OnOk result (out.new.items ≡ out.old.items ++ signed_decimal integer) }
{
    let mut digits = Buffer::new();
    out.extend_from_slice(digits.format(integer).as_bytes())?;
    Ok(())
}

fn hex_digit(half: u8) -> u8
    requires { half < 16 }
    ensures { result ≡ hex_digit half }
{
    if half < 10 {
        b'0' + half
    } else {
        b'a' - 10 + half
    }
}

fn put_hex(out: &mut Vec<u8>, byte: u8) -> Result<(), NoMemory>
    ensures { OnOk result (out.new.items ≡ out.old.items ++ hex_byte byte) }
{
    out.extend_from_slice(&[hex_digit(byte / 16), hex_digit(byte % 16)])?;
    Ok(())
}

fn put_quoted(out: &mut Vec<u8>, byte: u8) -> Result<(), NoMemory>
    ensures { OnOk result (out.new.items ≡ out.old.items ++ quoted_byte byte) }
{
    match byte {
        b'"' | b'\\' => out.extend_from_slice(&[b'\\', byte])?,
        0..=0x1f | 0x7f => {
            out.extend_from_slice(b"\\x")?;
            put_hex(out, byte)?;
        }
        _ => out.push(byte)?,
    }
    Ok(())
}

fn is_plain(byte: u8) -> bool
    ensures { result ≡ is_plain byte }
{
    byte >= b' ' && byte <= b'~' && byte != b'"' && byte != b'\\'
}

fn is_all_plain(text: &[u8]) -> bool
    ensures { result ≡ list_all is_plain text.now }
{
    text.iter().all(|byte| is_plain(*byte))
}

fn put_each(out: &mut Vec<u8>, text: &[u8]) -> Result<(), NoMemory>
    ensures { OnOk result (out.new.items ≡ out.old.items ++ flat_map quoted_byte text.now) }
{
    for byte in text {
        put_quoted(out, *byte)?;
    }
    Ok(())
}

fn put_text(out: &mut Vec<u8>, text: &[u8]) -> Result<(), NoMemory>
    ensures { OnOk result (out.new.items ≡ out.old.items ++ flat_map quoted_byte text.now) }
{
    if !is_all_plain(text) {
        return put_each(out, text);
    }
    out.extend_from_slice(text)?;
    Ok(())
}

fn put_bytes(out: &mut Vec<u8>, bytes: &[u8]) -> Result<(), NoMemory>
    ensures { OnOk result (out.new.items ≡ out.old.items ++ flat_map hex_byte bytes.now) }
{
    for byte in bytes {
        put_hex(out, *byte)?;
    }
    Ok(())
}

fn put_value(out: &mut Vec<u8>, value: ValueView<'_>) -> Result<(), NoMemory>
    ensures { OnOk result (out.new.items ≡ out.old.items ++ spaced_value (value_of value.entry)) }
{
    match value {
        ValueView::Int(integer) => {
            out.push(b' ')?;
            put_integer(out, integer)?;
        }
        ValueView::Text(text) => {
            out.extend_from_slice(b" \"")?;
            put_text(out, text.as_bytes())?;
            out.push(b'"')?;
        }
        ValueView::Blob(bytes) => {
            out.extend_from_slice(b" 0x")?;
            put_bytes(out, bytes)?;
        }
    }
    Ok(())
}

/// Appends the line of a row.
pub fn put_row(out: &mut Vec<u8>, row: &Row) -> Result<(), NoMemory>
    ensures { OnOk result (out.new.items ≡ out.old.items ++ row_line row.now) }
{
    out.extend_from_slice(b"row")?;
    for value in row.as_slice() {
        put_value(out, value.view())?;
    }
    out.push(b'\n')?;
    Ok(())
}

fn put_row_in_place(out: &mut Vec<u8>, row: &RowView<'_>) -> Result<(), NoMemory>
    ensures { OnOk result (out.new.items ≡ out.old.items ++ row_line row.now) }
{
    out.extend_from_slice(b"row")?;
    for at in 0..row.len() {
        put_value(out, row.get(at))?;
    }
    out.push(b'\n')?;
    Ok(())
}

/// Appends the line of each row.
pub fn put_lines(out: &mut Vec<u8>, rows: &Rows) -> Result<(), NoMemory>
    ensures { OnOk result (out.new.items ≡ out.old.items ++ flat_map row_line rows.now) }
{
    for at in 0..rows.len() {
        put_row_in_place(out, &rows.row(at))?;
    }
    Ok(())
}
