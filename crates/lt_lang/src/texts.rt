//! Texts in quotes, in which " and \ stand behind a \, and a byte below 80 may stand as \x and its two digits.
ghost use Rattle.std.specs.Prelude.{◌≡◌, ◌≤◌, IfOk, [], length};
ghost use Rattle.std.specs.List.{prefix_len};
ghost use Rattle.lt_schema.specs.declared.value.Value.TheVariants.{Text};
ghost use Rattle.lt_lang.specs.Reading.{Finds};
ghost use Rattle.lt_lang.specs.Literals.{is_bare};
ghost use Rattle.lt_lang.specs.Parsing.{closed_at, escape_at, hexed_at, piece_at, quoted_at, text_behind, text_by, utf8_of};

use crate::hex::hex_byte_at;
use crate::tokens::is_ended;
use lt_rec::{Label, NoMemory};
use memchr::memchr2;
use std::alloc::Global;

fn bare_len(bytes: &[u8]) -> usize
    ensures len { result ≡ prefix_len is_bare bytes.now }
    ensures within { result ≤ length bytes.now }
{
    match memchr2(b'"', b'\\', bytes) {
        Some(at) => at,
        None => bytes.len(),
    }
}

#[tactic(auto, unfolding(crate::specs::Parsing::hexed_at))]
fn hexed_at(bytes: &[u8]) -> Option<(u8, &[u8])>
    ensures { Finds (λ x. (x.0, x.1.now)) result (hexed_at bytes.now) }
{
    let (byte, rest) = hex_byte_at(bytes)?;
    if byte < 0x80 {
        Some((byte, rest))
    } else {
        None
    }
}

#[tactic(auto, unfolding(crate::specs::Parsing::escape_at))]
fn escape_at(bytes: &[u8]) -> Option<(u8, &[u8])>
    ensures { Finds (λ x. (x.0, x.1.now)) result (escape_at bytes.now) }
{
    match bytes.split_first() {
        Some((b'x', rest)) => hexed_at(rest),
        Some((b'"', rest)) => Some((b'"', rest)),
        Some((b'\\', rest)) => Some((b'\\', rest)),
        _ => None,
    }
}

#[tactic(auto, unfolding(crate::specs::Parsing::piece_at))]
fn piece_at(bytes: &[u8]) -> Option<(u8, &[u8])>
    ensures { Finds (λ x. (x.0, x.1.now)) result (piece_at bytes.now) }
{
    match bytes.split_first() {
        None | Some((b'"', _)) => None,
        Some((b'\\', rest)) => escape_at(rest),
        Some((byte, rest)) => Some((*byte, rest)),
    }
}

/// What is behind a closing quote.
fn closed_at(bytes: &[u8]) -> Option<&[u8]>
    ensures { Finds (λ x. ([], x.now)) result (closed_at bytes.now) }
{
    match bytes.split_first() {
        Some((b'"', rest)) => Some(rest),
        _ => None,
    }
}

fn quoted_at(alloc: Global, bytes: &[u8]) -> Result<Option<(Vec<u8>, &[u8])>, NoMemory>
    ensures { IfOk result (λ found. Finds (λ x. (x.0.items, x.1.now)) found (quoted_at bytes.now)) }
{
    let mut text = Vec::new(alloc);
    let mut rest = bytes;
    while let Some((byte, after)) = piece_at(rest) {
        text.push(byte)?;
        rest = after;
    }
    match closed_at(rest) {
        Some(behind) => Ok(Some((text, behind))),
        None => Ok(None),
    }
}

fn text_of(bytes: &[u8]) -> Option<&str>
    ensures { Finds (λ x. x.now) result (utf8_of bytes.now) }
{
    match std::str::from_utf8(bytes) {
        Ok(text) => Some(text),
        Err(_) => None,
    }
}

fn label_of(bytes: Vec<u8>) -> Option<Label>
    ensures { Finds (λ x. x) result (utf8_of bytes.items) }
{
    match String::from_utf8(bytes) {
        Ok(text) => {
            let label = Label::from_string(text);
            let _utf8 = label.as_slice();
            Some(label)
        }
        Err(_) => None,
    }
}

#[tactic(auto, unfolding(crate::specs::Parsing::text_behind))]
#[inline(never)]
fn unescaped(alloc: Global, bytes: &[u8]) -> Result<Option<(Label, &[u8])>, NoMemory>
    ensures { IfOk result (λ found. Finds (λ x. (Text x.0, x.1.now)) found (text_behind bytes.now)) }
{
    let Some((text, rest)) = quoted_at(alloc, bytes)? else {
        return Ok(None);
    };
    if !is_ended(rest) {
        return Ok(None);
    }
    match label_of(text) {
        Some(text) => Ok(Some((text, rest))),
        None => Ok(None),
    }
}

#[inline(always)]
fn copied<'a>(
    alloc: Global,
    text: &[u8],
    rest: &'a [u8],
) -> Result<Option<(Label, &'a [u8])>, NoMemory>
    ensures { IfOk result (λ found. Finds (λ x. (Text x.0, x.1.now)) found (text_by (Some (text.now, rest.now)))) }
{
    if !is_ended(rest) {
        return Ok(None);
    }
    match text_of(text) {
        Some(text) => Ok(Some((Label::copy_of(alloc, text)?, rest))),
        None => Ok(None),
    }
}

/// A text behind its opening quote, and the bytes behind its closing one. A text without escapes is copied once.
#[tactic(auto, unfolding(crate::specs::Parsing::text_behind))]
#[inline(always)]
pub fn text_behind(alloc: Global, bytes: &[u8]) -> Result<Option<(Label, &[u8])>, NoMemory>
    ensures { IfOk result (λ found. Finds (λ x. (Text x.0, x.1.now)) found (text_behind bytes.now)) }
{
    let (text, end) = bytes.split_at(bare_len(bytes));
    match closed_at(end) {
        Some(rest) => copied(alloc, text, rest),
        None if end.is_empty() => Ok(None),
        None => unescaped(alloc, bytes),
    }
}
