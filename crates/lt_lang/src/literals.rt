//! Literals: an integer, a text or bytes.
ghost use Rattle.std.specs.Prelude.{◌≡◌, IfOk};
ghost use Rattle.lt_lang.specs.Reading.{Finds};
ghost use Rattle.lt_lang.specs.Parsing.{beside, literal_at, literal_here, literals_at, text_behind, word_value};
ghost use Rattle.lt_lang.specs.Tokens.{behind, word_of};

use crate::integers::{integer_here, integer_of};
use crate::texts::text_behind;
use crate::tokens::{after, skip_spaces, split_word};
use lt_hex::hex_bytes;
use lt_rec::NoMemory;
use lt_schema::{Row, Value};
use std::alloc::Global;

/// Room for the values of most rows.
const ROW: usize = 8;

#[tactic(auto, unfolding(crate::specs::Parsing::word_value))]
fn word_value(alloc: Global, word: &[u8]) -> Result<Option<Value>, NoMemory>
    ensures { IfOk result (λ found. Finds (λ x. x) found (word_value word.now)) }
{
    match after(word, b"0x") {
        Some(digits) => match hex_bytes(alloc, digits)? {
            Some(bytes) => Ok(Some(Value::Blob(bytes))),
            None => Ok(None),
        },
        None => match integer_of(word) {
            Some(integer) => Ok(Some(Value::Int(integer))),
            None => Ok(None),
        },
    }
}

#[inline(always)]
fn text_value(alloc: Global, body: &[u8]) -> Result<Option<(Value, &[u8])>, NoMemory>
    ensures { IfOk result (λ found. Finds (λ x. (x.0, x.1.now)) found (text_behind body.now)) }
{
    match text_behind(alloc, body)? {
        Some((text, rest)) => Ok(Some((Value::Text(text), rest))),
        None => Ok(None),
    }
}

#[inline(never)]
fn word_here(alloc: Global, bytes: &[u8]) -> Result<Option<(Value, &[u8])>, NoMemory>
    ensures { IfOk result (λ found. Finds (λ x. (x.0, x.1.now)) found (beside (behind bytes.now) (word_value (word_of bytes.now)))) }
{
    let (word, rest) = split_word(bytes);
    match word_value(alloc, word)? {
        Some(value) => Ok(Some((value, rest))),
        None => Ok(None),
    }
}

#[tactic(auto, using(crate::proofs::LiteralLoop::nothing_here), unfolding(crate::specs::Parsing::literal_here))]
#[inline(always)]
fn literal_here(alloc: Global, bytes: &[u8]) -> Result<Option<(Value, &[u8])>, NoMemory>
    ensures { IfOk result (λ found. Finds (λ x. (x.0, x.1.now)) found (literal_here bytes.now)) }
{
    match bytes.split_first() {
        Some((b'"', body)) => text_value(alloc, body),
        None => Ok(None),
        Some(_) => match integer_here(bytes) {
            Some((integer, rest)) => Ok(Some((Value::Int(integer), rest))),
            None => word_here(alloc, bytes),
        },
    }
}

/// The next token, where it is a literal.
#[tactic(auto, unfolding(crate::specs::Parsing::literal_at))]
#[inline(always)]
pub fn literal_at(alloc: Global, bytes: &[u8]) -> Result<Option<(Value, &[u8])>, NoMemory>
    ensures { IfOk result (λ found. Finds (λ x. (x.0, x.1.now)) found (literal_at bytes.now)) }
{
    literal_here(alloc, skip_spaces(bytes))
}

/// As many literals as come next.
pub fn literals_at(alloc: Global, bytes: &[u8]) -> Result<(Row, &[u8]), NoMemory>
    ensures { IfOk result (λ found. (found.0, found.1.now) ≡ literals_at bytes.now) }
{
    let mut values = Vec::with_capacity(alloc, ROW)?;
    let mut rest = bytes;
    while let Some((value, after)) = literal_at(alloc, rest)? {
        values.push(value)?;
        rest = after;
    }
    Ok((Row::from_vec(values), rest))
}
