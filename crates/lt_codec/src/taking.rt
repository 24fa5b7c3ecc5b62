// One value from the front of a key's or a body's bytes.

ghost use Rattle.std.specs.Prelude.{◌≡◌, ◌≤◌, ◌++◌, ℕ, IfOk, IfSome, OnOk, Some, None, Option, length, drop, option_map, option_and_then, if◌then◌else◌, false};
ghost use Rattle.std.specs.Int.{w32, w64};
ghost use Rattle.std.specs.Str.{is_utf8};
ghost use Rattle.lt_schema.specs.declared.value.Value.TheVariants.{Text, Blob};
ghost use Rattle.lt_schema.specs.Packing.{value_of};
ghost use Rattle.lt_codec.specs.Reading.{any_in_body, any_in_key, counted_at, in_body_at, in_key_at, number_of, piece_bytes, step, taken_value, turned_back, unescaped};

use lt_rec::{Label, NoMemory, Octets, bytes_of, u32_at, u64_at};
use lt_schema::{Kind, Value, ValueView};
use memchr::memchr;
use std::alloc::Global;

/// Bytes in place, or copied where they stand escaped.
#[derive(Debug, Drop)]
pub enum Piece<'a> {
    InPlace(&'a [u8]),
    Copied(Octets),
}

/// A value in place, or copied where its bytes stand escaped.
#[derive(Debug, Drop)]
pub enum Taken<'a> {
    InPlace(ValueView<'a>),
    Copied(Value),
}

impl<'a> Taken<'a> {
    fn int(number: i64) -> Taken<'a>
        ensures { taken_value result ≡ value_of (ValueView.Int number) }
    {
        Taken::InPlace(ValueView::Int(number))
    }

    pub fn view(&self) -> ValueView<'_>
        ensures { value_of result ≡ taken_value self.now }
    {
        match self {
            Taken::InPlace(view) => *view,
            Taken::Copied(value) => value.view(),
        }
    }
}

/// The value of a kind that the key's bytes begin with, where they spell one, and the bytes behind it.
#[tactic(auto, unfolding(crate::specs::Reading::in_key_at))]
pub fn take_from_key<'a>(
    alloc: Global,
    kind: Kind,
    bytes: &'a [u8],
) -> Result<Option<(Taken<'a>, &'a [u8])>, NoMemory>
    ensures exact { IfOk result (λ o. option_map (λ x. (taken_value x.0, x.1.now)) o ≡ in_key_at kind bytes.now) }
    ensures shorter { IfOk result (λ o. IfSome o (λ x. length x.1.now ≤ length bytes.now)) }
{
    match any_from_key(alloc, kind, bytes)? {
        Some((taken, rest)) if kind.has_view(taken.view()) => Ok(Some((taken, rest))),
        _ => Ok(None),
    }
}

fn any_from_key<'a>(
    alloc: Global,
    kind: Kind,
    bytes: &'a [u8],
) -> Result<Option<(Taken<'a>, &'a [u8])>, NoMemory>
    ensures exact { IfOk result (λ o. option_map (λ x. (taken_value x.0, x.1.now)) o ≡ any_in_key kind bytes.now) }
    ensures shorter { IfOk result (λ o. IfSome o (λ x. length x.1.now ≤ length bytes.now)) }
{
    match kind {
        Kind::Int32 | Kind::Int64 => match front_u64(bytes) {
            None => Ok(None),
            Some((number, rest)) => Ok(Some((Taken::int(turned_back(number)), rest))),
        },
        Kind::Time => match front_u64(bytes) {
            None => Ok(None),
            Some((number, rest)) => Ok(Some((Taken::int(number.cast_signed()), rest))),
        },
        Kind::Text => match take_escaped(alloc, bytes)? {
            None => Ok(None),
            Some((piece, rest)) => match text_of(alloc, piece)? {
                None => Ok(None),
                Some(text) => Ok(Some((text, rest))),
            },
        },
        Kind::Blob => match take_escaped(alloc, bytes)? {
            None => Ok(None),
            Some((piece, rest)) => Ok(Some((blob_of(piece), rest))),
        },
    }
}

/// The value of a kind that the body's bytes begin with, where they spell one, and the bytes behind it.
#[tactic(auto, unfolding(crate::specs::Reading::in_body_at))]
pub fn take_from_body(kind: Kind, bytes: &[u8]) -> Option<(Taken<'_>, &[u8])>
    ensures exact { option_map (λ x. (taken_value x.0, x.1.now)) result ≡ in_body_at kind bytes.now }
    ensures shorter { IfSome result (λ x. length x.1.now ≤ length bytes.now) }
{
    match any_from_body(kind, bytes) {
        Some((view, rest)) if kind.has_view(view) => Some((Taken::InPlace(view), rest)),
        _ => None,
    }
}

fn any_from_body(kind: Kind, bytes: &[u8]) -> Option<(ValueView<'_>, &[u8])>
    ensures exact { option_map (λ x. (value_of x.0, x.1.now)) result ≡ any_in_body kind bytes.now }
    ensures shorter { IfSome result (λ x. length x.1.now ≤ length bytes.now) }
{
    match kind {
        Kind::Int32 => match front_u32(bytes) {
            None => None,
            Some((number, rest)) => Some((ValueView::Int(i64::from(number.cast_signed())), rest)),
        },
        Kind::Int64 | Kind::Time => match front_u64(bytes) {
            None => None,
            Some((number, rest)) => Some((ValueView::Int(number.cast_signed()), rest)),
        },
        Kind::Text => match take_counted(bytes) {
            None => None,
            Some((text, rest)) => match text_in(text) {
                None => None,
                Some(text) => Some((ValueView::Text(text), rest)),
            },
        },
        Kind::Blob => match take_counted(bytes) {
            None => None,
            Some((blob, rest)) => Some((ValueView::Blob(blob), rest)),
        },
    }
}

/// The number of four bytes in front, and the bytes behind it.
fn front_u32(bytes: &[u8]) -> Option<(u32, &[u8])>
    ensures exact { option_map (λ x. (x.0, x.1.now)) result ≡ number_of w32 bytes.now }
    ensures shorter { IfSome result (λ x. length x.1.now ≤ length bytes.now) }
{
    match u32_at(0, bytes) {
        Ok((number, rest)) => Some((number, rest)),
        Err(_) => None,
    }
}

/// The number of eight bytes in front, and the bytes behind it.
fn front_u64(bytes: &[u8]) -> Option<(u64, &[u8])>
    ensures exact { option_map (λ x. (x.0, x.1.now)) result ≡ number_of w64 bytes.now }
    ensures shorter { IfSome result (λ x. length x.1.now ≤ length bytes.now) }
{
    match u64_at(0, bytes) {
        Ok((number, rest)) => Some((number, rest)),
        Err(_) => None,
    }
}

/// The number that had 2^63 added.
fn turned_back(number: u64) -> i64
    ensures { result ≡ turned_back number }
{
    if number < 1 << 63 {
        -1 - ((1 << 63) - 1 - number) as i64
    } else {
        (number - (1 << 63)) as i64
    }
}

/// The text of these bytes, where they are UTF-8.
fn text_in(bytes: &[u8]) -> Option<&str>
    ensures { option_map (λ s. s.now) result ≡ (if is_utf8 bytes.now then Some bytes.now else None) }
{
    match str::from_utf8(bytes) {
        Ok(text) => Some(text),
        Err(_) => None,
    }
}

fn text_of(alloc: Global, piece: Piece<'_>) -> Result<Option<Taken<'_>>, NoMemory>
    ensures { IfOk result (λ o. option_map taken_value o ≡ (if is_utf8 (piece_bytes piece.entry) then Some (Text (piece_bytes piece.entry)) else None)) }
{
    match piece {
        Piece::InPlace(bytes) => match text_in(bytes) {
            None => Ok(None),
            Some(text) => Ok(Some(Taken::InPlace(ValueView::Text(text)))),
        },
        Piece::Copied(bytes) => match text_in(bytes.as_slice()) {
            None => Ok(None),
            Some(text) => Ok(Some(Taken::Copied(Value::Text(Label::copy_of(alloc, text)?)))),
        },
    }
}

fn blob_of(piece: Piece<'_>) -> Taken<'_>
    ensures { taken_value result ≡ Blob (piece_bytes piece.entry) }
{
    match piece {
        Piece::InPlace(bytes) => Taken::InPlace(ValueView::Blob(bytes)),
        Piece::Copied(bytes) => Taken::Copied(Value::Blob(bytes)),
    }
}

/// Bytes behind their length.
#[tactic(auto, unfolding(crate::specs::Reading::counted_at))]
fn take_counted(bytes: &[u8]) -> Option<(&[u8], &[u8])>
    ensures exact { option_map (λ x. (x.0.now, x.1.now)) result ≡ counted_at bytes.now }
    ensures shorter { IfSome result (λ x. length x.1.now ≤ length bytes.now) }
{
    let (len, rest) = front_u32(bytes)?;
    match bytes_of(len as usize, 0, rest) {
        Ok((counted, rest)) => Some((counted, rest)),
        Err(_) => None,
    }
}

/// What the next byte of an escaped text does.
#[derive(Clone, Copy, Debug, PartialEq, Eq)]
enum Step {
    Put(u8),
    /// It is a 00, and the next byte decides.
    Wait,
    End,
    Fault,
}

fn step_of(zero: bool, byte: u8) -> Step
    ensures { result ≡ step zero byte }
{
    match (zero, byte) {
        (false, 0) => Step::Wait,
        (false, _) => Step::Put(byte),
        (true, 0) => Step::End,
        (true, 255) => Step::Put(0),
        (true, _) => Step::Fault,
    }
}

/// The bytes up to 00 00, of which each 00 ff is a zero, and those behind.
fn take_escaped<'a>(
    alloc: Global,
    bytes: &'a [u8],
) -> Result<Option<(Piece<'a>, &'a [u8])>, NoMemory>
    ensures exact { IfOk result (λ o. option_map (λ x. (piece_bytes x.0, x.1.now)) o ≡ unescaped false bytes.now) }
    ensures shorter { IfOk result (λ o. IfSome o (λ x. length x.1.now ≤ length bytes.now)) }
{
    if let Some((plain, rest)) = take_plain(bytes) {
        return Ok(Some((Piece::InPlace(plain), rest)));
    }
    match unescape(alloc, bytes)? {
        None => Ok(None),
        Some((unescaped, len)) => {
            let (_, rest) = bytes.split_at(len);
            Ok(Some((Piece::Copied(unescaped), rest)))
        }
    }
}

/// The bytes up to 00 00 and those behind, where no byte of them is a zero.
fn take_plain(bytes: &[u8]) -> Option<(&[u8], &[u8])>
    ensures exact { IfSome result (λ x. unescaped false bytes.now ≡ Some (x.0.now, x.1.now)) }
    ensures shorter { IfSome result (λ x. length x.1.now ≤ length bytes.now) }
{
    let end = memchr(0, bytes)?;
    if end + 1 >= bytes.len() || bytes[end + 1] != 0 {
        return None;
    }
    let (plain, _) = bytes.split_at(end);
    let (_, rest) = bytes.split_at(end + 2);
    Some((plain, rest))
}

/// The bytes up to 00 00 without their escapes, and how many were read.
fn unescape(alloc: Global, left: &[u8]) -> Result<Option<(Octets, usize)>, NoMemory>
    ensures exact { IfOk result (λ o. option_map (λ x. (x.0, drop x.1 left.now)) o ≡ unescaped false left.now) }
    ensures within { IfOk result (λ o. IfSome o (λ x. x.1 ≤ length left.now)) }
{
    let mut bytes = Vec::new(alloc);
    let mut zero = false;
    for (at, byte) in left.iter().enumerate() {
        match step_of(zero, *byte) {
            Step::Put(byte) => {
                bytes.push(byte)?;
                zero = false;
            }
            Step::Wait => zero = true,
            Step::End => return Ok(Some((Octets::from_vec(bytes), at + 1))),
            Step::Fault => return Ok(None),
        }
    }
    Ok(None)
}
