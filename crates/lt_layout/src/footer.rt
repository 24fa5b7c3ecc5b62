//! The ends of a file: its length, its footer and its header.
ghost use Rattle.std.specs.Prelude.{◌≡◌, ◌+◌, ◌*◌, ◌<◌, ◌≤◌, ◌^◌, length, IfOk};
ghost use Rattle.lt_rec.specs.Reading.{Reads, holds};
ghost use Rattle.lt_layout.specs.Phases.{Lie};
ghost use Rattle.lt_layout.specs.Reading.{footer_place, numbers_at, footer_at, header_at, totals_at, same_at, filter_at};

use crate::totals::Totals;
use lt_rec::{Fault, test_at, u64_at};
use std::marker::Model;

/// The first eight bytes of a file.
pub const HEADER: [u8; 8] = *b"LTTABLE1";

pub const MARK: [u8; 8] = *b"LTTABEND";

/// How many bytes a footer has.
pub const FOOTER_LEN: u64 = 88;

const SHORTEST_FILE: u64 = 170;

/// Where the parts of a file lie, in bytes from its start.
#[derive(Clone, Copy, Debug)]
pub struct Parts {
    pub index: u64,
    pub blocks: u64,
    pub filter: u64,
    pub filter_len: u64,
}

impl Model for Parts {
    ghost use Rattle.lt_layout.specs.Spelling.{Parts as PartsOf};

    ghost Value = { PartsOf };

    ghost view = { λ p. record { index = p.index; blocks = p.blocks; filter = p.filter; filter_len = p.filter_len } };

    ghost inverse = { λ v. record { index = v.index; blocks = v.blocks; filter = v.filter; filter_len = v.filter_len } };
}

/// Where the footer of a file begins that is listed with a length and has another, or the same.
pub fn footer_place(listed: u64, len: u64) -> Result<u64, Fault>
    ensures exact { Reads (λ foot. foot) result (footer_place listed len) }
    ensures place { IfOk result (λ foot. (foot + 88 ≡ len) × (listed ≡ len)) }
{
    test_at(len == listed, len.min(listed))?;
    test_at(len >= SHORTEST_FILE, 0)?;
    Ok(len - FOOTER_LEN)
}

fn numbers_of<'a>(wanted: &[u64], at: u64, bytes: &'a [u8]) -> Result<&'a [u8], Fault>
    requires { at + 8 * length wanted.now < 2 ^ 64 }
    ensures exact { Reads (λ rest. rest.now) result (numbers_at wanted.now at bytes.now) }
{
    let mut rest = bytes;
    let mut place = at;
    for number in wanted {
        let (found, after) = u64_at(place, rest)?;
        test_at(*number == found, place)?;
        rest = after;
        place += 8;
    }
    Ok(rest)
}

/// The parts that a footer tells, which has to tell the totals too.
#[tactic(auto, unfolding(crate::specs::Reading::footer_at))]
pub fn footer_of(totals: &Totals, foot: u64, bytes: &[u8]) -> Result<Parts, Fault>
    requires { foot + 88 < 2 ^ 64 }
    ensures exact { Reads (λ parts. parts) result (footer_at totals.now foot bytes.now) }
    ensures lie { IfOk result (λ parts. Lie foot parts) }
{
    let (index, rest) = u64_at(foot, bytes)?;
    test_at(8 < index && index <= foot, foot)?;
    let (blocks, rest) = u64_at(foot + 8, rest)?;
    test_at(0 < blocks, foot + 8)?;
    let (filter, rest) = u64_at(foot + 16, rest)?;
    test_at(index < filter && filter <= foot, foot + 16)?;
    let (filter_len, rest) = u64_at(foot + 24, rest)?;
    test_at(filter_len == foot - filter, foot + 24)?;
    let rest = numbers_of(&totals.footer_numbers(), foot + 32, rest)?;
    test_at(rest == MARK.as_slice(), foot + 80)?;
    Ok(Parts {
        index,
        blocks,
        filter,
        filter_len,
    })
}

/// A file begins with its header; these are its first bytes.
pub fn check_header(front: &[u8]) -> Result<(), Fault>
    requires { length front.now ≤ 8 }
    ensures exact { Reads (λ x. x) result (header_at front.now) }
{
    test_at(front == HEADER.as_slice(), 0)
}

/// What was found of all records is what the file is listed with.
pub fn check_totals(foot: u64, listed: &Totals, found: &Totals) -> Result<(), Fault>
    requires { foot + 88 < 2 ^ 64 }
    ensures exact { Reads (λ x. x) result (totals_at foot listed.now found.now) }
{
    test_at(found.rows == listed.rows, foot + 32)?;
    test_at(found.low == listed.low, foot + 40)?;
    test_at(found.high == listed.high, foot + 48)?;
    test_at(found.first == listed.first, foot + 56)?;
    test_at(found.last == listed.last, foot + 64)
}

fn check_same(at: u64, bytes: &[u8], wanted: &[u8]) -> Result<(), Fault>
    requires { at + length bytes.now < 2 ^ 64 }
    ensures exact { Reads (λ x. x) result (same_at at bytes.now wanted.now) }
{
    let common = bytes.len().min(wanted.len());
    for i in 0..common {
        test_at(bytes[i] == wanted[i], at + i as u64)?;
    }
    test_at(bytes.len() == wanted.len(), at + common as u64)
}

/// The bytes of the filter are the defined ones.
pub fn check_filter(foot: u64, parts: &Parts, bytes: &[u8], wanted: &[u8]) -> Result<(), Fault>
    requires place { foot + 88 < 2 ^ 64 }
    requires within { parts.now.filter + length bytes.now ≤ foot }
    ensures exact { Reads (λ x. x) result (filter_at foot parts.now bytes.now wanted.now) }
{
    test_at(parts.filter_len == wanted.len() as u64, foot + 24)?;
    check_same(parts.filter, bytes, wanted)
}
