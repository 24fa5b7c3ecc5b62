//! Changes of a schema.
ghost use Rattle.std.specs.Prelude.{◌≡◌, IfOk};
ghost use Rattle.lt_lang.specs.Parsing.{Gives, append_at, change_at, default_at, widen_at};

use crate::literals::literal_at;
use crate::names::{name_label, needed_kind, needed_name};
use crate::stop::Stop;
use crate::tokens::{after_word, stop_at};
use lt_rec::NoMemory;
use lt_schema::{Change, Column, Kind, Value};
use std::alloc::Global;

#[tactic(auto, unfolding(crate::specs::Parsing::default_at))]
fn default_at(alloc: Global, kind: Kind, bytes: &[u8]) -> Result<(Value, &[u8]), NoMemory>
    ensures { IfOk result (λ found. (found.0, found.1.now) ≡ default_at kind bytes.now) }
{
    match literal_at(alloc, bytes)? {
        Some((value, rest)) => Ok((value, rest)),
        None => Ok((kind.blank(alloc), bytes)),
    }
}

#[tactic(auto, unfolding(crate::specs::Parsing::append_at))]
fn append_at(alloc: Global, bytes: &[u8]) -> Result<(Change, &[u8]), Stop>
    ensures { Gives (λ x. (x.0, x.1.now)) result (append_at bytes.now) }
{
    let (name, rest) = needed_name(bytes)?;
    let (kind, rest) = needed_kind(rest)?;
    let (default, rest) = default_at(alloc, kind, rest)?;
    let column = Column::new(name_label(alloc, name)?, kind, default);
    Ok((Change::Append(column), rest))
}

#[tactic(auto, unfolding(crate::specs::Parsing::widen_at))]
fn widen_at(alloc: Global, bytes: &[u8]) -> Result<(Change, &[u8]), Stop>
    ensures { Gives (λ x. (x.0, x.1.now)) result (widen_at bytes.now) }
{
    let (name, rest) = needed_name(bytes)?;
    Ok((Change::Widen(name_label(alloc, name)?), rest))
}

/// A column more, or a wider one.
#[tactic(auto, unfolding(crate::specs::Parsing::change_at))]
pub fn change_at(alloc: Global, bytes: &[u8]) -> Result<(Change, &[u8]), Stop>
    ensures { Gives (λ x. (x.0, x.1.now)) result (change_at bytes.now) }
{
    match after_word(bytes, b"append") {
        Some(rest) => append_at(alloc, rest),
        None => match after_word(bytes, b"widen") {
            Some(rest) => widen_at(alloc, rest),
            None => Err(stop_at(bytes)),
        },
    }
}
