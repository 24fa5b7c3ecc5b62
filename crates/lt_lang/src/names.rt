//! Names: of clients, of columns, and of kinds.
ghost use Rattle.std.specs.Prelude.{◌≡◌, ◌≤◌, IfOk, IsTrue, length};
ghost use Rattle.std.specs.List.{list_all, prefix_len};
ghost use Rattle.lt_schema.specs.Names.{is_name_byte};
ghost use Rattle.lt_lang.specs.Reading.{Finds};
ghost use Rattle.lt_lang.specs.Parsing.{Gives, client_of, needed_kind, needed_name};

use crate::stop::Stop;
use crate::tokens::{next_word, stop_at};
use lt_rec::{Label, NoMemory};
use lt_schema::{Column, Kind};
use std::alloc::Global;

fn name_len(word: &[u8]) -> usize
    ensures len { result ≡ prefix_len is_name_byte word.now }
    ensures within { result ≤ length word.now }
{
    word.iter()
        .take_while(|byte| Column::is_name_byte(**byte))
        .count()
}

/// A client's name, which a colon follows.
#[tactic(auto, unfolding(crate::specs::Parsing::client_of))]
pub fn client_of(word: &[u8]) -> Option<&[u8]>
    ensures { Finds (λ x. x.now) result (client_of word.now) }
{
    let len = name_len(word);
    let (name, rest) = word.split_at(len);
    if len >= 1 && len <= 32 && rest == b":".as_slice() {
        Some(name)
    } else {
        None
    }
}

/// The text of a name.
pub fn name_label(alloc: Global, name: &[u8]) -> Result<Label, NoMemory>
    requires { IsTrue (list_all is_name_byte name.now) }
    ensures { IfOk result (λ label. label ≡ name.now) }
{
    match std::str::from_utf8(name) {
        Ok(text) => Label::copy_of(alloc, text),
        Err(_) => unreachable!(),
    }
}

/// The name of a column that has to come next.
#[tactic(auto, unfolding(crate::specs::Parsing::needed_name))]
pub fn needed_name(bytes: &[u8]) -> Result<(&[u8], &[u8]), Stop>
    ensures { Gives (λ x. (x.0.now, x.1.now)) result (needed_name bytes.now) }
{
    let (word, rest) = next_word(bytes);
    if Column::is_name(word) {
        Ok((word, rest))
    } else {
        Err(stop_at(bytes))
    }
}

/// The kind of a column that has to come next.
#[tactic(auto, unfolding(crate::specs::Parsing::needed_kind))]
pub fn needed_kind(bytes: &[u8]) -> Result<(Kind, &[u8]), Stop>
    ensures { Gives (λ x. (x.0, x.1.now)) result (needed_kind bytes.now) }
{
    let (word, rest) = next_word(bytes);
    match Kind::named(word) {
        Some(kind) => Ok((kind, rest)),
        None => Err(stop_at(bytes)),
    }
}
