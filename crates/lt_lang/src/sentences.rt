//! A line is read token by token: a client's name, a moment, and one command.
ghost use Rattle.std.specs.Prelude.{◌≡◌, ◌-◌, ℕ, List, Option, IfOk, codes, length};
ghost use Rattle.lt_command.specs.declared.command.Command.{Command as Asked};
ghost use Rattle.lt_lang.specs.Sentences.{is_remark, IsSentence, IsSkipped, IsSpelled};
ghost use Rattle.lt_lang.specs.Parsing.{Gives, client_line, command_at, command_by, last_command, line_at, request_at};
ghost use Rattle.lt_lang.specs.Parsing.{said, says, literals_at, scan_at, maybe_count, change_at};

use crate::alters::change_at;
use crate::literals::literals_at;
use crate::names::{client_of, name_label};
use crate::scans::scan_at;
use crate::stop::Stop;
use crate::tokens::{maybe_count, maybe_moment, skip_spaces, split_word, stop_at};
use lt_command::{Command, Line};
use lt_rec::{Label, NoMemory};
use std::alloc::Global;

fn insert_at(alloc: Global, bytes: &[u8]) -> Result<(Command, &[u8]), Stop>
    ensures { Gives (λ x. (x.0, x.1.now)) result (says Command.Insert (literals_at bytes.now)) }
{
    let (row, rest) = literals_at(alloc, bytes)?;
    Ok((Command::Insert { row }, rest))
}

fn latest_at(alloc: Global, bytes: &[u8]) -> Result<(Command, &[u8]), Stop>
    ensures { Gives (λ x. (x.0, x.1.now)) result (says Command.Latest (literals_at bytes.now)) }
{
    let (prefix, rest) = literals_at(alloc, bytes)?;
    Ok((Command::Latest { prefix }, rest))
}

fn query_at(alloc: Global, bytes: &[u8]) -> Result<(Command, &[u8]), Stop>
    ensures { Gives (λ x. (x.0, x.1.now)) result (said Command.Scan (scan_at bytes.now)) }
{
    let (query, rest) = scan_at(alloc, bytes)?;
    Ok((Command::Scan { query }, rest))
}

fn flush_at(bytes: &[u8]) -> Result<(Command, &[u8]), Stop>
    ensures { Gives (λ x. (x.0, x.1.now)) result (says Command.Flush (maybe_count bytes.now)) }
{
    let (tablet, rest) = maybe_count(bytes);
    Ok((Command::Flush { tablet }, rest))
}

fn alter_at(alloc: Global, bytes: &[u8]) -> Result<(Command, &[u8]), Stop>
    ensures { Gives (λ x. (x.0, x.1.now)) result (said Command.Alter (change_at bytes.now)) }
{
    let (change, rest) = change_at(alloc, bytes)?;
    Ok((Command::Alter { change }, rest))
}

#[tactic(auto, unfolding(crate::specs::Parsing::command_by))]
fn command_by<'a>(
    alloc: Global,
    word: &[u8],
    rest: &'a [u8],
    left: usize,
) -> Result<(Command, &'a [u8]), Stop>
    ensures { Gives (λ x. (x.0, x.1.now)) result (command_by word.now rest.now left) }
{
    if word == b"insert".as_slice() {
        insert_at(alloc, rest)
    } else if word == b"scan".as_slice() {
        query_at(alloc, rest)
    } else if word == b"latest".as_slice() {
        latest_at(alloc, rest)
    } else if word == b"flush".as_slice() {
        flush_at(rest)
    } else if word == b"upkeep".as_slice() {
        Ok((Command::Upkeep, rest))
    } else if word == b"alter".as_slice() {
        alter_at(alloc, rest)
    } else if word == b"tablets".as_slice() {
        Ok((Command::Tablets, rest))
    } else {
        Err(Stop::At(left))
    }
}

#[tactic(auto, unfolding(crate::specs::Parsing::command_at))]
fn command_at(alloc: Global, bytes: &[u8]) -> Result<(Command, &[u8]), Stop>
    ensures { Gives (λ x. (x.0, x.1.now)) result (command_at bytes.now) }
{
    let here = skip_spaces(bytes);
    let (word, rest) = split_word(here);
    command_by(alloc, word, rest, here.len())
}

#[tactic(auto, unfolding(crate::specs::Parsing::last_command))]
fn last_command(alloc: Global, bytes: &[u8]) -> Result<Command, Stop>
    ensures { Gives (λ x. x) result (last_command bytes.now) }
{
    let (command, rest) = command_at(alloc, bytes)?;
    if skip_spaces(rest).is_empty() {
        Ok(command)
    } else {
        Err(stop_at(rest))
    }
}

#[tactic(auto, unfolding(crate::specs::Parsing::request_at))]
fn request_at(alloc: Global, bytes: &[u8]) -> Result<(Option<u64>, Command), Stop>
    ensures { Gives (λ x. (x.0, x.1)) result (request_at bytes.now) }
{
    let (moment, rest) = maybe_moment(bytes);
    let command = last_command(alloc, rest)?;
    Ok((moment, command))
}

fn is_remark(bytes: &[u8]) -> bool
    ensures { result ≡ is_remark bytes.now }
{
    match bytes {
        [] => true,
        [first, ..] => *first == b'#',
    }
}

fn client_line(alloc: Global, line: &[u8], client: Label, rest: &[u8]) -> Result<Line, NoMemory>
    ensures { IfOk result (λ read. read ≡ client_line (length line.now) client (request_at rest.now)) }
{
    match request_at(alloc, rest) {
        Ok((moment, command)) => Ok(Line::Command {
            client,
            moment,
            command,
        }),
        Err(Stop::At(left)) => Ok(Line::Bad {
            client,
            at: line.len().saturating_sub(left) as u64,
        }),
        Err(Stop::NoMemory) => Err(NoMemory),
    }
}

fn no_client(alloc: Global, line: &[u8], left: usize) -> Result<Line, NoMemory>
    ensures { IfOk result (λ read. read ≡ Line.Bad (codes "?") (length line.now - left)) }
{
    let client = Label::copy_of(alloc, "?")?;
    let at = line.len().saturating_sub(left) as u64;
    Ok(Line::Bad { client, at })
}

#[tactic(auto, unfolding(crate::specs::Parsing::line_at))]
fn line_at(alloc: Global, line: &[u8]) -> Result<Line, NoMemory>
    ensures { IfOk result (λ read. read ≡ line_at line.now) }
{
    let here = skip_spaces(line);
    if is_remark(here) {
        return Ok(Line::Skip);
    }
    let (word, rest) = split_word(here);
    match client_of(word) {
        Some(name) => client_line(alloc, line, name_label(alloc, name)?, rest),
        None => no_client(alloc, line, here.len()),
    }
}

/// Reads a line: it is skipped, or a client's command, or bad from the first token on that can't stand in its place.
pub fn read_line(alloc: Global, line: &[u8]) -> Result<Line, NoMemory>
    // Which line it is, and in a bad one the place of the first token that can't stand.
    ensures exact { IfOk result (λ read. read ≡ line_at line.now) }
    // What is read is so spelled.
    ensures read { IfOk result (IsSpelled line.now) }
    // What is so spelled is read.
    ensures only { (client : List ℕ) (moment : Option ℕ) (command : Asked) → IsSentence line.now client moment command → IfOk result (λ read. read ≡ Line.Command client moment command) }
    ensures skipped { IsSkipped line.now → IfOk result (λ read. read ≡ Line.Skip) }
{
    line_at(alloc, line)
}
