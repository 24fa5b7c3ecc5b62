//! A look through all lines of an input, before any of them is carried out.
ghost use Rattle.std.specs.Prelude.{◌≡◌, ◌↔◌, IsTrue, IfOk, Some};
ghost use Rattle.lt_serve.specs.Session.{is_built, first_name, MayAnswer};
ghost use Rattle.lt_command.specs.declared.command.Line.{Line as SomeLine};
ghost use Rattle.lt_model.specs.Session.{name_of};
ghost use Rattle.lt_serve.specs.Looking.{IsOutlook};

use lt_command::{Command, Line};
use lt_lang::{next_line, read_line};
use lt_rec::{Label, NoMemory};
use std::alloc::Global;

/// What a look through the lines finds.
#[derive(Debug, Drop)]
pub enum Outlook {
    /// All are this client's, or belong to nobody, and ask for what is built.
    Clear { client: Option<Label> },
    /// The first that is another client's or asks for what isn't built yet, counted from 0.
    Other { line: u64 },
}

fn is_built(command: &Command) -> bool
    ensures { result ≡ is_built command.now }
{
    match command {
        Command::Insert { row: _ } | Command::Scan { query: _ } | Command::Alter { change: _ } =>
            true,
        Command::Latest { prefix: _ }
        | Command::Flush { tablet: _ }
        | Command::Upkeep
        | Command::Tablets => false,
    }
}

/// Whether this is the session's client. The first one is.
fn is_ours(client: &mut Option<Label>, name: Label) -> bool
    ensures client { client.new ≡ first_name client.old (Some name) }
    ensures ours { IsTrue result ↔ (client.new ≡ Some name) }
{
    if let Some(known) = client {
        return *known == name;
    }
    *client = Some(name);
    true
}

/// Whether the line may be answered behind those before it.
fn may_answer(client: &mut Option<Label>, line: Line) -> bool
    ensures client { client.new ≡ first_name client.old (name_of line) }
    ensures may { IsTrue result ↔ MayAnswer client.new line }
{
    match line {
        Line::Skip => true,
        Line::Bad {
            client: name,
            at: _,
        } => is_ours(client, name),
        Line::Command {
            client: name,
            moment: _,
            command,
        } => is_ours(client, name) && is_built(&command),
    }
}

/// Looks through the lines that the input spells.
pub fn look_through(alloc: Global, input: &[u8]) -> Result<Outlook, NoMemory>
    ensures { IfOk result (IsOutlook input.now) }
{
    let mut client = None;
    let mut rest = input;
    let mut number = 0u64;
    while let Some((bytes, after)) = next_line(rest) {
        let line = read_line(alloc, bytes)?;
        if !may_answer(&mut client, line) {
            return Ok(Outlook::Other { line: number });
        }
        rest = after;
        number += 1;
    }
    Ok(Outlook::Clear { client })
}
