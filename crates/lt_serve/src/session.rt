//! A session: each line in turn, answered by the table at the end of its history.
ghost use Rattle.std.specs.Prelude.{◌≡◌, ◌++◌, ◌≤◌, [], Option, IsTrue, IfOk, OnOk, OnErr};
ghost use Rattle.lt_command.specs.declared.reply.Reply.{Reply as SomeReply};
ghost use Rattle.lt_model.specs.Session.{IsMoment};
ghost use Rattle.lt_model.specs.Legal.{IsLegal};
ghost use Rattle.lt_serve.specs.Session.{lines_of, client_of, IsBuilt};
ghost use Rattle.lt_serve.specs.Growing.{asks_built, block_head, meter, shown, AnswersLine, AnswersFront, IsAnswered};

use crate::store::Store;
use lt_command::{Line, Reply};
use lt_io::{Clock, Device};
use lt_lang::{next_line, read_line};
use lt_rec::{Label, NoMemory, Octets};
use lt_reply::{put_client, put_end, put_reply};
use std::alloc::Global;

/// The line's own moment, else what the clock shows.
fn moment_of<C: Clock>(clock: &C, moment: Option<u64>) -> u64
    ensures { IsMoment (C.shows clock.now) moment result }
{
    match moment {
        Some(moment) => moment,
        None => clock.now(),
    }
}

/// The reply to a line, unless it belongs to nobody.
fn reply_to<V: Device, C: Clock>(
    alloc: Global,
    store: &mut Store<V>,
    device: &mut V,
    clock: &C,
    line: Line,
) -> Option<Reply>
    requires built { IsTrue (asks_built line) }
    ensures { AnswersLine V.honest (C.shows clock.now) store.old.table store.new.table (meter (V.faults device.old) store.old.next_file store.old.anchor.directory) (meter (V.faults device.new) store.new.next_file store.new.anchor.directory) line result }
{
    match line {
        Line::Skip => None,
        Line::Bad { client: _, at } => Some(Reply::BadLine { at }),
        Line::Command {
            client: _,
            moment,
            command,
        } => {
            let now = moment_of(clock, moment);
            Some(store.answer(alloc, device, command, now))
        }
    }
}

/// Answers a line, and appends the reply's text. The line is answered also where there is no memory for the text.
fn answer_line<V: Device, C: Clock>(
    alloc: Global,
    store: &mut Store<V>,
    device: &mut V,
    clock: &C,
    text: &mut Vec<u8>,
    line: Line,
) -> Result<(), NoMemory>
    requires built { IsTrue (asks_built line) }
    ensures { (reply : Option SomeReply) × AnswersLine V.honest (C.shows clock.now) store.old.table store.new.table (meter (V.faults device.old) store.old.next_file store.old.anchor.directory) (meter (V.faults device.new) store.new.next_file store.new.anchor.directory) line reply × OnOk result (text.new.items ≡ text.old.items ++ shown reply) }
{
    match reply_to(alloc, store, device, clock, line) {
        Some(reply) => put_reply(text, &reply),
        None => Ok(()),
    }
}

/// The line that begins the client's block, if there is a client.
fn block_of(alloc: Global, client: Option<Label>) -> Result<Vec<u8>, NoMemory>
    ensures { IfOk result (λ text. text.items ≡ block_head client) }
{
    let mut text = Vec::new(alloc);
    if let Some(name) = client {
        put_client(&mut text, &name)?;
    }
    Ok(text)
}

/// The text of the session that the input spells: the client's block and the last line.
pub fn session_over<V: Device, C: Clock>(
    alloc: Global,
    store: &mut Store<V>,
    device: &mut V,
    clock: &C,
    client: Option<Label>,
    input: &[u8],
) -> Result<Octets, NoMemory>
    requires opens { IsLegal (record { opening = store.old.table; entries = [] }) }
    requires built { IsBuilt input.now }
    requires client { client ≡ client_of (lines_of input.now) }
    ensures answered { IfOk result (IsAnswered V.honest (C.shows clock.now) store.old.table store.new.table (meter (V.faults device.old) store.old.next_file store.old.anchor.directory) (meter (V.faults device.new) store.new.next_file store.new.anchor.directory) input.now) }
    ensures front { OnErr result (AnswersFront V.honest (C.shows clock.now) store.old.table store.new.table (meter (V.faults device.old) store.old.next_file store.old.anchor.directory) (meter (V.faults device.new) store.new.next_file store.new.anchor.directory) input.now) }
    ensures later { V.faults device.old ≤ V.faults device.new }
{
    let mut text = block_of(alloc, client)?;
    let mut rest = input;
    while let Some((bytes, after)) = next_line(rest) {
        let line = read_line(alloc, bytes)?;
        answer_line(alloc, store, device, clock, &mut text, line)?;
        rest = after;
    }
    put_end(&mut text, store.table().next(), store.table().kept())?;
    Ok(Octets::from_vec(text))
}
