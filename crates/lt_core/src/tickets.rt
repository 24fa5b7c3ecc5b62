ghost use Rattle.std.specs.Prelude.{◌≡◌, ◌+◌, ◌<◌, ◌≤◌, ◌^◌, [], ℕ, map, IfOk, OnOk, OnErr, vec_len, vec_capacity};
ghost use Rattle.std.specs.List.{range_with_len};
ghost use Rattle.lt_trace.specs.Elements.{Story};
ghost use Rattle.lt_state.specs.Stands.{StandsFor};
ghost use Rattle.lt_events.specs.Cores.{with_released};
ghost use Rattle.lt_core.specs.Lending.{LendsEach, AreNoted, with_given};

use crate::state::Core;
use lt_commit::Anchor;
use lt_io::Device;
use lt_merge::Ticket;
use lt_rec::{Files, NoMemory};
use std::alloc::Global;
use std::marker::Model;

/// A ticket that is out: the file numbers that were lent for it, and the listed files that were handed out with it.
#[derive(Drop)]
pub(crate) struct Out {
    number: u64,
    lent: Files,
    handed: Files,
}

impl Model for Out {
    ghost use Rattle.lt_state.specs.State.{Ticket as Kept};

    ghost Value = { Kept };

    ghost view = { λ t. record { number = t.number; lent = t.lent; handed = t.handed } };
}

impl Out {
    fn number(&self) -> u64
        ensures { result ≡ self.now.number }
    {
        self.number
    }
}

/// So many numbers, from the first on.
fn numbers_from(alloc: Global, first: u64, count: u64) -> Result<Files, NoMemory>
    requires { first + count ≤ 2 ^ 62 }
    ensures { IfOk result (λ numbers. numbers ≡ range_with_len first count) }
{
    let mut numbers = Vec::with_capacity(alloc, count as usize)?;
    for i in 0..count {
        numbers.push(first + i)?;
    }
    Ok(Files::from_vec(numbers))
}

/// Lends so many numbers, from the first on. There is room for them. Takes no memory.
fn lend_all<V: Device>(
    anchor: &mut Anchor<V>,
    mut lents: Vec<V::Lent>,
    first: u64,
    count: u64,
) -> Vec<V::Lent>
    requires unlent { anchor.old.directory.now.ceiling ≤ first }
    requires in_range { first + count ≤ 2 ^ 62 }
    requires none { lents.items ≡ [] }
    requires empty { vec_len lents ≡ 0 }
    requires room { count ≤ vec_capacity lents }
    ensures numbers { map V.lent_number result.items ≡ range_with_len first count }
    ensures lent { LendsEach V.honest first count anchor.old anchor.new }
{
    for i in 0..count {
        // What holds of the anchor is known once it is read.
        let _possible = anchor.stone();
        if lents.push(anchor.lend(first + i)).is_err() {
            unreachable!()
        }
    }
    lents
}

impl<V: Device> Core<V> {
    /// Gives out a ticket, with so many of the next file numbers and with these listed files.
    pub(crate) fn give_ticket(
        &mut self,
        count: u64,
        handed: Files,
    ) -> Result<(Ticket, Vec<V::Lent>), NoMemory>
        requires room { self.old.next_file + count ≤ 2 ^ 62 }
        ensures ticket { IfOk result (λ given. given.0.number ≡ self.old.next_ticket) }
        ensures numbers { IfOk result (λ given. map V.lent_number given.1.items ≡ range_with_len self.old.next_file count) }
        ensures given { OnOk result (self.new ≡ with_given self.old count handed self.new.anchor) }
        ensures stands { OnOk result ((s : Story) → StandsFor V.honest self.old s → AreNoted s handed → StandsFor V.honest self.new s) }
        ensures unchanged { OnErr result (self.new ≡ self.old) }
    {
        let number = self.next_ticket;
        let Some(after) = number.checked_add(1) else {
            return Err(NoMemory);
        };
        let first = self.next_file;
        let lent = numbers_from(self.alloc, first, count)?;
        let lents = Vec::with_capacity(self.alloc, count as usize)?;
        self.tickets.push(Out {
            number,
            lent,
            handed,
        })?;
        // Nothing is refused from here on.
        self.next_ticket = after;
        self.next_file = first + count;
        let lents = lend_all(&mut self.anchor, lents, first, count);
        Ok((Ticket { number }, lents))
    }

    /// Ends the ticket's cover. Takes no memory.
    pub fn release(&mut self, ticket: Ticket)
        ensures released { self.new ≡ with_released self.old ticket.number }
        ensures stands { (s : Story) → StandsFor V.honest self.old s → StandsFor V.honest self.new s }
    {
        self.tickets.retain(|out| out.number() != ticket.number);
    }
}
