ghost use Rattle.std.specs.Prelude.{◌≡◌, ◌+◌, ◌<◌, ◌++◌, ℕ, true, [], ◌∷◌, filter, length, Some, OnOk, OnErr, IfOk, IfErr, IfSome, IfNone, IsErrOf};
ghost use Rattle.std.specs.List.{cons_option, All};
ghost use Rattle.lt_io.specs.Device.{Counts};
ghost use Rattle.lt_rec.specs.Boxes.{in_box};
ghost use Rattle.lt_tablet.specs.Causes.{IsNoBad};
ghost use Rattle.lt_cursor.specs.Merging.{IsSoundMerging, blocks_left, coming_of};
ghost use Rattle.lt_cursor.specs.Refusals.{IsNoFault};

use crate::source::Source;
use lt_io::Device;
use lt_kway::{HeadError, Heads};
use lt_rec::{NoMemory, RawBox, Rec, Steps};
use lt_tablet::ReadError;
use std::alloc::Global;
use std::marker::Model;
use std::sync::ledger::Ledger;

/// Sources and the heads of those that don't wait for one. Contracts see these parts.
#[derive(Drop)]
pub struct Merge<V: Device> {
    raw_box: RawBox,
    heads: Heads,
    sources: Vec<Source<V>>,
    waiting: Vec<usize>,
}

impl<V: Device> Model for Merge<V> {
    ghost use Rattle.lt_cursor.specs.Merging.{Merging, ArePlaces};

    ghost Value = { Merging };

    ghost view = { λ m. record { raw_box = m.raw_box; held = m.heads; strands = m.sources.items; waiting = m.waiting.items } };

    ghost invariant = { λ m. ArePlaces (record { raw_box = m.raw_box; held = m.heads; strands = m.sources.items; waiting = m.waiting.items }) };
}

impl<V: Device> Merge<V> {
    /// No head is held, and these sources wait for one. Takes no memory.
    pub fn new(
        alloc: Global,
        raw_box: RawBox,
        down: bool,
        sources: Vec<Source<V>>,
        waiting: Vec<usize>,
    ) -> Merge<V>
        requires { All (λ at. at < length sources.items) waiting.items }
        ensures { result ≡ record { raw_box = raw_box; held = record { down = down; heads = [] }; strands = sources.items; waiting = waiting.items } }
    {
        Merge {
            raw_box,
            heads: Heads::new(alloc, down),
            sources,
            waiting,
        }
    }

    /// The refusal where two sources have a key in common. Lists in memory have none, so one of the two is a tablet, whose
    /// file is named. Takes no memory.
    fn clash(&self, at: usize, held: usize) -> ReadError
        ensures { IsNoFault result }
    {
        match damage_of(self.sources.as_slice(), at) {
            Some(why) => why,
            None => match damage_of(self.sources.as_slice(), held) {
                Some(why) => why,
                None => ReadError::NoMemory,
            },
        }
    }

    /// Puts the next record of a source, if there is one, among the heads.
    fn lead<L: Ledger>(
        &mut self,
        dev: &mut V,
        at: usize,
        steps: &mut Steps<L>,
    ) -> Result<(), ReadError>
        requires within { at < length self.old.strands }
        requires sound { V.honest ≡ true → IsSoundMerging self.old (self.old.waiting ++ at ∷ []) }
        ensures sound { V.honest ≡ true → OnOk result (IsSoundMerging self.new self.new.waiting) }
        ensures coming { V.honest ≡ true → OnOk result (coming_of self.new ≡ coming_of self.old) }
        ensures waiting { self.new.waiting ≡ self.old.waiting }
        ensures sources { length self.new.strands ≡ length self.old.strands }
        ensures ticks { steps.new + blocks_left self.new ≡ steps.old + blocks_left self.old }
        ensures never_bad { V.honest ≡ true → IfErr result (λ why. IsNoBad why) }
        ensures cause { Counts (V.faults dev.old) (V.faults dev.new) (IsErrOf result ReadError.Fault) }
    {
        let alloc = *self.sources.allocator();
        let source = &mut self.sources[at];
        let Some(rec) = source.next(alloc, dev, &self.raw_box, steps)? else {
            return Ok(());
        };
        match self.heads.put(at as u64, rec) {
            Ok(()) => Ok(()),
            Err((_, HeadError::Clash { source })) => Err(self.clash(at, source as usize)),
            Err((_, HeadError::NoMemory)) => Err(ReadError::NoMemory),
        }
    }

    /// Leads each source that waits.
    fn lead_all<L: Ledger>(&mut self, dev: &mut V, steps: &mut Steps<L>) -> Result<(), ReadError>
        requires sound { V.honest ≡ true → IsSoundMerging self.old self.old.waiting }
        ensures sound { V.honest ≡ true → OnOk result (IsSoundMerging self.new []) }
        ensures coming { V.honest ≡ true → OnOk result (coming_of self.new ≡ coming_of self.old) }
        ensures waiting { OnOk result (self.new.waiting ≡ []) }
        ensures ticks { steps.new + blocks_left self.new ≡ steps.old + blocks_left self.old }
        ensures never_bad { V.honest ≡ true → IfErr result (λ why. IsNoBad why) }
        ensures cause { Counts (V.faults dev.old) (V.faults dev.new) (IsErrOf result ReadError.Fault) }
    {
        while let Some(at) = self.waiting.pop() {
            self.lead(dev, at, steps)?;
        }
        Ok(())
    }

    /// Takes the record that is read next, whose source then waits; `None` exactly where no head is held.
    fn take(&mut self) -> Result<Option<Rec>, NoMemory>
        requires sound { V.honest ≡ true → IsSoundMerging self.old [] }
        requires waiting { self.old.waiting ≡ [] }
        ensures sound { V.honest ≡ true → OnOk result (IsSoundMerging self.new self.new.waiting) }
        ensures given { V.honest ≡ true → IfOk result (λ given. coming_of self.old ≡ cons_option given (coming_of self.new)) }
        ensures empty { V.honest ≡ true → IfOk result (λ given. IfNone given (coming_of self.new ≡ [])) }
        ensures blocks { blocks_left self.new ≡ blocks_left self.old }
    {
        match self.heads.take() {
            None => Ok(None),
            Some((source, rec)) => {
                self.waiting.push(source as usize)?;
                Ok(Some(rec))
            }
        }
    }

    /// The next record of the box over all sources; `None` exactly where there is none left.
    pub fn next<L: Ledger>(
        &mut self,
        dev: &mut V,
        steps: &mut Steps<L>,
    ) -> Result<Option<Rec>, ReadError>
        requires sound { V.honest ≡ true → IsSoundMerging self.old self.old.waiting }
        ensures sound { V.honest ≡ true → OnOk result (IsSoundMerging self.new self.new.waiting) }
        ensures given { V.honest ≡ true → IfOk result (λ given. coming_of self.old ≡ cons_option given (coming_of self.new)) }
        ensures empty { V.honest ≡ true → IfOk result (λ given. IfNone given (coming_of self.new ≡ [])) }
        ensures ticks { steps.new + blocks_left self.new ≡ steps.old + blocks_left self.old }
        ensures never_bad { V.honest ≡ true → IfErr result (λ why. IsNoBad why) }
        ensures cause { Counts (V.faults dev.old) (V.faults dev.new) (IsErrOf result ReadError.Fault) }
    {
        self.lead_all(dev, steps)?;
        Ok(self.take()?)
    }
}

fn damage_of<V: Device>(sources: &[Source<V>], at: usize) -> Option<ReadError>
    ensures { IfSome result (λ why. IsNoFault why) }
{
    sources.get(at)?.damage()
}
