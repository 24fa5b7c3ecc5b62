ghost use Rattle.std.specs.Prelude.{◌≡◌, ◌<◌, ◌+◌, ◌^◌, ℕ, Contains, IfOk, IsErrOf};
ghost use Rattle.lt_io.specs.Device.{Counts};
ghost use Rattle.lt_desc.specs.Lawful.{IsStone};
ghost use Rattle.lt_trace.specs.Elements.{Story, free, grown};
ghost use Rattle.lt_state.specs.State.{listing as listing_in};
ghost use Rattle.lt_state.specs.Stands.{StandsFor};
ghost use Rattle.lt_events.specs.Cores.{with_lent};
ghost use Rattle.lt_core.specs.Adds.{spent_adds};
ghost use Rattle.lt_core.specs.Published.{Publishes};

use crate::state::Core;
use crate::tablets::listing_of;
use lt_commit::CommitError;
use lt_desc::{Stone, Tablets};
use lt_io::Device;
use lt_rec::NoMemory;
use lt_schema::Schemas;

impl<V: Device> Core<V> {
    /// The table's stone under other schemas, with the next free number for its descriptor file.
    pub(crate) fn stone_under(&self, schemas: Schemas) -> Result<Stone, NoMemory>
        requires room { self.now.next_file < 2 ^ 62 }
        ensures parts { IfOk result (λ stone. stone ≡ record { kept = self.now.kept; low = self.now.low; ttl = self.now.ttl; next_file = self.now.next_file + 1; schemas = schemas; tablets = listing_in self.now }) }
        ensures lawful { IfOk result IsStone }
    {
        // That the first is lawful is known once it is read.
        let _first = schemas.first();
        let listing = listing_of(self.alloc, self.listed.as_slice())?;
        Ok(Stone::new(
            self.kept,
            self.low,
            self.ttl,
            self.next_file + 1,
            schemas,
            Tablets::from_vec(listing),
        ))
    }

    /// Makes the stone the only possible one, by a descriptor file of the next free number. Whatever it answers, the number
    /// is used up and all else of the table is as before.
    pub(crate) fn publish(&mut self, dev: &mut V, stone: Stone) -> Result<(), CommitError>
        requires room { self.old.next_file < 2 ^ 62 }
        ensures table { self.new ≡ with_lent self.old self.new.anchor }
        ensures published { Publishes V.honest self.old.next_file stone self.old.anchor self.new.anchor result }
        ensures cause { Counts (V.faults dev.old) (V.faults dev.new) (IsErrOf result CommitError.Fault) }
    {
        // What holds of the anchor is known once it is read.
        let _possible = self.anchor.stone();
        let file = self.next_file;
        self.next_file = file + 1;
        self.anchor.publish(dev, file, stone)
    }

    /// Notes from which number on files are free, unless that was noted. Takes no memory.
    pub(crate) fn note_free(&mut self)
        ensures stands { (s : Story) → StandsFor V.honest self.old s → StandsFor V.honest self.new (grown s (spent_adds self.old)) }
        ensures noted { (s : Story) → StandsFor V.honest self.old s → Contains (grown s (spent_adds self.old)).since (free self.old.next_file) }
        ensures table { self.new ≡ record self.old { freed = self.new.freed; count = self.new.count } }
    {
        if self.freed <= self.next_file {
            self.freed = self.next_file + 1;
            self.count = self.count.saturating_add(1);
        }
    }
}
