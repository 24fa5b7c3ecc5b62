ghost use Rattle.std.specs.Prelude.{◌≡◌, true, IfOk};
ghost use Rattle.lt_model.specs.Readings.{next as next_of, kept as kept_of};
ghost use Rattle.lt_model.specs.Step.{HoldsDurable};
ghost use Rattle.lt_trace.specs.Elements.{Story, history_of};
ghost use Rattle.lt_state.specs.State.{listing as listing_in};
ghost use Rattle.lt_state.specs.Stands.{StandsFor};

use crate::part::Part;
use crate::tablets::listing_of;
use crate::tickets::Out;
use lt_commit::Anchor;
use lt_io::Device;
use lt_memory::Memory;
use lt_rec::{Listed, NoMemory};
use lt_schema::Schemas;
use lt_stands::Stands;
use lt_tablet::Tablet;
use std::alloc::Global;
use std::marker::Model;
use std::sync::Arc;

/// The state of one table: its rows in files and in memory, its schemas and bounds, and the directory whose descriptor tells
/// of it. Contracts see it as plain data, and say for which stories it stands.
#[derive(Drop)]
pub struct Core<V: Device> {
    pub(crate) next: u64,
    pub(crate) low: u64,
    pub(crate) ttl: Option<u64>,
    pub(crate) schemas: Arc<Schemas>,
    pub(crate) kept: u64,
    pub(crate) listed: Vec<Arc<Tablet<V>>>,
    pub(crate) memory: Memory,
    // Files from this number on are free.
    pub(crate) next_file: u64,
    // One above the last file number that was noted as free, or 0.
    pub(crate) freed: u64,
    pub(crate) next_ticket: u64,
    pub(crate) tickets: Vec<Out>,
    pub(crate) anchor: Anchor<V>,
    // How many elements the story has, the opening among them.
    pub(crate) count: u64,
    pub(crate) alloc: Global,
}

impl<V: Device> Model for Core<V> {
    ghost use Rattle.std.specs.Prelude.{map};
    ghost use Rattle.std.specs.Arc.{arc_value};
    ghost use Rattle.lt_state.specs.State.{Core as Table};
    ghost use Rattle.lt_core.specs.Parts.{sealed, IsTable};

    ghost Value = { Table };

    ghost view = { λ c. record { next = c.next; low = c.low; ttl = c.ttl; schemas = arc_value c.schemas; kept = c.kept; listed = map (λ tablet. sealed (arc_value tablet)) c.listed.items; memory = c.memory.tablets; next_tablet = c.memory.next; dependencies = c.memory.dependencies; next_file = c.next_file; freed = c.freed; next_ticket = c.next_ticket; tickets = c.tickets.items; anchor = c.anchor; count = c.count } };

    ghost invariant = { λ c. IsTable (record { next = c.next; low = c.low; ttl = c.ttl; schemas = arc_value c.schemas; kept = c.kept; listed = map (λ tablet. sealed (arc_value tablet)) c.listed.items; memory = c.memory.tablets; next_tablet = c.memory.next; dependencies = c.memory.dependencies; next_file = c.next_file; freed = c.freed; next_ticket = c.next_ticket; tickets = c.tickets.items; anchor = c.anchor; count = c.count }) };
}

impl<V: Device> Core<V> {
    /// The number of the next row. Takes no memory.
    pub fn next(&self) -> u64
        ensures value { result ≡ self.now.next }
        ensures stands { (s : Story) → StandsFor V.honest self.now s → result ≡ next_of (history_of s) }
    {
        self.next
    }

    /// Rows with smaller numbers are durable. Takes no memory.
    pub fn kept(&self) -> u64
        ensures value { result ≡ self.now.kept }
        ensures stands { (s : Story) → StandsFor V.honest self.now s → result ≡ kept_of (history_of s) }
    {
        self.kept
    }

    /// What the list of tablets says of each.
    pub fn listing(&self) -> Result<Vec<Listed>, NoMemory>
        ensures value { IfOk result (λ listing. listing.items ≡ listing_in self.now) }
        // They count the rows on disk.
        ensures counts { V.honest ≡ true → (s : Story) → StandsFor V.honest self.now s → IfOk result (λ listing. HoldsDurable (history_of s) listing.items) }
    {
        listing_of(self.alloc, self.listed.as_slice())
    }

    /// The directory given back. Takes no memory.
    pub fn into_dir(self) -> V::Dir
        ensures { V.directory result ≡ self.anchor.directory }
    {
        let Core { anchor, .. } = self;
        anchor.into_dir()
    }
}

impl<V: Device> Stands for Core<V> {
    ghost use Rattle.lt_core.specs.Stories.{IsToldBy};

    type Entry = Part;

    ghost stands = { λ c parts. IsToldBy V.honest c parts };

    /// One more than the elements since the opening. Takes no memory.
    fn count(&self) -> u64 {
        self.count
    }
}
