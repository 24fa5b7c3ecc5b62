ghost use Rattle.std.specs.Prelude.{◌≡◌, ◌≢◌, ◌+◌, ◌≤◌, [], List, true, false, OnOk, OnErr, IfOk, IfErr, IfSome, IfNone, Contains};
ghost use Rattle.lt_rec.specs.Record.{Record, IsRecord, stored_len};
ghost use Rattle.lt_mem.specs.Rising.{Gains, IsInOrder, NoneHas, all_stored};
ghost use Rattle.lt_memory.specs.Tablets.{SaysOfRecords, most_bytes};
ghost use Rattle.lt_memory.specs.Inserting.{begun, filled_up, has_room, is_open};
ghost use Rattle.lt_memory.specs.Sharing.{HasLast, frozen_in, share_of};
ghost use Rattle.lt_memory.specs.Waiting.{is_due};
ghost use Rattle.lt_memory.specs.Walking.{meets_span, walk_if};

use crate::going::holds;
use crate::sharing::FrozenPart;
use lt_mem::{AddError, MemTablet};
use lt_rec::{NoMemory, Period, RawBox, Rec, RecList, TabletId};
use std::alloc::Global;
use std::marker::Model;
use std::sync::Arc;

/// The most bytes that the records of one tablet take where they are stored.
const MOST_BYTES: u64 = 16_777_216;

/// How long a tablet waits after its first row before it is due, in microseconds: ten minutes.
const LONGEST_WAIT: u64 = 600_000_000;

/// A tablet in memory: its number, the period of its records' timestamps, the records, the moment of its first row, whether
/// it was frozen for its size, and whether it takes no more rows. No share of one that takes more rows is out.
#[derive(Drop)]
pub struct Held {
    id: TabletId,
    period: Period,
    recs: Arc<MemTablet>,
    since: u64,
    full: bool,
    frozen: bool,
}

impl Model for Held {
    ghost use Rattle.std.specs.Arc.{arc_value};
    ghost use Rattle.lt_state.specs.State.{Filled};

    ghost Value = { Filled };

    ghost view = { λ h. record { number = h.id; period = h.period; recs = arc_value h.recs; since = h.since; full = h.full; frozen = h.frozen } };
}

impl Held {
    /// A new tablet that has this record alone.
    pub fn begin(
        alloc: Global,
        id: TabletId,
        period: Period,
        rec: Rec,
        now: u64,
    ) -> Result<Held, NoMemory>
        requires lawful { IsRecord rec }
        ensures { IfOk result (λ tablet. tablet ≡ begun id period rec now) }
    {
        let mut recs = MemTablet::new(alloc);
        match recs.add(rec) {
            Ok(()) => {}
            Err(_) => return Err(NoMemory),
        }
        Ok(Held {
            id,
            period,
            recs: Arc::new(alloc, recs)?,
            since: now,
            full: false,
            frozen: false,
        })
    }

    pub fn id(&self) -> TabletId
        ensures { result ≡ self.now.number }
    {
        self.id
    }

    /// Whether it takes rows of the period.
    pub fn is_open(&self, period: Period) -> bool
        ensures { result ≡ is_open period self.now }
    {
        !self.frozen && self.period.start() == period.start() && self.period.len() == period.len()
    }

    /// Whether so many bytes more are no more than it may have.
    pub fn has_room(&self, len: usize) -> bool
        ensures { result ≡ has_room len self.now }
    {
        let bytes = self.recs.bytes();
        bytes <= MOST_BYTES && len as u64 <= MOST_BYTES - bytes
    }

    /// Adds a record to a tablet that takes rows.
    pub fn add(&mut self, rec: Rec) -> Result<(), AddError>
        requires room { all_stored self.old.recs + stored_len rec ≤ most_bytes }
        ensures ok { OnOk result (Gains self.old.recs self.new.recs rec) }
        ensures distinct { OnOk result (NoneHas self.old.recs rec.key) }
        ensures same { self.new ≡ record self.old { recs = self.new.recs } }
        ensures cause { IfErr result (λ refused. SaysOfRecords self.old.recs rec.key refused) }
        ensures unchanged { OnErr result (self.new ≡ self.old) }
    {
        // A share that is out would have to be copied first.
        let Some(recs) = Arc::get_mut(&mut self.recs) else {
            return Err(AddError::NoMemory);
        };
        match recs.add(rec) {
            Ok(()) => Ok(()),
            Err((_, refused)) => Err(refused),
        }
    }

    /// Takes no more rows, for its size, where it took rows of the period.
    pub fn fill_up(&mut self, period: Period)
        ensures { self.new ≡ filled_up period self.old }
    {
        if self.is_open(period) {
            self.full = true;
            self.frozen = true;
        }
    }

    /// Whether a record may have the timestamp.
    fn may_have(&self, ts: u64) -> bool
        ensures { result ≡ false → (rec : Record) → Contains self.now.recs rec → rec.ts ≢ ts }
    {
        match self.recs.span() {
            Some((low, high)) => low <= ts && ts <= high,
            None => false,
        }
    }

    /// The record of this key and timestamp. Takes no memory.
    pub fn get(&self, key: &[u8], ts: u64) -> Option<&Rec>
        requires timed { (rec : Record) → Contains self.now.recs rec → rec.key ≡ key.now → rec.ts ≡ ts }
        ensures found { IfSome result (λ r. r.now.key ≡ key.now) }
        ensures held { IfSome result (λ r. Contains self.now.recs r.now) }
        ensures none { IfNone result (NoneHas self.now.recs key.now) }
    {
        if !self.may_have(ts) {
            return None;
        }
        self.recs.get(key)
    }

    /// Whether it is full, or its first row came ten minutes before the moment or earlier.
    pub fn is_due(&self, now: u64) -> bool
        ensures { result ≡ is_due now self.now }
    {
        self.full || (LONGEST_WAIT <= now && self.since <= now - LONGEST_WAIT)
    }

    /// Takes no more rows, if it is one of these.
    pub fn freeze(&mut self, parts: &[TabletId])
        ensures { self.new ≡ frozen_in parts.now self.old }
    {
        if holds(parts, self.id) {
            self.frozen = true;
        }
    }

    /// A share of it.
    pub fn share(&self) -> Result<FrozenPart, NoMemory>
        ensures { IfOk result (λ share. share ≡ share_of self.now) }
    {
        let recs = Arc::try_clone(&self.recs)?;
        Ok(FrozenPart::new(self.id, recs, self.period))
    }

    /// The greatest number of its records.
    pub fn last(&self) -> Option<u64>
        ensures greatest { IfSome result (λ last. HasLast self.now.recs last) }
        ensures none { IfNone result (self.now.recs ≡ []) }
    {
        match self.recs.seqs() {
            Some((_, last)) => Some(last),
            None => None,
        }
    }

    /// Its first records of the box in the order of their keys or, with `down`, the other way round; `limit` of them or all.
    /// `None` where none of its timestamps is in the box's span.
    pub fn walk(
        &self,
        raw_box: &RawBox,
        down: bool,
        limit: u64,
    ) -> Result<Option<RecList>, NoMemory>
        ensures exact { IfOk result (λ found. found ≡ walk_if raw_box.now down limit self.now) }
        ensures sorted { IfOk result (λ found. IfSome found (IsInOrder down)) }
    {
        if !meets(&self.recs, raw_box) {
            return Ok(None);
        }
        Ok(Some(self.recs.walk(raw_box, down, limit)?))
    }
}

/// Whether the span of the records' timestamps meets that of the box.
fn meets(recs: &MemTablet, raw_box: &RawBox) -> bool
    ensures { result ≡ meets_span raw_box.now recs.now }
{
    match recs.span() {
        Some(span) => span.0 <= raw_box.to && raw_box.from <= span.1,
        None => false,
    }
}
