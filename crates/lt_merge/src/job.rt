//! What a flush is given, and what it gives back.
ghost use Rattle.std.specs.Prelude.{◌≡◌};
ghost use Rattle.std.specs.Arc.{arc_value};
ghost use Rattle.lt_merge.specs.Flushing.{Part, Output};

use lt_io::Device;
use lt_mem::MemTablet;
use lt_rec::{Period, TabletId};
use lt_tablet::Fresh;
use std::marker::Model;
use std::sync::Arc;

/// The cover of files that no sweep may remove meanwhile. Who gave it out takes it back once, and then ends the cover.
#[derive(Debug, Drop, PartialEq, Eq)]
pub struct Ticket {
    pub number: u64,
}

/// A tablet in memory, with the period of its records' timestamps and the file number that was lent for it.
#[derive(Drop)]
pub struct FlushPart<V: Device> {
    tablet: TabletId,
    recs: Arc<MemTablet>,
    period: Period,
    lent: V::Lent,
}

impl<V: Device> Model for FlushPart<V> {
    ghost use Rattle.std.specs.Arc.{arc_value};
    ghost use Rattle.lt_merge.specs.Flushing.{Part};

    ghost Value = { Part };

    ghost view = { λ p. record { tablet = p.tablet; recs = arc_value p.recs; period = p.period; file = V.lent_number p.lent } };
}

impl<V: Device> FlushPart<V> {
    pub fn new(
        tablet: TabletId,
        recs: Arc<MemTablet>,
        period: Period,
        lent: V::Lent,
    ) -> FlushPart<V>
        ensures { result ≡ record { tablet = tablet; recs = arc_value recs; period = period; file = V.lent_number lent } }
    {
        FlushPart {
            tablet,
            recs,
            period,
            lent,
        }
    }

    /// The tablet, its records, their period and the lent number.
    pub fn into_parts(self) -> (TabletId, Arc<MemTablet>, Period, V::Lent)
        ensures tablet { result.0 ≡ self.tablet }
        ensures recs { arc_value result.1 ≡ self.recs }
        ensures period { result.2 ≡ self.period }
        ensures file { V.lent_number result.3 ≡ self.file }
    {
        let FlushPart {
            tablet,
            recs,
            period,
            lent,
        } = self;
        (tablet, recs, period, lent)
    }
}

/// A tablet that was in memory, and the file that was written of it.
#[derive(Drop)]
pub struct FlushedPart<V: Device> {
    tablet: TabletId,
    fresh: Fresh<V>,
}

impl<V: Device> Model for FlushedPart<V> {
    ghost use Rattle.lt_merge.specs.Flushing.{Output};

    ghost Value = { Output };

    ghost view = { λ p. record { tablet = p.tablet; fresh = p.fresh } };
}

impl<V: Device> FlushedPart<V> {
    pub fn new(tablet: TabletId, fresh: Fresh<V>) -> FlushedPart<V>
        ensures { result ≡ record { tablet = tablet; fresh = fresh } }
    {
        FlushedPart { tablet, fresh }
    }

    pub fn tablet(&self) -> TabletId
        ensures { result ≡ self.now.tablet }
    {
        self.tablet
    }

    pub fn fresh(&self) -> &Fresh<V>
        ensures { result.now ≡ self.now.fresh }
    {
        &self.fresh
    }

    pub fn into_fresh(self) -> Fresh<V>
        ensures { result ≡ self.fresh }
    {
        self.fresh
    }
}

/// Tablets in memory to be written, one file for each. `upto` is the number below which all rows are durable once the files
/// are listed.
#[derive(Drop)]
pub struct FlushJob<V: Device> {
    pub parts: Vec<FlushPart<V>>,
    pub upto: u64,
    pub ticket: Ticket,
}

/// What was written: a file for each tablet of the job, in its order.
#[derive(Drop)]
pub struct FlushDone<V: Device> {
    pub parts: Vec<FlushedPart<V>>,
    pub upto: u64,
    pub ticket: Ticket,
}
