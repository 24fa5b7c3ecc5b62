ghost use Rattle.std.specs.Prelude.{◌≡◌, ◌+◌, ◌^◌, ◌<◌, [], OnOk, OnErr, IfOk, IfErr, IfSome, IfNone, Contains, filter, take};
ghost use Rattle.lt_rec.specs.Record.{stored_len};
ghost use Rattle.lt_mem.specs.Rising.{IsRising, IsInOrder, NoneHas, Gains, Refuses, SpansOf, all_stored, in_order, widened_by};
ghost use Rattle.lt_rec.specs.Boxes.{in_box};

use crate::AddError;
use crate::pieces::Pieces;
use lt_rec::{NoMemory, RawBox, Rec, RecList};
use std::alloc::Global;
use std::marker::Model;

/// Records in the order of their keys, all different. Contracts see the list.
#[derive(Drop)]
pub struct MemTablet {
    pieces: Pieces,
    seqs: Option<(u64, u64)>,
    span: Option<(u64, u64)>,
    bytes: u64,
}

impl Model for MemTablet {
    ghost use Rattle.std.specs.Prelude.{List};
    ghost use Rattle.lt_rec.specs.Record.{Record};
    ghost use Rattle.lt_mem.specs.Rising.{IsKept};

    ghost Value = { List Record };

    ghost view = { λ t. t.pieces };

    ghost invariant = { λ t. IsKept t.pieces t.seqs t.span t.bytes };
}

impl MemTablet {
    /// No records. Takes no memory.
    pub fn new(alloc: Global) -> MemTablet
        ensures { result ≡ [] }
    {
        MemTablet {
            pieces: Pieces::new(alloc),
            seqs: None,
            span: None,
            bytes: 0,
        }
    }

    /// Adds a record, unless one has its key already. On a refusal all is as before, and the record is given back.
    pub fn add(&mut self, rec: Rec) -> Result<(), (Rec, AddError)>
        requires fits { all_stored self.old + stored_len rec < 2 ^ 64 }
        ensures ok { OnOk result (Gains self.old self.new rec) }
        ensures distinct { OnOk result (NoneHas self.old rec.key) }
        ensures rising { IsRising self.new }
        ensures cause { IfErr result (λ refused. Refuses self.old rec.key refused.1) }
        ensures handed_back { IfErr result (λ refused. refused.0 ≡ rec) }
        ensures unchanged { OnErr result (self.new ≡ self.old) }
    {
        let seq = rec.seq();
        let ts = rec.ts();
        let len = rec.stored_len() as u64;
        match self.pieces.add(rec) {
            Ok(()) => {
                self.seqs = widened(self.seqs, seq);
                self.span = widened(self.span, ts);
                self.bytes += len;
                Ok(())
            }
            Err(refused) => Err(refused),
        }
    }

    /// The record of this key; `None` exactly where there is none. Takes no memory.
    pub fn get(&self, key: &[u8]) -> Option<&Rec>
        ensures found { IfSome result (λ r. r.now.key ≡ key.now) }
        ensures held { IfSome result (λ r. Contains self.now r.now) }
        ensures none { IfNone result (NoneHas self.now key.now) }
        ensures rising { IsRising self.now }
    {
        self.pieces.get(key)
    }

    /// The first records of the box in the order of their keys or, with `down`, the other way round; `limit` of them or all.
    /// Copies pointers and no record.
    pub fn walk(&self, raw_box: &RawBox, down: bool, limit: u64) -> Result<RecList, NoMemory>
        ensures exact { IfOk result (λ list. list ≡ take limit (filter (in_box raw_box.now) (in_order down self.now))) }
        ensures sorted { IfOk result (λ list. IsInOrder down list) }
    {
        self.pieces.walk(raw_box, down, limit as usize)
    }

    /// The least and the greatest number; `None` exactly where there is no record. Takes no memory.
    pub fn seqs(&self) -> Option<(u64, u64)>
        ensures { SpansOf (λ r. r.seq) self.now result }
    {
        self.seqs
    }

    /// The least and the greatest timestamp, in microseconds since the Unix epoch; `None` exactly where there is no record.
    /// Takes no memory.
    pub fn span(&self) -> Option<(u64, u64)>
        ensures { SpansOf (λ r. r.ts) self.now result }
    {
        self.span
    }

    /// The bytes that the records take where they are stored. Takes no memory.
    pub fn bytes(&self) -> u64
        ensures { result ≡ all_stored self.now }
    {
        self.bytes
    }
}

/// The least and the greatest, with one number more.
fn widened(span: Option<(u64, u64)>, n: u64) -> Option<(u64, u64)>
    ensures { result ≡ widened_by span n }
{
    match span {
        None => Some((n, n)),
        Some((low, high)) => Some((low.min(n), high.max(n))),
    }
}
