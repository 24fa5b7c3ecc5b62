ghost use Rattle.std.specs.Prelude.{◌≡◌, ◌<◌, ◌≤◌, [], ◌∷◌, ◌++◌, OnOk, OnErr, IfOk, IfErr, true, length, take, drop};
ghost use Rattle.std.specs.List.{insert};
ghost use Rattle.std.specs.Arc.{arc_value};
ghost use Rattle.lt_rec.specs.Records.{piece};
ghost use Rattle.lt_mem.specs.Lead.{IsLead, AreLeads};
ghost use Rattle.lt_mem.specs.Pieces.{AreWithin, AllHaveTime, NoneHasTime, first_key};

use crate::lead::lead_of;
use lt_rec::{Chunk, NoMemory, RawBox, Rec};
use std::alloc::Global;
use std::marker::Model;
use std::sync::Arc;

/// How many records a full vector makes room for at a time, so that little memory stays unused.
const GROWTH: usize = 32;

/// Neighbouring records, which lists of records may share, the leads of their keys, the first of them apart, and two
/// timestamps that theirs lie between. Contracts see the list.
#[derive(Drop)]
pub struct Piece {
    lead: u128,
    recs: Arc<Vec<Rec>>,
    leads: Vec<u128>,
    earliest: u64,
    latest: u64,
}

impl Model for Piece {
    ghost use Rattle.std.specs.Prelude.{List};
    ghost use Rattle.std.specs.Arc.{arc_value};
    ghost use Rattle.lt_rec.specs.Record.{Record};
    ghost use Rattle.lt_mem.specs.Pieces.{IsSummed};

    ghost Value = { List Record };

    ghost view = { λ p. (arc_value p.recs).items };

    ghost invariant = { λ p. IsSummed (arc_value p.recs).items p.lead p.leads.items p.earliest p.latest };
}

impl Piece {
    /// These records, with the leads of their keys.
    fn from_vec(alloc: Global, recs: Vec<Rec>, leads: Vec<u128>) -> Result<Piece, Vec<Rec>>
        requires leads { AreLeads recs.items leads.items }
        ensures ok { IfOk result (λ piece. piece ≡ recs.items) }
        ensures handed_back { IfErr result (λ refused. refused ≡ recs) }
    {
        let lead = first_lead(recs.as_slice());
        let (earliest, latest) = times_of(recs.as_slice());
        match Arc::new(alloc, recs) {
            Ok(recs) => Ok(Piece {
                lead,
                recs,
                leads,
                earliest,
                latest,
            }),
            Err(refused) => Err(refused.value),
        }
    }

    /// One record.
    pub fn one(alloc: Global, rec: Rec) -> Result<Piece, Rec>
        ensures ok { IfOk result (λ piece. piece ≡ rec ∷ []) }
        ensures handed_back { IfErr result (λ refused. refused ≡ rec) }
    {
        let Ok(leads) = Vec::from_slice(alloc, &[lead_of(rec.key())]) else {
            return Err(rec);
        };
        let mut recs = Vec::new(alloc);
        match recs.push(rec) {
            Ok(()) => {}
            Err(refused) => return Err(refused.value),
        }
        match Piece::from_vec(alloc, recs, leads) {
            Ok(piece) => Ok(piece),
            Err(mut recs) => match recs.pop() {
                Some(rec) => Err(rec),
                None => unreachable!(),
            },
        }
    }

    pub fn as_slice(&self) -> &[Rec]
        ensures { result.now ≡ self.now }
    {
        self.recs.as_slice()
    }

    /// The lead of the first record's key.
    pub fn lead(&self) -> u128
        ensures { IsLead (first_key self.now) result }
    {
        self.lead
    }

    /// The leads of the records' keys.
    pub fn leads(&self) -> &[u128]
        ensures { AreLeads self.now result.now }
    {
        self.leads.as_slice()
    }

    /// The records from `from` up to `to`, shared.
    pub fn share(&self, from: usize, to: usize, down: bool) -> Result<Chunk, NoMemory>
        requires ordered { from ≤ to }
        requires within { to ≤ length self.now }
        ensures { IfOk result (λ chunk. chunk ≡ piece self.now from to down) }
    {
        let recs = Arc::try_clone(&self.recs)?;
        Ok(Chunk::new(recs, from, to, down))
    }

    /// Whether the box surely has all of the timestamps.
    pub fn lies_in(&self, raw_box: &RawBox) -> bool
        ensures { result ≡ true → AllHaveTime raw_box.now self.now }
    {
        raw_box.from <= self.earliest && self.latest <= raw_box.to
    }

    /// Whether the box surely has none of the timestamps.
    pub fn misses(&self, raw_box: &RawBox) -> bool
        ensures { result ≡ true → NoneHasTime raw_box.now self.now }
    {
        self.latest < raw_box.from || raw_box.to < self.earliest
    }

    /// Puts the record, with its key's lead, at this place. Where a list shares these records, they are copied first, and the
    /// list keeps its own.
    pub fn insert(&mut self, place: usize, lead: u128, rec: Rec) -> Result<(), Rec>
        requires within { place ≤ length self.old }
        requires lead { IsLead rec.key lead }
        ensures ok { OnOk result (self.new ≡ insert self.old place rec) }
        ensures unchanged { OnErr result (self.new ≡ self.old) }
        ensures handed_back { IfErr result (λ refused. refused ≡ rec) }
    {
        let ts = rec.ts();
        if place_in_vec(&mut self.leads, place, lead).is_err() {
            return Err(rec);
        }
        match put_in(&mut self.recs, place, rec) {
            Ok(()) => {
                self.lead = lead_with(self.lead, place, lead);
                self.earliest = self.earliest.min(ts);
                self.latest = self.latest.max(ts);
                Ok(())
            }
            Err(rec) => {
                self.leads.remove(place);
                Err(rec)
            }
        }
    }

    /// Gives away the records from this place on.
    pub fn split_off(&mut self, at: usize) -> Result<Piece, NoMemory>
        requires within { at ≤ length self.old }
        ensures kept { OnOk result (self.new ≡ take at self.old) }
        ensures given { IfOk result (λ piece. piece ≡ drop at self.old) }
        ensures unchanged { OnErr result (self.new ≡ self.old) }
    {
        let alloc = *self.leads.allocator();
        let (_, leads) = self.leads.as_slice().split_at(at);
        let given = tail_of(&mut self.recs, at, Vec::from_slice(alloc, leads)?)?;
        self.leads.truncate(at);
        self.leads.shrink_to_fit();
        let (earliest, latest) = times_of(self.recs.as_slice());
        self.lead = first_lead(self.recs.as_slice());
        self.earliest = earliest;
        self.latest = latest;
        Ok(given)
    }
}

/// The lead of the first record's key.
fn first_lead(recs: &[Rec]) -> u128
    ensures { IsLead (first_key recs.now) result }
{
    match recs.first() {
        Some(rec) => lead_of(rec.key()),
        None => lead_of(b""),
    }
}

/// The first lead once this one is put at the place.
fn lead_with(first: u128, place: usize, lead: u128) -> u128
    ensures first { place ≡ 0 → result ≡ lead }
    ensures later { 0 < place → result ≡ first }
{
    if place == 0 { lead } else { first }
}

/// Two timestamps that those of the records lie between.
fn times_of(recs: &[Rec]) -> (u64, u64)
    ensures { AreWithin recs.now result.0 result.1 }
{
    let mut earliest = u64::MAX;
    let mut latest: u64 = 0;
    for rec in recs {
        earliest = earliest.min(rec.ts());
        latest = latest.max(rec.ts());
    }
    (earliest, latest)
}

/// Puts the element at this place of a vector.
fn place_in_vec<T>(items: &mut Vec<T>, place: usize, item: T) -> Result<(), T>
    requires within { place ≤ length items.old.items }
    ensures ok { OnOk result (items.new.items ≡ insert items.old.items place item) }
    ensures unchanged { OnErr result (items.new.items ≡ items.old.items) }
    ensures handed_back { IfErr result (λ refused. refused ≡ item) }
{
    if items.len() == items.capacity() && items.reserve_exact(GROWTH).is_err() {
        return Err(item);
    }
    match items.push(item) {
        Ok(()) => {
            let (_, behind) = items.as_mut_slice().split_at_mut(place);
            behind.rotate_right(1);
            Ok(())
        }
        Err(refused) => Err(refused.value),
    }
}

fn put_in(recs: &mut Arc<Vec<Rec>>, place: usize, rec: Rec) -> Result<(), Rec>
    requires within { place ≤ length (arc_value recs.old).items }
    ensures ok { OnOk result ((arc_value recs.new).items ≡ insert (arc_value recs.old).items place rec) }
    ensures unchanged { OnErr result ((arc_value recs.new).items ≡ (arc_value recs.old).items) }
    ensures handed_back { IfErr result (λ refused. refused ≡ rec) }
{
    match Arc::make_mut(recs) {
        Ok(recs) => place_in_vec(recs, place, rec),
        Err(_) => Err(rec),
    }
}

/// Takes the records from this place on off a vector.
fn cut_off(recs: &mut Vec<Rec>, at: usize, leads: Vec<u128>) -> Result<Piece, NoMemory>
    requires within { at ≤ length recs.old.items }
    requires leads { AreLeads (drop at recs.old.items) leads.items }
    ensures kept { OnOk result (recs.new.items ≡ take at recs.old.items) }
    ensures given { IfOk result (λ piece. piece ≡ drop at recs.old.items) }
    ensures unchanged { OnErr result (recs.new.items ≡ recs.old.items) }
{
    let alloc = *recs.allocator();
    let tail = recs.split_off(at)?;
    match Piece::from_vec(alloc, tail, leads) {
        Ok(piece) => {
            recs.shrink_to_fit();
            Ok(piece)
        }
        Err(mut tail) => match recs.append(&mut tail) {
            Ok(()) => Err(NoMemory),
            Err(_) => unreachable!(),
        },
    }
}

fn tail_of(recs: &mut Arc<Vec<Rec>>, at: usize, leads: Vec<u128>) -> Result<Piece, NoMemory>
    requires within { at ≤ length (arc_value recs.old).items }
    requires leads { AreLeads (drop at (arc_value recs.old).items) leads.items }
    ensures kept { OnOk result ((arc_value recs.new).items ≡ take at (arc_value recs.old).items) }
    ensures given { IfOk result (λ piece. piece ≡ drop at (arc_value recs.old).items) }
    ensures unchanged { OnErr result ((arc_value recs.new).items ≡ (arc_value recs.old).items) }
{
    match Arc::make_mut(recs) {
        Ok(recs) => cut_off(recs, at, leads),
        Err(_) => Err(NoMemory),
    }
}
