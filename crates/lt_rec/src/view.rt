ghost use Rattle.std.specs.Prelude.{◌≡◌, ◌+◌, ◌≤◌, ◌++◌, ℕ, List, IfOk, length, take, drop};
ghost use Rattle.std.specs.Int.{w32, w64, from_be_bytes};
ghost use Rattle.lt_rec.specs.Record.{BeginsWith, IsRecord, IsStored, Record, spelled, stem_of, stored_record, time_of};

use crate::{NoMemory, Octets, Rec};
use byteorder::{BigEndian, ByteOrder};
use std::alloc::Global;
use std::marker::Model;

/// A record in place: the bytes that a block has of it. Contracts see the record.
#[derive(Debug, Drop)]
pub struct RecView<'a> {
    bytes: &'a [u8],
}

impl<'a> Model for RecView<'a> {
    ghost use Rattle.lt_rec.specs.Record.{Record, IsStored, stored_record};

    ghost Value = { Record };

    ghost view = { λ r. stored_record r.bytes.now };

    ghost invariant = { λ r. IsStored r.bytes.now };
}

impl<'a> RecView<'a> {
    /// The record that the bytes spell. Takes no memory.
    pub fn new(bytes: &'a [u8]) -> RecView<'a>
        requires { IsStored bytes.now }
        ensures { result ≡ stored_record bytes.now }
    {
        RecView { bytes }
    }

    /// The record that the bytes begin with. Takes no memory.
    pub fn first_in(bytes: &'a [u8]) -> RecView<'a>
        requires { BeginsWith bytes.now }
        ensures exact { (r : Record) (rest : List ℕ) → IsRecord r → bytes.now ≡ spelled r ++ rest → result ≡ r }
    {
        let (_, behind) = bytes.split_at(4);
        let len = Rec::HEADER + u32_in(bytes) as usize + u32_in(behind) as usize;
        let (stored, _) = bytes.split_at(len);
        RecView::new(stored)
    }

    /// A copy of the record.
    pub fn to_rec(&self, alloc: Global) -> Result<Rec, NoMemory>
        ensures value { IfOk result (λ rec. rec ≡ self.now) }
        ensures lawful { IsRecord self.now }
    {
        Ok(Rec::from_stored(Octets::from_slice(alloc, self.bytes)?))
    }

    /// The bytes that a block has of it.
    pub fn stored(&self) -> &'a [u8]
        ensures exact { result.now ≡ spelled self.now }
        ensures lawful { IsRecord self.now }
    {
        self.bytes
    }

    pub fn key(&self) -> &'a [u8]
        ensures value { result.now ≡ self.now.key }
        ensures lawful { IsRecord self.now }
    {
        let (key, _) = self.parts();
        key
    }

    /// The key without its timestamp.
    pub fn stem(&self) -> &'a [u8]
        ensures exact { result.now ≡ stem_of self.now.key }
        ensures lawful { IsRecord self.now }
    {
        let key = self.key();
        let (stem, _) = key.split_at(key.len() - 8);
        stem
    }

    /// The timestamp, in microseconds since the Unix epoch.
    pub fn ts(&self) -> u64
        ensures value { result ≡ self.now.ts }
        ensures lawful { IsRecord self.now }
    {
        let key = self.key();
        let (_, time) = key.split_at(key.len() - 8);
        u64_in(time)
    }

    pub fn seq(&self) -> u64
        ensures value { result ≡ self.now.seq }
        ensures lawful { IsRecord self.now }
    {
        let (_, seq) = self.bytes.split_at(8);
        u64_in(seq)
    }

    pub fn ver(&self) -> u32
        ensures value { result ≡ self.now.ver }
        ensures lawful { IsRecord self.now }
    {
        let (_, ver) = self.bytes.split_at(16);
        u32_in(ver)
    }

    pub fn body(&self) -> &'a [u8]
        ensures value { result.now ≡ self.now.body }
        ensures lawful { IsRecord self.now }
    {
        let (_, body) = self.parts();
        body
    }

    fn parts(&self) -> (&'a [u8], &'a [u8])
        ensures key { result.0.now ≡ self.now.key }
        ensures body { result.1.now ≡ self.now.body }
        ensures lawful { IsRecord self.now }
    {
        let (_, parts) = self.bytes.split_at(Rec::HEADER);
        parts.split_at(u32_in(self.bytes) as usize)
    }
}

/// The number in the first four bytes.
#[tactic(auto, using(crate::proofs::Numbers::read_4))]
pub(crate) fn u32_in(bytes: &[u8]) -> u32
    requires { 4 ≤ length bytes.now }
    ensures { result ≡ from_be_bytes w32 (take 4 bytes.now) }
{
    BigEndian::read_u32(bytes)
}

/// The number in the first eight bytes.
#[tactic(auto, using(crate::proofs::Numbers::read_8))]
pub(crate) fn u64_in(bytes: &[u8]) -> u64
    requires { 8 ≤ length bytes.now }
    ensures { result ≡ from_be_bytes w64 (take 8 bytes.now) }
{
    BigEndian::read_u64(bytes)
}
