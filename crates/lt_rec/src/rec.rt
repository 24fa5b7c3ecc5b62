ghost use Rattle.std.specs.Prelude.{◌≡◌, ◌↔◌, ◌+◌, ◌-◌, ◌≤◌, ◌<◌, ◌^◌, ◌++◌, ℕ, IfOk, IsTrue, length, slice_index, take, drop};
ghost use Rattle.std.specs.Int.{w32, w64, to_be_bytes};
ghost use Rattle.lt_rec.specs.Record.{IsRecord, IsStored, made, spelled, stem_of, stored_len, stored_record, time_of};

use crate::{NUMBERS_END, NoMemory, Octets, RecView};
use byteorder::{BigEndian, ByteOrder};
use std::alloc::{AllocError, Global};
use std::marker::Model;

/// A row as bytes. The last eight bytes of its key are its timestamp, in microseconds since the Unix epoch and in
/// big-endian order. It lies in one piece of memory, as the very bytes that a block has of it.
#[derive(Debug, Drop, PartialEq, Eq)]
pub struct Rec {
    bytes: Octets,
}

impl Model for Rec {
    ghost use Rattle.lt_rec.specs.Record.{Record, IsStored, stored_record, spelled};

    ghost Value = { Record };

    ghost view = { λ r. stored_record r.bytes };

    ghost invariant = { λ r. IsStored r.bytes };

    ghost inverse = { λ v. record { bytes = spelled v } };

    ghost inverse_ok = { λ r h i. record { bytes = h.spelling i } };
}

impl Rec {
    /// The fewest bytes of a key: its timestamp's.
    pub const SHORTEST_KEY: usize = 8;
    /// The most bytes of a key.
    pub const LONGEST_KEY: usize = 4_096;
    /// The most bytes of a body.
    pub const LONGEST_BODY: usize = 60_000;
    /// The bytes before the key: two lengths, number and version.
    pub const HEADER: usize = 20;
    /// Numbers are below this one.
    pub const SEQ_END: u64 = NUMBERS_END;

    /// Whether a record may have these parts.
    pub fn fits(key: &[u8], seq: u64, body: &[u8]) -> bool
        ensures exact { IsTrue result ↔ ((8 ≤ length key.now) × (length key.now ≤ 4096) × (seq < 2 ^ 62) × (length body.now ≤ 60000)) }
    {
        Rec::SHORTEST_KEY <= key.len()
            && key.len() <= Rec::LONGEST_KEY
            && seq < Rec::SEQ_END
            && body.len() <= Rec::LONGEST_BODY
    }

    /// Room for a record with so many bytes of key and body: bytes for its header, behind which they are to be put.
    pub fn room(alloc: Global, len: usize) -> Result<Vec<u8>, NoMemory>
        ensures header { IfOk result (λ bytes. length bytes.items ≡ 20) }
    {
        let mut bytes = Vec::with_capacity(alloc, len.saturating_add(Rec::HEADER))?;
        bytes.extend_from_slice(&[0; Rec::HEADER])?;
        Ok(bytes)
    }

    /// The record of the bytes behind a header: a key of `key_len` bytes and then the body. Takes no memory; the header
    /// is written anew.
    pub fn from_bytes(bytes: Vec<u8>, key_len: usize, seq: u64, ver: u32) -> Rec
        requires long_enough { 8 ≤ key_len }
        requires short_enough { key_len ≤ 4096 }
        requires within { 20 + key_len ≤ length bytes.items }
        requires numbered { seq < 2 ^ 62 }
        requires small_body { length bytes.items ≤ 20 + key_len + 60000 }
        ensures parts { result ≡ made (take key_len (drop 20 bytes.items)) seq ver (drop key_len (drop 20 bytes.items)) }
        ensures lawful { IsRecord result }
    {
        let body_len = bytes.as_slice().len() - Rec::HEADER - key_len;
        Rec::from_stored(headed(bytes, key_len as u32, body_len as u32, seq, ver))
    }

    /// The record of copies of these parts; its timestamp is read off the key.
    pub fn new(alloc: Global, key: &[u8], seq: u64, ver: u32, body: &[u8]) -> Result<Rec, NoMemory>
        requires long_enough { 8 ≤ length key.now }
        requires short_enough { length key.now ≤ 4096 }
        requires numbered { seq < 2 ^ 62 }
        requires small_body { length body.now ≤ 60000 }
        ensures parts { IfOk result (λ rec. rec ≡ record { key = key.now; ts = time_of key.now; seq = seq; ver = ver; body = body.now }) }
        ensures lawful { IfOk result (λ rec. IsRecord rec) }
    {
        let mut bytes = Rec::room(alloc, key.len() + body.len())?;
        bytes.extend_from_slice(key)?;
        bytes.extend_from_slice(body)?;
        Ok(Rec::from_bytes(bytes, key.len(), seq, ver))
    }

    /// The record that the bytes spell. Takes no memory.
    pub fn from_stored(bytes: Octets) -> Rec
        requires { IsStored bytes }
        ensures { result ≡ stored_record bytes }
    {
        Rec { bytes }
    }

    /// The record in place. Takes no memory.
    pub fn view(&self) -> RecView<'_>
        ensures { result ≡ self.now }
    {
        RecView::new(self.bytes.as_slice())
    }

    /// The bytes that a block has of it.
    pub fn stored(&self) -> &[u8]
        ensures exact { result.now ≡ spelled self.now }
        ensures lawful { IsRecord self.now }
    {
        self.bytes.as_slice()
    }

    pub fn key(&self) -> &[u8]
        ensures value { result.now ≡ self.now.key }
        ensures lawful { IsRecord self.now }
    {
        self.view().key()
    }

    /// The key without its timestamp. Takes no memory.
    pub fn stem(&self) -> &[u8]
        ensures exact { result.now ≡ stem_of self.now.key }
        ensures lawful { IsRecord self.now }
    {
        self.view().stem()
    }

    pub fn ts(&self) -> u64
        ensures value { result ≡ self.now.ts }
        ensures lawful { IsRecord self.now }
    {
        self.view().ts()
    }

    pub fn seq(&self) -> u64
        ensures value { result ≡ self.now.seq }
        ensures lawful { IsRecord self.now }
    {
        self.view().seq()
    }

    pub fn ver(&self) -> u32
        ensures value { result ≡ self.now.ver }
        ensures lawful { IsRecord self.now }
    {
        self.view().ver()
    }

    pub fn body(&self) -> &[u8]
        ensures value { result.now ≡ self.now.body }
        ensures lawful { IsRecord self.now }
    {
        self.view().body()
    }

    /// How many bytes the record takes where it is stored.
    pub fn stored_len(&self) -> usize
        ensures exact { result ≡ stored_len self.now }
        ensures lawful { IsRecord self.now }
    {
        self.bytes.len()
    }
}

impl Clone for Rec {
    ghost is_clone = { λ x y. x ≡ y };

    fn clone(&self) -> Result<Rec, AllocError> {
        let bytes = self.bytes.clone()?;
        Ok(Rec { bytes })
    }
}

/// The bytes with this header.
fn headed(bytes: Vec<u8>, key_len: u32, body_len: u32, seq: u64, ver: u32) -> Octets
    requires { 20 ≤ length bytes.items }
    ensures bytes { (i : ℕ) → slice_index bytes.items i < 256 }
    ensures header { result ≡ to_be_bytes w32 key_len ++ (to_be_bytes w32 body_len ++ (to_be_bytes w64 seq ++ (to_be_bytes w32 ver ++ drop 20 bytes.items))) }
{
    let mut bytes = bytes;
    set_header(&mut bytes, key_len, body_len, seq, ver);
    Octets::from_vec(bytes)
}

/// Writes the two lengths, the number and the version into the first bytes.
fn set_header(bytes: &mut [u8], key_len: u32, body_len: u32, seq: u64, ver: u32)
    requires { 20 ≤ length bytes.old }
    ensures bytes { (i : ℕ) → slice_index bytes.old i < 256 }
    ensures header { bytes.new ≡ to_be_bytes w32 key_len ++ (to_be_bytes w32 body_len ++ (to_be_bytes w64 seq ++ (to_be_bytes w32 ver ++ drop 20 bytes.old))) }
{
    BigEndian::write_u32(bytes, key_len);
    BigEndian::write_u32(&mut bytes[4..], body_len);
    BigEndian::write_u64(&mut bytes[8..], seq);
    BigEndian::write_u32(&mut bytes[16..], ver);
}
