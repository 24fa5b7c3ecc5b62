// Fields of a format, read from the front of what is left, and written behind what is there. Numbers have their highest
// byte first.

ghost use Rattle.std.specs.Prelude.{◌≡◌, ◌+◌, ◌++◌, IfOk, OnOk, length};
ghost use Rattle.std.specs.Int.{w32, w64, to_be_bytes};
ghost use Rattle.lt_rec.specs.Reading.{Reads, byte_at, bytes_at, holds, number_at, place};

use crate::{Fault, NoMemory};
use byteorder::{BigEndian, ByteOrder};

/// The offset at which the bytes begin that are left of so many. Takes no memory.
pub fn place_of(total: u64, bytes: &[u8]) -> u64
    ensures exact { result ≡ place total bytes.now }
{
    total.saturating_sub(bytes.len() as u64)
}

/// Answers the fault where the test fails. Takes no memory.
pub fn test_at(test: bool, at: u64) -> Result<(), Fault>
    ensures exact { Reads (λ x. x) result (holds test at) }
{
    if test { Ok(()) } else { Err(Fault { at }) }
}

/// A byte, and the bytes after it. Takes no memory.
pub fn byte_of(at: u64, bytes: &[u8]) -> Result<(u8, &[u8]), Fault>
    ensures exact { Reads (λ x. (x.0, x.1.now)) result (byte_at at bytes.now) }
    ensures len { IfOk result (λ x. length x.1.now + 1 ≡ length bytes.now) }
{
    match bytes.split_first() {
        Some((byte, rest)) => Ok((*byte, rest)),
        None => Err(Fault { at }),
    }
}

/// A number of four bytes, the highest first, and the bytes after it. Takes no memory.
#[tactic(auto, using(crate::proofs::Numbers::read_4))]
pub fn u32_at(at: u64, bytes: &[u8]) -> Result<(u32, &[u8]), Fault>
    ensures exact { Reads (λ x. (x.0, x.1.now)) result (number_at w32 at bytes.now) }
    ensures len { IfOk result (λ x. length x.1.now + 4 ≡ length bytes.now) }
{
    match bytes.split_at_checked(4) {
        Some((number, rest)) => Ok((BigEndian::read_u32(number), rest)),
        None => Err(Fault { at }),
    }
}

/// A number of eight bytes, the highest first, and the bytes after it. Takes no memory.
#[tactic(auto, using(crate::proofs::Numbers::read_8))]
pub fn u64_at(at: u64, bytes: &[u8]) -> Result<(u64, &[u8]), Fault>
    ensures exact { Reads (λ x. (x.0, x.1.now)) result (number_at w64 at bytes.now) }
    ensures len { IfOk result (λ x. length x.1.now + 8 ≡ length bytes.now) }
{
    match bytes.split_at_checked(8) {
        Some((number, rest)) => Ok((BigEndian::read_u64(number), rest)),
        None => Err(Fault { at }),
    }
}

/// So many bytes, and those after them. Takes no memory.
pub fn bytes_of(n: usize, at: u64, bytes: &[u8]) -> Result<(&[u8], &[u8]), Fault>
    ensures exact { Reads (λ x. (x.0.now, x.1.now)) result (bytes_at n at bytes.now) }
    ensures front_len { IfOk result (λ x. length x.0.now ≡ n) }
    ensures len { IfOk result (λ x. length x.1.now + n ≡ length bytes.now) }
{
    match bytes.split_at_checked(n) {
        Some((front, rest)) => Ok((front, rest)),
        None => Err(Fault { at }),
    }
}

/// Puts a number of four bytes behind the others, its highest byte first.
pub fn put_u32(out: &mut Vec<u8>, number: u32) -> Result<(), NoMemory>
    ensures ok { OnOk result (out.new.items ≡ out.old.items ++ to_be_bytes w32 number) }
{
    let mut bytes = [0; 4];
    BigEndian::write_u32(&mut bytes, number);
    out.extend_from_slice(&bytes)?;
    Ok(())
}

/// Puts a number of eight bytes behind the others, its highest byte first.
pub fn put_u64(out: &mut Vec<u8>, number: u64) -> Result<(), NoMemory>
    ensures ok { OnOk result (out.new.items ≡ out.old.items ++ to_be_bytes w64 number) }
{
    let mut bytes = [0; 8];
    BigEndian::write_u64(&mut bytes, number);
    out.extend_from_slice(&bytes)?;
    Ok(())
}
