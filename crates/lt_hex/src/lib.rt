//! Bytes by their hexadecimal digits, two a byte, read in either case.
#![tactic(auto)]

ghost use Rattle.std.specs.Prelude.{◌≡◌, ◌≢◌, IfOk, false};
ghost use Rattle.hex.specs.declared.error.FromHexError.TheVariants.{OutOfMemory};
ghost use Rattle.lt_hex.specs.Digits.{hex_pair, hex_of};

use hex::{FromHex, FromHexError};
use lt_rec::{NoMemory, Octets};
use std::alloc::Global;

/// The byte that two digits spell; `None` where one of them is no digit. Takes no memory.
pub fn hex_byte(high: u8, low: u8) -> Option<u8>
    ensures exact { result ≡ hex_pair high low }
{
    match <[u8; 1] as FromHex>::from_hex([high, low]) {
        Ok(bytes) => Some(bytes[0]),
        Err(_) => None,
    }
}

/// The bytes that the digits spell; `None` where one of them is no digit, or their number is odd.
pub fn hex_bytes(alloc: Global, digits: &[u8]) -> Result<Option<Octets>, NoMemory>
    ensures exact { IfOk result (λ found. found ≡ hex_of digits.now) }
{
    match hex::decode(alloc, digits) {
        Ok(bytes) => Ok(Some(Octets::from_vec(bytes))),
        Err(error) if is_memory(error) => Err(NoMemory),
        Err(_) => Ok(None),
    }
}

fn is_memory(error: FromHexError) -> bool
    ensures { result ≡ false → error ≢ OutOfMemory }
{
    match error {
        FromHexError::OutOfMemory => true,
        FromHexError::OddLength => false,
        FromHexError::InvalidStringLength => false,
        FromHexError::InvalidHexCharacter { .. } => false,
    }
}
