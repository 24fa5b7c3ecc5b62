//! Bytes of a text by their hexadecimal digits.
ghost use Rattle.lt_lang.specs.Reading.{Finds};
ghost use Rattle.lt_lang.specs.Parsing.{hex_byte_at};

use lt_hex::hex_byte;

/// The byte that two digits spell, and what is behind them.
#[tactic(auto, unfolding(crate::specs::Parsing::hex_byte_at))]
pub fn hex_byte_at(bytes: &[u8]) -> Option<(u8, &[u8])>
    ensures { Finds (λ x. (x.0, x.1.now)) result (hex_byte_at bytes.now) }
{
    let (high, rest) = bytes.split_first()?;
    let (low, rest) = rest.split_first()?;
    match hex_byte(*high, *low) {
        Some(byte) => Some((byte, rest)),
        None => None,
    }
}
