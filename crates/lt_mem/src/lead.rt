ghost use Rattle.std.specs.Prelude.{◌≡◌, ℕ, ◌<◌, ◌≤◌, length, slice_index};
ghost use Rattle.lt_mem.specs.Lead.{IsLead};

/// How many bytes of a key its lead has: sixteen and not eight, since a table's keys often begin with the same bytes.
const DIGITS: usize = 16;

/// The key's first bytes as a number. Of two keys the one with the smaller lead is the smaller.
pub fn lead_of(key: &[u8]) -> u128
    ensures { IsLead key.now result }
{
    match key.first_chunk::<DIGITS>() {
        Some(first) => u128::from_be_bytes(*first),
        None => u128::from_be_bytes(padded(key)),
    }
}

/// A short key's bytes, and zeros behind them.
fn padded(key: &[u8]) -> [u8; DIGITS]
    requires { length key.now ≤ 16 }
    ensures { (i : ℕ) → slice_index result i ≡ slice_index key.now i }
{
    let mut bytes = [0; DIGITS];
    let (front, _) = bytes.split_at_mut(key.len());
    front.copy_from_slice(key);
    bytes
}
