//! Integers at the front of a line: an optional -, and 1 to 19 digits.
ghost use Rattle.std.specs.Prelude.{◌≡◌, ◌^◌, ◌≤◌, ℕ, Some, IfSome, neg_ℤ, pos, SomeIff};
ghost use Rattle.lt_lang.specs.Numbers.{IsCount};
ghost use Rattle.lt_schema.specs.declared.value.Value.TheVariants.{Int};
ghost use Rattle.lt_lang.specs.Tokens.{behind, word_of};
ghost use Rattle.lt_lang.specs.Parsing.{count_of, integer_of, literal_here, moment_of};
ghost use Rattle.lt_lang.specs.Reading.{Finds, count_at, digit_at, digits_at, integer_at, moment_at, negated_at, unsigned_at};

use crate::tokens::{after, is_ended};
use core::dec2flt::read_digits;

const MOMENTS: u64 = 1 << 62;

fn digit_at(bytes: &[u8]) -> Option<(u8, &[u8])>
    ensures { Finds (λ x. (x.0, x.1.now)) result (digit_at bytes.now) }
{
    match bytes.split_first() {
        Some((byte, rest)) if *byte >= b'0' && *byte <= b'9' => Some((*byte - b'0', rest)),
        _ => None,
    }
}

/// The number of the digits here, 19 at most.
fn digits_at(bytes: &[u8]) -> (u64, &[u8])
    ensures { (result.0, result.1.now) ≡ digits_at 19 0 bytes.now }
{
    let (len, number) = read_digits(bytes, 0, 0);
    if len > 19 {
        return first_digits_at(bytes);
    }
    let (_, rest) = bytes.split_at(len);
    (number, rest)
}

#[cold]
#[inline(never)]
fn first_digits_at(bytes: &[u8]) -> (u64, &[u8])
    ensures { (result.0, result.1.now) ≡ digits_at 19 0 bytes.now }
{
    let mut number = 0;
    let mut rest = bytes;
    for _ in 0..19u32 {
        let Some((digit, after)) = digit_at(rest) else {
            break;
        };
        number = 10 * number + digit as u64;
        rest = after;
    }
    (number, rest)
}

#[tactic(auto, unfolding(crate::specs::Reading::count_at))]
fn count_at(bytes: &[u8]) -> Option<(u64, &[u8])>
    ensures { Finds (λ x. (x.0, x.1.now)) result (count_at bytes.now) }
{
    digit_at(bytes)?;
    Some(digits_at(bytes))
}

#[tactic(auto, unfolding(crate::specs::Reading::moment_at))]
fn moment_at(bytes: &[u8]) -> Option<(u64, &[u8])>
    ensures { Finds (λ x. (x.0, x.1.now)) result (moment_at bytes.now) }
{
    let (moment, rest) = count_at(bytes)?;
    if moment < MOMENTS {
        Some((moment, rest))
    } else {
        None
    }
}

fn negated(number: u64) -> Option<i64>
    ensures { SomeIff result (number ≤ 2 ^ 63) (neg_ℤ (pos number)) }
{
    0i64.checked_sub_unsigned(number)
}

#[tactic(auto, unfolding(crate::specs::Reading::negated_at))]
fn negated_at(bytes: &[u8]) -> Option<(i64, &[u8])>
    ensures { Finds (λ x. (x.0, x.1.now)) result (negated_at bytes.now) }
{
    let (number, rest) = count_at(bytes)?;
    let integer = negated(number)?;
    Some((integer, rest))
}

#[tactic(auto, unfolding(crate::specs::Reading::unsigned_at))]
fn unsigned_at(bytes: &[u8]) -> Option<(i64, &[u8])>
    ensures { Finds (λ x. (x.0, x.1.now)) result (unsigned_at bytes.now) }
{
    let (number, rest) = count_at(bytes)?;
    let integer = i64::try_from(number).ok()?;
    Some((integer, rest))
}

#[tactic(auto, unfolding(crate::specs::Reading::integer_at))]
fn integer_at(bytes: &[u8]) -> Option<(i64, &[u8])>
    ensures { Finds (λ x. (x.0, x.1.now)) result (integer_at bytes.now) }
{
    match bytes.split_first() {
        Some((b'-', digits)) => negated_at(digits),
        _ => unsigned_at(bytes),
    }
}

/// The integer that stands here, where a space or nothing follows it.
#[tactic(auto, using(crate::proofs::Standing::integer_literal))]
pub fn integer_here(bytes: &[u8]) -> Option<(i64, &[u8])>
    ensures { IfSome result (λ x. literal_here bytes.now ≡ Some (Int x.0, x.1.now)) }
{
    let (integer, rest) = integer_at(bytes)?;
    if is_ended(rest) {
        Some((integer, rest))
    } else {
        None
    }
}

/// The moment that is the next token, where it begins here.
pub fn moment_here(bytes: &[u8]) -> Option<(u64, &[u8])>
    ensures { IfSome result (λ x. (moment_of (word_of bytes.now) ≡ Some x.0) × (behind bytes.now ≡ x.1.now)) }
{
    let (moment, rest) = moment_at(after(bytes, b"@")?)?;
    if is_ended(rest) {
        Some((moment, rest))
    } else {
        None
    }
}

/// A word that is a number of 1 to 19 digits.
#[tactic(auto, unfolding(crate::specs::Parsing::count_of))]
pub fn count_of(word: &[u8]) -> Option<u64>
    ensures { Finds (λ x. x) result (count_of word.now) }
{
    match count_at(word) {
        Some((count, [])) => Some(count),
        _ => None,
    }
}

/// A word that is an integer within 64 bits, signed.
#[tactic(auto, unfolding(crate::specs::Parsing::integer_of))]
pub fn integer_of(word: &[u8]) -> Option<i64>
    ensures { Finds (λ x. x) result (integer_of word.now) }
{
    match integer_at(word) {
        Some((integer, [])) => Some(integer),
        _ => None,
    }
}

/// A word that is a @ and a number below 2^62.
#[tactic(auto, unfolding(crate::specs::Parsing::moment_of))]
pub fn moment_of(word: &[u8]) -> Option<u64>
    ensures { Finds (λ x. x) result (moment_of word.now) }
{
    match moment_at(after(word, b"@")?) {
        Some((moment, [])) => Some(moment),
        _ => None,
    }
}

/// The number that a word of 1 to 19 decimal digits spells; `None` for each other word. Takes no memory.
pub fn read_count(word: &[u8]) -> Option<u64>
    ensures read { IfSome result (IsCount word.now) }
    ensures only { (n : ℕ) → IsCount word.now n → result ≡ Some n }
{
    count_of(word)
}
