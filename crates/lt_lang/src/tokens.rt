//! Tokens: runs of bytes that aren't spaces, with spaces between them.
ghost use Rattle.std.specs.Prelude.{◌≡◌, ◌≤◌, length};
ghost use Rattle.std.specs.List.{prefix_len};
ghost use Rattle.lt_lang.specs.Reading.{Finds, after};
ghost use Rattle.lt_lang.specs.Tokens.{behind, is_ended, is_solid, is_space, skipped, word_of};
ghost use Rattle.lt_lang.specs.Parsing.{after_word, behind_next, maybe_count, maybe_moment, needed_count, next_word};
ghost use Rattle.lt_lang.specs.Parsing.{Gives};

use crate::integers::{count_of, moment_here, moment_of};
use crate::stop::Stop;

fn spaces_len(bytes: &[u8]) -> usize
    ensures len { result ≡ prefix_len is_space bytes.now }
    ensures within { result ≤ length bytes.now }
{
    bytes.iter().take_while(|byte| **byte == b' ').count()
}

fn word_len(bytes: &[u8]) -> usize
    ensures len { result ≡ prefix_len is_solid bytes.now }
    ensures within { result ≤ length bytes.now }
{
    bytes.iter().take_while(|byte| **byte != b' ').count()
}

/// The bytes from the next token on.
#[tactic(auto, unfolding(crate::specs::Tokens::skipped))]
pub fn skip_spaces(bytes: &[u8]) -> &[u8]
    ensures { result.now ≡ skipped bytes.now }
{
    let (_, here) = bytes.split_at(spaces_len(bytes));
    here
}

/// The bytes up to the next space, and those from there on.
#[tactic(auto, unfolding(crate::specs::Tokens::word_of, crate::specs::Tokens::behind))]
pub fn split_word(bytes: &[u8]) -> (&[u8], &[u8])
    ensures word { result.0.now ≡ word_of bytes.now }
    ensures rest { result.1.now ≡ behind bytes.now }
{
    bytes.split_at(word_len(bytes))
}

/// The next token, where it is no text, and the bytes behind it.
pub fn next_word(bytes: &[u8]) -> (&[u8], &[u8])
    ensures word { result.0.now ≡ next_word bytes.now }
    ensures rest { result.1.now ≡ behind_next bytes.now }
{
    split_word(skip_spaces(bytes))
}

/// Whether nothing is left, or a space comes first.
pub fn is_ended(bytes: &[u8]) -> bool
    ensures { result ≡ is_ended bytes.now }
{
    match bytes {
        [] => true,
        [first, ..] => *first == b' ',
    }
}

/// What is left behind these bytes, where they come first.
#[tactic(auto, unfolding(crate::specs::Reading::after))]
pub fn after<'a>(bytes: &'a [u8], words: &[u8]) -> Option<&'a [u8]>
    ensures { Finds (λ x. x.now) result (after words.now bytes.now) }
{
    bytes.strip_prefix(words)
}

/// What is behind the next token, where it is this word.
#[tactic(auto, unfolding(crate::specs::Parsing::after_word))]
pub fn after_word<'a>(bytes: &'a [u8], word: &[u8]) -> Option<&'a [u8]>
    ensures { Finds (λ x. x.now) result (after_word word.now bytes.now) }
{
    let (next, rest) = next_word(bytes);
    if next == word { Some(rest) } else { None }
}

/// The place of the next token, or the line's end.
pub fn stop_at(bytes: &[u8]) -> Stop
    ensures { result ≡ Stop.At (length (skipped bytes.now)) }
{
    Stop::At(skip_spaces(bytes).len())
}

/// The number that has to come next.
#[tactic(auto, unfolding(crate::specs::Parsing::needed_count))]
pub fn needed_count(bytes: &[u8]) -> Result<(u64, &[u8]), Stop>
    ensures { Gives (λ x. (x.0, x.1.now)) result (needed_count bytes.now) }
{
    let (word, rest) = next_word(bytes);
    match count_of(word) {
        Some(count) => Ok((count, rest)),
        None => Err(stop_at(bytes)),
    }
}

/// The next token, where it is a number.
#[tactic(auto, unfolding(crate::specs::Parsing::maybe_count))]
pub fn maybe_count(bytes: &[u8]) -> (Option<u64>, &[u8])
    ensures { (result.0, result.1.now) ≡ maybe_count bytes.now }
{
    let (word, rest) = next_word(bytes);
    match count_of(word) {
        Some(count) => (Some(count), rest),
        None => (None, bytes),
    }
}

/// The next token, where it is a moment.
#[tactic(auto, unfolding(crate::specs::Parsing::maybe_moment))]
pub fn maybe_moment(bytes: &[u8]) -> (Option<u64>, &[u8])
    ensures { (result.0, result.1.now) ≡ maybe_moment bytes.now }
{
    let here = skip_spaces(bytes);
    if let Some((moment, rest)) = moment_here(here) {
        return (Some(moment), rest);
    }
    let (word, rest) = split_word(here);
    match moment_of(word) {
        Some(moment) => (Some(moment), rest),
        None => (None, bytes),
    }
}
