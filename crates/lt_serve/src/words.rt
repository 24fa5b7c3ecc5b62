ghost use Rattle.std.specs.Prelude.{◌≡◌, ◌↔◌, ◌≤◌, ◌<◌, ◌^◌, ℕ, List, Option, None, IsTrue, IfSome, IfNone, map, string_bytes};
ghost use Rattle.lt_serve.specs.Words.{IsRun, IsCreation, IsTtl};

use lt_lang::read_count;

/// Moments and times to live are below it.
const MOMENTS: u64 = 1 << 62;

/// A new table: the text of its schema, and its time to live in microseconds.
#[derive(Clone, Copy, Debug)]
pub struct Creation<'a> {
    pub schema: &'a str,
    pub ttl: Option<u64>,
}

/// Whether the words are `run DIR --leave`, for any `DIR`.
pub fn is_run(words: &[String]) -> bool
    ensures { IsTrue result ↔ IsRun (map string_bytes words.now) }
{
    match words {
        [command, _, flag] => command.as_str() == "run" && flag.as_str() == "--leave",
        _ => false,
    }
}

/// The number of microseconds that the word says, if it is one from 1 to 2^62 - 1.
fn ttl_of(word: &str) -> Option<u64>
    ensures read { IfSome result (IsTtl word.now) }
    ensures only { IfNone result ((ttl : ℕ) → IsTtl word.now ttl → ⊥) }
{
    match read_count(word.as_bytes()) {
        Some(ttl) if ttl >= 1 && ttl < MOMENTS => Some(ttl),
        _ => None,
    }
}

/// What `create DIR SCHEMA [TTL]` asks for; `None` where the words are none such.
pub fn creation_of(words: &[String]) -> Option<Creation<'_>>
    ensures read { IfSome result (λ creation. IsCreation (map string_bytes words.now) creation.schema.now creation.ttl) }
    ensures only { IfNone result ((schema : List ℕ) (ttl : Option ℕ) → IsCreation (map string_bytes words.now) schema ttl → ⊥) }
    ensures ttl { IfSome result (λ creation. IfSome creation.ttl (λ t. (1 ≤ t) × (t < 2 ^ 62))) }
{
    match words {
        [command, _, schema] if command.as_str() == "create" => Some(Creation {
            schema: schema.as_str(),
            ttl: None,
        }),
        [command, _, schema, word] if command.as_str() == "create" => Some(Creation {
            schema: schema.as_str(),
            ttl: Some(ttl_of(word.as_str())?),
        }),
        _ => None,
    }
}
