ghost use Rattle.std.specs.Prelude.{◌≡◌, IfOk};
ghost use Rattle.lt_desc.specs.Lawful.{IsStone};
ghost use Rattle.lt_desc.specs.Spelling.{spelling};
ghost use Rattle.lt_rec.specs.Reading.{Gives};
ghost use Rattle.lt_desc.specs.Reading.{stone_at};

use crate::changes::schemas_of;
use crate::head::head_of;
use crate::listing::listing_of;
use crate::{Stone, Tablets};
use lt_rec::FormatError;
use std::alloc::Global;

/// The stone that the bytes spell. What it takes of memory is within a small multiple of the bytes, whatever numbers they
/// claim.
#[tactic(auto, unfolding(crate::specs::Reading::stone_at))]
pub fn decode(alloc: Global, bytes: &[u8]) -> Result<Stone, FormatError>
    ensures exact { Gives (λ stone. stone) result (stone_at bytes.now) }
    ensures spelled { IfOk result (λ stone. bytes.now ≡ spelling stone) }
    ensures lawful { IfOk result (λ stone. IsStone stone) }
{
    let total = bytes.len() as u64;
    let (head, rest) = head_of(total, bytes)?;
    let (schemas, rest) = schemas_of(alloc, total, rest)?;
    let tablets = listing_of(alloc, head.kept, head.next_file, total, rest)?;
    Ok(Stone::new(
        head.kept,
        head.low,
        head.ttl,
        head.next_file,
        schemas,
        Tablets::from_vec(tablets),
    ))
}
