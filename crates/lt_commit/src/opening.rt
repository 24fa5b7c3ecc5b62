ghost use Rattle.std.specs.Prelude.{◌≡◌, ◌≤◌, ◌∷◌, ◌^◌, [], ℕ, max, Some, None, Ok, Err, true, IfOk, OnOk, IsErrOf, IsSome};
ghost use Rattle.std.specs.Option.{option_map};
ghost use Rattle.lt_io.specs.Device.{Counts, KeepsLent};
ghost use Rattle.lt_io.specs.Directory.{Fits};
ghost use Rattle.lt_io.specs.Steps.{Steps};
ghost use Rattle.lt_desc.specs.Lawful.{IsStone};
ghost use Rattle.lt_desc.specs.Reading.{stone_at};
ghost use Rattle.lt_desc.specs.Spelling.{spelling};
ghost use Rattle.lt_commit.specs.Moments.{Narrows};

use crate::errors::{FreshError, LoadError};
use lt_desc::{Stone, decode};
use lt_io::{Device, DeviceError};
use lt_rec::Octets;
use std::alloc::Global;

/// Makes the descriptor that a read gives the only possible one, and gives its bytes, if there is one.
#[tactic(auto, using(crate::proofs::Swap::unready, crate::proofs::Swap::settling_ready))]
fn settle_and_read<V: Device>(dev: &mut V, dir: &mut V::Dir) -> Result<Option<Octets>, DeviceError>
    ensures any_moment { V.honest ≡ true → Steps Narrows (V.directory dir.old) (V.directory dir.new) }
    ensures current { V.honest ≡ true → IfOk result (λ found. found ≡ (V.directory dir.old).seen.descriptor) }
    ensures only { V.honest ≡ true → IfOk result (λ found. (V.directory dir.new).now.may ≡ found ∷ []) }
    ensures seen { V.honest ≡ true → (V.directory dir.new).seen ≡ (V.directory dir.old).seen }
    ensures possible { V.honest ≡ true → Fits (V.directory dir.new).seen (V.directory dir.new).now }
    ensures lent { KeepsLent (V.directory dir.old) (V.directory dir.new) }
    ensures cause { Counts (V.faults dev.old) (V.faults dev.new) (IsErrOf result DeviceError.Failed) }
{
    dev.ready(dir)?;
    dev.settle(dir)?;
    dev.descriptor(dir)
}

/// Makes sure that there is no descriptor. Gives the ceiling of the listing.
pub(crate) fn find_none<V: Device>(dev: &mut V, dir: &mut V::Dir) -> Result<u64, FreshError>
    ensures any_moment { V.honest ≡ true → Steps Narrows (V.directory dir.old) (V.directory dir.new) }
    ensures exists { V.honest ≡ true → IsErrOf result FreshError.Exists → IsSome (V.directory dir.old).seen.descriptor }
    ensures none { V.honest ≡ true → OnOk result ((V.directory dir.old).seen.descriptor ≡ None) }
    ensures only { V.honest ≡ true → OnOk result ((V.directory dir.new).now.may ≡ None ∷ []) }
    ensures seen { V.honest ≡ true → (V.directory dir.new).seen ≡ (V.directory dir.old).seen }
    ensures possible { V.honest ≡ true → Fits (V.directory dir.new).seen (V.directory dir.new).now }
    ensures free { IfOk result (λ next. (V.directory dir.old).now.ceiling ≤ next) }
    ensures in_range { IfOk result (λ next. next ≤ 2 ^ 62) }
    ensures next { V.honest ≡ true → IfOk result (λ next. next ≡ (V.directory dir.old).now.ceiling) }
    ensures lent { KeepsLent (V.directory dir.old) (V.directory dir.new) }
    ensures cause { Counts (V.faults dev.old) (V.faults dev.new) (IsErrOf result FreshError.Fault) }
{
    match settle_and_read(dev, dir)? {
        Some(_) => Err(FreshError::Exists),
        None => Ok(dev.list(dir)?.ceiling),
    }
}

/// The stone of the descriptor, and the next free file number.
pub(crate) fn find_stone<V: Device>(
    alloc: Global,
    dev: &mut V,
    dir: &mut V::Dir,
) -> Result<(Stone, u64), LoadError>
    ensures any_moment { V.honest ≡ true → Steps Narrows (V.directory dir.old) (V.directory dir.new) }
    ensures no_table { V.honest ≡ true → IsErrOf result LoadError.NoTable → (V.directory dir.old).seen.descriptor ≡ None }
    ensures bad { V.honest ≡ true → (at : ℕ) → IsErrOf result (LoadError.Bad at) → option_map stone_at (V.directory dir.old).seen.descriptor ≡ Some (Err at) }
    ensures exact { V.honest ≡ true → IfOk result (λ found. option_map stone_at (V.directory dir.old).seen.descriptor ≡ Some (Ok found.0)) }
    ensures only { V.honest ≡ true → IfOk result (λ found. (V.directory dir.new).now.may ≡ Some (spelling found.0) ∷ []) }
    ensures lawful { IfOk result (λ found. IsStone found.0) }
    ensures readable { IfOk result (λ found. stone_at (spelling found.0) ≡ Ok found.0) }
    ensures seen { V.honest ≡ true → (V.directory dir.new).seen ≡ (V.directory dir.old).seen }
    ensures possible { V.honest ≡ true → Fits (V.directory dir.new).seen (V.directory dir.new).now }
    ensures free { IfOk result (λ found. (V.directory dir.old).now.ceiling ≤ found.1) }
    ensures above { IfOk result (λ found. found.0.next_file ≤ found.1) }
    ensures in_range { IfOk result (λ found. found.1 ≤ 2 ^ 62) }
    ensures next { V.honest ≡ true → IfOk result (λ found. found.1 ≡ max (V.directory dir.old).now.ceiling found.0.next_file) }
    ensures lent { KeepsLent (V.directory dir.old) (V.directory dir.new) }
    ensures cause { Counts (V.faults dev.old) (V.faults dev.new) (IsErrOf result LoadError.Fault) }
{
    let Some(bytes) = settle_and_read(dev, dir)? else {
        return Err(LoadError::NoTable);
    };
    let stone = decode(alloc, bytes.as_slice())?;
    let ceiling = dev.list(dir)?.ceiling;
    let next = ceiling.max(stone.next_file());
    Ok((stone, next))
}
