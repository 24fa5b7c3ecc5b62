ghost use Rattle.std.specs.Prelude.{◌≡◌, ◌≤◌, ◌<◌, ◌+◌, ◌^◌, ◌∷◌, [], ℕ, Some, None, true, IfOk, IfErr, IfSome, OnOk, IsErrOf, IsErrAnd, IsSome, MatchResult};
ghost use Rattle.lt_io.specs.Device.{Counts, KeepsLent};
ghost use Rattle.lt_io.specs.Steps.{Steps};
ghost use Rattle.lt_commit.specs.Anchored.{IsAnchored};
ghost use Rattle.lt_commit.specs.Begun.{IsEmpty, HoldsEmpty, Begins, NoneOrEmpty, AllEmpty};
ghost use Rattle.lt_commit.specs.Causes.{Denies};
ghost use Rattle.lt_commit.specs.Moments.{Narrows, LendsOne, MayLendOne};

use crate::anchor::Anchor;
use crate::errors::CreateError;
use lt_desc::{Stone, Tablets};
use lt_io::Device;
use lt_rec::NoMemory;
use lt_schema::{Schema, Schemas};
use std::alloc::Global;

/// The stone of an empty table, whose descriptor has that file number.
fn empty_stone(
    alloc: Global,
    file: u64,
    schema: Schema,
    ttl: Option<u64>,
) -> Result<Stone, NoMemory>
    requires ttl { IfSome ttl (λ t. (1 ≤ t) × (t < 2 ^ 62)) }
    requires in_range { file < 2 ^ 62 }
    ensures empty { IfOk result (λ stone. IsEmpty schema ttl stone) }
    ensures next { IfOk result (λ stone. stone.next_file ≡ file + 1) }
{
    let schemas = Schemas::of(alloc, schema)?;
    // That the first is lawful is known once it is read.
    let _first = schemas.first();
    let tablets = Tablets::from_vec(Vec::new(alloc));
    Ok(Stone::new(0, 0, ttl, file + 1, schemas, tablets))
}

impl<V: Device> Anchor<V> {
    /// Makes an empty table in a directory without a descriptor. A refusal hands the directory back.
    pub fn create(
        alloc: Global,
        dev: &mut V,
        dir: V::Dir,
        schema: Schema,
        ttl: Option<u64>,
    ) -> Result<Anchor<V>, (V::Dir, CreateError)>
        requires { IfSome ttl (λ t. (1 ≤ t) × (t < 2 ^ 62)) }
        ensures empty { IfOk result (λ anchor. HoldsEmpty schema ttl anchor) }
        ensures none { V.honest ≡ true → IfOk result (λ anchor. (V.directory dir).seen.descriptor ≡ None) }
        ensures exists { V.honest ≡ true → IsErrAnd result (λ refused. refused.1 ≡ CreateError.Exists) → IsSome (V.directory dir).seen.descriptor }
        ensures spent { V.honest ≡ true → IsErrAnd result (λ refused. refused.1 ≡ CreateError.Spent) → 2 ^ 62 ≤ (V.directory dir).now.ceiling }
        ensures spent_none { V.honest ≡ true → IsErrAnd result (λ refused. refused.1 ≡ CreateError.Spent) → (V.directory dir).seen.descriptor ≡ None }
        ensures unspent { V.honest ≡ true → IfOk result (λ anchor. (V.directory dir).now.ceiling < 2 ^ 62) }

        // `Exists` and `Spent` come before anything is lent or pointed at.
        ensures untouched { V.honest ≡ true → IfErr result (λ refused. Denies refused.1 → Steps Narrows (V.directory dir) (V.directory refused.0)) }
        ensures untouched_seen { V.honest ≡ true → IfErr result (λ refused. Denies refused.1 → (V.directory refused.0).seen ≡ (V.directory dir).seen) }
        ensures untouched_lent { IfErr result (λ refused. Denies refused.1 → KeepsLent (V.directory dir) (V.directory refused.0)) }

        // What a stop may leave, from the start of the call on and whatever it answers. Where 'no descriptor' was all that
        // was possible, each image has none or opens to the empty table; after Ok each opens to it.
        ensures any_moment { V.honest ≡ true → MatchResult result (λ anchor. Steps (Begins schema ttl) (V.directory dir) anchor.directory) (λ refused. Steps (Begins schema ttl) (V.directory dir) (V.directory refused.0)) }
        ensures images { V.honest ≡ true → (V.directory dir).now.may ≡ None ∷ [] → MatchResult result (λ anchor. NoneOrEmpty schema ttl (V.directory dir) anchor.directory) (λ refused. NoneOrEmpty schema ttl (V.directory dir) (V.directory refused.0)) }
        ensures acknowledged { V.honest ≡ true → IfOk result (λ anchor. AllEmpty schema ttl anchor.directory) }

        // The number of the descriptor's file is the ceiling. A refusal lent that one or none.
        ensures number { V.honest ≡ true → IfOk result (λ anchor. LendsOne (V.directory dir).now.ceiling (V.directory dir) anchor.directory) }
        ensures at_most_one { V.honest ≡ true → IfErr result (λ refused. MayLendOne (V.directory dir).now.ceiling (V.directory dir) (V.directory refused.0)) }
        ensures lends { MatchResult result (λ anchor. anchor.directory.lends ≡ (V.directory dir).lends + 1) (λ refused. (V.directory refused.0).lends ≤ (V.directory dir).lends + 1) }
        ensures anchored { IfOk result (λ anchor. IsAnchored V.honest anchor) }
        ensures cause { Counts (V.faults dev.old) (V.faults dev.new) (IsErrAnd result (λ refused. refused.1 ≡ CreateError.Fault)) }
    {
        let (mut anchor, file) = match Anchor::fresh(alloc, dev, dir) {
            Ok(begun) => begun,
            Err((dir, refused)) => return Err((dir, CreateError::from(refused))),
        };
        match anchor.publish_empty(dev, file, schema, ttl) {
            Ok(()) => Ok(anchor),
            Err(refused) => Err((anchor.into_dir(), refused)),
        }
    }

    fn publish_empty(
        &mut self,
        dev: &mut V,
        file: u64,
        schema: Schema,
        ttl: Option<u64>,
    ) -> Result<(), CreateError>
        requires unlent { self.old.directory.now.ceiling ≤ file }
        requires ttl { IfSome ttl (λ t. (1 ≤ t) × (t < 2 ^ 62)) }
        requires anchored { IsAnchored V.honest self.old }
        ensures empty { OnOk result (HoldsEmpty schema ttl self.new) }
        ensures spent { IsErrOf result CreateError.Spent → 2 ^ 62 ≤ file }
        ensures unspent { OnOk result (file < 2 ^ 62) }
        ensures denied { IfErr result (λ refused. Denies refused → self.new ≡ self.old) }
        ensures no_table { IsErrOf result CreateError.Exists → ⊥ }
        ensures any_moment { V.honest ≡ true → Steps (Begins schema ttl) self.old.directory self.new.directory }
        ensures acknowledged { V.honest ≡ true → OnOk result (AllEmpty schema ttl self.new.directory) }
        ensures number { OnOk result (LendsOne file self.old.directory self.new.directory) }
        ensures at_most_one { MayLendOne file self.old.directory self.new.directory }
        ensures lends { self.new.directory.lends ≤ self.old.directory.lends + 1 }
        ensures anchored { IsAnchored V.honest self.new }
        ensures cause { Counts (V.faults dev.old) (V.faults dev.new) (IsErrOf result CreateError.Fault) }
    {
        if file >= Stone::MOST {
            return Err(CreateError::Spent);
        }
        let stone = empty_stone(self.alloc, file, schema, ttl)?;
        self.publish(dev, file, stone)?;
        Ok(())
    }
}
