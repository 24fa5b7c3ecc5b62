ghost use Rattle.std.specs.Prelude.{◌≡◌, ◌⊎◌, ◌≤◌, ◌<◌, ◌+◌, ◌^◌, ◌∷◌, ◌++◌, [], ℕ, Some, Ok, true, IfOk, OnOk, OnErr, IsErrOf, vec_len, vec_capacity};
ghost use Rattle.lt_io.specs.Cause.{HasCause};
ghost use Rattle.lt_io.specs.Device.{Counts, KeepsLent};
ghost use Rattle.lt_io.specs.Directory.{Image, Fits, PossibleAt, moment, lent, settled, pointed};
ghost use Rattle.lt_io.specs.Steps.{Steps};
ghost use Rattle.lt_desc.specs.Reading.{stone_at};
ghost use Rattle.lt_desc.specs.Spelling.{spelling};
ghost use Rattle.lt_commit.specs.Anchored.{IsAnchored};
ghost use Rattle.lt_commit.specs.Moments.{Replaces, either, replaced};

use crate::anchor::Anchor;
use crate::errors::CommitError;
use lt_desc::{Stone, encode};
use lt_io::{Device, DeviceError, Failed};
use std::alloc::Global;

/// Writes the bytes to a file of their own. No moment goes by.
fn write_file<V: Device>(dev: &mut V, lent: V::Lent, bytes: &[u8]) -> Result<V::Reader, DeviceError>
    ensures bytes { V.honest ≡ true → IfOk result (λ reader. V.reader_bytes reader ≡ bytes.now) }
    ensures cause { Counts (V.faults dev.old) (V.faults dev.new) (IsErrOf result DeviceError.Failed) }
{
    let mut pen = match dev.create(lent) {
        Ok(pen) => pen,
        Err((_, refused)) => return Err(refused),
    };
    dev.append(&mut pen, bytes)?;
    dev.seal(pen)
}

/// Lends the number, and writes the stone's spelling to a file of its own. Makes room for a point and a settle. No moment
/// goes by.
fn prepare<V: Device>(
    alloc: Global,
    dev: &mut V,
    dir: &mut V::Dir,
    file: u64,
    stone: &Stone,
) -> Result<V::Reader, CommitError>
    requires unlent { (V.directory dir.old).now.ceiling ≤ file }
    requires in_range { file < 2 ^ 62 }
    ensures bytes { V.honest ≡ true → IfOk result (λ reader. V.reader_bytes reader ≡ spelling stone.now) }
    ensures readable { OnOk result (stone_at (spelling stone.now) ≡ Ok stone.now) }
    ensures spare { OnOk result (2 ≤ V.spare dir.new) }
    ensures lent { V.honest ≡ true → V.directory dir.new ≡ lent (V.directory dir.old) file }
    ensures ceiling { (V.directory dir.new).now.ceiling ≡ file + 1 }
    ensures lends { (V.directory dir.new).lends ≡ (V.directory dir.old).lends + 1 }
    ensures never_spent { IsErrOf result CommitError.Spent → ⊥ }
    ensures cause { Counts (V.faults dev.old) (V.faults dev.new) (IsErrOf result CommitError.Fault) }
{
    let lent = V::lend(dir, file);
    let bytes = encode(alloc, stone)?;
    let reader = write_file(dev, lent, bytes.as_slice())?;
    dev.ready(dir)?;
    Ok(reader)
}

/// Makes the reader's bytes the only possible descriptor. Takes no memory.
#[tactic(auto, using(crate::proofs::Swap::pointing, crate::proofs::Swap::pointing_and_settling))]
fn point_and_settle<V: Device>(
    dev: &mut V,
    dir: &mut V::Dir,
    reader: &V::Reader,
) -> Result<(), Failed>
    requires { 2 ≤ V.spare dir.old }
    ensures any_moment { V.honest ≡ true → (number : ℕ) → Steps (Replaces number (V.reader_bytes reader.now)) (V.directory dir.old) (V.directory dir.new) }
    ensures ok { V.honest ≡ true → OnOk result ((V.directory dir.new).now ≡ settled (V.directory dir.old).now (Some (V.reader_bytes reader.now))) }
    ensures current { V.honest ≡ true → OnOk result ((V.directory dir.new).seen.descriptor ≡ Some (V.reader_bytes reader.now)) }
    ensures failed { V.honest ≡ true → OnErr result ((V.directory dir.new).now ≡ pointed (V.directory dir.old).now (V.reader_bytes reader.now)) }
    ensures files { V.honest ≡ true → (V.directory dir.new).seen.files ≡ (V.directory dir.old).seen.files }
    ensures possible { V.honest ≡ true → Fits (V.directory dir.new).seen (V.directory dir.new).now }
    ensures lent { KeepsLent (V.directory dir.old) (V.directory dir.new) }
    ensures cause { HasCause (V.faults dev.old) (V.faults dev.new) result }
{
    dev.point(dir, reader)?;
    dev.settle(dir)
}

/// Puts the stone last. There is room for the one before it. Takes no memory.
fn join(older: &mut Vec<Option<Stone>>, last: &mut Option<Stone>, stone: Stone)
    requires { vec_len older.old < vec_capacity older.old }
    ensures older { older.new.items ≡ older.old.items ++ last.old ∷ [] }
    ensures last { last.new ≡ Some stone }
{
    let before = last.replace(stone);
    if older.push(before).is_err() {
        unreachable!()
    }
}

impl<V: Device> Anchor<V> {
    /// Makes the stone the only possible one, by a descriptor file of that number. Whatever it answers, the number was
    /// lent. After `Fault` the stone may be possible beside those before; after `NoMemory` nothing else was changed.
    pub fn publish(&mut self, dev: &mut V, file: u64, stone: Stone) -> Result<(), CommitError>
        requires unlent { self.old.directory.now.ceiling ≤ file }
        requires in_range { file < 2 ^ 62 }

        // What a stop may leave, from the start of the call on and whatever it answers: the files stand, and the
        // descriptor was possible before or is the new one.
        ensures any_moment { V.honest ≡ true → Steps (Replaces file (spelling stone)) self.old.directory self.new.directory }
        ensures images { V.honest ≡ true → (at : ℕ) (image : Image) → moment self.old.directory ≤ at → PossibleAt self.new.directory at image → Fits image (either self.old.directory.now file (spelling stone)) }

        ensures acknowledged { V.honest ≡ true → OnOk result (self.new.directory.now ≡ replaced self.old.directory.now file (spelling stone)) }
        ensures current { V.honest ≡ true → OnOk result (self.new.directory.seen.descriptor ≡ Some (spelling stone)) }
        ensures files { V.honest ≡ true → self.new.directory.seen.files ≡ self.old.directory.seen.files }
        ensures ok { OnOk result (self.new.may ≡ Some stone ∷ []) }
        ensures fault { IsErrOf result CommitError.Fault → (self.new.may ≡ self.old.may) ⊎ (self.new.may ≡ self.old.may ++ Some stone ∷ []) }
        ensures no_memory { IsErrOf result CommitError.NoMemory → self.new.may ≡ self.old.may }
        ensures only_lent { V.honest ≡ true → IsErrOf result CommitError.NoMemory → self.new.directory ≡ lent self.old.directory file }
        ensures readable { V.honest ≡ true → (self.new.directory ≡ lent self.old.directory file) ⊎ (stone_at (spelling stone) ≡ Ok stone) }
        ensures never_spent { IsErrOf result CommitError.Spent → ⊥ }
        ensures ceiling { self.new.directory.now.ceiling ≡ file + 1 }
        ensures lends { self.new.directory.lends ≡ self.old.directory.lends + 1 }
        ensures anchored { IsAnchored V.honest self.new }
        ensures cause { Counts (V.faults dev.old) (V.faults dev.new) (IsErrOf result CommitError.Fault) }
    {
        let reader = prepare(self.alloc, dev, &mut self.dir, file, &stone)?;
        self.older.reserve(1)?;
        // Whatever `point` answers, the stone is possible from then on.
        join(&mut self.older, &mut self.last, stone);
        point_and_settle(dev, &mut self.dir, &reader)?;
        self.older.clear();
        Ok(())
    }
}
