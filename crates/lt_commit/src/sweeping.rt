ghost use Rattle.std.specs.Prelude.{◌≡◌, ◌≤◌, ◌∷◌, ◌++◌, [], ℕ, None, true, not, filter, IfOk, OnOk, IsErrOf, Contains};
ghost use Rattle.std.specs.List.{list_any};
ghost use Rattle.lt_io.specs.Device.{Counts, KeepsLent};
ghost use Rattle.lt_io.specs.Directory.{Image, Fits, PossibleAt, file_at, moment};
ghost use Rattle.lt_io.specs.Steps.{Steps};
ghost use Rattle.lt_commit.specs.Anchored.{IsAnchored, Goes, CountsGone, names_file, is_spared};
ghost use Rattle.lt_commit.specs.Moments.{Sweeps};
ghost use Rattle.lt_commit.specs.Swept.{IsKept, SeesKept};

use crate::anchor::Anchor;
use lt_desc::Stone;
use lt_io::{Device, DeviceError};
use lt_rec::NoMemory;
use std::alloc::Global;

fn names(stone: &Option<Stone>, file: u64) -> bool
    ensures { result ≡ names_file file stone.now }
{
    match stone {
        Some(stone) => stone.names(file),
        None => false,
    }
}

fn any_names(stones: &[Option<Stone>], file: u64) -> bool
    ensures { result ≡ list_any (names_file file) stones.now }
{
    stones.iter().any(|stone| names(stone, file))
}

#[tactic(auto, using(crate::proofs::Spared::any_push))]
fn is_listed(older: &[Option<Stone>], last: &Option<Stone>, file: u64) -> bool
    ensures { result ≡ list_any (names_file file) (older.now ++ last.now ∷ []) }
{
    any_names(older, file) || names(last, file)
}

/// Whether a possible stone lists the file, or it is busy.
fn is_spared(older: &[Option<Stone>], last: &Option<Stone>, busy: &[u64], file: u64) -> bool
    ensures { result ≡ is_spared (older.now ++ last.now ∷ []) busy.now file }
{
    is_listed(older, last, file) || busy.contains(&file)
}

fn not_spared(
    alloc: Global,
    older: &[Option<Stone>],
    last: &Option<Stone>,
    busy: &[u64],
    files: &[u64],
) -> Result<Vec<u64>, NoMemory>
    ensures { IfOk result (λ gone. gone.items ≡ filter (λ file. not (is_spared (older.now ++ last.now ∷ []) busy.now file)) files.now) }
{
    let gone = files
        .iter()
        .copied()
        .filter(|file| !is_spared(older, last, busy, *file))
        .collect(alloc)?;
    Ok(gone)
}

/// Removes these files, one after the other.
fn remove_all<V: Device>(dev: &mut V, dir: &mut V::Dir, files: &[u64]) -> Result<(), DeviceError>
    ensures any_moment { V.honest ≡ true → Steps (Sweeps (Contains files.now)) (V.directory dir.old) (V.directory dir.new) }
    ensures gone { V.honest ≡ true → OnOk result ((file : ℕ) → Contains files.now file → file_at (V.directory dir.new).seen.files file ≡ None) }
    ensures kept { V.honest ≡ true → SeesKept (Contains files.now) (V.directory dir.old).seen (V.directory dir.new).seen }
    ensures possible { V.honest ≡ true → Fits (V.directory dir.old).seen (V.directory dir.old).now → Fits (V.directory dir.new).seen (V.directory dir.new).now }
    ensures lent { KeepsLent (V.directory dir.old) (V.directory dir.new) }
    ensures cause { Counts (V.faults dev.old) (V.faults dev.new) (IsErrOf result DeviceError.Failed) }
{
    for file in files {
        dev.remove(dir, *file)?;
    }
    Ok(())
}

impl<V: Device> Anchor<V> {
    /// Removes the files that are there, that no possible stone lists and that aren't busy. Answers how many. After a
    /// refusal some of these are removed, and no others.
    pub fn sweep(&mut self, dev: &mut V, busy: &[u64]) -> Result<u64, DeviceError>
        // What a stop may leave, from the start of the call on and whatever it answers: what is possible stays, and the
        // files that aren't to go stand.
        ensures any_moment { V.honest ≡ true → Steps (Sweeps (Goes self.old busy.now)) self.old.directory self.new.directory }
        ensures images { V.honest ≡ true → (at : ℕ) (image : Image) → moment self.old.directory ≤ at → PossibleAt self.new.directory at image → IsKept (Goes self.old busy.now) self.old.directory.now image }

        ensures gone { V.honest ≡ true → OnOk result ((file : ℕ) → Goes self.old busy.now file → file_at self.new.directory.seen.files file ≡ None) }
        ensures count { V.honest ≡ true → IfOk result (λ count. CountsGone self.old busy.now count) }
        ensures kept { V.honest ≡ true → SeesKept (Goes self.old busy.now) self.old.directory.seen self.new.directory.seen }
        ensures may { self.new.may ≡ self.old.may }
        ensures lent { KeepsLent self.old.directory self.new.directory }
        ensures anchored { IsAnchored V.honest self.new }
        ensures cause { Counts (V.faults dev.old) (V.faults dev.new) (IsErrOf result DeviceError.Failed) }
    {
        let files = dev.list(&self.dir)?.files;
        let gone = not_spared(
            self.alloc,
            self.older.as_slice(),
            &self.last,
            busy,
            files.as_slice(),
        )?;
        remove_all(dev, &mut self.dir, gone.as_slice())?;
        Ok(gone.len() as u64)
    }
}
