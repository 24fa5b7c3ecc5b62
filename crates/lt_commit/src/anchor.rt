ghost use Rattle.std.specs.Prelude.{◌≡◌, ◌<◌, ◌≤◌, ◌+◌, ◌^◌, ◌∷◌, [], ℕ, max, Some, None, Ok, Err, true, IfOk, OnOk, IfErr, IfSome, IsErrOf, IsErrAnd, IsSome, MatchResult, option_copied};
ghost use Rattle.std.specs.Option.{option_map};
ghost use Rattle.lt_io.specs.Device.{Counts, KeepsLent, EntersFile};
ghost use Rattle.lt_io.specs.Directory.{file_at, lent};
ghost use Rattle.lt_io.specs.Steps.{Steps};
ghost use Rattle.lt_desc.specs.Reading.{stone_at};
ghost use Rattle.lt_commit.specs.Anchored.{IsAnchored, IsLoaded, NothingNew, newest};
ghost use Rattle.lt_commit.specs.Moments.{Narrows};

use crate::errors::{FreshError, LoadError};
use crate::opening::{find_none, find_stone};
use lt_desc::Stone;
use lt_io::{Device, DeviceError, Enters};
use std::alloc::Global;
use std::marker::Model;

/// A directory, and the stones that a stop may leave as its descriptor. Contracts see both as plain data.
#[derive(Drop)]
pub struct Anchor<V: Device> {
    pub(crate) dir: V::Dir,
    // The possible stones in the order in which they joined, but for the last one. None is 'no descriptor'.
    pub(crate) older: Vec<Option<Stone>>,
    pub(crate) last: Option<Stone>,
    pub(crate) alloc: Global,
}

impl<V: Device> Model for Anchor<V> {
    ghost use Rattle.std.specs.Prelude.{◌++◌, ◌∷◌, []};
    ghost use Rattle.lt_commit.specs.Anchored.{Anchored, IsAnchored};

    ghost Value = { Anchored };

    ghost view = { λ a. record { directory = V.directory a.dir; may = a.older.items ++ a.last ∷ [] } };

    ghost invariant = { λ a. IsAnchored V.honest record { directory = V.directory a.dir; may = a.older.items ++ a.last ∷ [] } };
}

impl<V: Device> Anchor<V> {
    /// An anchor of a directory without a descriptor, and the ceiling of its listing. A refusal hands the directory back:
    /// nothing was entered, removed or pointed at.
    pub fn fresh(
        alloc: Global,
        dev: &mut V,
        dir: V::Dir,
    ) -> Result<(Anchor<V>, u64), (V::Dir, FreshError)>
        ensures may { IfOk result (λ begun. begun.0.may ≡ None ∷ []) }
        ensures none { V.honest ≡ true → IfOk result (λ begun. (V.directory dir).seen.descriptor ≡ None) }
        ensures exists { V.honest ≡ true → IsErrAnd result (λ refused. refused.1 ≡ FreshError.Exists) → IsSome (V.directory dir).seen.descriptor }
        ensures free { IfOk result (λ begun. begun.0.directory.now.ceiling ≤ begun.1) }
        ensures in_range { IfOk result (λ begun. begun.1 ≤ 2 ^ 62) }
        ensures next { V.honest ≡ true → IfOk result (λ begun. begun.1 ≡ begun.0.directory.now.ceiling) }

        // What a stop may leave: whatever it answers, nothing that wasn't possible before.
        ensures any_moment { V.honest ≡ true → MatchResult result (λ begun. Steps Narrows (V.directory dir) begun.0.directory) (λ refused. Steps Narrows (V.directory dir) (V.directory refused.0)) }
        ensures images { V.honest ≡ true → MatchResult result (λ begun. NothingNew (V.directory dir) begun.0.directory) (λ refused. NothingNew (V.directory dir) (V.directory refused.0)) }

        ensures seen { V.honest ≡ true → MatchResult result (λ begun. begun.0.directory.seen ≡ (V.directory dir).seen) (λ refused. (V.directory refused.0).seen ≡ (V.directory dir).seen) }
        ensures lent { MatchResult result (λ begun. KeepsLent (V.directory dir) begun.0.directory) (λ refused. KeepsLent (V.directory dir) (V.directory refused.0)) }
        ensures anchored { IfOk result (λ begun. IsAnchored V.honest begun.0) }
        ensures cause { Counts (V.faults dev.old) (V.faults dev.new) (IsErrAnd result (λ refused. refused.1 ≡ FreshError.Fault)) }
    {
        let mut dir = dir;
        match find_none(dev, &mut dir) {
            Ok(next) => Ok((Anchor::holding(alloc, dir, None), next)),
            Err(refused) => Err((dir, refused)),
        }
    }

    /// An anchor of a directory with a descriptor, and the next free file number. A refusal hands the directory back:
    /// nothing was entered, removed or pointed at.
    pub fn load(
        alloc: Global,
        dev: &mut V,
        dir: V::Dir,
    ) -> Result<(Anchor<V>, u64), (V::Dir, LoadError)>
        ensures loaded { IfOk result (λ loaded. IsLoaded V.honest (V.directory dir) loaded.0 loaded.1) }
        ensures no_table { V.honest ≡ true → IsErrAnd result (λ refused. refused.1 ≡ LoadError.NoTable) → (V.directory dir).seen.descriptor ≡ None }
        ensures bad { V.honest ≡ true → (at : ℕ) → IsErrAnd result (λ refused. refused.1 ≡ LoadError.Bad at) → option_map stone_at (V.directory dir).seen.descriptor ≡ Some (Err at) }

        // What a stop may leave: whatever it answers, nothing that wasn't possible before.
        ensures any_moment { V.honest ≡ true → MatchResult result (λ loaded. Steps Narrows (V.directory dir) loaded.0.directory) (λ refused. Steps Narrows (V.directory dir) (V.directory refused.0)) }
        ensures images { V.honest ≡ true → MatchResult result (λ loaded. NothingNew (V.directory dir) loaded.0.directory) (λ refused. NothingNew (V.directory dir) (V.directory refused.0)) }

        ensures seen { V.honest ≡ true → MatchResult result (λ loaded. loaded.0.directory.seen ≡ (V.directory dir).seen) (λ refused. (V.directory refused.0).seen ≡ (V.directory dir).seen) }
        ensures lent { MatchResult result (λ loaded. KeepsLent (V.directory dir) loaded.0.directory) (λ refused. KeepsLent (V.directory dir) (V.directory refused.0)) }
        ensures anchored { IfOk result (λ loaded. IsAnchored V.honest loaded.0) }
        ensures cause { Counts (V.faults dev.old) (V.faults dev.new) (IsErrAnd result (λ refused. refused.1 ≡ LoadError.Fault)) }
    {
        let mut dir = dir;
        match find_stone(alloc, dev, &mut dir) {
            Ok((stone, next)) => Ok((Anchor::holding(alloc, dir, Some(stone)), next)),
            Err(refused) => Err((dir, refused)),
        }
    }

    /// An anchor with one possible stone. Takes no memory.
    fn holding(alloc: Global, dir: V::Dir, stone: Option<Stone>) -> Anchor<V>
        requires { IsAnchored V.honest record { directory = V.directory dir; may = stone ∷ [] } }
        ensures { result ≡ record { directory = V.directory dir; may = stone ∷ [] } }
    {
        Anchor {
            dir,
            older: Vec::new(alloc),
            last: stone,
            alloc,
        }
    }

    /// As [`Device::lend`]. Takes no memory.
    pub fn lend(&mut self, file: u64) -> V::Lent
        requires unlent { self.old.directory.now.ceiling ≤ file }
        requires in_range { file < 2 ^ 62 }
        ensures number { V.lent_number result ≡ file }
        ensures lent { V.honest ≡ true → self.new.directory ≡ lent self.old.directory file }
        ensures ceiling { self.new.directory.now.ceiling ≡ file + 1 }
        ensures lends { self.new.directory.lends ≡ self.old.directory.lends + 1 }
        ensures may { self.new.may ≡ self.old.may }
        ensures anchored { IsAnchored V.honest self.new }
    {
        V::lend(&mut self.dir, file)
    }

    /// The directory given back. Takes no memory.
    pub fn into_dir(self) -> V::Dir
        ensures same { V.directory result ≡ self.directory }
        ensures anchored { IsAnchored V.honest self }
    {
        let Anchor {
            dir,
            older: _older,
            last: _last,
            alloc: _alloc,
        } = self;
        dir
    }

    /// The stone that joined the possible ones last; None exactly where 'no descriptor' is all that is possible. Takes no
    /// memory.
    pub fn stone(&self) -> Option<&Stone>
        ensures newest { option_copied result ≡ newest self.now.may }
        ensures none { option_copied result ≡ None → self.now.may ≡ None ∷ [] }
        ensures anchored { IsAnchored V.honest self.now }
    {
        self.last.as_ref()
    }

    /// As [`Device::fetch`].
    pub fn fetch(&self, dev: &mut V, file: u64) -> Result<Option<V::Reader>, DeviceError>
        ensures number { IfOk result (λ found. IfSome found (λ reader. V.reader_number reader ≡ file)) }
        ensures bytes { V.honest ≡ true → IfOk result (λ found. option_map V.reader_bytes found ≡ file_at self.now.directory.seen.files file) }
        ensures anchored { IsAnchored V.honest self.now }
        ensures cause { Counts (V.faults dev.old) (V.faults dev.new) (IsErrOf result DeviceError.Failed) }
    {
        dev.fetch(&self.dir, file)
    }

    /// As [`Enters::enter`].
    pub fn enter<T: Enters<V>>(&mut self, dev: &mut V, what: &T) -> Result<(), DeviceError>
        requires { T.entered_number what.now < self.old.directory.now.ceiling }
        ensures entered { V.honest ≡ true → EntersFile self.old.directory self.new.directory (T.entered_number what.now) (T.entered_bytes what.now) result }
        ensures unchanged { IsErrOf result DeviceError.NoMemory → self.new.directory ≡ self.old.directory }
        ensures lent { KeepsLent self.old.directory self.new.directory }
        ensures may { self.new.may ≡ self.old.may }
        ensures anchored { IsAnchored V.honest self.new }
        ensures cause { Counts (V.faults dev.old) (V.faults dev.new) (IsErrOf result DeviceError.Failed) }
    {
        what.enter(dev, &mut self.dir)
    }
}
