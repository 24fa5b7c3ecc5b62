ghost use Rattle.std.specs.Prelude.{◌≡◌, ◌<◌, ◌≤◌, ◌+◌, ◌^◌, Some, None, true, false, [], ℕ, IfOk, OnOk, OnErr, IsSome, All, length, slice_get};
ghost use Rattle.std.specs.List.Sorted.{IsStrictlyIncreasing};
ghost use Rattle.std.specs.Map.{keys_of};
ghost use Rattle.lt_io.specs.Directory.{State, Fits, states, file_at, lent, entered, loosened, pointed, settled};
ghost use Rattle.lt_io.specs.Device.{Moves, KeepsLent};
ghost use Rattle.lt_memdev.specs.Files.{Puts};
ghost use Rattle.lt_memdev.specs.Stored.{opened};
ghost use Rattle.lt_memdev.specs.History.{IsLawful, Shows};

use crate::change::Change;
use crate::content::{Content, share};
use crate::file_map::FileMap;
use crate::history::History;
use crate::replay::Replay;
use lt_rec::{Files, NoMemory, Octets};
use std::alloc::Global;
use std::marker::Model;

/// A directory in memory. It keeps what it began with and each change since, so that any image of any moment can be
/// made of it.
#[derive(Debug, Drop)]
pub struct MemDir {
    alloc: Global,
    history: History,
    lends: u64,
    files: FileMap,
    current: Option<Content>,
    spare: usize,
}

impl Model for MemDir {
    ghost use Rattle.lt_memdev.specs.Stored.{Stored, IsStored};

    ghost Value = { Stored };

    ghost view = { λ d. record { directory = record { past = d.history.past; now = d.history.now; seen = record { files = d.files; descriptor = d.current }; lends = d.lends }; spare = d.spare } };

    ghost invariant = { λ d. IsStored d.history record { files = d.files; descriptor = d.current } d.lends d.spare };
}

impl MemDir {
    /// A directory that begins with these files and this descriptor.
    pub(crate) fn holding(
        alloc: Global,
        files: FileMap,
        current: Option<Content>,
    ) -> Result<MemDir, NoMemory>
        requires { (number : ℕ) → IsSome (file_at files number) → number < 2 ^ 62 }
        ensures { IfOk result (λ dir. dir ≡ record { directory = opened record { files = files; descriptor = current }; spare = 0 }) }
    {
        let history = History::begin(alloc, files.copy()?, share(&current));
        Ok(MemDir {
            alloc,
            history,
            lends: 0,
            files,
            current,
            spare: 0,
        })
    }

    /// An empty directory, without a descriptor.
    pub fn new(alloc: Global) -> Result<MemDir, NoMemory>
        ensures { IfOk result (λ dir. dir ≡ record { directory = opened record { files = []; descriptor = None }; spare = 0 }) }
    {
        MemDir::holding(alloc, FileMap::new(alloc), None)
    }

    /// A directory with these files and this descriptor. Where a number stands twice, the first file counts.
    pub fn with(
        alloc: Global,
        files: &[(u64, Octets)],
        descriptor: Option<Octets>,
    ) -> Result<MemDir, NoMemory>
        requires { All (λ file. file.0 < 2 ^ 62) files.now }
        ensures opened { IfOk result (λ dir. dir.directory ≡ opened dir.directory.seen) }
        ensures files { IfOk result (λ dir. (number : ℕ) → file_at dir.directory.seen.files number ≡ file_at files.now number) }
        ensures descriptor { IfOk result (λ dir. dir.directory.seen.descriptor ≡ descriptor) }
    {
        let current = descriptor.map(|bytes| Content::keep(bytes.into_vec()));
        let held = FileMap::of(alloc, files)?;
        MemDir::holding(alloc, held, current)
    }

    /// The number of the present moment. The first one is 0.
    pub fn moments(&self) -> u64
        ensures { result ≡ length self.now.directory.past }
    {
        self.history.moments()
    }

    pub(crate) fn lend(&mut self, file: u64)
        requires unlent { self.old.directory.now.ceiling ≤ file }
        requires in_range { file < 2 ^ 62 }
        ensures lent { self.new.directory ≡ lent self.old.directory file }
        ensures possible { Fits self.old.directory.seen self.old.directory.now }
        ensures spare { self.new.spare ≡ self.old.spare }
    {
        self.history.raise(file + 1);
        self.lends += 1;
    }

    pub(crate) fn ready(&mut self) -> Result<(), NoMemory>
        ensures ok { OnOk result (2 ≤ self.new.spare) }
        ensures no_less { self.old.spare ≤ self.new.spare }
        ensures unchanged { self.new.directory ≡ self.old.directory }
        ensures possible { Fits self.old.directory.seen self.old.directory.now }
    {
        self.history.reserve(2)?;
        self.spare = 2;
        Ok(())
    }

    /// The file stands so from here on, and is there.
    pub(crate) fn enter(&mut self, file: u64, bytes: &Content) -> Result<(), NoMemory>
        requires { file < self.old.directory.now.ceiling }
        ensures moved { OnOk result (Moves self.old.directory self.new.directory (entered self.old.directory.now file bytes.now)) }
        ensures put { OnOk result (Puts self.old.directory.seen.files self.new.directory.seen.files file (Some bytes.now)) }
        ensures descriptor { self.new.directory.seen.descriptor ≡ self.old.directory.seen.descriptor }
        ensures unchanged { OnErr result (self.new ≡ self.old) }
        ensures lent { KeepsLent self.old.directory self.new.directory }
        ensures spare { self.new.spare ≡ self.old.spare }
    {
        self.history.reserve(self.spare + 1)?;
        self.files.put(file, bytes.share())?;
        let bytes = bytes.share();
        self.history.add(Change::Entered { file, bytes });
        Ok(())
    }

    /// Nothing is known of the file from here on. What is there stays as it is.
    pub(crate) fn loosen(&mut self, file: u64) -> Result<(), NoMemory>
        ensures moved { OnOk result (Moves self.old.directory self.new.directory (loosened self.old.directory.now file)) }
        ensures seen { self.new.directory.seen ≡ self.old.directory.seen }
        ensures unchanged { OnErr result (self.new ≡ self.old) }
        ensures lent { KeepsLent self.old.directory self.new.directory }
        ensures spare { self.new.spare ≡ self.old.spare }
    {
        self.history.reserve(self.spare + 1)?;
        self.history.add(Change::Loosened { file });
        Ok(())
    }

    /// The file is there, and nothing is known of what a stop leaves of it.
    pub(crate) fn put_loose(&mut self, file: u64, bytes: &Content) -> Result<(), NoMemory>
        requires { file < self.old.directory.now.ceiling }
        ensures moved { OnOk result (Moves self.old.directory self.new.directory (loosened self.old.directory.now file)) }
        ensures put { OnOk result (Puts self.old.directory.seen.files self.new.directory.seen.files file (Some bytes.now)) }
        ensures descriptor { self.new.directory.seen.descriptor ≡ self.old.directory.seen.descriptor }
        ensures unchanged { OnErr result (self.new ≡ self.old) }
        ensures lent { KeepsLent self.old.directory self.new.directory }
        ensures spare { self.new.spare ≡ self.old.spare }
    {
        self.history.reserve(self.spare + 1)?;
        self.files.put(file, bytes.share())?;
        self.history.add(Change::Loosened { file });
        Ok(())
    }

    /// The file is not there, and nothing is known of what a stop leaves of it.
    pub(crate) fn take(&mut self, file: u64) -> Result<(), NoMemory>
        ensures moved { OnOk result (Moves self.old.directory self.new.directory (loosened self.old.directory.now file)) }
        ensures taken { OnOk result (Puts self.old.directory.seen.files self.new.directory.seen.files file None) }
        ensures descriptor { self.new.directory.seen.descriptor ≡ self.old.directory.seen.descriptor }
        ensures unchanged { OnErr result (self.new ≡ self.old) }
        ensures lent { KeepsLent self.old.directory self.new.directory }
        ensures spare { self.new.spare ≡ self.old.spare }
    {
        self.history.reserve(self.spare + 1)?;
        self.files.take(file);
        self.history.add(Change::Loosened { file });
        Ok(())
    }

    /// The bytes are a possible descriptor, and the one that is read, if they are to be `seen`. Takes no memory.
    pub(crate) fn point(&mut self, bytes: &Content, seen: bool)
        requires { 0 < self.old.spare }
        ensures moved { Moves self.old.directory self.new.directory (pointed self.old.directory.now bytes.now) }
        ensures seen { seen ≡ true → self.new.directory.seen.descriptor ≡ Some bytes.now }
        ensures unseen { seen ≡ false → self.new.directory.seen.descriptor ≡ self.old.directory.seen.descriptor }
        ensures files { self.new.directory.seen.files ≡ self.old.directory.seen.files }
        ensures lent { KeepsLent self.old.directory self.new.directory }
        ensures spare { self.new.spare + 1 ≡ self.old.spare }
    {
        if seen {
            self.current = Some(bytes.share());
        }
        let bytes = bytes.share();
        self.history.add(Change::Joined { bytes });
        self.spare -= 1;
    }

    /// The descriptor that is read is the only possible one. Takes no memory.
    pub(crate) fn settle(&mut self)
        requires { 0 < self.old.spare }
        ensures moved { Moves self.old.directory self.new.directory (settled self.old.directory.now self.old.directory.seen.descriptor) }
        ensures seen { self.new.directory.seen ≡ self.old.directory.seen }
        ensures lent { KeepsLent self.old.directory self.new.directory }
        ensures spare { self.new.spare + 1 ≡ self.old.spare }
    {
        let descriptor = share(&self.current);
        self.history.add(Change::Settled { descriptor });
        self.spare -= 1;
    }

    /// A moment goes by and changes nothing. Takes no memory.
    pub(crate) fn wait(&mut self)
        requires { 0 < self.old.spare }
        ensures moved { Moves self.old.directory self.new.directory self.old.directory.now }
        ensures seen { self.new.directory.seen ≡ self.old.directory.seen }
        ensures lent { KeepsLent self.old.directory self.new.directory }
        ensures spare { self.new.spare + 1 ≡ self.old.spare }
    {
        self.history.add(Change::Nothing);
        self.spare -= 1;
    }

    /// The descriptor that is read.
    pub(crate) fn current(&self) -> Option<Content>
        ensures current { result ≡ self.now.directory.seen.descriptor }
        ensures possible { Fits self.now.directory.seen self.now.directory.now }
    {
        share(&self.current)
    }

    /// The file, if it is there.
    pub(crate) fn fetch(&self, file: u64) -> Option<Content>
        ensures file { result ≡ file_at self.now.directory.seen.files file }
        ensures possible { Fits self.now.directory.seen self.now.directory.now }
    {
        self.files.get(file)
    }

    pub(crate) fn ceiling(&self) -> u64
        ensures ceiling { result ≡ self.now.directory.now.ceiling }
        ensures in_range { result ≤ 2 ^ 62 }
        ensures possible { Fits self.now.directory.seen self.now.directory.now }
    {
        self.history.ceiling()
    }

    /// The numbers of the files that are there, rising.
    pub(crate) fn numbers(&self, alloc: Global) -> Result<Files, NoMemory>
        ensures numbers { IfOk result (λ numbers. numbers ≡ keys_of self.now.directory.seen.files) }
        ensures rising { IfOk result IsStrictlyIncreasing }
    {
        self.files.numbers(alloc)
    }

    pub(crate) fn allocator(&self) -> Global {
        self.alloc
    }

    /// What stood for good at a moment, but for the ceiling.
    pub(crate) fn replay(&self, moment: usize) -> Result<Replay, NoMemory>
        requires { moment ≤ length self.now.directory.past }
        ensures shows { IfOk result (λ replay. (state : State) → slice_get (states self.now.directory) moment ≡ Some state → Shows replay.files replay.may.items state) }
        ensures lawful { (state : State) → slice_get (states self.now.directory) moment ≡ Some state → IsLawful moment state }
    {
        self.history.replay(self.alloc, moment)
    }

    /// The ceiling that stood at the end of a moment.
    pub(crate) fn ceiling_at(&self, moment: usize) -> u64
        requires { moment ≤ length self.now.directory.past }
        ensures { (state : State) → slice_get (states self.now.directory) moment ≡ Some state → result ≡ state.ceiling }
    {
        self.history.ceiling_at(moment)
    }
}
