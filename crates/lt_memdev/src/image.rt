ghost use Rattle.std.specs.Prelude.{◌≡◌, ◌<◌, ◌≤◌, ◌^◌, ◌%◌, ℕ, List, [], Some, None, Option, IfOk, OnOk, IsSome, All, length, slice_get};
ghost use Rattle.lt_io.specs.Directory.{Image, PossibleAt, file_at};
ghost use Rattle.lt_memdev.specs.Stored.{opened};
ghost use Rattle.lt_memdev.specs.declared.image.Loose.{Loose};
ghost use Rattle.lt_memdev.specs.Chosen.{ChosenAt, AlikeAt, IsSame, Fills, loose_bytes};

use crate::content::{Content, share};
use crate::dir::MemDir;
use crate::file_map::FileMap;
use lt_rec::{NoMemory, Octets};
use std::alloc::Global;

/// What each file is of which a stop may leave anything.
#[derive(Debug, PartialEq, Eq, Drop)]
pub enum Loose {
    Absent,
    Filled(Octets),
}

/// One of the images of a moment: the descriptor numbered `which` of the possible ones, modulo their number and in the
/// order in which they became possible, and what the loose files are, all of them alike.
#[derive(Debug, PartialEq, Eq, Drop)]
pub struct Choice {
    pub which: u64,
    pub loose: Loose,
}

/// Puts the bytes at each number below the ceiling at which there is no file.
fn fill(alloc: Global, files: &mut FileMap, ceiling: u64, bytes: &Content) -> Result<(), NoMemory>
    ensures { OnOk result (Fills files.old files.new ceiling (Some bytes.now)) }
{
    // An image with more files than there could be room for is refused before the first of them is made.
    let _room: Vec<Content> = Vec::with_capacity(alloc, ceiling as usize)?;
    for number in 0..ceiling {
        if files.get(number).is_none() {
            files.put(number, bytes.share())?;
        }
    }
    Ok(())
}

/// The files with each loose one as it is chosen.
fn choose_loose(
    alloc: Global,
    files: FileMap,
    ceiling: u64,
    loose: &Loose,
) -> Result<FileMap, NoMemory>
    ensures { IfOk result (λ chosen. Fills files chosen ceiling (loose_bytes loose.now)) }
{
    let mut files = files;
    if let Loose::Filled(bytes) = loose {
        let bytes = Content::keep(Vec::from_slice(alloc, bytes.as_slice())?);
        fill(alloc, &mut files, ceiling, &bytes)?;
    }
    Ok(files)
}

fn pick(may: &[Option<Content>], which: u64) -> Option<Content>
    requires { 0 < length may.now }
    ensures { slice_get may.now (which % length may.now) ≡ Some result }
{
    let at = which % may.len() as u64;
    share(&may[at as usize])
}

impl MemDir {
    /// The image of that moment which the choice names, as a directory of its own.
    pub fn image(&self, moment: u64, choice: &Choice) -> Result<MemDir, NoMemory>
        requires { moment ≤ length self.now.directory.past }
        ensures chosen { IfOk result (λ image. ChosenAt self.now.directory moment choice.now image.directory.seen) }
        ensures opened { IfOk result (λ image. image.directory ≡ opened image.directory.seen) }
        ensures possible { IfOk result (λ image. PossibleAt self.now.directory moment image.directory.seen) }

        // It is the only image that the choice names, and each possible one with its loose files alike is named by a choice.
        ensures only { IfOk result (λ image. (other : Image) → ChosenAt self.now.directory moment choice.now other → IsSame other image.directory.seen) }
        ensures every { (other : Image) (loose : Loose) → PossibleAt self.now.directory moment other → AlikeAt self.now.directory moment (loose_bytes loose) other
            → (which : ℕ) × (which ≤ moment) × ChosenAt self.now.directory moment record { which = which; loose = loose } other }
    {
        let at = moment as usize;
        let replay = self.replay(at)?;
        let current = pick(replay.may.as_slice(), choice.which);
        let files = choose_loose(
            self.allocator(),
            replay.files,
            self.ceiling_at(at),
            &choice.loose,
        )?;
        MemDir::holding(self.allocator(), files, current)
    }
}
