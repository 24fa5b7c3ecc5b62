// Scripts of calls.
use super::bench::{self, Sealed};
use lt_io::Device;
use lt_memdev::{Fail, MemDevice, MemDir};
use std::alloc::Global;
use std::test::Fail as Broken;

pub(super) enum Step {
    /// Four calls, none a moment: the number is lent, and a file with these bytes created, written and sealed.
    Write(u64, &'static str),
    /// Of the sealed file with that place.
    Enter(usize),
    Point(usize),
    Settle,
    Remove(u64),
}

/// A directory, and its files in the order in which they were written.
#[derive(Drop)]
pub(super) struct Scene {
    pub dir: MemDir,
    pub files: Vec<Sealed>,
}

/// Takes the step, and answers whether it failed.
fn take(device: &mut MemDevice, scene: &mut Scene, step: &Step) -> Result<bool, Broken> {
    match step {
        Step::Write(number, text) => {
            let file = bench::write(device, &mut scene.dir, *number, *text)?;
            scene.files.push(file)?;
            Ok(false)
        }
        Step::Enter(place) => bench::enter(device, &mut scene.dir, at(&scene.files, *place)?),
        Step::Point(place) => bench::point(device, &mut scene.dir, at(&scene.files, *place)?),
        Step::Settle => bench::settle(device, &mut scene.dir),
        Step::Remove(file) => bench::failed(device.remove(&mut scene.dir, *file)),
    }
}

pub(super) fn at(files: &Vec<Sealed>, place: usize) -> Result<&Sealed, Broken> {
    Ok(files.as_slice().get(place).ok_or("no such file")?)
}

/// What the steps make of an empty directory. Each one says whether it fails.
pub(super) fn run(alloc: Global, fails: &[Fail], steps: &[(Step, bool)]) -> Result<Scene, Broken> {
    let mut device = MemDevice::new(alloc, fails)?;
    let mut scene = Scene {
        dir: MemDir::new(alloc)?,
        files: Vec::new(alloc),
    };
    for (step, fails) in steps {
        if take(&mut device, &mut scene, step)? != *fails {
            return Err(Broken::from(("a step, then moment", scene.dir.moments())));
        }
    }
    Ok(scene)
}
