// Each kind of call failing at its first call, with its change done and not done.
ghost use Rattle.std.specs.Prelude.{◌≡◌, length};

use super::bench;
use super::steps::{Scene, Step, at, run};
use lt_io::Device;
use lt_memdev::{Fail, MemDevice, MemDir, Op};
use std::alloc::Global;
use std::test::Fail as Broken;

/// What stands once a call failed: the present moment, what reads give, the images with the second and with the third
/// descriptor, and the one with the first and loose files filled.
type After = &'static str;

/// As before the call. Descriptors `a` and `bb` are possible and `bb` is read, file 1 with `a` is entered, files 2 and 3
/// with `bb` and `c` are sealed, and number 0 was never written.
const SAME: After = "4: bb 1=a; bb 1=a; a 1=a; a 0=? 1=a 2=? 3=?";

/// The same, one moment later.
const LATER: After = "5: bb 1=a; bb 1=a; a 1=a; a 0=? 1=a 2=? 3=?";

/// Number 4 is lent.
const LENT: After = "4: bb 1=a; bb 1=a; a 1=a; a 0=? 1=a 2=? 3=? 4=?";

/// File 2 is read, and a stop may lose it.
const THERE: After = "5: bb 1=a 2=bb; bb 1=a; a 1=a; a 0=? 1=a 2=? 3=?";

/// A third descriptor is possible, and is read or not.
const POINTED: After = "5: c 1=a; bb 1=a; c 1=a; a 0=? 1=a 2=? 3=?";

const JOINED: After = "5: bb 1=a; bb 1=a; c 1=a; a 0=? 1=a 2=? 3=?";

/// File 1 is loose, and is read or not.
const GONE: After = "5: bb; bb; a; a 0=? 1=? 2=? 3=?";

const LOOSE: After = "5: bb 1=a; bb; a; a 0=? 1=? 2=? 3=?";

/// The call, whether its change is done, and what stands then.
static ROWS: [(Op, bool, After); 22] = [
    (Op::Create, true, LENT),
    (Op::Create, false, LENT),
    (Op::Append, true, LENT),
    (Op::Append, false, LENT),
    (Op::Seal, true, LENT),
    (Op::Seal, false, LENT),
    (Op::Enter, true, THERE),
    (Op::Enter, false, LATER),
    (Op::Point, true, POINTED),
    (Op::Point, false, JOINED),
    (Op::Settle, true, LATER),
    (Op::Settle, false, LATER),
    (Op::Remove, true, GONE),
    (Op::Remove, false, LOOSE),
    (Op::Descriptor, true, SAME),
    (Op::Descriptor, false, SAME),
    (Op::Fetch, true, SAME),
    (Op::Fetch, false, SAME),
    (Op::List, true, SAME),
    (Op::List, false, SAME),
    (Op::ReadAt, true, SAME),
    (Op::ReadAt, false, SAME),
];

fn rows() -> &'static [(Op, bool, After)]
    ensures { length result.now ≡ 22 }
{
    ROWS.as_slice()
}

/// What stands before the call.
static SCENE: [(Step, bool); 7] = [
    (Step::Write(1, "a"), false),
    (Step::Enter(0), false),
    (Step::Point(0), false),
    (Step::Settle, false),
    (Step::Write(2, "bb"), false),
    (Step::Write(3, "c"), false),
    (Step::Point(1), false),
];

fn before() -> &'static [(Step, bool)]
    ensures { length result.now ≡ 7 }
{
    SCENE.as_slice()
}

fn create(device: &mut MemDevice, dir: &mut MemDir) -> Result<bool, Broken> {
    let lent = bench::lend_next(device, dir)?;
    match device.create(lent) {
        Ok(_) => Ok(false),
        Err((_, refused)) => bench::failed::<()>(Err(refused)),
    }
}

fn append(device: &mut MemDevice, dir: &mut MemDir) -> Result<bool, Broken> {
    let lent = bench::lend_next(device, dir)?;
    let mut pen = device.create(lent).ok().ok_or("no pen")?;
    bench::failed(device.append(&mut pen, b"x"))
}

fn seal(device: &mut MemDevice, dir: &mut MemDir) -> Result<bool, Broken> {
    let lent = bench::lend_next(device, dir)?;
    let pen = device.create(lent).ok().ok_or("no pen")?;
    bench::failed(device.seal(pen))
}

/// Whether the call of that kind failed.
fn call(device: &mut MemDevice, scene: &mut Scene, op: Op) -> Result<bool, Broken> {
    match op {
        Op::Create => create(device, &mut scene.dir),
        Op::Append => append(device, &mut scene.dir),
        Op::Seal => seal(device, &mut scene.dir),
        Op::Enter => bench::enter(device, &mut scene.dir, at(&scene.files, 1)?),
        Op::Point => bench::point(device, &mut scene.dir, at(&scene.files, 2)?),
        Op::Settle => bench::settle(device, &mut scene.dir),
        Op::Remove => bench::failed(device.remove(&mut scene.dir, 1)),
        Op::Descriptor => bench::failed(device.descriptor(&scene.dir)),
        Op::Fetch => bench::failed(device.fetch(&scene.dir, 1)),
        Op::List => bench::failed(device.list(&scene.dir)),
        Op::ReadAt => bench::failed(device.read_at(&at(&scene.files, 1)?.reader, 0, 0)),
    }
}

/// What stands at the present moment.
fn standing(alloc: Global, dir: &MemDir) -> Result<String, Broken> {
    let moment = dir.moments();
    let mut text = format!(in alloc; "{moment}: {}", bench::shown(alloc, dir)?.as_str())?;
    for (which, filled) in [(1, false), (2, false), (0, true)] {
        text.push_str("; ")?;
        text.push_str(bench::image_shown(alloc, dir, moment, which, filled)?.as_str())?;
    }
    Ok(text)
}

/// What stands once the first call of that kind failed. The second one doesn't fail.
fn after(alloc: Global, op: Op, done: bool) -> Result<String, Broken> {
    let mut scene = run(alloc, &[], before())?;
    let mut device = MemDevice::new(alloc, &[Fail { op, nth: 1, done }])?;
    if !call(&mut device, &mut scene, op)? {
        return Err(Broken::from("the first call doesn't fail"));
    }
    let text = standing(alloc, &scene.dir)?;
    if call(&mut device, &mut scene, op)? {
        return Err(Broken::from("the second call fails"));
    }
    Ok(text)
}

#[test]
fn each_kind_of_call_fails_both_ways(rt: HostRuntime) -> Result<(), Broken> {
    for (op, done, wanted) in rows() {
        let found = after(rt.alloc(), *op, *done)?;
        assert_eq!(rt; found.as_str(), *wanted, "after {op:?}, done {done}");
    }
    Ok(())
}

#[test]
fn the_images_before_the_call(rt: HostRuntime) -> Result<(), Broken> {
    let scene = run(rt.alloc(), &[], before())?;
    let found = standing(rt.alloc(), &scene.dir)?;
    bench::same(&rt, found.as_str(), SAME, "before the call");
    Ok(())
}
