// Directories with stated contents, and directories opened from their images.
ghost use Rattle.std.specs.Prelude.{◌≡◌, length};

use super::bench::{enter, image, image_shown, same, shown, write};
use lt_memdev::{MemDevice, MemDir};
use lt_rec::Octets;
use std::alloc::Global;
use std::test::Fail;

/// File 1 stands twice.
fn stated(alloc: Global) -> Result<MemDir, Fail> {
    let files = [
        (1, Octets::from_slice(alloc, b"a")?),
        (3, Octets::from_slice(alloc, b"ccc")?),
        (1, Octets::from_slice(alloc, b"late")?),
    ];
    let descriptor = Octets::from_slice(alloc, b"d")?;
    Ok(MemDir::with(alloc, files.as_slice(), Some(descriptor))?)
}

/// Whether loose files are filled, and what is opened then, what an image of it is with its loose files filled again, and
/// the same once file 5 was written there and entered.
static ROWS: [(bool, &str); 2] = [
    (
        false,
        "d 1=a 3=ccc; d 0=? 1=a 2=? 3=ccc; d 0=? 1=a 2=? 3=ccc 4=? 5=new",
    ),
    (
        true,
        "d 0=? 1=a 2=? 3=ccc; d 0=? 1=a 2=? 3=ccc; d 0=? 1=a 2=? 3=ccc 4=? 5=new",
    ),
];

fn rows() -> &'static [(bool, &'static str)]
    ensures { length result.now ≡ 2 }
{
    ROWS.as_slice()
}

/// What an image shows once the directory has gone on by a file.
fn goes_on(alloc: Global, dir: MemDir) -> Result<String, Fail> {
    let mut dir = dir;
    let mut device = MemDevice::new(alloc, &[])?;
    let file = write(&mut device, &mut dir, 5, "new")?;
    enter(&mut device, &mut dir, &file)?;
    image_shown(alloc, &dir, 1, 0, true)
}

fn opened(alloc: Global, dir: &MemDir, filled: bool) -> Result<String, Fail> {
    let opened = image(alloc, dir, 0, 0, filled)?;
    let read = shown(alloc, &opened)?;
    let again = image_shown(alloc, &opened, 0, 0, true)?;
    let later = goes_on(alloc, opened)?;
    Ok(format!(in alloc; "{}; {}; {}", read.as_str(), again.as_str(), later.as_str())?)
}

#[test]
fn opens_again_from_each_image(rt: HostRuntime) -> Result<(), Fail> {
    let dir = stated(rt.alloc())?;
    same(
        &rt,
        shown(rt.alloc(), &dir)?.as_str(),
        "d 1=a 3=ccc",
        "as it was stated",
    );
    for (filled, wanted) in rows() {
        let found = opened(rt.alloc(), &dir, *filled)?;
        assert_eq!(rt; found.as_str(), *wanted, "loose files filled: {filled}");
    }
    Ok(())
}
