//! What no clause says: that calls succeed, which of them fail, and images against tables written by hand.

use super::bench::{enter, lend, read, write};
use lt_io::Device;
use lt_memdev::{MemDevice, MemDir};
use std::test::Fail;

#[test]
fn a_file_is_written(rt: HostRuntime) -> Result<(), Fail> {
    let mut device = MemDevice::new(rt.alloc(), &[])?;
    let mut dir = MemDir::new(rt.alloc())?;
    let lent = lend(&mut device, &mut dir, 7)?;
    assert_eq!(rt; MemDevice::number(&lent), 7, "the number that was lent");
    let mut pen = device.create(lent).ok().ok_or("no pen")?;
    device.append(&mut pen, b"by")?;
    device.append(&mut pen, b"tes")?;
    let reader = device.seal(pen)?;
    assert_eq!(rt; MemDevice::length(&reader), 5, "the length of `bytes`");
    assert_eq!(rt; device.list(&dir)?.ceiling, 8, "the ceiling");
    assert_eq!(rt; dir.moments(), 0, "writing is no moment");
    Ok(())
}

#[test]
fn a_reader_outlives_its_file(rt: HostRuntime) -> Result<(), Fail> {
    let mut device = MemDevice::new(rt.alloc(), &[])?;
    let mut dir = MemDir::new(rt.alloc())?;
    let file = write(&mut device, &mut dir, 0, "bytes")?;
    enter(&mut device, &mut dir, &file)?;
    device.remove(&mut dir, 0)?;
    let given = read(&mut device, &file.reader, 1, 3)?;
    assert!(rt;
        given.as_slice() == b"yte".as_slice(),
        "three bytes from the second one on"
    );
    Ok(())
}
