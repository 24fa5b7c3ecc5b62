use crate::{devices, write_troubles};
use lt_filedev::FileDir;
use lt_io::Device;
use std::fs;
use std::test::Fail;

#[test]
fn each_device_tells_the_first_trouble_that_it_met(rt: HostRuntime) -> Result<(), Fail> {
    fs::create_dir(&rt, "blocked")?;
    fs::create_dir(&rt, "blocked/DESCRIPTOR")?;
    fs::create_dir(&rt, "blocked/7")?;
    let dir = FileDir::open(&rt, "blocked")?;
    let mut devices = devices(&rt, &dir)?;
    assert!(rt; devices[1].fetch(&dir, 7).is_err());
    assert!(rt; devices[1].descriptor(&dir).is_err());
    assert!(rt; devices[65].descriptor(&dir).is_err());
    let mut told = Vec::new(rt.alloc());
    write_troubles(&mut told, devices.as_slice())?;
    assert_eq!(rt;
        told.as_slice(),
        b"vashmoon: file 7: not a file\nvashmoon: DESCRIPTOR: not a file\n".as_slice()
    );
    Ok(())
}
