//! The program: the real ends, the words of the command line, and the status as an exit code.
#![tactic(auto)]

#[cfg(test)]
mod tests;

ghost use Rattle.std.specs.Prelude.{◌≡◌, IfOk, vec_len};

use lt_filedev::{FileDevice, FileDir, OpenError, standard_input, standard_output};
use lt_io::FixedClock;
use lt_serve::{Status, creation_of, is_run, run};
use std::io::{ErrorKind, Write};
use std::process::ExitCode;
use std::time::SystemTime;
use std::{env, fmt, io};

const HELP: &str = "vashmoon: a log-free, time-clustered table store

usage: vashmoon create DIR SCHEMA [TTL]   makes an empty table in the folder DIR
       vashmoon run DIR --leave           answers the lines of standard input over the table in DIR
       vashmoon --help                    prints this
       vashmoon --version                 prints the version

SCHEMA is the text of a schema, in JSON. What failed of the folder is told on standard error.

Exit status: 0 done, 2 wrong words, 3 the input failed, 4 the output failed, 5 the input is too long,
7 there is a table already, 8 there is no table, 9 the table's descriptor is refused, 10 the folder failed or is in
use, 11 no memory, 12 the text says no schema, 13 no file number is left, 14 a line that isn't built yet.";

const VERSION: &str = "vashmoon 0.1.0";

/// The greatest moment, in microseconds since the Unix epoch.
const LATEST: u64 = (1 << 62) - 1;

/// One for each of 64 clients, one for flushing and one for merging. The first does all that is answered today.
const DEVICES: usize = 66;

// Tells what went wrong. The status says it too, so a standard error that can't be written changes nothing.
fn tell<T: fmt::Display>(rt: &HostRuntime, what: &T) {
    let _ = eprintln!(rt; "vashmoon: {what}");
}

fn show(rt: &HostRuntime, text: &str) -> Status {
    match println!(rt; "{text}") {
        Ok(()) => Status::Done,
        Err(_) => Status::SinkFault,
    }
}

// The words after the program's name. None where one isn't UTF-8.
fn words(rt: &HostRuntime) -> io::Result<Option<Vec<String>>> {
    match env::args(rt) {
        Ok(args) => Ok(Some(args.skip(1).collect(rt.alloc())?)),
        Err(error) if error.kind() == ErrorKind::InvalidData => Ok(None),
        Err(error) => Err(error),
    }
}

// The moment at which the program began, for the commands that name none.
fn clock(rt: &HostRuntime) -> io::Result<FixedClock> {
    let moment = match SystemTime::now(rt)?.duration_since(SystemTime::UNIX_EPOCH) {
        Ok(since) => u64::try_from(since.as_micros()).unwrap_or(LATEST),
        Err(_) => 0,
    };
    Ok(FixedClock {
        at: moment.min(LATEST),
    })
}

// The directory that the words name, made for a table that is to be made. Wrong words have none.
fn open(rt: &HostRuntime, given: &[String]) -> Result<FileDir, OpenError> {
    match given {
        [_, folder, ..] if is_run(given) => FileDir::open(rt, folder.as_str()),
        [_, folder, ..] if creation_of(given).is_some() => FileDir::make(rt, folder.as_str()),
        _ => Ok(FileDir::absent(rt.alloc(), "")?),
    }
}

fn devices(rt: &HostRuntime, dir: &FileDir) -> io::Result<Vec<FileDevice<HostRuntime>>>
    ensures { IfOk result (λ devices. vec_len devices ≡ DEVICES) }
{
    let mut devices = Vec::new(rt.alloc());
    devices.try_resize_with(DEVICES, || FileDevice::new(rt, dir))?;
    Ok(devices)
}

// Writes the first trouble of each device that met one, a line each, in the devices' order.
fn write_troubles<W: Write>(out: &mut W, devices: &[FileDevice<HostRuntime>]) -> io::Result<()> {
    for trouble in devices.iter().filter_map(|device| device.first_trouble()) {
        writeln!(out, "vashmoon: {trouble}")?;
    }
    Ok(())
}

// Does what the words ask for in that directory, and tells what its devices met.
fn serve(rt: &HostRuntime, given: &[String], dir: FileDir) -> Result<Status, OpenError> {
    let clock = clock(rt)?;
    let mut devices = devices(rt, &dir)?;
    let mut source = standard_input(rt);
    let mut sink = standard_output(rt);
    let (status, _dir) = run(
        rt.alloc(),
        given,
        &mut source,
        &mut sink,
        dir,
        &mut devices,
        &clock,
    );
    // As in `tell`.
    let _ = write_troubles(&mut rt.stderr(), devices.as_slice());
    Ok(status)
}

fn answer(rt: &HostRuntime) -> Result<Status, OpenError> {
    let words = words(rt)?.unwrap_or(Vec::new(rt.alloc()));
    match words.as_slice() {
        [word] if word.as_str() == "--help" => Ok(show(rt, HELP)),
        [word] if word.as_str() == "--version" => Ok(show(rt, VERSION)),
        given => serve(rt, given, open(rt, given)?),
    }
}

// A folder that is not opened is a device that failed.
fn status_of(refused: &OpenError) -> Status {
    match refused {
        OpenError::NoMemory => Status::NoMemory,
        OpenError::InUse | OpenError::System(_) => Status::DeviceFault,
    }
}

fn main(rt: HostRuntime) -> ExitCode {
    let status = match answer(&rt) {
        Ok(status) => status,
        Err(refused) => {
            tell(&rt, &refused);
            status_of(&refused)
        }
    };
    ExitCode::from(status.code())
}
