use lt_io::{
    Clock, FixedClock, MemSink, MemSource, ReadAllError, ReaderSource, Sink, SinkFault, Source,
    SourceFault, StepClock, WriterSink, read_all, write_all,
};
use lt_rec::Octets;
use std::io;
use std::test::Fail;

/// Gives one byte at a time.
#[derive(Drop)]
struct Trickle(u64);

impl Source for Trickle {
    ghost use Rattle.std.specs.Prelude.{None};

    ghost left = { λ _. None };

    ghost faults = { λ _. 0 };

    fn read(&mut self, buf: &mut [u8]) -> Result<usize, SourceFault> {
        if self.0 == 0 || buf.is_empty() {
            return Ok(0);
        }
        self.0 -= 1;
        buf[0] = b'x';
        Ok(1)
    }
}

/// Takes one byte at a time, `room` in all, and then none.
#[derive(Drop)]
struct Narrow {
    taken: u64,
    room: u64,
    refused: u64,
}

impl Sink for Narrow {
    ghost use Rattle.std.specs.Prelude.{None};

    ghost held = { λ _. None };

    ghost faults = { λ s. s.refused };

    fn write(&mut self, bytes: &[u8]) -> Result<usize, SinkFault> {
        if bytes.is_empty() {
            return Ok(0);
        }
        if self.taken >= self.room {
            self.refused = self.refused.saturating_add(1);
            return Ok(0);
        }
        self.taken = self.taken.saturating_add(1);
        Ok(1)
    }
}

#[test]
fn reads_in_pieces_of_any_size(rt: HostRuntime) -> Result<(), Fail> {
    for count in [0, 1, 70_000] {
        let all = read_all(rt.alloc(), &mut Trickle(count))?;
        assert_eq!(rt; all.len() as u64, count, "a reader of {count} single bytes");
    }
    let mut reader = ReaderSource::new(b"two\nlines".as_slice());
    assert_eq!(rt;
        read_all(rt.alloc(), &mut reader)?.as_slice(),
        b"two\nlines".as_slice()
    );
    Ok(())
}

#[test]
fn each_failing_read_is_told(rt: HostRuntime) -> Result<(), Fail> {
    for (place, told) in [(1, true), (2, true), (3, false)] {
        let bytes = Octets::from_slice(rt.alloc(), b"ab")?;
        let mut source = MemSource::new(rt.alloc(), bytes, &[place])?;
        let refused = read_all(rt.alloc(), &mut source) == Err(ReadAllError::Fault);
        assert_eq!(rt; refused, told, "a fault at read {place}");
    }
    Ok(())
}

#[test]
fn writes_all_or_tells(rt: HostRuntime) -> Result<(), Fail> {
    for (room, whole) in [(5, true), (4, false), (0, false)] {
        let mut sink = Narrow {
            taken: 0,
            room,
            refused: 0,
        };
        let written = write_all(&mut sink, b"bytes").is_ok();
        assert_eq!(rt; written, whole, "room for {room}");
        assert_eq!(rt; sink.taken, room, "taken with room for {room}");
    }
    let mut sink = MemSink::new(rt.alloc(), &[2])?;
    assert!(rt; write_all(&mut sink, b"one").is_ok());
    assert!(rt; write_all(&mut sink, b"two").is_err());
    assert!(rt; write_all(&mut sink, b"three").is_ok());
    assert_eq!(rt; sink.bytes(), b"onethree".as_slice());
    assert!(rt; write_all(&mut WriterSink::new(io::sink()), b"gone").is_ok());
    Ok(())
}

#[test]
fn clocks_show_their_moments(rt: HostRuntime) -> Result<(), Fail> {
    let fixed = FixedClock { at: 7 };
    assert_eq!(rt; (fixed.now(), fixed.now()), (7, 7), "a fixed clock");
    let last = (1u64 << 62) - 1;
    for (start, step, shown) in [
        (5, 3, (5, 8, 11)),
        (5, 0, (5, 5, 5)),
        (last - 3, 2, (last - 3, last - 1, last)),
        (1, last, (1, last, last)),
    ] {
        let clock = StepClock::new(start, step);
        let (first, second, third) = (clock.now(), clock.now(), clock.now());
        assert_eq!(rt; (first, second, third), shown, "from {start} by {step}");
    }
    Ok(())
}
