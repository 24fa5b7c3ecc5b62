ghost use Rattle.std.specs.Prelude.{◌≡◌, length};

use bytes::Bytes;
use lt_block::{Block, FormatError};
use std::alloc::Global;
use std::test::*;

// Three records of 29 bytes, with keys 1, 2 and 3, one byte of body each, numbers 0, 1 and 2.
static THREE: [u8; 91] = [
    0, 0, 0, 3, //
    0, 0, 0, 8, 0, 0, 0, 1, 0, 0, 0, 0, 0, 0, 0, 0, 0, 0, 0, 0, 0, 0, 0, 0, 0, 0, 0, 1, 97, //
    0, 0, 0, 8, 0, 0, 0, 1, 0, 0, 0, 0, 0, 0, 0, 1, 0, 0, 0, 0, 0, 0, 0, 0, 0, 0, 0, 2, 98, //
    0, 0, 0, 8, 0, 0, 0, 1, 0, 0, 0, 0, 0, 0, 0, 2, 0, 0, 0, 0, 0, 0, 0, 0, 0, 0, 0, 3, 99,
];

fn three() -> &'static [u8]
    ensures { length result.now ≡ 91 }
{
    &THREE
}

fn fault_of(alloc: Global, bytes: &[u8]) -> Option<FormatError> {
    let bytes = Bytes::copy_from_slice(alloc, bytes).ok()?;
    Block::read(alloc, bytes).err()
}

/// Where the field begins in which three records end that are cut to so many bytes.
fn field_at(len: usize) -> u64 {
    if len < 4 {
        return 0;
    }
    let within = (len - 4) % 29;
    let field = match within {
        0..4 => 0,
        4..8 => 4,
        8..16 => 8,
        16..20 => 16,
        20..28 => 20,
        _ => 28,
    };
    (len - within + field) as u64
}

#[test]
fn names_where_the_bytes_end(rt: HostRuntime) {
    for len in 0..91usize {
        let found = fault_of(rt.alloc(), three().split_at(len).0);
        let at = field_at(len);
        assert_eq!(rt; found, Some(FormatError::Bad { at }), "cut to {len} bytes");
    }
}

/// Which bytes of three records are turned, the bytes that stand there then, and the offset that is named.
static TURNED: [(&[(usize, u8)], u64, &str); 10] = [
    (&[(3, 0)], 0, "no record"),
    (&[(3, 2)], 62, "a record too many"),
    (&[(3, 4)], 91, "a record too few"),
    (&[(7, 7)], 4, "a key of 7 bytes"),
    (&[(6, 17)], 4, "a key above 4,096 bytes"),
    (&[(9, 1)], 8, "a body above 60,000 bytes"),
    (&[(12, 64)], 12, "the number 2^62"),
    (&[(60, 1)], 33, "a key again"),
    (&[(60, 0)], 33, "a key below the last"),
    (
        &[(37, 1), (60, 1)],
        33,
        "a key again goes before a body too long",
    ),
];

fn fault_of_turned(alloc: Global, turned: &[(usize, u8)]) -> Result<Option<FormatError>, Fail> {
    let mut bytes = three().to_vec(alloc)?;
    for (place, now) in turned {
        if let Some(byte) = bytes.get_mut(*place) {
            *byte = *now;
        }
    }
    Ok(fault_of(alloc, bytes.as_slice()))
}

#[test]
fn names_what_is_turned(rt: HostRuntime) -> Result<(), Fail> {
    for (turned, at, case) in TURNED.iter() {
        let found = fault_of_turned(rt.alloc(), *turned)?;
        assert_eq!(rt; found, Some(FormatError::Bad { at: *at }), "{case}");
    }
    Ok(())
}
