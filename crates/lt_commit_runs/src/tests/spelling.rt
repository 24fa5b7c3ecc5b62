ghost use Rattle.std.specs.Prelude.{◌≤◌, ◌<◌, ◌^◌, IfSome};

use lt_desc::{Stone, Tablets, decode, encode};
use lt_json::schema_from_json;
use lt_rec::FormatError;
use lt_schema::Schemas;
use std::alloc::Global;
use std::test::Fail;

// The schema of one time, and nothing else.
static LEAST: [u8; 64] = [
    76, 84, 68, 69, 83, 67, 82, 49, 0, 0, 0, 0, 0, 0, 0, 0, 0, 0, 0, 0, //
    0, 0, 0, 0, 0, 0, 0, 0, 0, 0, 0, 0, 1, 0, 0, 0, 1, 0, 0, 0, //
    1, 0, 0, 0, 2, 116, 115, 2, 0, 0, 0, 0, 0, 0, 0, 0, 0, 0, 0, 0, //
    0, 0, 0, 0, //
];

// Four columns without rows, and a time to live of a day.
static WITH_TTL: [u8; 114] = [
    76, 84, 68, 69, 83, 67, 82, 49, 0, 0, 0, 0, 0, 0, 0, 0, 0, 0, 0, 0, //
    0, 0, 0, 0, 1, 0, 0, 0, 20, 29, 215, 96, 0, 0, 0, 0, 0, 0, 0, 0, //
    1, 0, 0, 0, 3, 0, 0, 0, 4, 0, 0, 0, 3, 110, 101, 116, 3, 0, 0, 0, //
    0, 0, 0, 0, 3, 100, 101, 118, 0, 0, 0, 0, 0, 0, 0, 0, 2, 116, 115, 2, //
    0, 0, 0, 0, 0, 0, 0, 0, 0, 0, 0, 5, 98, 121, 116, 101, 115, 1, 0, 0, //
    0, 0, 0, 0, 0, 0, 0, 0, 0, 0, 0, 0, 0, 0, //
];

// A time to live, three columns, a column that was appended and one that was widened, two tablets.
static FULL: [u8; 256] = [
    76, 84, 68, 69, 83, 67, 82, 49, 0, 0, 0, 0, 0, 0, 0, 9, 0, 0, 0, 0, //
    0, 0, 0, 5, 1, 0, 0, 0, 20, 29, 215, 96, 0, 0, 0, 0, 0, 0, 0, 0, //
    4, 0, 0, 0, 2, 0, 0, 0, 3, 0, 0, 0, 1, 100, 0, 0, 0, 0, 7, 0, //
    0, 0, 2, 116, 115, 2, 0, 0, 0, 0, 0, 0, 0, 0, 0, 0, 0, 1, 120, 4, //
    0, 0, 0, 2, 255, 0, 0, 0, 0, 2, 0, 0, 0, 0, 1, 121, 3, 0, 0, 0, //
    2, 195, 164, 1, 0, 0, 0, 0, 0, 0, 0, 2, 0, 0, 0, 0, 0, 0, 0, 3, //
    0, 0, 0, 0, 0, 0, 0, 1, 0, 0, 0, 0, 0, 0, 0, 211, 0, 0, 0, 0, //
    0, 0, 0, 5, 0, 0, 0, 0, 0, 0, 0, 5, 0, 0, 0, 0, 0, 0, 0, 0, //
    0, 0, 0, 3, 90, 78, 144, 0, 0, 0, 0, 0, 0, 0, 0, 0, 0, 0, 0, 0, //
    0, 0, 0, 0, 0, 0, 0, 0, 0, 0, 0, 1, 0, 0, 0, 0, 0, 0, 0, 2, //
    0, 0, 0, 0, 0, 0, 1, 2, 0, 0, 0, 3, 90, 78, 144, 5, 0, 0, 0, 3, //
    90, 78, 144, 9, 0, 0, 0, 3, 90, 78, 144, 0, 0, 0, 0, 3, 90, 78, 144, 0, //
    0, 0, 0, 0, 0, 0, 0, 1, 0, 0, 0, 0, 0, 0, 0, 8, //
];

// Where each of those bytes, with all its bits turned, is named; 999 where the bytes are read all the same.
static PLACES: [u64; 256] = [
    0, 0, 0, 0, 0, 0, 0, 0, 8, 999, 999, 999, 999, 999, 999, 999, 16, 999, 999, 999, //
    999, 999, 999, 999, 24, 25, 999, 999, 999, 999, 999, 999, 999, 33, 999, 999, 999, 999, 999,
    999, //
    999, 41, 41, 41, 41, 45, 45, 45, 45, 49, 49, 49, 49, 49, 54, 999, 999, 999, 999, 59, //
    59, 59, 59, 59, 59, 65, 66, 999, 999, 999, 999, 999, 999, 999, 74, 74, 74, 74, 74, 79, //
    80, 80, 80, 80, 999, 999, 86, 86, 86, 86, 90, 91, 91, 91, 91, 90, 96, 97, 97, 97, //
    97, 97, 97, 103, 103, 103, 103, 103, 256, 256, 256, 256, 112, 112, 112, 112, 112, 112, 112,
    112, //
    999, 999, 999, 999, 999, 999, 999, 999, 999, 999, 999, 999, 999, 999, 999, 999, 136, 144, 144,
    144, //
    144, 144, 144, 144, 144, 160, 160, 160, 999, 999, 999, 999, 160, 160, 160, 160, 160, 160, 160,
    160, //
    160, 160, 160, 160, 160, 160, 160, 160, 176, 176, 176, 176, 176, 176, 176, 176, 176, 176, 176,
    176, //
    176, 176, 176, 176, 184, 184, 184, 184, 184, 184, 184, 184, 999, 999, 999, 999, 999, 999, 999,
    999, //
    999, 999, 999, 999, 999, 999, 999, 999, 208, 216, 216, 216, 216, 216, 232, 216, 216, 232, 232,
    232, //
    999, 999, 216, 999, 232, 232, 232, 232, 232, 232, 232, 232, 232, 232, 232, 232, 232, 232, 232,
    232, //
    248, 248, 248, 248, 248, 248, 248, 248, 248, 248, 248, 248, 248, 248, 248, 248, //
];

// Where the fields of those bytes begin.
static STARTS: [usize; 43] = [
    0, 8, 16, 24, 25, 33, 41, 45, 49, 54, 55, 59, 65, 66, 74, 79, 80, 86, 90, 91, //
    96, 97, 103, 104, 108, 112, 120, 128, 136, 144, 152, 160, 168, 176, 184, 192, 200, 208, 216,
    224, //
    232, 240, 248, //
];

// Where each byte of `WITH_TTL`, with all its bits turned, is named; 999 where the bytes are read all the same.
static PLACES_WITH_TTL: [u64; 114] = [
    0, 0, 0, 0, 0, 0, 0, 0, 8, 999, 999, 999, 999, 999, 999, 999, 16, 999, 999, 999, //
    999, 999, 999, 999, 24, 25, 999, 999, 999, 999, 999, 999, 999, 33, 999, 999, 999, 999, 999,
    999, //
    999, 41, 41, 41, 41, 45, 45, 45, 45, 49, 49, 49, 49, 49, 49, 49, 56, 57, 57, 57, //
    57, 61, 61, 61, 61, 61, 61, 61, 68, 999, 999, 999, 999, 73, 73, 73, 73, 73, 73, 79, //
    80, 999, 999, 999, 999, 999, 999, 999, 88, 88, 88, 88, 88, 88, 88, 88, 88, 97, 999, 999, //
    999, 999, 999, 999, 999, 999, 106, 106, 106, 106, 114, 114, 114, 114, //
];

// Where the fields of the same begin.
static STARTS_WITH_TTL: [usize; 22] = [
    0, 8, 16, 24, 25, 33, 41, 45, 49, 56, 57, 61, 68, 69, 73, 79, 80, 88, 97, 98, //
    106, 110, //
];

const ONE: &str = r#"{"columns":[{"name":"ts","kind":"time"}],"key":1}"#;

const FOUR: &str =
    r#"{"columns":[{"name":"net","kind":"text"},{"name":"dev","kind":"int32"},{"name":"ts","kind":"time"},{"name":"bytes","kind":"int64"}],"key":3}"#;

/// The stone of a table without rows.
fn stone_of(alloc: Global, text: &str, ttl: Option<u64>) -> Option<Stone>
    requires { IfSome ttl (λ t. (1 ≤ t) × (t < 2 ^ 62)) }
{
    let schema = match schema_from_json(alloc, text.as_bytes()) {
        Ok(schema) => schema,
        Err(_) => return None,
    };
    let schemas = match Schemas::of(alloc, schema) {
        Ok(schemas) => schemas,
        Err(_) => return None,
    };
    let _lawful = schemas.first();
    let tablets = Tablets::from_vec(Vec::new(alloc));
    Some(Stone::new(0, 0, ttl, 1, schemas, tablets))
}

/// Whether the stone of a table without rows is spelled so, and read from that.
fn is_spelled(alloc: Global, text: &str, ttl: Option<u64>, bytes: &[u8]) -> Result<bool, Fail>
    requires { IfSome ttl (λ t. (1 ≤ t) × (t < 2 ^ 62)) }
{
    match stone_of(alloc, text, ttl) {
        None => Ok(false),
        Some(stone) => Ok(
            encode(alloc, &stone)?.as_slice() == bytes && fault_of(alloc, bytes).is_none(),
        ),
    }
}

fn fault_of(alloc: Global, bytes: &[u8]) -> Option<FormatError> {
    match decode(alloc, bytes) {
        Ok(_) => None,
        Err(fault) => Some(fault),
    }
}

#[test]
fn an_empty_table_has_its_bytes(rt: HostRuntime) -> Result<(), Fail> {
    assert!(rt;
        is_spelled(rt.alloc(), ONE, None, LEAST.as_slice())?,
        "one column"
    );
    assert!(rt;
        is_spelled(rt.alloc(), FOUR, Some(86_400_000_000), WITH_TTL.as_slice())?,
        "four columns and a time to live"
    );
    Ok(())
}

#[test]
fn a_stone_is_copied_and_written_as_it_was_read(rt: HostRuntime) -> Result<(), Fail> {
    let stone = decode(rt.alloc(), FULL.as_slice())?.clone()?;
    assert_eq!(rt;
        (stone.kept(), stone.low(), stone.ttl(), stone.next_file()),
        (9, 5, Some(86_400_000_000), 4),
        "the numbers"
    );
    assert_eq!(rt;
        stone.schemas().newest().columns().as_slice().len(),
        4,
        "a column was appended"
    );
    assert_eq!(rt;
        (stone.names(3), stone.names(1), stone.names(2)),
        (true, true, false),
        "the files"
    );
    assert_eq!(rt;
        encode(rt.alloc(), &stone)?.as_slice(),
        FULL.as_slice(),
        "the bytes"
    );
    assert_eq!(rt; stone.into_tablets().into_vec().len(), 2, "the tablets");
    Ok(())
}

/// The first length at which cut bytes are named at another place than where the last field begins.
fn cut_otherwise(alloc: Global, bytes: &[u8], starts: &[usize]) -> Option<usize> {
    let mut start = 0;
    for len in 0..bytes.len() {
        if starts.contains(&len) {
            start = len as u64;
        }
        if fault_of(alloc, bytes.split_at(len).0) != Some(FormatError::Bad { at: start }) {
            return Some(len);
        }
    }
    None
}

#[test]
fn names_the_field_in_which_the_bytes_end(rt: HostRuntime) -> Result<(), Fail> {
    let found = cut_otherwise(rt.alloc(), &FULL, &STARTS);
    assert_eq!(rt; found, None, "two tablets");
    let found = cut_otherwise(rt.alloc(), &WITH_TTL, &STARTS_WITH_TTL);
    assert_eq!(rt; found, None, "a table without rows");
    Ok(())
}

#[test]
fn names_a_byte_too_many(rt: HostRuntime) -> Result<(), Fail> {
    let mut longer = WITH_TTL.to_vec(rt.alloc())?;
    longer.push(0)?;
    let found = fault_of(rt.alloc(), longer.as_slice());
    assert_eq!(rt;
        found,
        Some(FormatError::Bad { at: 114 }),
        "a byte too many"
    );
    Ok(())
}

/// What the bytes are named with a byte of them turned.
fn fault_of_turned(alloc: Global, bytes: &[u8], place: usize) -> Result<Option<FormatError>, Fail> {
    let mut bytes = bytes.to_vec(alloc)?;
    if let Some(byte) = bytes.get_mut(place) {
        *byte = !*byte;
    }
    Ok(fault_of(alloc, bytes.as_slice()))
}

/// The first byte whose turning is named at another place.
fn turned_otherwise(alloc: Global, bytes: &[u8], places: &[u64]) -> Result<Option<usize>, Fail> {
    for (place, at) in places.iter().enumerate() {
        let wanted = match *at {
            999 => None,
            at => Some(FormatError::Bad { at }),
        };
        if fault_of_turned(alloc, bytes, place)? != wanted {
            return Ok(Some(place));
        }
    }
    Ok(None)
}

#[test]
fn names_what_is_turned(rt: HostRuntime) -> Result<(), Fail> {
    let found = turned_otherwise(rt.alloc(), &FULL, &PLACES)?;
    assert_eq!(rt; found, None, "two tablets");
    let found = turned_otherwise(rt.alloc(), &WITH_TTL, &PLACES_WITH_TTL)?;
    assert_eq!(rt; found, None, "a table without rows");
    Ok(())
}

/// The last `width` bytes of the number, from a place on.
fn put_number(bytes: &mut Vec<u8>, place: usize, width: usize, number: u64) {
    let digits = number.to_be_bytes();
    for i in 0..8usize {
        if i < width && width <= 8 && place < bytes.len() && i < bytes.len() - place {
            bytes[place + i] = digits[8 - width + i];
        }
    }
}

/// A broken rule: where a number of so many bytes is put, the number, and the place that is named.
static RULES: [(&str, usize, usize, u64, u64); 42] = [
    ("kept above 2^62", 8, 8, (1 << 62) + 1, 8),
    ("low at 2^62", 16, 8, 1 << 62, 16),
    ("a flag of 2", 24, 1, 2, 24),
    ("no time to live", 25, 8, 0, 25),
    ("a time to live of 2^62", 25, 8, 1 << 62, 25),
    ("next file above 2^62", 33, 8, (1 << 62) + 1, 33),
    ("a key of no columns", 41, 4, 0, 41),
    ("a key of 65 columns", 41, 4, 65, 41),
    ("fewer columns than the key has", 45, 4, 1, 45),
    ("65 columns", 45, 4, 65, 45),
    ("a name of no bytes", 49, 4, 0, 49),
    ("a capital in a name", 53, 1, 68, 49),
    ("a name again", 78, 1, 100, 74),
    ("the key ends in no time", 65, 1, 1, 65),
    ("no kind", 54, 1, 5, 54),
    ("a time below 0", 66, 1, 255, 66),
    ("129 changes", 86, 4, 129, 86),
    ("no change", 90, 1, 2, 90),
    ("an appended name is there", 95, 1, 120, 90),
    ("an appended name is not lawful", 95, 1, 89, 90),
    ("an appended column of no kind", 96, 1, 5, 96),
    ("a text that is no UTF-8", 101, 1, 255, 97),
    ("a default past the end", 97, 4, 4_294_967_295, 97),
    ("the widened column is a time", 107, 1, 1, 103),
    ("there is no widened column", 107, 1, 4, 103),
    ("a file at the next one", 112, 8, 4, 112),
    ("a file twice", 184, 8, 3, 184),
    ("no rows", 120, 8, 0, 120),
    ("a moment at 2^62", 136, 8, 1 << 62, 136),
    ("tablets out of order", 208, 8, 4, 208),
    ("moments that fall", 216, 8, 5, 216),
    ("a last moment at 2^62", 216, 8, 1 << 62, 216),
    ("a period of another length", 160, 8, 7_200_000_000, 160),
    ("a period that starts between", 224, 8, 7_200_000_000, 232),
    ("a moment before the period", 224, 8, 28_800_000_000, 232),
    ("a moment after it", 144, 8, 14_400_000_000, 160),
    ("numbers that fall", 168, 8, 1, 176),
    ("a number that is not settled", 248, 8, 9, 248),
    ("2^32 - 1 columns", 45, 4, 4_294_967_295, 45),
    ("2^32 - 1 changes", 86, 4, 4_294_967_295, 86),
    ("2^32 - 1 tablets", 108, 4, 4_294_967_295, 256),
    ("a tablet fewer", 108, 4, 1, 184),
];

/// What the bytes of two tablets are named with a number put there.
fn fault_of_put(
    alloc: Global,
    place: usize,
    width: usize,
    number: u64,
) -> Result<Option<FormatError>, Fail> {
    let mut bytes = FULL.to_vec(alloc)?;
    put_number(&mut bytes, place, width, number);
    Ok(fault_of(alloc, bytes.as_slice()))
}

#[test]
fn names_the_first_broken_rule(rt: HostRuntime) -> Result<(), Fail> {
    for (case, place, width, number, at) in RULES.iter() {
        let found = fault_of_put(rt.alloc(), *place, *width, *number)?;
        assert_eq!(rt; found, Some(FormatError::Bad { at: *at }), "{case}");
    }
    Ok(())
}
