//! The texts of replies, of the line that begins a client's block, and of a session's last line.
ghost use Rattle.std.specs.Prelude.{◌≡◌, ◌∷◌, ◌++◌, [], IfOk, OnOk, codes, decimal, length};
ghost use Rattle.std.specs.List.{flat_map};
ghost use Rattle.lt_reply.specs.Texts.{bound_fault_text, client_line, end_line, end_text, flushed_text, latest_text, line_of, place_text, refusal_text, reply_text_of, row_fault_text, rows_text, run_text, sizes_text, spaced_number, tablet_line, tablets_text, times_text, upkept_text};

use crate::values::{put_lines, put_number, put_row};
use lt_command::{BoundFault, MergeEnd, Reply};
use lt_rec::{Label, Listed, NoMemory, Octets};
use lt_schema::{AlterError, Row, RowFault, Rows};
use std::alloc::Global;

fn put_words(out: &mut Vec<u8>, words: &[u8]) -> Result<(), NoMemory>
    ensures { OnOk result (out.new.items ≡ out.old.items ++ line_of words.now) }
{
    out.extend_from_slice(words)?;
    out.push(b'\n')?;
    Ok(())
}

fn put_one(out: &mut Vec<u8>, words: &[u8], number: u64) -> Result<(), NoMemory>
    ensures { OnOk result (out.new.items ≡ out.old.items ++ line_of (words.now ++ decimal number)) }
{
    out.extend_from_slice(words)?;
    put_number(out, number)?;
    out.push(b'\n')?;
    Ok(())
}

fn put_two(
    out: &mut Vec<u8>,
    words: &[u8],
    first: u64,
    between: &[u8],
    second: u64,
) -> Result<(), NoMemory>
    ensures { OnOk result (out.new.items ≡ out.old.items ++ line_of (words.now ++ decimal first ++ between.now ++ decimal second)) }
{
    out.extend_from_slice(words)?;
    put_number(out, first)?;
    out.extend_from_slice(between)?;
    put_number(out, second)?;
    out.push(b'\n')?;
    Ok(())
}

fn put_row_fault(out: &mut Vec<u8>, fault: RowFault) -> Result<(), NoMemory>
    ensures { OnOk result (out.new.items ≡ out.old.items ++ line_of (row_fault_text fault)) }
{
    match fault {
        RowFault::Arity { want, got } => put_two(out, b"bad row arity ", want as u64, b" ", got),
        RowFault::WrongKind { column } => put_one(out, b"bad row kind ", column as u64),
        RowFault::KeyLong { len } => put_one(out, b"bad row key ", len),
        RowFault::BodyLong { len } => put_one(out, b"bad row body ", len),
    }
}

fn put_bound_fault(out: &mut Vec<u8>, fault: BoundFault) -> Result<(), NoMemory>
    ensures { OnOk result (out.new.items ≡ out.old.items ++ line_of (bound_fault_text fault)) }
{
    match fault {
        BoundFault::Count => put_words(out, b"bad bound count"),
        BoundFault::WrongKind { column } => put_one(out, b"bad bound kind ", column as u64),
    }
}

fn put_refusal(out: &mut Vec<u8>, why: AlterError) -> Result<(), NoMemory>
    ensures { OnOk result (out.new.items ≡ out.old.items ++ line_of (refusal_text why)) }
{
    match why {
        AlterError::Exists => put_words(out, b"exists"),
        AlterError::TooMany => put_words(out, b"too many columns"),
        AlterError::BadDefault => put_words(out, b"bad default"),
        AlterError::NoColumn => put_words(out, b"no column"),
        AlterError::NotInt32 => put_words(out, b"not int32"),
    }
}

fn put_rows(
    out: &mut Vec<u8>,
    rows: &Rows,
    more: bool,
    place: u64,
    since: u64,
) -> Result<(), NoMemory>
    ensures { OnOk result (out.new.items ≡ out.old.items ++ rows_text rows.now more place since) }
{
    let words: &[u8] = if more {
        b" more place "
    } else {
        b" all place "
    };
    out.extend_from_slice(b"rows ")?;
    put_number(out, rows.len() as u64)?;
    put_two(out, words, place, b" since ", since)?;
    put_lines(out, rows)
}

fn put_latest(out: &mut Vec<u8>, row: &Option<Row>, place: u64, since: u64) -> Result<(), NoMemory>
    ensures { OnOk result (out.new.items ≡ out.old.items ++ latest_text row.now place since) }
{
    match row {
        None => put_two(out, b"latest none place ", place, b" since ", since),
        Some(row) => {
            put_two(out, b"latest one place ", place, b" since ", since)?;
            put_row(out, row)
        }
    }
}

fn put_numbers(out: &mut Vec<u8>, numbers: &[u64]) -> Result<(), NoMemory>
    ensures { OnOk result (out.new.items ≡ out.old.items ++ flat_map spaced_number numbers.now) }
{
    for number in numbers {
        out.push(b' ')?;
        put_number(out, *number)?;
    }
    Ok(())
}

fn put_named(out: &mut Vec<u8>, words: &[u8], number: u64) -> Result<(), NoMemory>
    ensures { OnOk result (out.new.items ≡ out.old.items ++ words.now ++ decimal number) }
{
    out.extend_from_slice(words)?;
    put_number(out, number)?;
    Ok(())
}

fn put_flushed(out: &mut Vec<u8>, kept: u64, tablets: &[u64]) -> Result<(), NoMemory>
    ensures { OnOk result (out.new.items ≡ out.old.items ++ line_of (flushed_text kept tablets.now)) }
{
    put_named(out, b"flushed ", kept)?;
    out.extend_from_slice(b" tablets")?;
    put_numbers(out, tablets)?;
    out.push(b'\n')?;
    Ok(())
}

fn put_merge_end(out: &mut Vec<u8>, end: MergeEnd) -> Result<(), NoMemory>
    ensures { OnOk result (out.new.items ≡ out.old.items ++ end_text end) }
{
    match end {
        MergeEnd::Merged { file } => put_named(out, b" into ", file),
        MergeEnd::Emptied => Ok(out.extend_from_slice(b" into none")?),
        MergeEnd::Gone { file } => put_named(out, b" gone ", file),
    }
}

fn put_run(out: &mut Vec<u8>, run: &[u64], end: Option<MergeEnd>) -> Result<(), NoMemory>
    ensures { OnOk result (out.new.items ≡ out.old.items ++ run_text run.now end) }
{
    match end {
        None => Ok(out.extend_from_slice(b" none")?),
        Some(end) => {
            put_numbers(out, run)?;
            put_merge_end(out, end)
        }
    }
}

fn put_upkept(
    out: &mut Vec<u8>,
    low: u64,
    run: &[u64],
    end: Option<MergeEnd>,
    swept: u64,
) -> Result<(), NoMemory>
    ensures { OnOk result (out.new.items ≡ out.old.items ++ line_of (upkept_text low run.now end swept)) }
{
    put_named(out, b"upkeep low ", low)?;
    out.extend_from_slice(b" run")?;
    put_run(out, run, end)?;
    put_one(out, b" swept ", swept)
}

fn put_sizes(out: &mut Vec<u8>, tablet: &Listed) -> Result<(), NoMemory>
    ensures { OnOk result (out.new.items ≡ out.old.items ++ sizes_text tablet.now) }
{
    put_named(out, b"tablet ", tablet.file)?;
    put_named(out, b" rows ", tablet.rows)?;
    put_named(out, b" bytes ", tablet.bytes)
}

fn put_times(out: &mut Vec<u8>, tablet: &Listed) -> Result<(), NoMemory>
    ensures { OnOk result (out.new.items ≡ out.old.items ++ times_text tablet.now) }
{
    put_named(out, b" span ", tablet.low)?;
    put_named(out, b" ", tablet.high)?;
    put_named(out, b" period ", tablet.period.start())?;
    put_named(out, b" ", tablet.period.len())
}

fn put_tablet(out: &mut Vec<u8>, tablet: &Listed) -> Result<(), NoMemory>
    ensures { OnOk result (out.new.items ≡ out.old.items ++ tablet_line tablet.now) }
{
    put_sizes(out, tablet)?;
    put_times(out, tablet)?;
    put_two(out, b" numbers ", tablet.first, b" ", tablet.last)
}

fn put_tablets(out: &mut Vec<u8>, listing: &[Listed]) -> Result<(), NoMemory>
    ensures { OnOk result (out.new.items ≡ out.old.items ++ tablets_text listing.now) }
{
    put_one(out, b"tablets ", listing.len() as u64)?;
    for tablet in listing {
        put_tablet(out, tablet)?;
    }
    Ok(())
}

/// Appends the lines of a reply. Where memory runs out, a front of them may be there.
pub fn put_reply(out: &mut Vec<u8>, reply: &Reply) -> Result<(), NoMemory>
    ensures { OnOk result (out.new.items ≡ out.old.items ++ reply_text_of reply.now) }
{
    match reply {
        Reply::BadLine { at } => put_one(out, b"bad line at ", *at),
        Reply::Inserted { seq } => put_one(out, b"ok ", *seq),
        Reply::BadRow { fault } => put_row_fault(out, *fault),
        Reply::TooOld { since } => put_one(out, b"too old ", *since),
        Reply::Present { seq } => put_one(out, b"present ", *seq),
        Reply::Spent => put_words(out, b"spent"),
        Reply::Rows {
            rows,
            more,
            place,
            since,
        } => put_rows(out, rows, *more, *place, *since),
        Reply::Latest { row, place, since } => put_latest(out, row, *place, *since),
        Reply::BadLimit { given } => put_one(out, b"bad limit ", *given),
        Reply::BadBound { fault } => put_bound_fault(out, *fault),
        Reply::Flushed { kept, tablets } => put_flushed(out, *kept, tablets.as_slice()),
        Reply::NoTablet { id } => put_one(out, b"no tablet ", *id),
        Reply::Upkept {
            low,
            run,
            end,
            swept,
        } => put_upkept(out, *low, run.as_slice(), *end, *swept),
        Reply::Version { version } => put_one(out, b"version ", *version),
        Reply::Refused { why } => put_refusal(out, *why),
        Reply::Tablets { listing } => put_tablets(out, listing.as_slice()),
        Reply::Damaged { file, at } => put_two(out, b"damaged ", *file, b" ", *at),
        Reply::Fault => put_words(out, b"fault"),
        Reply::NoMemory => put_words(out, b"no memory"),
    }
}

/// The lines of a reply.
pub fn reply_text(alloc: Global, reply: &Reply) -> Result<Octets, NoMemory>
    ensures { IfOk result (λ text. text ≡ reply_text_of reply.now) }
{
    let mut out = Vec::new(alloc);
    put_reply(&mut out, reply)?;
    Ok(Octets::from_vec(out))
}

/// Appends the line that begins a client's block.
pub fn put_client(out: &mut Vec<u8>, name: &Label) -> Result<(), NoMemory>
    ensures { OnOk result (out.new.items ≡ out.old.items ++ client_line name.now) }
{
    out.extend_from_slice(b"client ")?;
    put_words(out, name.as_slice())
}

/// Appends a session's last line, with its next and its kept number.
pub fn put_end(out: &mut Vec<u8>, next: u64, kept: u64) -> Result<(), NoMemory>
    ensures { OnOk result (out.new.items ≡ out.old.items ++ end_line next kept) }
{
    put_two(out, b"end next ", next, b" kept ", kept)
}
