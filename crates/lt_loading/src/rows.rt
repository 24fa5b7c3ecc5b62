// Records that have to be those of rows.
ghost use Rattle.std.specs.Prelude.{◌≡◌, IsTrue, is_ok, OnOk, IfOk, IfNone, IfSome, true, All};
ghost use Rattle.lt_codec.specs.Reading.{row_in};
ghost use Rattle.lt_loading.specs.Rows.{IsOfRow, IsFirstFault};

use lt_block::Block;
use lt_codec::{CodecError, row_of, rows_have_one_spelling};
use lt_rec::{NoMemory, Rec};
use lt_schema::Schemas;
use std::alloc::Global;

/// Whether the record, which has this key and this body, is one of a row of its version.
fn is_row(
    alloc: Global,
    schemas: &Schemas,
    rec: &Rec,
    key: &[u8],
    body: &[u8],
) -> Result<bool, NoMemory>
    requires key { key.now ≡ rec.now.key }
    requires body { body.now ≡ rec.now.body }
    ensures exact { IfOk result (λ is. is ≡ is_ok (row_in schemas.now rec.now)) }
    ensures row { IfOk result (λ is. IsTrue is → IsOfRow schemas.now rec.now) }
{
    // What the versions and the record keep, and that a row has one spelling, is said by these.
    rows_have_one_spelling();
    let _newest = schemas.newest_version();
    let _stored = rec.stored();
    match row_of(alloc, schemas, rec) {
        Ok(_row) => Ok(true),
        Err(CodecError::Bad { at: _ }) => Ok(false),
        Err(CodecError::NoMemory) => Err(NoMemory),
    }
}

/// The place of the first record of a block that is none of a row.
pub fn first_fault(alloc: Global, schemas: &Schemas, block: &Block) -> Result<Option<u64>, NoMemory>
    ensures rows { IfOk result (λ fault. IfNone fault (All (IsOfRow schemas.now) block.now)) }
    ensures first { IfOk result (λ fault. IfSome fault (IsFirstFault schemas.now block.now)) }
{
    for i in 0..block.count() {
        let rec = block.rec(alloc, i)?;
        if !is_row(alloc, schemas, &rec, rec.key(), rec.body())? {
            return Ok(Some(i));
        }
    }
    Ok(None)
}
