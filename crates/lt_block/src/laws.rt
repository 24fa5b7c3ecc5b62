// The laws of the format alone, for what reads blocks inside larger bytes.

ghost use Rattle.std.specs.Prelude.{◌≡◌, ◌<◌, ℕ, List, Ok, slice_index};
ghost use Rattle.lt_rec.specs.Record.{Record};
ghost use Rattle.lt_block.specs.Spelling.{IsBlock, spelling};
ghost use Rattle.lt_block.specs.Reading.{block_at};

/// What is read is so spelled, and what is so spelled is read. It does nothing.
pub fn block_laws()
    ensures read_is_spelled { (bytes : List ℕ) (recs : List Record) → ((i : ℕ) → slice_index bytes i < 256) → block_at bytes ≡ Ok recs → IsBlock recs × (bytes ≡ spelling recs) }
    ensures spelled_is_read { (recs : List Record) → IsBlock recs → block_at (spelling recs) ≡ Ok recs }
{}
