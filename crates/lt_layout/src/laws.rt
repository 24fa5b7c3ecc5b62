// The laws of the format alone.

ghost use Rattle.std.specs.Prelude.{◌≡◌, ◌<◌, ◌^◌, ℕ, List, Ok, length, slice_index};
ghost use Rattle.lt_rec.specs.Record.{Record};
ghost use Rattle.lt_rec.specs.Records.{joined};
ghost use Rattle.lt_layout.specs.Spelling.{Totals, IsTablet, totals_of, file_of};
ghost use Rattle.lt_layout.specs.Reading.{file_at};

/// What is read is so spelled and has the listed totals, and what is so spelled is read. It does nothing.
pub fn file_laws()
    ensures read_is_spelled { (t : Totals) (listed : ℕ) (bytes : List ℕ) (blocks : List (List Record)) → ((i : ℕ) → slice_index bytes i < 256) → file_at t listed bytes ≡ Ok blocks → IsTablet blocks × (bytes ≡ file_of blocks) × (totals_of (joined blocks) ≡ t) × (length bytes ≡ listed) }
    ensures spelled_is_read { (blocks : List (List Record)) → IsTablet blocks → length (file_of blocks) < 2 ^ 64 → file_at (totals_of (joined blocks)) (length (file_of blocks)) (file_of blocks) ≡ Ok blocks }
{}
