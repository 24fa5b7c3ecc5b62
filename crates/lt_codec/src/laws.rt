// The laws of keys as bytes. These functions do nothing.

ghost use Rattle.std.specs.Prelude.{◌≡◌, ◌≤◌, ◌<◌, ◌^◌, ℕ, List, Bool, Ok, length, IsTrue, All};
ghost use Rattle.std.specs.List.{list_all};
ghost use Rattle.std.specs.Ordering.{nat_cmp};
ghost use Rattle.std.specs.Cmp.Lexicographic.{slice_cmp};
ghost use Rattle.lt_rec.specs.Boxes.{is_below};
ghost use Rattle.lt_schema.specs.declared.value.Value.{Value};
ghost use Rattle.lt_schema.specs.Values.{key_cmp, leading_cmp};
ghost use Rattle.lt_schema.specs.Shapes.{SchemaShape};
ghost use Rattle.lt_schema.specs.Lawful.{is_schema};
ghost use Rattle.lt_schema.specs.Check.{Passes, key_of, wrong_kind_from};
ghost use Rattle.lt_schema.specs.Versions.{SchemaVersions, schema_at};
ghost use Rattle.lt_codec.specs.Spelling.{body_bytes, key_bytes};
ghost use Rattle.lt_codec.specs.Reading.{row_at};
ghost use Rattle.lt_codec.specs.Ordering.{IsRowOf, IsSpelling, fits_word, is_text, lies_below};

/// The bytes of two keys compare as the keys do, whatever the versions of their rows.
pub fn keys_order_as_their_bytes()
    ensures order { (versions : SchemaVersions) (ver_a ver_b : ℕ) (a b : List Value) → IsRowOf versions ver_a a → IsRowOf versions ver_b b
        → slice_cmp nat_cmp (key_bytes (schema_at versions ver_a) a) (key_bytes (schema_at versions ver_b) b) ≡ key_cmp (key_of versions.first a) (key_of versions.first b) }
{}

/// A cut of leading values stands where these stand among keys, and after them where it is set so.
pub fn cuts_stand_with_their_values()
    ensures place { (versions : SchemaVersions) (ver_cut ver_row : ℕ) (leading row : List Value) (after : Bool) → IsRowOf versions ver_row row
        → length leading ≤ versions.first.key_len → wrong_kind_from 0 (schema_at versions ver_cut).columns leading ≡ None → IsTrue (list_all fits_word leading)
        → is_below (record { bytes = key_bytes (schema_at versions ver_cut) leading; after = after }) (key_bytes (schema_at versions ver_row) row) ≡ lies_below after (leading_cmp leading (key_of versions.first row)) }
{}

/// A row that passes is read back from its bytes.
pub fn rows_are_read_back()
    ensures back { (schema : SchemaShape) (row : List Value) → IsTrue (is_schema schema) → Passes schema row → IsTrue (list_all fits_word row) → IsTrue (list_all is_text row)
        → row_at schema (key_bytes schema row) (body_bytes schema row) ≡ Ok row }
{}

/// What is read is spelled in no other way: a key and a body that are read as a row are those of this row.
pub fn rows_have_one_spelling()
    ensures only { (schema : SchemaShape) (key body : List ℕ) (row : List Value) → IsTrue (is_schema schema) → All (λ b. b < 2 ^ 8) key → All (λ b. b < 2 ^ 8) body
        → row_at schema key body ≡ Ok row → IsSpelling schema key body row }
{}
