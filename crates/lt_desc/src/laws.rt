// The laws of the format alone.

ghost use Rattle.std.specs.Prelude.{◌≡◌, ◌<◌, ◌≤◌, ◌^◌, ℕ, Bool, List, Ok, IsTrue, filter, slice_index};
ghost use Rattle.lt_rec.specs.declared.listed.Listed.{Listed as Tablet};
ghost use Rattle.lt_schema.specs.Versions.{SchemaVersions, is_versions};
ghost use Rattle.lt_desc.specs.Shape.{StoneShape};
ghost use Rattle.lt_desc.specs.Lawful.{IsStone, Fits};
ghost use Rattle.lt_desc.specs.Spelling.{spelling};
ghost use Rattle.lt_desc.specs.Reading.{stone_at};

/// What is read is so spelled, and what is so spelled is read. It does nothing.
pub fn descriptor_laws()
    ensures read_is_spelled { (bytes : List ℕ) (s : StoneShape) → ((i : ℕ) → slice_index bytes i < 256) → stone_at bytes ≡ Ok s → IsStone s × Fits s × (bytes ≡ spelling s) }
    ensures spelled_is_read { (s : StoneShape) → IsStone s → Fits s → stone_at (spelling s) ≡ Ok s }
{}

/// A stone stays one with later numbers and with other schemas, and without some of its tablets. It does nothing.
pub fn stones_stay_lawful()
    ensures later { (s : StoneShape) (kept low next_file : ℕ) (schemas : SchemaVersions) → IsStone s → s.kept ≤ kept → kept ≤ 2 ^ 62 → low < 2 ^ 62 → s.next_file ≤ next_file → next_file ≤ 2 ^ 62 → IsTrue (is_versions schemas)
        → IsStone (record { kept = kept; low = low; ttl = s.ttl; next_file = next_file; schemas = schemas; tablets = s.tablets }) }
    ensures fewer { (s : StoneShape) (keep : Tablet → Bool) → IsStone s → IsStone (record { kept = s.kept; low = s.low; ttl = s.ttl; next_file = s.next_file; schemas = s.schemas; tablets = filter keep s.tablets }) }
{}
