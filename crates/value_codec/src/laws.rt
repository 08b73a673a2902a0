//! What is true of the bytes of values.

ghost use Rattle.std.specs.Prelude.{ℕ};
ghost use Rattle.byte_fields.specs.Laws.{OneSpelling, ReadsExactly};
ghost use Rattle.value_codec.specs.Spelling.{spell, IsSpelt};
ghost use Rattle.value_codec.specs.Reading.{value};

/// A value is read exactly from its spelling, and no spelling begins another.
pub fn values_have_one_spelling()
    ensures exact { (most : ℕ) → ReadsExactly (value most 128) spell (IsSpelt most 128) }
    ensures one { (most : ℕ) → OneSpelling spell (IsSpelt most 128) }
{}
