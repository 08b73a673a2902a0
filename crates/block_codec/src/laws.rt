//! What is true of blocks and their bytes.
ghost use Rattle.std.specs.Prelude.{◌≡◌, ℕ, List, Ok};
ghost use Rattle.byte_fields.specs.Laws.{IsBytes, OneSpelling};
ghost use Rattle.block_codec.specs.Block.{BlockView, IsBlock};
ghost use Rattle.block_codec.specs.Spelling.{spelling};
ghost use Rattle.block_codec.specs.Reading.{block_of};

/// A block is read exactly from its spelling, and no spelling begins another.
pub fn blocks_have_one_spelling()
    ensures read { (bytes : List ℕ) (b : BlockView) → IsBytes bytes → block_of bytes ≡ Ok b
        → IsBlock b × (bytes ≡ spelling b) }
    ensures again { (b : BlockView) → IsBlock b → block_of (spelling b) ≡ Ok b }
    ensures one { OneSpelling spelling IsBlock }
{}
