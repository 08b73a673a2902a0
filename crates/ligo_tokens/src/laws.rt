//! What is true of tokens, whatever reads them.

ghost use Rattle.std.specs.Prelude.{◌≡◌, ℕ, List};
ghost use Rattle.ligo_tokens.specs.Layout.{AreLaid};
ghost use Rattle.ligo_tokens.specs.Lexing.{tokens_of};
ghost use Rattle.ligo_tokens.specs.declared.token.Token.{Token};

/// Any bytes are laid out as tokens in one way: as they are read.
pub fn bytes_are_laid_out_in_one_way()
    ensures laid { (bytes : List ℕ) → AreLaid 0 bytes (tokens_of 0 bytes) }
    ensures only { (bytes : List ℕ) (ts : List Token) →
        AreLaid 0 bytes ts → tokens_of 0 bytes ≡ ts }
{}
