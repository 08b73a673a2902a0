//! What is true of texts, whatever reads them.

ghost use Rattle.std.specs.Prelude.{◌≡◌, ◌⊎◌, ℕ, List};
ghost use Rattle.ligo_syntax.specs.Faults.{IsFaultOf, IsTextOf};
ghost use Rattle.ligo_syntax.specs.FreeGrammar.{IsFreeText};
ghost use Rattle.ligo_syntax.specs.Grammar.{IsLooseText};
ghost use Rattle.ligo_syntax.specs.Kinds.{Tokens};
ghost use Rattle.ligo_syntax.specs.declared.fault.Expected.TheVariants as expected;
ghost use Rattle.ligo_syntax.specs.declared.fault.SyntaxFault.{SyntaxFault};
ghost use Rattle.ligo_syntax.specs.declared.program.Decl.{Decl};
ghost use Rattle.ligo_syntax.specs.declared.program.Program.{Program};

use ligo_tokens::bytes_are_laid_out_in_one_way;

/// Any bytes are a text, with one tree, or have a fault.
pub fn texts_have_one_tree()
    ensures some { (bytes : List ℕ) →
        ((p : Program) × IsTextOf bytes p) ⊎ ((f : SyntaxFault) × IsFaultOf bytes f) }
    ensures one { (bytes : List ℕ) (p q : Program) → IsTextOf bytes p → IsTextOf bytes q → p ≡ q }
    ensures other { (bytes : List ℕ) (p : Program) (f : SyntaxFault) →
        IsTextOf bytes p → IsFaultOf bytes f → ⊥ }
{
    bytes_are_laid_out_in_one_way();
}

/// Faults of one text stand at one place, but for those of depth.
pub fn faults_have_one_place()
    ensures { (bytes : List ℕ) (f g : SyntaxFault) → IsFaultOf bytes f → IsFaultOf bytes g →
        (f.expected ≡ expected.TooDeep → ⊥) → (g.expected ≡ expected.TooDeep → ⊥) → f.at ≡ g.at }
{
    bytes_are_laid_out_in_one_way();
}

/// Taking as much as it can loses no text: without it a text has the same tree, and maybe others.
pub fn greed_loses_no_text()
    ensures kept { (ts : Tokens) (ds : List Decl) → IsLooseText ts ds → IsFreeText ts ds }
    ensures none_lost { (ts : Tokens) (ds : List Decl) → IsFreeText ts ds →
        (es : List Decl) × IsLooseText ts es }
{}
