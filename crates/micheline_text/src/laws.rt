//! What is true of texts, whatever reads them.

ghost use Rattle.std.specs.Prelude.{◌≡◌, ◌⊎◌, ℕ, List};
ghost use Rattle.micheline_text.specs.Faults.{IsFaultOf};
ghost use Rattle.micheline_text.specs.Grammar.{Tokens};
ghost use Rattle.micheline_text.specs.Cuts.{IsCutInto};
ghost use Rattle.micheline_text.specs.Lexing.{tokens_of};
ghost use Rattle.micheline_text.specs.Text.{IsTextOf};
ghost use Rattle.micheline_text.specs.declared.fault.TextFault.{TextFault};
ghost use Rattle.micheline_text.specs.declared.node.Node.{Node};

/// Any bytes are cut in one way into tokens and what is none: as they are read.
pub fn bytes_are_cut_in_one_way()
    ensures cut { (bytes : List ℕ) → IsCutInto 0 bytes (tokens_of 0 bytes) }
    ensures only { (bytes : List ℕ) (ts : Tokens) → IsCutInto 0 bytes ts → tokens_of 0 bytes ≡ ts }
{}

/// Any bytes are a text, with one list of nodes, or have one fault, and never both.
pub fn bytes_are_a_text_or_have_one_fault()
    ensures either { (bytes : List ℕ) →
        ((ns : List Node) × IsTextOf bytes ns) ⊎ ((f : TextFault) × IsFaultOf bytes f) }
    ensures never_both { (bytes : List ℕ) (ns : List Node) (f : TextFault) →
        IsTextOf bytes ns → IsFaultOf bytes f → ⊥ }
    ensures one_text { (bytes : List ℕ) (ns ms : List Node) →
        IsTextOf bytes ns → IsTextOf bytes ms → ns ≡ ms }
    ensures one_fault { (bytes : List ℕ) (f g : TextFault) →
        IsFaultOf bytes f → IsFaultOf bytes g → f ≡ g }
{}
