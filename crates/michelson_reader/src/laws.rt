//! What is true of the texts of scripts, and of their faults.

ghost use Rattle.std.specs.Prelude.{◌≡◌, ◌≢◌, ◌⊎◌, ℕ, ◌↔◌, Err, IsTrue, List};
ghost use Rattle.micheline_text.specs.declared.node.Node.{Node};
ghost use Rattle.michelson_code.specs.declared.script.Script as declared;
ghost use Rattle.michelson_code.specs.Lawful.{is_lawful_script};
ghost use Rattle.michelson_code.specs.Printable.{IsPrintableScript};
ghost use Rattle.data_nodes.specs.FirstFault.{Place};
ghost use Rattle.michelson_reader.specs.Answers.{IsReadFault};
ghost use Rattle.michelson_reader.specs.declared.fault.ReadFault.{ReadFault};
ghost use Rattle.michelson_reader.specs.declared.fault.ReadFault.TheVariants.{NoMemory};
ghost use Rattle.michelson_reader.specs.CodeFaults.{code_read, instruction_read};
ghost use Rattle.michelson_reader.specs.FaultyNodes.{IsKnownWord};
ghost use Rattle.michelson_reader.specs.FirstFault.{IsFirstFault, IsScriptFault, StandsInScript};
ghost use Rattle.michelson_reader.specs.Names.{is_known};
ghost use Rattle.michelson_reader.specs.Printed.{script_text};
ghost use Rattle.michelson_reader.specs.Roles.{AsCode, AsInstruction, AsType};
ghost use Rattle.michelson_reader.specs.Script.{AreSections, IsScriptOf, unbraced};
ghost use Rattle.michelson_reader.specs.ScriptFaults.{script_read};
ghost use Rattle.michelson_reader.specs.TypeFaults.{type_read};

use micheline_text::bytes_are_a_text_or_have_one_fault;

/// A text spells at most one script.
pub fn a_text_spells_one_script()
    ensures { (bytes : List ℕ) (s t : declared.Script) →
        IsScriptOf bytes s → IsScriptOf bytes t → s ≡ t }
{}

/// Any bytes are the text of a script or have a fault, never both, and one fault at most; want of
/// memory is none.
pub fn bytes_are_a_script_or_have_one_fault()
    ensures either { (bytes : List ℕ) → ((s : declared.Script) × IsScriptOf bytes s)
        ⊎ ((f : ReadFault) × (IsReadFault bytes f × (f ≢ NoMemory))) }
    ensures never_both { (bytes : List ℕ) (s : declared.Script) (f : ReadFault) →
        IsScriptOf bytes s → IsReadFault bytes f → f ≢ NoMemory → ⊥ }
    ensures one_fault { (bytes : List ℕ) (f g : ReadFault) →
        IsReadFault bytes f → IsReadFault bytes g → f ≢ NoMemory → g ≢ NoMemory → f ≡ g }
{
    bytes_are_a_text_or_have_one_fault();
}

/// Two scripts that are read again as they are printed never share a text.
pub fn two_scripts_never_share_a_text()
    ensures { (s t : declared.Script) →
        IsTrue (is_lawful_script s) → IsTrue (is_lawful_script t) →
        IsPrintableScript s → IsPrintableScript t →
        script_text s ≡ script_text t → s ≡ t }
{}

/// A word is known exactly where a type or an instruction is written with it.
pub fn a_word_is_known_by_the_tables()
    ensures { (name : List ℕ) → IsTrue (is_known name) ↔ IsKnownWord name }
{}

/// What a reader from the left comes upon is the fault that stands before all others: in a node that
/// is read as a type, as an instruction or as a code, and in nodes that are read as a script. Nodes
/// have one such fault at most, and those of a script have none.
pub fn the_first_fault_of_a_script_is_told()
    ensures of_type { (n : Node) (f : ReadFault) →
        (type_read n ≡ Err f) ↔ IsFirstFault AsType n f }
    ensures of_instruction { (n : Node) (f : ReadFault) →
        (instruction_read n ≡ Err f) ↔ IsFirstFault AsInstruction n f }
    ensures of_code { (n : Node) (f : ReadFault) →
        (code_read n ≡ Err f) ↔ IsFirstFault AsCode n f }
    ensures told { (end : ℕ) (ns : List Node) (f : ReadFault) →
        (script_read end ns ≡ Err f) ↔ IsScriptFault end ns f }
    ensures one { (end : ℕ) (ns : List Node) (f g : ReadFault) →
        IsScriptFault end ns f → IsScriptFault end ns g → f ≡ g }
    ensures none { (end : ℕ) (ns : List Node) (s : declared.Script) → AreSections (unbraced ns) s →
        (p : Place) (f : ReadFault) → StandsInScript end (unbraced ns) p f → ⊥ }
{}
