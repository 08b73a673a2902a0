//! What is true of states and their files.

ghost use Rattle.std.specs.Prelude.{◌≡◌, ◌↔◌, ℕ, List, Ok, Err, Some};
ghost use Rattle.byte_fields.specs.Laws.{IsBytes};
ghost use Rattle.value_core.specs.declared.val.Val.{Val};
ghost use Rattle.michelson_code.specs.declared.script.Script.{Script};
ghost use Rattle.cell_names.specs.declared.cell.Cell.{Cell};
ghost use Rattle.cell_names.specs.Contents.{Contents};
ghost use Rattle.code_book.specs.Books.{Contracts};
ghost use Rattle.ledger_state.specs.declared.fault.BuildFault.{BuildFault};
ghost use Rattle.ledger_state.specs.Building.{built};
ghost use Rattle.ledger_state.specs.Ledger.{Ledger};
ghost use Rattle.ledger_state.specs.Reading.{ledger_of};
ghost use Rattle.ledger_state.specs.Reasons.{AreTheCells, IsFirstReason, IsReason};
ghost use Rattle.ledger_state.specs.Scripts.{IsPrinted, script_of};
ghost use Rattle.ledger_state.specs.Spelling.{CanBeStored, spelling};

/// A state is read exactly from its spelling.
pub fn states_have_one_spelling()
    ensures read { (bytes : List ℕ) (s : Ledger) → IsBytes bytes → ledger_of bytes ≡ Ok s
        → CanBeStored s × (bytes ≡ spelling s) }
    ensures again { (s : Ledger) → CanBeStored s → ledger_of (spelling s) ≡ Ok s }
{}

/// The script that a text is, is one that may run, that the text is read as, and as which it is
/// printed; and it is the only one.
pub fn a_text_is_a_script_where_it_is_printed()
    ensures { (text : List ℕ) (s : Script) → (script_of text ≡ Some s) ↔ IsPrinted text s }
{}

/// What is built of cells is what they are, where there is no reason against them; and else the
/// reason that comes before all others is told.
pub fn a_state_is_built_or_the_first_reason_is_told()
    ensures cells { (book : Contracts) (rows : List (Cell × Val)) (m : Contents)
        → built book rows ≡ Ok m → AreTheCells rows m }
    ensures free { (book : Contracts) (rows : List (Cell × Val)) (m : Contents)
        → built book rows ≡ Ok m → (f : BuildFault) → ¬ IsReason book rows f }
    ensures told { (book : Contracts) (rows : List (Cell × Val)) (f : BuildFault)
        → built book rows ≡ Err f → IsFirstReason book rows f }
{}
