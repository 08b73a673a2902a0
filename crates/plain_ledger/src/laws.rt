//! What is true of ledgers and their files.
ghost use Rattle.std.specs.Prelude.{◌≡◌, ℕ, List, Ok};
ghost use Rattle.byte_fields.specs.Laws.{IsBytes};
ghost use Rattle.plain_ledger.specs.Ledger.{Ledger};
ghost use Rattle.plain_ledger.specs.Reading.{ledger_of};
ghost use Rattle.plain_ledger.specs.Spelling.{IsLedger, spelling};

/// A ledger is read exactly from its spelling.
pub fn ledgers_have_one_spelling()
    ensures read { (bytes : List ℕ) (s : Ledger) → IsBytes bytes → ledger_of bytes ≡ Ok s
        → IsLedger s × (bytes ≡ spelling s) }
    ensures again { (s : Ledger) → IsLedger s → ledger_of (spelling s) ≡ Ok s }
{}
