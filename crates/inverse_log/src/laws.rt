//! What is true of logs: where undoing all of one leads.

ghost use Rattle.std.specs.Prelude.{◌≡◌, ◌++◌, ◌∷◌, [], List, ℕ};
ghost use Rattle.cell_names.specs.declared.access.Access.{Access};
ghost use Rattle.cell_names.specs.declared.access.Reply.{Reply};
ghost use Rattle.cell_names.specs.declared.access.Undo.{Undo};
ghost use Rattle.cell_names.specs.Contents.{Contents, IsTidy};
ghost use Rattle.cell_names.specs.Conditions.{Seen, IsCovered, MayChange, CanUndo};
ghost use Rattle.cell_names.specs.Stores.{Stays, Did, Undoes};
ghost use Rattle.inverse_log.specs.Ends.{LeadsTo};

/// Undoing a log leads to one end, if to any.
pub fn a_log_leads_to_one_end()
    ensures cells { (log : List Undo) (seen : Seen) (m n : Contents) (f g : ℕ)
        → LeadsTo log seen m f → LeadsTo log seen n g → m ≡ n }
    ensures flight { (log : List Undo) (seen : Seen) (m n : Contents) (f g : ℕ)
        → LeadsTo log seen m f → LeadsTo log seen n g → f ≡ g }
{}

/// Where there is no entry, undoing leads to what is there.
pub fn an_empty_log_leads_to_what_is_there()
    ensures { (seen : Seen) → LeadsTo [] seen seen.cells seen.flight }
{}

/// Once an access is done and its undo noted, the log leads where it led before.
pub fn a_noted_undo_leads_back()
    ensures { (log : List Undo) (old new : Seen) (a : Access) (r : Reply) (u : Undo)
        (m : Contents) (f : ℕ) → IsTidy old.cells → IsCovered old.flight a
        → Did old a r u new → Stays old new → MayChange new u
        → LeadsTo log old m f → LeadsTo (log ++ u ∷ []) new m f }
{}

/// Where a log leads to an end, its last entry may be undone, and the others lead there then.
pub fn an_undone_entry_leads_on()
    ensures may { (log : List Undo) (u : Undo) (old : Seen) (m : Contents) (f : ℕ)
        → LeadsTo (log ++ u ∷ []) old m f → CanUndo old u }
    ensures on { (log : List Undo) (u : Undo) (old new : Seen) (m : Contents) (f : ℕ)
        → Undoes old u new → LeadsTo (log ++ u ∷ []) old m f → LeadsTo log new m f }
{}
