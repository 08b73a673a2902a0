//! What is true of requests and grants.

ghost use Rattle.std.specs.Prelude.{◌≡◌, ◌||◌, ℕ};
ghost use Rattle.cell_names.specs.declared.cell.Cell.{Cell};
ghost use Rattle.cell_names.specs.declared.mode.Mode.{Mode};
ghost use Rattle.cell_names.specs.Modes.{conflicts, joined};
ghost use Rattle.abstract_locks.specs.declared.asked.Asked.{Asked};
ghost use Rattle.abstract_locks.specs.Holders.{Holders, AreApart, IsFree, Answers};
ghost use Rattle.abstract_locks.specs.Tables.{locked};
ghost use Rattle.abstract_locks.specs.Laws.{IsGrant};

/// A request has one answer.
pub fn a_request_has_one_answer()
    ensures { (holders : Holders) (ticket : ℕ) (m : Mode) (a b : Asked)
        → Answers holders ticket m a → Answers holders ticket m b → a ≡ b }
{}

/// A grant changes what one ticket holds at one cell.
pub fn a_grant_is_at_its_cell_and_ticket()
    ensures { (held : Cell → Holders) (c : Cell) (ticket : ℕ) (m : Mode)
        → IsGrant held (locked held c ticket m) c ticket m }
{}

/// Where no two tickets hold a cell in conflict, none do after a grant of what is free.
pub fn grants_keep_tickets_apart()
    ensures { (held : Cell → Holders) (c : Cell) (ticket : ℕ) (m : Mode)
        → ((d : Cell) → AreApart (held d)) → IsFree (held c) ticket m
        → (d : Cell) → AreApart (locked held c ticket m d) }
{}

/// A mode conflicts with a join exactly where it conflicts with either part.
pub fn a_join_conflicts_where_either_does()
    ensures { (m a b : Mode) → conflicts m (joined a b) ≡ (conflicts m a || conflicts m b) }
{}
