//! What is true of lists of joins and of footprints.
ghost use Rattle.std.specs.Prelude.{◌≡◌, ◌<◌, ◌⊎◌, ℕ, List, length, IsTrue};
ghost use Rattle.cell_names.specs.declared.cell.Cell.{Cell};
ghost use Rattle.cell_names.specs.declared.mode.Mode.{Mode};
ghost use Rattle.cell_names.specs.Footprints.{ascends};
ghost use Rattle.join_schedule.specs.Joins.{AreJoins, IsFirstBad};
ghost use Rattle.join_schedule.specs.Cover.{Cover, IsFirstUnordered, footprint_of};

/// All lists are lists of joins, or one is the first that is none.
pub fn lists_are_joins_or_one_is_bad()
    ensures { (joins : List (List ℕ)) → AreJoins joins ⊎ ((j : ℕ) × IsFirstBad joins j) }
{}

/// Joins order all conflicts of footprints, or one is the first that they leave without an order.
pub fn joins_cover_or_one_is_unordered()
    ensures { (joins : List (List ℕ)) (footprints : List (List (Cell × Mode)))
        → AreJoins joins → length joins ≡ length footprints
        → ((j : ℕ) → j < length footprints → IsTrue (ascends (footprint_of footprints j)))
        → Cover joins footprints
        ⊎ ((i : ℕ) × (j : ℕ) × (c : Cell) × IsFirstUnordered joins footprints i j c) }
{}
