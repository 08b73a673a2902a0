//! What is true of the bytes of cells and footprints, and of accesses, whatever the store.

ghost use Rattle.std.specs.Prelude.{◌≡◌, ◌≢◌, ℕ};
ghost use Rattle.std.specs.FinMap.{get};
ghost use Rattle.byte_fields.specs.Laws.{OneSpelling, ReadsExactly};
ghost use Rattle.cell_names.specs.declared.cell.Cell.{Cell};
ghost use Rattle.cell_names.specs.declared.access.Access.{Access};
ghost use Rattle.cell_names.specs.declared.access.Undo.{Undo};
ghost use Rattle.cell_names.specs.Spelling.{spell_cell, spell_footprint, IsCell, IsFootprint};
ghost use Rattle.cell_names.specs.Reading.{cell, footprint};
ghost use Rattle.cell_names.specs.Contents.{Contents, IsTidy};
ghost use Rattle.cell_names.specs.Effects.{cell_of, after, flight_after, undone, flight_undone};
ghost use Rattle.cell_names.specs.Conditions.{IsCovered, NamesWritable, HasAmount};
ghost use Rattle.cell_names.specs.Laws.{AreApart, GivesSame, IsTakenBack, KeepsMoney, MayBeExchanged, PutsWritable};

/// A cell is read exactly from its spelling, and no spelling begins another.
pub fn cells_have_one_spelling()
    ensures exact { ReadsExactly cell spell_cell IsCell }
    ensures one { OneSpelling spell_cell IsCell }
{}

/// A footprint is read exactly from its spelling, and no spelling begins another.
pub fn footprints_have_one_spelling()
    ensures exact { ReadsExactly footprint spell_footprint IsFootprint }
    ensures one { OneSpelling spell_footprint IsFootprint }
{}

/// An undo takes its access back: cells and flight are as before, and its amounts are there.
pub fn an_undo_takes_back_its_access()
    ensures { (a : Access) (m : Contents) (f : ℕ) → IsTidy m → IsCovered f a
        → IsTakenBack a m f }
{}

/// What an access gives depends on its cell alone, and other cells stay as they are.
pub fn an_access_turns_on_its_cell_alone()
    ensures given { (a : Access) (m n : Contents) → get m (cell_of a) ≡ get n (cell_of a)
        → GivesSame a m n }
    ensures others { (a : Access) (m : Contents) (c : Cell) → c ≢ cell_of a
        → get (after a m) c ≡ get m c }
{}

/// Two accesses that don't conflict may be exchanged.
pub fn apart_accesses_may_be_exchanged()
    ensures cells { (a b : Access) (m : Contents) → AreApart a b → MayBeExchanged a b m }
    ensures flight { (a b : Access) (m : Contents) (f : ℕ) → AreApart a b
        → IsCovered f a → IsCovered f b
        → flight_after b (after a m) (flight_after a m f)
        ≡ flight_after a (after b m) (flight_after b m f) }
{}

/// The supply with what is in flight stays, under accesses and undos.
pub fn accesses_keep_the_supply()
    ensures accesses { (a : Access) (m : Contents) (f : ℕ) → NamesWritable a → IsCovered f a
        → KeepsMoney m f (after a m) (flight_after a m f) }
    ensures undos { (u : Undo) (m : Contents) (f : ℕ) → PutsWritable u → HasAmount m f u
        → KeepsMoney m f (undone u m) (flight_undone u f) }
{}

/// Accesses and undos leave no balance of 0, where there was none.
pub fn accesses_keep_cells_tidy()
    ensures accesses { (a : Access) (m : Contents) → NamesWritable a → IsTidy m
        → IsTidy (after a m) }
    ensures undos { (u : Undo) (m : Contents) → PutsWritable u → IsTidy m
        → IsTidy (undone u m) }
{}
