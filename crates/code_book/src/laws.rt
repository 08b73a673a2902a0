//! What accesses and undos keep of a book and its store.

ghost use Rattle.std.specs.Prelude.{◌≡◌, true, Result};
ghost use Rattle.cell_names.specs.declared.access.Access.{Access};
ghost use Rattle.cell_names.specs.declared.access.Reply.{Reply};
ghost use Rattle.cell_names.specs.declared.access.Undo.{Undo};
ghost use Rattle.cell_names.specs.declared.store.StoreEnd.{StoreEnd};
ghost use Rattle.cell_names.specs.Effects.{after, flight_after, undo_of};
ghost use Rattle.cell_names.specs.Conditions.{Seen, CanAccess, CanUndo, Lends};
ghost use Rattle.cell_names.specs.Stores.{Accesses, HasSlot, Undoes};
ghost use Rattle.code_book.specs.Books.{Contracts};
ghost use Rattle.code_book.specs.Fits.{fits_access, fits_undo};
ghost use Rattle.code_book.specs.Ownership.{IsBookOf};

/// Accesses and undos that are fit for the book keep that it is the store's.
pub fn a_book_stays_the_stores()
    ensures accesses { (book : Contracts) (old new : Seen) (a : Access)
        (r : Result (Reply × Undo) StoreEnd) → IsBookOf book old → fits_access book a ≡ true
        → CanAccess old a → Accesses old a r new → IsBookOf book new }
    ensures undos { (book : Contracts) (old new : Seen) (u : Undo) → IsBookOf book old
        → fits_undo book u ≡ true → CanUndo old u → Undoes old u new → IsBookOf book new }
{}

/// The undo of an access that is fit is fit, and may be taken wherever cells and flight are as the
/// access left them.
pub fn the_undo_of_a_fit_access_is_fit()
    ensures fit { (book : Contracts) (old : Seen) (a : Access) → IsBookOf book old
        → fits_access book a ≡ true → Lends old a → fits_undo book (undo_of a old.cells) ≡ true }
    ensures taken { (book : Contracts) (old new : Seen) (a : Access) → IsBookOf book old
        → IsBookOf book new → fits_access book a ≡ true → CanAccess old a → Lends old a
        → new.cells ≡ after a old.cells → new.flight ≡ flight_after a old.cells old.flight
        → HasSlot new.slots (undo_of a old.cells) → CanUndo new (undo_of a old.cells) }
{}
