//! The cells of a ledger.

ghost use Rattle.std.specs.Prelude.{◌≡◌, ◌↔◌, IsTrue, IfOk, OnOk, OnErr, MatchOption};
ghost use Rattle.std.specs.Option.{option_copied};
ghost use Rattle.std.specs.FinMap.{empty, entries, get, len};
ghost use Rattle.std.specs.FinSet.{empty as no_slots};
ghost use Rattle.cell_names.specs.Cells.{cell_cmp};
ghost use Rattle.cell_blocks.specs.Successors.{IsNext, NoneAbove};
ghost use Rattle.ledger_cells.specs.LedgerCells.{AreLawful, money};
ghost use Rattle.ledger_cells.specs.Placing.{AreAlike};

use crate::overlay::Overlay;
use crate::walk::{CellsWalk, same_rows};
use cell_blocks::{HeldVal, Row};
use cell_names::{Cell, NoMemory};
use code_book::Book;
use std::alloc::Global;
use std::marker::Model;

/// The cells of a ledger, with the book that they were made for and the amount in flight.
#[derive(Drop)]
pub struct Cells {
    pub(crate) book: Book,
    pub(crate) overlay: Overlay,
    pub(crate) flight: u64,
}

impl Model for Cells {
    ghost use Rattle.std.specs.Prelude.{ℕ, refl};
    ghost use Rattle.std.specs.Coded.{code_by, coded×, coded_ℕ, coded_list};
    ghost use Rattle.std.specs.FinMap as finmap;
    ghost use Rattle.std.specs.FinSet as finset;
    ghost use Rattle.michelson_code.specs.contracts.script.Script as script;
    ghost use Rattle.cell_names.specs.contracts.cell.Cell as cell;
    ghost use Rattle.value_core.specs.contracts.val.Val as val;
    ghost use Rattle.cell_names.specs.Cells.{cell_cmp};
    ghost use Rattle.cell_names.specs.Contents.{Contents};
    ghost use Rattle.code_book.specs.Books.{Contracts};
    ghost use Rattle.ledger_cells.specs.LedgerCells.{LedgerCells, AreLawful};

    ghost Value = { LedgerCells };

    ghost coded = { code_by ((Contracts × Contents) × (ℕ × finset.FinSet cell_cmp))
        (coded× (coded× (finmap.code (coded_list coded_ℕ) script.the_row.coded)
        (finmap.code cell.the_row.coded val.the_row.coded))
        (coded× coded_ℕ (finset.code cell.the_row.coded)))
        (λ s. ((s.book, s.cells), (s.flight, s.slots)))
        (λ p. record { book = p.0.0; cells = p.0.1; flight = p.1.0; slots = p.1.1 }) (λ _. refl) };

    ghost view = { λ s. record {
      book = s.book;
      cells = s.overlay.cells;
      flight = s.flight;
      slots = s.overlay.slots;
    } };

    ghost invariant = { λ s. AreLawful (record {
      book = s.book;
      cells = s.overlay.cells;
      flight = s.flight;
      slots = s.overlay.slots;
    }) };
}

impl Cells {
    /// No cells, for a book.
    pub fn new(alloc: Global, book: &Book) -> Result<Cells, NoMemory>
        ensures { IfOk result (λ s. s
            ≡ record { book = book.now; cells = empty; flight = 0; slots = no_slots }) }
    {
        let book = book.copy(alloc)?;
        Ok(Cells::of_book(alloc, book))
    }

    fn of_book(alloc: Global, book: Book) -> Cells
        ensures { result ≡ record { book = book; cells = empty; flight = 0; slots = no_slots } }
    {
        // What every book keeps is told by its length.
        let _contracts = book.len();
        let overlay = Overlay::new(alloc);
        Cells {
            book,
            overlay,
            flight: 0,
        }
    }

    /// What stands in a cell. It takes as many steps as the number of cells has digits.
    pub fn get(&self, c: &Cell) -> Option<HeldVal<'_>>
        ensures { result ≡ get self.now.cells c.now }
    {
        self.overlay.get(c)
    }

    /// The least cell above `c` that is there, or the least of all.
    pub fn after(&self, c: Option<&Cell>) -> Option<Row<'_>>
        ensures { MatchOption result (NoneAbove cell_cmp self.now.cells (option_copied c.entry))
            (λ row. IsNext cell_cmp self.now.cells (option_copied c.entry) row.0 row.1) }
    {
        self.overlay.after(c)
    }

    /// How many cells there are.
    pub fn len(&self) -> usize
        ensures length { result ≡ len self.now.cells }
        ensures lawful { AreLawful self.now }
    {
        self.overlay.counts().cells
    }

    /// Whether there is no cell.
    pub fn is_empty(&self) -> bool
        ensures { IsTrue result ↔ (self.now.cells ≡ empty) }
    {
        self.len() == 0
    }

    /// All money: what balances are together, and what is in flight.
    pub fn supply(&self) -> u64
        ensures { result ≡ money self.now }
    {
        self.overlay.counts().money + self.flight
    }

    /// How much is in flight.
    pub fn flight(&self) -> u64
        ensures { result ≡ self.now.flight }
    {
        self.flight
    }

    /// The book that they were made for.
    pub fn book(&self) -> &Book
        ensures { result.now ≡ self.now.book }
    {
        &self.book
    }
}

impl Cells {
    /// All cells in their order.
    pub fn walk(&self) -> CellsWalk<'_>
        ensures { result ≡ entries self.now.cells }
    {
        self.overlay.walk()
    }

    /// Puts what changed among the cells as they are held, so that none has a slot. One pass.
    pub fn settle(&mut self, alloc: Global) -> Result<(), NoMemory>
        ensures settled { OnOk result (self.new ≡ record self.old { slots = no_slots }) }
        ensures unchanged { OnErr result (self.new ≡ self.old) }
    {
        self.overlay.settle(alloc)
    }

    /// Equal cells.
    pub fn copy(&self, alloc: Global) -> Result<Cells, NoMemory>
        ensures { IfOk result (λ s. s ≡ self.now) }
    {
        let book = self.book.copy(alloc)?;
        let overlay = self.overlay.copy(alloc)?;
        Ok(Cells {
            book,
            overlay,
            flight: self.flight,
        })
    }

    /// Whether both are the same but for slots.
    pub fn same(&self, other: &Cells) -> bool
        ensures { IsTrue result ↔ AreAlike self.now other.now }
    {
        self.flight == other.flight && self.book.same(&other.book) && self.holds_same(other)
    }

    /// Whether the same stands in all cells of both, whatever their books and what is in flight.
    pub fn holds_same(&self, other: &Cells) -> bool
        ensures { IsTrue result ↔ (self.now.cells ≡ other.now.cells) }
    {
        same_rows(self.overlay.walk(), other.overlay.walk())
    }
}
