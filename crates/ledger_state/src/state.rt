//! A state in memory.

ghost use Rattle.std.specs.Prelude.{◌≡◌, ◌↔◌, IfOk, IsTrue, None};
ghost use Rattle.code_book.specs.Ownership.{IsBookOf};
ghost use Rattle.ledger_cells.specs.LedgerCells.{seen_of};
ghost use Rattle.ledger_state.specs.Ledger.{IsLedger};
ghost use Rattle.ledger_state.specs.StateCells.{AreCellsOf, ledger_from};
ghost use Rattle.ledger_state.specs.Storages.{least_bare};

use cell_names::{Head, NoMemory};
use code_book::Book;
use ledger_cells::Cells;
use std::alloc::Global;
use std::marker::Model;

/// A head, a book, and cells that may have the book, with nothing in flight.
#[derive(Drop)]
pub struct State {
    head: Head,
    book: Book,
    cells: Cells,
}

impl Model for State {
    ghost use Rattle.std.specs.Prelude.{ℕ, refl};
    ghost use Rattle.std.specs.Coded.{code_by, coded×, coded_ℕ, coded_list};
    ghost use Rattle.std.specs.FinMap as finmap;
    ghost use Rattle.michelson_code.specs.contracts.script.Script as script;
    ghost use Rattle.cell_names.specs.contracts.cell.Cell as cell;
    ghost use Rattle.value_core.specs.contracts.val.Val as val;
    ghost use Rattle.cell_names.specs.Contents.{Contents};
    ghost use Rattle.code_book.specs.Books.{Contracts};
    ghost use Rattle.ledger_state.specs.Ledger.{Ledger};
    ghost use Rattle.ledger_state.specs.StateCells.{ledger_from, IsState};

    ghost Value = { Ledger };

    ghost coded = { code_by ((ℕ × ℕ) × (Contracts × Contents))
        (coded× (coded× coded_ℕ coded_ℕ)
        (coded× (finmap.code (coded_list coded_ℕ) script.the_row.coded)
        (finmap.code cell.the_row.coded val.the_row.coded)))
        (λ s. ((s.level, s.now), (s.book, s.cells)))
        (λ p. record { level = p.0.0; now = p.0.1; book = p.1.0; cells = p.1.1 }) (λ _. refl) };

    ghost view = { λ s. ledger_from s.head.level s.head.now s.book s.cells };

    ghost invariant = { λ s. IsState s.head.level s.head.now s.book s.cells };
}

impl State {
    /// The state of these, where each contract has its storage.
    pub(crate) fn of(head: Head, book: Book, cells: Cells) -> State
        requires flight { cells.flight ≡ 0 }
        requires made_for { cells.book ≡ book }
        requires housed { least_bare book cells.cells ≡ None }
        ensures { result ≡ ledger_from head.level head.now book cells }
    {
        // What all cells keep is told by their number.
        let _count = cells.len();
        State::unite(head, book, cells)
    }

    /// The state of this head, this book and cells whose book it is, with nothing in flight.
    pub fn unite(head: Head, book: Book, cells: Cells) -> State
        requires flight { cells.flight ≡ 0 }
        requires owned { IsBookOf book (seen_of cells) }
        ensures { result ≡ ledger_from head.level head.now book cells }
    {
        // What every book keeps is told by its length.
        let _contracts = book.len();
        State { head, book, cells }
    }

    /// The head, the book and the cells.
    pub fn split(self) -> (Head, Book, Cells)
        ensures level { result.0.level ≡ self.level }
        ensures now { result.0.now ≡ self.now }
        ensures book { result.1 ≡ self.book }
        ensures cells { AreCellsOf self result.2 }
        ensures owned { IsBookOf result.1 (seen_of result.2) }
    {
        let State { head, book, cells } = self;
        (head, book, cells)
    }

    /// The level and `now`.
    pub fn head(&self) -> Head
        ensures level { result.level ≡ self.now.level }
        ensures now { result.now ≡ self.now.now }
    {
        self.head
    }

    /// The contracts.
    pub fn book(&self) -> &Book
        ensures { result.now ≡ self.now.book }
    {
        &self.book
    }

    /// What stands in cells.
    pub fn cells(&self) -> &Cells
        ensures cells { AreCellsOf self.now result.now }
        ensures lawful { IsLedger self.now }
        ensures owned { IsBookOf self.now.book (seen_of result.now) }
    {
        &self.cells
    }

    /// An equal state.
    pub fn copy(&self, alloc: Global) -> Result<State, NoMemory>
        ensures { IfOk result (λ s. s ≡ self.now) }
    {
        let book = self.book.copy(alloc)?;
        let cells = self.cells.copy(alloc)?;
        let head = self.head;
        Ok(State { head, book, cells })
    }

    /// Whether both are one state.
    pub fn same(&self, other: &State) -> bool
        ensures { IsTrue result ↔ (self.now ≡ other.now) }
    {
        self.head == other.head
            && self.book.same(&other.book)
            && self.cells.holds_same(&other.cells)
    }
}
