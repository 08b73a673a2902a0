//! A state of given cells.

ghost use Rattle.std.specs.Prelude.{◌≡◌, ◌⊎◌, IfErr, IfOk, Ok, Err};
ghost use Rattle.std.specs.FinMap.{empty};
ghost use Rattle.ledger_state.specs.declared.fault.BuildFault.TheVariants.{NoMemory as no_memory};
ghost use Rattle.ledger_state.specs.Building.{added, built};
ghost use Rattle.ledger_state.specs.Inside.{told_at};

use crate::fault::BuildFault;
use crate::state::State;
use crate::storages::least_bare;
use cell_names::{Cell, Head};
use code_book::Book;
use ledger_cells::{AddEnd, Cells};
use std::alloc::Global;
use value_core::Val;

impl State {
    /// The state of these cells, or the first reason against it.
    #[tactic(auto, unfolding(crate::specs::Building::built))]
    pub fn build(
        alloc: Global,
        head: Head,
        book: Book,
        cells: Vec<(Cell, Val)>,
    ) -> Result<State, BuildFault>
        ensures level { IfOk result (λ s. s.level ≡ head.level) }
        ensures now { IfOk result (λ s. s.now ≡ head.now) }
        ensures book { IfOk result (λ s. s.book ≡ book) }
        ensures cells { IfOk result (λ s. built book cells.items ≡ Ok s.cells) }
        ensures told { IfErr result (λ fault. (fault ≡ no_memory)
            ⊎ (built book cells.items ≡ Err fault)) }
    {
        let cells = filled(alloc, &book, cells)?;
        match least_bare(&book, &cells) {
            Some(address) => Err(BuildFault::NoStorage(address)),
            None => Ok(State::of(head, book, cells)),
        }
    }
}

/// The cells, added in the order in which they stand.
fn filled(alloc: Global, book: &Book, rows: Vec<(Cell, Val)>) -> Result<Cells, BuildFault>
    ensures made_for { IfOk result (λ cells. cells.book ≡ book.now) }
    ensures flight { IfOk result (λ cells. cells.flight ≡ 0) }
    ensures cells { IfOk result (λ cells. added book.now 0 empty rows.items ≡ Ok cells.cells) }
    ensures told { IfErr result (λ fault. (fault ≡ no_memory)
        ⊎ (added book.now 0 empty rows.items ≡ Err fault)) }
{
    let mut cells = Cells::new(alloc, book)?;
    let mut at = 0;
    for (cell, value) in rows {
        match cells.add(alloc, cell, value) {
            Ok(()) => at += 1,
            Err(end) => return Err(told_at(at, end)),
        }
    }
    Ok(cells)
}

/// The reason, told at a place.
fn told_at(at: usize, end: AddEnd) -> BuildFault
    ensures { result ≡ told_at at end }
{
    match end {
        AddEnd::Misfit => BuildFault::Misfit(at),
        AddEnd::Twice => BuildFault::Twice(at),
        AddEnd::TooMuch => BuildFault::TooMuch(at),
        AddEnd::NoMemory => BuildFault::NoMemory,
    }
}
