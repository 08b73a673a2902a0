//! The cells of each ticket.

ghost use Rattle.std.specs.Prelude.{◌≡◌, ℕ, [], true, OnOk};
ghost use Rattle.std.specs.Map.{lookup};
ghost use Rattle.std.specs.Ordering.{nat_cmp, eq_by_cmp};
ghost use Rattle.cell_names.specs.declared.cell.Cell.{Cell};
ghost use Rattle.abstract_locks.specs.Lists.{cells_of, is_listed};

use cell_names::{Cell, NoMemory};
use std::alloc::Global;
use std::collections::BTreeMap;

/// For each ticket the cells at which it has a place, and maybe more.
pub type Lists = BTreeMap<u32, Vec<Cell>>;

/// Lists the cell under the ticket.
pub fn list(alloc: Global, lists: &mut Lists, ticket: u32, c: &Cell) -> Result<(), NoMemory>
    ensures listed { OnOk result (is_listed lists.new.entries ticket c.now ≡ true) }
    ensures kept { (n : ℕ) (d : Cell) → is_listed lists.old.entries n d ≡ true
        → is_listed lists.new.entries n d ≡ true }
{
    let cell = c.copy(alloc)?;
    match lists.get_mut(&ticket) {
        Some(cells) => {
            cells.push(cell)?;
            Ok(())
        }
        None => list_first(alloc, lists, ticket, cell),
    }
}

/// Lists the first cell of a ticket.
fn list_first(alloc: Global, lists: &mut Lists, ticket: u32, cell: Cell) -> Result<(), NoMemory>
    requires { cells_of (lookup (eq_by_cmp nat_cmp ticket) lists.old.entries) ≡ [] }
    ensures listed { OnOk result (is_listed lists.new.entries ticket cell ≡ true) }
    ensures kept { (n : ℕ) (d : Cell) → is_listed lists.old.entries n d ≡ true
        → is_listed lists.new.entries n d ≡ true }
{
    let mut cells = Vec::new(alloc);
    cells.push(cell)?;
    lists.insert(ticket, cells)?;
    Ok(())
}
