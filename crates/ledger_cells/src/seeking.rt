//! The least cell above a given one.

ghost use Rattle.std.specs.Prelude.{◌≡◌, MatchOption};
ghost use Rattle.std.specs.Option.{option_copied};
ghost use Rattle.std.specs.Range.Bound.{bound_map};
ghost use Rattle.cell_names.specs.Cells.{cell_cmp};
ghost use Rattle.cell_blocks.specs.Successors.{IsNext, NoneAbove};
ghost use Rattle.ledger_cells.specs.Overlay.{over};
ghost use Rattle.ledger_cells.specs.Seeking.{start_above, stands_below};

use crate::changes::Changes;
use cell_blocks::{Blocks, Row};
use cell_names::{Cell, order};
use std::ops::Bound;

/// The least cell above the given one, or the least of all, where changes are put over blocks.
pub(crate) fn least_above<'a>(
    held: &'a Blocks,
    changes: &'a Changes,
    c: Option<&Cell>,
) -> Option<Row<'a>>
    ensures { MatchOption result
        (NoneAbove cell_cmp (over held.now changes.now.entries) (option_copied c.entry))
        (λ row. IsNext cell_cmp (over held.now changes.now.entries) (option_copied c.entry)
        row.0 row.1) }
{
    let mut row = held.next_above(c);
    for (cell, value) in changes.range((above(c), Bound::Unbounded)) {
        if is_below(&row, cell) {
            return row;
        }
        if let Some(value) = value {
            return Some(Row::lent(cell, value));
        }
        // A cell that is gone is passed, whether it is held or not.
        row = held.next_above(Some(cell));
    }
    row
}

/// Where the cells above the given one start.
fn above(c: Option<&Cell>) -> Bound<&Cell>
    ensures { bound_map (λ x. x.now) result ≡ start_above (option_copied c.entry) }
{
    match c {
        None => Bound::Unbounded,
        Some(c) => Bound::Excluded(c),
    }
}

/// Whether there is a row, and its cell stands below the given one.
fn is_below(row: &Option<Row<'_>>, cell: &Cell) -> bool
    ensures { result ≡ stands_below row.now cell.now }
{
    match row {
        None => false,
        Some(row) => order(row.cell(), cell).is_lt(),
    }
}
