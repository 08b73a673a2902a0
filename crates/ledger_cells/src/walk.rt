//! All cells in their order.

ghost use Rattle.std.specs.Prelude.{◌≡◌, ◌↔◌, ◌∷◌, [], IsTrue, MatchOption};
ghost use Rattle.std.specs.declared.cmp.Ordering.TheVariants.{Less};
ghost use Rattle.std.specs.FinMap.{entries, is_sorted};
ghost use Rattle.cell_names.specs.Cells.{cell_cmp};
ghost use Rattle.ledger_cells.specs.Walking.{cells_left, IsPassed};

use crate::changes::Changes;
use cell_blocks::{Row, Walk};
use cell_names::{Cell, order};
use std::cmp::Ordering;
use std::collections::btree_map::Iter;
use std::marker::Model;
use value_core::Val;

/// The cells that are left, in their order.
#[derive(Drop)]
pub struct CellsWalk<'a> {
    held: Walk<'a>,
    // The next change, and those behind it.
    change: Option<(&'a Cell, &'a Option<Val>)>,
    changes: Iter<'a, Cell, Option<Val>>,
}

impl<'a> Model for CellsWalk<'a> {
    ghost use Rattle.std.specs.Prelude.{List};
    ghost use Rattle.std.specs.Coded.{coded×, coded_list};
    ghost use Rattle.cell_names.specs.declared.cell.Cell.{Cell};
    ghost use Rattle.cell_names.specs.contracts.cell.Cell as cell;
    ghost use Rattle.value_core.specs.declared.val.Val.{Val};
    ghost use Rattle.value_core.specs.contracts.val.Val as val;

    ghost Value = { List (Cell × Val) };

    ghost coded = { coded_list (coded× cell.the_row.coded val.the_row.coded) };

    ghost use Rattle.ledger_cells.specs.Walking.{cells_left, changes_left, AreInOrder};

    ghost view = { λ walk. cells_left walk.held (changes_left walk.change walk.changes) };

    ghost invariant = { λ walk. AreInOrder walk.held (changes_left walk.change walk.changes) };
}

impl<'a> CellsWalk<'a> {
    /// A walk over what is held, with changes put over it.
    pub(crate) fn new(held: Walk<'a>, changes: &'a Changes) -> CellsWalk<'a>
        requires { IsTrue (is_sorted cell_cmp held) }
        ensures { result ≡ cells_left held.entry changes.now.entries }
    {
        let mut changes = changes.iter();
        let change = changes.next();
        CellsWalk {
            held,
            change,
            changes,
        }
    }

    /// The next cell, which is left no more.
    pub fn next(&mut self) -> Option<Row<'a>>
        ensures { MatchOption result ((self.old ≡ []) × (self.new ≡ []))
            (λ row. self.old ≡ (row.0, row.1) ∷ self.new) }
    {
        while let Some((cell, value)) = self.change {
            if let Some(row) = before(&mut self.held, cell) {
                return Some(row);
            }
            self.change = self.changes.next();
            if let Some(value) = value {
                return Some(Row::lent(cell, value));
            }
        }
        self.held.next()
    }
}

/// The next cell that is held, if it stands below the given one. The given one is passed over.
fn before<'a>(held: &mut Walk<'a>, cell: &Cell) -> Option<Row<'a>>
    requires { IsTrue (is_sorted cell_cmp held.old) }
    ensures next { MatchOption result (IsPassed cell.now held.old held.new)
        (λ row. (held.old ≡ (row.0, row.1) ∷ held.new) × (cell_cmp row.0 cell.now ≡ Less)) }
    ensures sorted { IsTrue (is_sorted cell_cmp held.new) }
{
    let Some(row) = held.peek() else {
        return None;
    };
    match order(row.cell(), cell) {
        Ordering::Less => held.next(),
        Ordering::Equal => {
            held.next();
            None
        }
        Ordering::Greater => None,
    }
}

/// Whether both walks have the same cells left.
pub(crate) fn same_rows(mut a: CellsWalk<'_>, mut b: CellsWalk<'_>) -> bool
    ensures { IsTrue result ↔ (a.entry ≡ b.entry) }
{
    'rows: loop {
        match (a.next(), b.next()) {
            (None, None) => return true,
            (Some(x), Some(y)) => {
                if !same_row(&x, &y) {
                    return false;
                }
            }
            _ => return false,
        }
    }
}

fn same_row(a: &Row<'_>, b: &Row<'_>) -> bool
    ensures { IsTrue result ↔ (a.now ≡ b.now) }
{
    a.cell().same(b.cell()) && a.value().same(b.value())
}
