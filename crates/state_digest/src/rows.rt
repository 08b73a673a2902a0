//! A walk over the cells of a state, which stops at a bound.

ghost use Rattle.std.specs.Prelude.{◌≡◌, ◌∷◌, false, true, IfSome, MatchOption};
ghost use Rattle.std.specs.Option.{option_copied};
ghost use Rattle.std.specs.FinMap.{entries};
ghost use Rattle.state_digest.specs.Bounds.{is_under, starts_under};
ghost use Rattle.state_digest.specs.Texts.{IsWritable};

use crate::touched::is_under;
use cell_blocks::Row;
use cell_names::Cell;
use ledger_cells::CellsWalk;
use ledger_state::State;
use std::marker::Model;
use std::mem;

/// The cells that are left, in their order, with the next one at hand.
#[derive(Drop)]
pub(crate) struct Rows<'a> {
    next: Option<Row<'a>>,
    walk: CellsWalk<'a>,
}

impl<'a> Model for Rows<'a> {
    ghost use Rattle.std.specs.Prelude.{List};
    ghost use Rattle.std.specs.Coded.{coded×, coded_list};
    ghost use Rattle.cell_names.specs.declared.cell.Cell.{Cell};
    ghost use Rattle.cell_names.specs.contracts.cell.Cell as cell;
    ghost use Rattle.value_core.specs.declared.val.Val.{Val};
    ghost use Rattle.value_core.specs.contracts.val.Val as val;

    ghost Value = { List (Cell × Val) };

    ghost coded = { coded_list (coded× cell.the_row.coded val.the_row.coded) };

    ghost use Rattle.state_digest.specs.Texts.{rows_left, AreWritable};

    ghost view = { λ rows. rows_left rows.next rows.walk };

    ghost invariant = { λ rows. AreWritable (rows_left rows.next rows.walk) };
}

impl<'a> Rows<'a> {
    /// All cells of a state.
    pub(crate) fn of(s: &'a State) -> Rows<'a>
        ensures { result ≡ entries s.now.cells }
    {
        let mut walk = s.cells().walk();
        let next = walk.next();
        Rows { next, walk }
    }

    /// The next cell, if there is one under the bound.
    pub(crate) fn next_under(&mut self, bound: Option<&Cell>) -> Option<Row<'a>>
        ensures row { MatchOption result
            ((starts_under (option_copied bound.entry) self.old ≡ false) × (self.new ≡ self.old))
            (λ row. (self.old ≡ (row.0, row.1) ∷ self.new)
            × (is_under (option_copied bound.entry) row.0 ≡ true)) }
        ensures writable { IfSome result (λ row. IsWritable row) }
    {
        if !self.starts_under(bound) {
            return None;
        }
        let after = self.walk.next();
        mem::replace(&mut self.next, after)
    }

    fn starts_under(&self, bound: Option<&Cell>) -> bool
        ensures { result ≡ starts_under (option_copied bound.entry) self.now }
    {
        match &self.next {
            Some(row) => is_under(row.cell(), bound),
            None => false,
        }
    }
}
