//! All cells in their order.

ghost use Rattle.std.specs.Prelude.{◌≡◌, ◌∷◌, List, [], MatchOption};
ghost use Rattle.cell_blocks.specs.Blocks.{Held, all_of};

use crate::holding::Holding;
use crate::placing::row_at;
use crate::row::Row;
use cell_names::Cell;
use std::marker::Model;
use value_core::Val;

/// The cells that are left, in their order.
#[derive(Drop)]
pub struct Walk<'a> {
    balances: &'a [Holding],
    others: &'a [(Cell, Val)],
}

impl<'a> Model for Walk<'a> {
    ghost use Rattle.std.specs.Prelude.{List};
    ghost use Rattle.std.specs.Coded.{coded×, coded_list};
    ghost use Rattle.cell_names.specs.contracts.cell.Cell as cell;
    ghost use Rattle.value_core.specs.contracts.val.Val as val;
    ghost use Rattle.cell_blocks.specs.Blocks.{Held, all_of};

    ghost Value = { List Held };

    ghost coded = { coded_list (coded× cell.the_row.coded val.the_row.coded) };

    ghost view = { λ walk. all_of walk.balances.now walk.others.now };
}

impl<'a> Walk<'a> {
    /// A walk over both blocks.
    pub(crate) fn new(balances: &'a [Holding], others: &'a [(Cell, Val)]) -> Walk<'a>
        ensures { result ≡ all_of balances.now others.now }
    {
        Walk { balances, others }
    }

    /// The next cell, which is left no more.
    pub fn next(&mut self) -> Option<Row<'a>>
        ensures { MatchOption result ((self.old ≡ []) × (self.new ≡ []))
            (λ row. self.old ≡ (row.0, row.1) ∷ self.new) }
    {
        if let Some((first, others)) = self.balances.split_first() {
            self.balances = others;
            return Some(Row::of_holding(first));
        }
        match self.others.split_first() {
            Some((first, others)) => {
                self.others = others;
                Some(Row::lent(&first.0, &first.1))
            }
            None => None,
        }
    }

    /// The next cell, which stays.
    pub fn peek(&self) -> Option<Row<'a>>
        ensures { MatchOption result (self.now ≡ [])
            (λ row. (rest : List Held) × (self.now ≡ (row.0, row.1) ∷ rest)) }
    {
        row_at(self.balances, self.others, 0)
    }
}
