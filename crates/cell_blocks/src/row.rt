//! A cell with its value, or a value alone: lent, or made for the occasion.

ghost use Rattle.std.specs.Prelude.{◌≡◌, IfOk};
ghost use Rattle.cell_blocks.specs.Blocks.{held_by};

use crate::holding::Holding;
use cell_names::{Cell, NoMemory};
use std::alloc::Global;
use std::marker::Model;
use value_core::Val;

/// A cell with its value: lent, or made for the occasion where blocks hold neither.
#[derive(Drop)]
pub struct Row<'a> {
    source: RowSource<'a>,
}

#[derive(Drop)]
enum RowSource<'a> {
    /// Made for the occasion.
    Made(Cell, Val),
    /// Lent by whoever holds them.
    Lent(&'a Cell, &'a Val),
}

impl<'a> Model for Row<'a> {
    ghost use Rattle.cell_names.specs.declared.cell.Cell.{Cell};
    ghost use Rattle.cell_names.specs.contracts.cell.Cell as cell;
    ghost use Rattle.value_core.specs.declared.val.Val.{Val};
    ghost use Rattle.value_core.specs.contracts.val.Val as val;
    ghost use Rattle.std.specs.Coded.{coded×};

    ghost Value = { Cell × Val };

    ghost coded = { coded× cell.the_row.coded val.the_row.coded };

    ghost use Rattle.cell_blocks.specs.Rows.{row_of};

    ghost view = { λ row. row_of row.source };
}

/// A value as cells hold it: lent, or an amount made for the occasion.
#[derive(Drop)]
pub struct HeldVal<'a> {
    source: ValSource<'a>,
}

#[derive(Drop)]
enum ValSource<'a> {
    /// Made for the occasion.
    Made(Val),
    /// Lent by whoever holds it.
    Lent(&'a Val),
}

impl<'a> Model for HeldVal<'a> {
    ghost use Rattle.value_core.specs.declared.val.Val.{Val};
    ghost use Rattle.value_core.specs.contracts.val.Val as val;

    ghost Value = { Val };

    ghost coded = { val.the_row.coded };

    ghost use Rattle.cell_blocks.specs.Rows.{val_of};

    ghost view = { λ held. val_of held.source };
}

impl<'a> Row<'a> {
    /// A row of what is made for the occasion.
    pub fn made(cell: Cell, value: Val) -> Row<'a>
        ensures { result ≡ (cell, value) }
    {
        Row {
            source: RowSource::Made(cell, value),
        }
    }

    /// A row of what is lent.
    pub fn lent(cell: &'a Cell, value: &'a Val) -> Row<'a>
        ensures { result ≡ (cell.now, value.now) }
    {
        Row {
            source: RowSource::Lent(cell, value),
        }
    }

    /// The row of a balance.
    pub(crate) fn of_holding(holding: &Holding) -> Row<'a>
        ensures { result ≡ held_by holding.now }
    {
        Row::made(Cell::Balance(holding.address), Val::Mutez(holding.amount))
    }

    /// The value alone.
    pub fn into_value(self) -> HeldVal<'a>
        ensures { result ≡ self.entry.1 }
    {
        match self.source {
            RowSource::Made(_, value) => HeldVal::made(value),
            RowSource::Lent(_, value) => HeldVal::lent(value),
        }
    }
}

impl Row<'_> {
    /// The cell.
    pub fn cell(&self) -> &Cell
        ensures { result.now ≡ self.now.0 }
    {
        match &self.source {
            RowSource::Made(cell, _) => cell,
            RowSource::Lent(cell, _) => cell,
        }
    }

    /// The value.
    pub fn value(&self) -> &Val
        ensures { result.now ≡ self.now.1 }
    {
        match &self.source {
            RowSource::Made(_, value) => value,
            RowSource::Lent(_, value) => value,
        }
    }
}

impl<'a> HeldVal<'a> {
    /// A value that is made for the occasion.
    pub fn made(value: Val) -> HeldVal<'a>
        ensures { result ≡ value }
    {
        HeldVal {
            source: ValSource::Made(value),
        }
    }

    /// A value that is lent.
    pub fn lent(value: &'a Val) -> HeldVal<'a>
        ensures { result ≡ value.now }
    {
        HeldVal {
            source: ValSource::Lent(value),
        }
    }
}

impl HeldVal<'_> {
    /// The value.
    pub fn get(&self) -> &Val
        ensures { result.now ≡ self.now }
    {
        match &self.source {
            ValSource::Made(value) => value,
            ValSource::Lent(value) => value,
        }
    }

    /// An equal value.
    pub fn copy(&self, alloc: Global) -> Result<Val, NoMemory>
        ensures { IfOk result (λ v. v ≡ self.now) }
    {
        self.get().copy(alloc)
    }
}
