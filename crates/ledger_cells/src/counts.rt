//! How many cells there are, and how much money stands in them.

ghost use Rattle.std.specs.Prelude.{◌≡◌, ◌+◌, ◌-◌, ◌<◌, ◌≤◌, ◌^◌};
ghost use Rattle.cell_names.specs.Contents.{amount_kept, amount_of};
ghost use Rattle.cell_names.specs.Supply.{money_of};
ghost use Rattle.ledger_cells.specs.Overlay.{count_at};

use cell_names::Cell;
use value_core::Val;

/// What is counted of cells.
#[derive(Clone, Copy)]
pub(crate) struct Counts {
    /// What all balances are together.
    pub(crate) money: u64,
    /// How many cells there are.
    pub(crate) cells: usize,
}

/// The counts of no cell.
pub(crate) const NOTHING: Counts = Counts { money: 0, cells: 0 };

impl Counts {
    /// What a cell adds to the counts.
    pub(crate) fn at(c: &Cell, value: &Option<Val>) -> Counts
        ensures { result ≡ count_at c.now value.now }
    {
        match value {
            None => NOTHING,
            Some(value) => Counts {
                money: money_of(c, value),
                cells: 1,
            },
        }
    }

    /// The counts where a cell adds something else.
    pub(crate) fn exchanged(self, old: Counts, new: Counts) -> Counts
        requires money { old.money ≤ self.money }
        requires cells { old.cells ≤ self.cells }
        requires money_fits { (self.money - old.money) + new.money < 2 ^ 64 }
        requires cells_fit { (self.cells - old.cells) + new.cells < 2 ^ 64 }
        ensures money { result.money ≡ (self.money - old.money) + new.money }
        ensures cells { result.cells ≡ (self.cells - old.cells) + new.cells }
    {
        Counts {
            money: self.money - old.money + new.money,
            cells: self.cells - old.cells + new.cells,
        }
    }
}

/// What a cell with this value adds to all money.
pub(crate) fn money_of(c: &Cell, v: &Val) -> u64
    ensures { result ≡ money_of (c.now, v.now) }
{
    match c {
        Cell::Balance(_) => amount_of(v),
        Cell::Storage(_) => 0,
        Cell::Entry(_, _, _) => 0,
    }
}

/// How much money a value is, and 0 where it is none.
pub(crate) fn amount_of(v: &Val) -> u64
    ensures { result ≡ amount_of v.now }
{
    match v {
        Val::Mutez(amount) => *amount,
        _ => 0,
    }
}

/// What stands in the cell of a balance. A balance of 0 is absent.
pub(crate) fn kept(amount: u64) -> Option<Val>
    ensures { result ≡ amount_kept amount }
{
    if amount == 0 {
        None
    } else {
        Some(Val::Mutez(amount))
    }
}
