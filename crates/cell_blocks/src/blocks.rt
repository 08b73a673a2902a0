//! Cells in two sorted blocks: balances, and all other cells behind them.

ghost use Rattle.std.specs.Prelude.{◌≡◌, ◌<◌, ◌^◌, ◌↔◌, true, IsTrue, IfOk, OnOk, OnErr, MatchOption};
ghost use Rattle.std.specs.Option.{option_copied};
ghost use Rattle.std.specs.FinMap.{contains_key, empty, entries, get, insert, len};
ghost use Rattle.cell_names.specs.Cells.{cell_cmp, kind_of};
ghost use Rattle.cell_names.specs.Contents.{amount_of, with_balance};
ghost use Rattle.cell_blocks.specs.Blocks.{AllBelow, IsHoldable, held_by};
ghost use Rattle.cell_blocks.specs.Successors.{IsNext, NoneAbove};

use crate::holding::Holding;
use crate::listing::{copy_others, count_balances, count_others, same_balances, same_others};
use crate::placing::{account, last_row, place, place_above, place_of_balance, row_at, value_at};
use crate::row::{HeldVal, Row};
use crate::walk::Walk;
use cell_names::{Cell, NoMemory, order};
use std::alloc::Global;
use std::marker::Model;
use value_core::{Address, Val};

/// What an account has whose balance is away.
const NOTHING: u64 = 0;

/// Cells with their values, each cell once: what balances are, then what other cells have.
#[derive(Debug, Drop)]
pub struct Blocks {
    balances: Vec<Holding>,
    others: Vec<(Cell, Val)>,
}

impl Model for Blocks {
    ghost use Rattle.std.specs.FinMap as finmap;
    ghost use Rattle.cell_names.specs.contracts.cell.Cell as cell;
    ghost use Rattle.value_core.specs.contracts.val.Val as val;
    ghost use Rattle.cell_names.specs.Contents.{Contents};

    ghost Value = { Contents };

    ghost coded = { finmap.code cell.the_row.coded val.the_row.coded };

    ghost use Rattle.cell_blocks.specs.Blocks.{contents_of, AreBlocks};

    ghost view = { λ b. contents_of b.balances.items b.others.items };

    ghost invariant = { λ b. AreBlocks b.balances.items b.others.items };
}

impl Blocks {
    /// Blocks without cells. They take no memory.
    pub fn new(alloc: Global) -> Blocks
        ensures { result ≡ empty }
    {
        Blocks {
            balances: Vec::new(alloc),
            others: Vec::new(alloc),
        }
    }

    /// How many cells there are.
    pub fn len(&self) -> usize
        ensures length { result ≡ len self.now }
        ensures small { result < 2 ^ 63 }
    {
        count_balances(self.balances.as_slice()) + count_others(self.others.as_slice())
    }

    /// Whether there is no cell.
    pub fn is_empty(&self) -> bool
        ensures { IsTrue result ↔ (self.now ≡ empty) }
    {
        self.len() == 0
    }

    /// What stands in the cell. It takes as many steps as the number of cells has digits.
    pub fn get(&self, c: &Cell) -> Option<HeldVal<'_>>
        ensures { result ≡ get self.now c.now }
    {
        let balances = self.balances.as_slice();
        let others = self.others.as_slice();
        match place(balances, others, c) {
            Ok(i) => value_at(balances, others, i),
            Err(_) => None,
        }
    }

    /// The least cell above `c`, or the least of all.
    pub fn next_above(&self, c: Option<&Cell>) -> Option<Row<'_>>
        ensures { MatchOption result (NoneAbove cell_cmp self.now (option_copied c.entry))
            (λ row. IsNext cell_cmp self.now (option_copied c.entry) row.0 row.1) }
    {
        let balances = self.balances.as_slice();
        let others = self.others.as_slice();
        row_at(balances, others, place_above(balances, others, c))
    }

    /// Whether the cell stands above all that are there.
    pub fn is_above_all(&self, c: &Cell) -> bool
        ensures { IsTrue result ↔ AllBelow self.now c.now }
    {
        match last_row(&self.balances, &self.others) {
            Some(row) => order(row.cell(), c).is_lt(),
            None => true,
        }
    }

    /// Adds a cell above all that are there. It takes memory seldom.
    pub fn push(&mut self, c: Cell, v: Val) -> Result<(), NoMemory>
        requires above { AllBelow self.old c }
        requires holdable { IsHoldable c v }
        ensures pushed { OnOk result (self.new ≡ insert self.old c v) }
        ensures unchanged { OnErr result (self.new ≡ self.old) }
    {
        match account(&c) {
            Some(address) => {
                let address = *address;
                let amount = amount_of(&v);
                self.push_balance(Holding { address, amount })
            }
            None => self.push_other(c, v),
        }
    }

    /// Adds a balance behind all cells, which are balances too.
    fn push_balance(&mut self, holding: Holding) -> Result<(), NoMemory>
        requires { AllBelow self.old (held_by holding).0 }
        ensures pushed { OnOk result (self.new
            ≡ insert self.old (held_by holding).0 (held_by holding).1) }
        ensures unchanged { OnErr result (self.new ≡ self.old) }
    {
        self.balances.push(holding)?;
        Ok(())
    }

    /// Adds another cell behind all cells.
    fn push_other(&mut self, c: Cell, v: Val) -> Result<(), NoMemory>
        requires above { AllBelow self.old c }
        requires other { 0 < kind_of c }
        ensures pushed { OnOk result (self.new ≡ insert self.old c v) }
        ensures unchanged { OnErr result (self.new ≡ self.old) }
    {
        self.others.push((c, v))?;
        Ok(())
    }

    /// Gives a balance that is there another amount; 0 takes it away, and moves all balances above
    /// it. It takes no memory.
    pub fn set_balance(&mut self, address: &Address, amount: u64)
        requires { contains_key self.old (Cell.Balance address.now) ≡ true }
        ensures { self.new ≡ with_balance self.old address.now amount }
    {
        if let Ok(i) = place_of_balance(&self.balances, address) {
            if amount == NOTHING {
                self.balances.remove(i);
            } else {
                self.balances[i].amount = amount;
            }
        }
    }

    /// All cells in their order.
    pub fn walk(&self) -> Walk<'_>
        ensures { result ≡ entries self.now }
    {
        Walk::new(&self.balances, &self.others)
    }

    /// Equal blocks.
    pub fn copy(&self, alloc: Global) -> Result<Blocks, NoMemory>
        ensures { IfOk result (λ b. b ≡ self.now) }
    {
        let balances = self.balances.clone()?;
        let others = copy_others(alloc, self.others.as_slice())?;
        Ok(Blocks { balances, others })
    }

    /// Whether both have the same cells with the same values.
    pub fn same(&self, other: &Blocks) -> bool
        ensures { IsTrue result ↔ (self.now ≡ other.now) }
    {
        same_balances(&self.balances, &other.balances) && same_others(&self.others, &other.others)
    }
}

/// How much money a value is, and 0 where it is none.
fn amount_of(v: &Val) -> u64
    ensures { result ≡ amount_of v.now }
{
    match v {
        Val::Mutez(amount) => *amount,
        _ => 0,
    }
}
