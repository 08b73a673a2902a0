//! The entries of big maps, contract by contract.

ghost use Rattle.std.specs.Prelude.{◌≡◌, ◌∷◌, ℕ, List, [], drop, IfOk, IsTrue, MatchOption, OnOk};
ghost use Rattle.std.specs.declared.cmp.Ordering.TheVariants.{Less};
ghost use Rattle.std.specs.Ordering.{nat_cmp};
ghost use Rattle.std.specs.Cmp.Lexicographic.{slice_cmp};
ghost use Rattle.std.specs.FinMap.{entries, is_sorted};
ghost use Rattle.std.specs.List.{flat_map};
ghost use Rattle.cell_names.specs.Cells.{cell_cmp};
ghost use Rattle.chain_text.specs.Printed.{entry_in};

use cell_blocks::Row;
use cell_names::{Cell, NoMemory};
use ledger_cells::{Cells, CellsWalk};
use std::alloc::Global;
use std::cmp::Ordering;
use std::marker::Model;
use value_core::{Address, Val};

/// The entries of big maps that are left, by contract.
#[derive(Drop)]
pub(crate) struct Entries<'a> {
    next: Option<Row<'a>>,
    walk: CellsWalk<'a>,
}

impl<'a> Model for Entries<'a> {
    ghost use Rattle.std.specs.Prelude.{◌≡◌, ◌++◌, [], IfNone, List};
    ghost use Rattle.std.specs.Option.{option_to_list};
    ghost use Rattle.std.specs.Coded.{coded×, coded_list};
    ghost use Rattle.cell_names.specs.declared.cell.Cell.{Cell};
    ghost use Rattle.cell_names.specs.contracts.cell.Cell as cell;
    ghost use Rattle.value_core.specs.declared.val.Val.{Val};
    ghost use Rattle.value_core.specs.contracts.val.Val as val;

    ghost Value = { List (Cell × Val) };

    ghost coded = { coded_list (coded× cell.the_row.coded val.the_row.coded) };

    ghost view = { λ s. option_to_list s.next ++ s.walk };

    // Nothing is left behind the last.
    ghost invariant = { λ s. IfNone s.next (s.walk ≡ []) };
}

impl<'a> Entries<'a> {
    /// Those of all contracts, between other cells.
    pub(crate) fn new(cells: &'a Cells) -> Entries<'a>
        ensures { result ≡ entries cells.now.cells }
    {
        let mut walk = cells.walk();
        let next = walk.next();
        Entries { next, walk }
    }

    /// Those of a contract, which are left no more. Contracts are asked for by address.
    pub(crate) fn of(
        &mut self,
        alloc: Global,
        address: &Address,
    ) -> Result<Vec<(u8, Val, Val)>, NoMemory>
        requires { IsTrue (is_sorted cell_cmp self.old) }
        ensures found { IfOk result (λ es. es.items ≡ flat_map (entry_in address.now) self.old) }
        ensures sorted { OnOk result (IsTrue (is_sorted cell_cmp self.new)) }
        ensures others { OnOk result ((a : List ℕ) → slice_cmp nat_cmp address.now a ≡ Less
            → flat_map (entry_in a) self.new ≡ flat_map (entry_in a) self.old) }
    {
        let mut found = Vec::new(alloc);
        while let Some(row) = self.first() {
            if let Cell::Entry(contract, place, key) = row.cell() {
                match contract.cmp(address) {
                    Ordering::Greater => return Ok(found),
                    Ordering::Equal => {
                        found.push((*place, key.copy(alloc)?, row.value().copy(alloc)?))?;
                    }
                    Ordering::Less => {}
                }
            }
            self.pass();
        }
        Ok(found)
    }

    /// The first that is left.
    fn first(&self) -> Option<&Row<'a>>
        ensures { MatchOption result (self.now ≡ [])
            (λ row. self.now ≡ row.now ∷ drop 1 self.now) }
    {
        self.next.as_ref()
    }

    /// Passes the first.
    fn pass(&mut self)
        ensures { self.new ≡ drop 1 self.old }
    {
        self.next = self.walk.next();
    }
}
