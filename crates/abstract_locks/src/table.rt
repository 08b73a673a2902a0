//! The lock table.

ghost use Rattle.std.specs.Prelude.{◌≡◌, ◌≢◌, ℕ, None, Ok, IfOk, OnOk};
ghost use Rattle.cell_names.specs.declared.cell.Cell.{Cell};
ghost use Rattle.abstract_locks.specs.declared.asked.Asked.TheVariants.{Granted};
ghost use Rattle.abstract_locks.specs.Holders.{AreApart, IsFree, Answers};
ghost use Rattle.abstract_locks.specs.Tables.{held, HasRoom, locked};

use crate::asked::Asked;
use crate::lists::{Lists, list};
use crate::places::{Rows, add, answer, has_place, hold, leave_all};
use cell_names::{Cell, Mode, NoMemory};
use std::alloc::Global;
use std::collections::BTreeMap;
use std::marker::Model;

/// Which ticket holds which cell, in which mode.
#[derive(Debug, Drop)]
pub struct LockTable {
    rows: Rows,
    lists: Lists,
}

impl Model for LockTable {
    ghost use Rattle.std.specs.Prelude.{List, Option, ℕ};
    ghost use Rattle.std.specs.Coded.{codes};
    ghost use Rattle.value_core.specs.contracts.val.Val as val;
    ghost use Rattle.cell_names.specs.declared.cell.Cell.{Cell};
    ghost use Rattle.cell_names.specs.declared.mode.Mode.{Mode};
    ghost use Rattle.abstract_locks.specs.Lists.{AreListed};

    ghost Value = { List (Cell × List (ℕ × Option Mode)) };

    ghost coded = { Prim.hlevel (codes, val.the_row.coded) };

    ghost view = { λ t. t.rows.entries };

    ghost invariant = { λ t. AreListed t.rows.entries t.lists.entries };
}

impl LockTable {
    /// A table in which no ticket holds a cell. It takes no memory.
    pub fn new(alloc: Global) -> LockTable
        ensures { (c : Cell) (n : ℕ) → held result c n ≡ None }
    {
        LockTable {
            rows: BTreeMap::new(alloc),
            lists: BTreeMap::new(alloc),
        }
    }

    /// How the ticket is answered that asks for the cell in one more mode.
    pub fn test(&self, ticket: u32, c: &Cell, m: Mode) -> Asked
        ensures answer { Answers (held self.now c.now) ticket m result }
        ensures apart { AreApart (held self.now c.now) }
    {
        answer(&self.rows, c, ticket, m)
    }

    /// Makes the room that a grant of the cell needs. Nothing that anyone holds changes.
    pub fn reserve(&mut self, alloc: Global, ticket: u32, c: &Cell) -> Result<(), NoMemory>
        ensures room { OnOk result (HasRoom self.new c.now ticket) }
        ensures unchanged { held self.new ≡ held self.old }
    {
        if has_place(&self.rows, c, ticket) {
            return Ok(());
        }
        list(alloc, &mut self.lists, ticket, c)?;
        add(alloc, &mut self.rows, c, ticket)?;
        Ok(())
    }

    /// Grants the cell to the ticket in one more mode. It takes no memory.
    pub fn grant(&mut self, ticket: u32, c: &Cell, m: Mode)
        requires free { IsFree (held self.old c.now) ticket m }
        requires room { HasRoom self.old c.now ticket }
        ensures { held self.new ≡ locked (held self.old) c.now ticket m }
    {
        hold(&mut self.rows, c, ticket, m)
    }

    /// Asks for the cell in one more mode: it is granted, or nothing that anyone holds changes.
    pub fn ask(&mut self, alloc: Global, ticket: u32, c: &Cell, m: Mode) -> Result<Asked, NoMemory>
        ensures answer { IfOk result (Answers (held self.old c.now) ticket m) }
        ensures granted { result ≡ Ok Granted → held self.new ≡ locked (held self.old) c.now ticket m }
        ensures unchanged { result ≢ Ok Granted → held self.new ≡ held self.old }
    {
        match self.test(ticket, c, m) {
            Asked::Granted => {
                self.reserve(alloc, ticket, c)?;
                self.grant(ticket, c, m);
                Ok(Asked::Granted)
            }
            held => Ok(held),
        }
    }

    /// Frees all cells of the ticket. It takes no memory.
    pub fn release(&mut self, ticket: u32)
        ensures gone { (c : Cell) → held self.new c ticket ≡ None }
        ensures others { (c : Cell) (n : ℕ) → n ≢ ticket → held self.new c n ≡ held self.old c n }
    {
        if let Some(cells) = self.lists.remove(&ticket) {
            leave_all(&mut self.rows, cells.as_slice(), ticket);
        }
    }
}
