//! Accesses and undos, one function for each kind.

ghost use Rattle.cell_names.specs.declared.access.Access.TheVariants as access;
ghost use Rattle.cell_names.specs.declared.access.Undo.TheVariants as undo;
ghost use Rattle.cell_names.specs.Conditions.{CanAccess, CanUndo};
ghost use Rattle.cell_names.specs.Stores.{Accesses, Undoes};
ghost use Rattle.ledger_cells.specs.LedgerCells.{seen_of};

use crate::cells::Cells;
use crate::changes::copy_value;
use crate::counts::kept;
use cell_names::{Access, Cell, Reply, Store, StoreEnd, Undo};
use std::alloc::Global;
use value_core::{Address, Val};

impl Store for Cells {
    ghost seen = { seen_of };

    fn access(&mut self, alloc: Global, a: &Access) -> Result<(Reply, Undo), StoreEnd> {
        match a {
            Access::Read(c) => self.read(alloc, c),
            Access::Write(c, value) => self.write(alloc, c, value),
            Access::Credit(address, amount) => self.credit(alloc, *address, *amount),
            Access::Debit(address, amount) => self.debit(alloc, *address, *amount),
        }
    }

    fn undo(&mut self, u: Undo) {
        match u {
            Undo::Nothing => {}
            Undo::Put(c, value) => self.put_back(c, value),
            Undo::Uncredit(address, amount) => self.uncredit(address, amount),
            Undo::Undebit(address, amount) => self.undebit(address, amount),
        }
    }
}

impl Cells {
    fn read(&self, alloc: Global, c: &Cell) -> Result<(Reply, Undo), StoreEnd>
        ensures { Accesses (seen_of self.now) (access.Read c.now) result (seen_of self.now) }
    {
        let value = match self.overlay.get(c) {
            None => None,
            Some(value) => Some(value.copy(alloc)?),
        };
        Ok((Reply::Value(value), Undo::Nothing))
    }

    fn write(
        &mut self,
        alloc: Global,
        c: &Cell,
        value: &Option<Val>,
    ) -> Result<(Reply, Undo), StoreEnd>
        requires { CanAccess (seen_of self.old) (access.Write c.now value.now) }
        ensures { Accesses (seen_of self.old) (access.Write c.now value.now) result
            (seen_of self.new) }
    {
        // All memory first: the name in the undo and the new value, then the slot.
        let name = c.copy(alloc)?;
        let value = copy_value(alloc, value)?;
        let old = self.overlay.put(alloc, c, value)?;
        Ok((Reply::Done, Undo::Put(name, old)))
    }

    fn credit(
        &mut self,
        alloc: Global,
        address: Address,
        amount: u64,
    ) -> Result<(Reply, Undo), StoreEnd>
        requires { CanAccess (seen_of self.old) (access.Credit address amount) }
        ensures { Accesses (seen_of self.old) (access.Credit address amount) result
            (seen_of self.new) }
    {
        let has = self.overlay.balance(&address);
        self.overlay
            .put(alloc, &Cell::Balance(address), kept(has + amount))?;
        self.flight -= amount;
        Ok((Reply::Done, Undo::Uncredit(address, amount)))
    }

    fn debit(
        &mut self,
        alloc: Global,
        address: Address,
        amount: u64,
    ) -> Result<(Reply, Undo), StoreEnd>
        requires { CanAccess (seen_of self.old) (access.Debit address amount) }
        ensures { Accesses (seen_of self.old) (access.Debit address amount) result
            (seen_of self.new) }
    {
        let has = self.overlay.balance(&address);
        if has < amount {
            return Ok((Reply::Low, Undo::Nothing));
        }
        self.overlay
            .put(alloc, &Cell::Balance(address), kept(has - amount))?;
        self.flight += amount;
        Ok((Reply::Done, Undo::Undebit(address, amount)))
    }
}

impl Cells {
    fn put_back(&mut self, c: Cell, value: Option<Val>)
        requires { CanUndo (seen_of self.old) (undo.Put c value) }
        ensures { Undoes (seen_of self.old) (undo.Put c value) (seen_of self.new) }
    {
        self.overlay.put_back(&c, value);
    }

    fn uncredit(&mut self, address: Address, amount: u64)
        requires { CanUndo (seen_of self.old) (undo.Uncredit address amount) }
        ensures { Undoes (seen_of self.old) (undo.Uncredit address amount) (seen_of self.new) }
    {
        let has = self.overlay.balance(&address);
        if amount == 0 {
            return;
        }
        self.overlay.set_balance(address, has - amount);
        self.flight += amount;
    }

    fn undebit(&mut self, address: Address, amount: u64)
        requires { CanUndo (seen_of self.old) (undo.Undebit address amount) }
        ensures { Undoes (seen_of self.old) (undo.Undebit address amount) (seen_of self.new) }
    {
        let has = self.overlay.balance(&address);
        if amount == 0 {
            return;
        }
        self.overlay.set_balance(address, has + amount);
        self.flight -= amount;
    }
}
