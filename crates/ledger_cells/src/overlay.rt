//! Changes put over blocks, with the counts that are kept beside them.

ghost use Rattle.std.specs.Prelude.{◌≡◌, ◌≢◌, ◌+◌, ◌<◌, ◌^◌, false, true, is_some, None, Some, IsTrue, MatchOption, IfOk, OnOk, OnErr, length};
ghost use Rattle.std.specs.Option.{option_copied};
ghost use Rattle.std.specs.FinMap.{empty, entries, find, get, len};
ghost use Rattle.std.specs.FinSet.{contains, empty as no_slots, insert};
ghost use Rattle.cell_blocks.specs.Blocks.{AllBelow, IsHoldable};
ghost use Rattle.cell_names.specs.declared.cell.Cell.{Cell as Cells};
ghost use Rattle.cell_names.specs.declared.cell.Cell.TheVariants as named;
ghost use Rattle.cell_names.specs.Cells.{cell_cmp};
ghost use Rattle.cell_names.specs.Contents.{balance, put, with_balance, IsTidy};
ghost use Rattle.cell_names.specs.Supply.{supply};
ghost use Rattle.cell_blocks.specs.Successors.{IsNext, NoneAbove};
ghost use Rattle.ledger_cells.specs.Overlay.{over, counts_of, IsRecount, IsWritten};

use crate::changes::{Changes, copy_changes, rewrite, write};
use crate::counts::{Counts, NOTHING, amount_of, kept, money_of};
use crate::seeking::least_above;
use crate::settling::gather;
use crate::walk::CellsWalk;
use cell_blocks::{Blocks, HeldVal, Row};
use cell_names::{Cell, NoMemory};
use std::alloc::Global;
use std::collections::BTreeMap;
use std::marker::Model;
use value_core::{Address, Val};

/// Cells as blocks hold them, with what changed put over them.
#[derive(Drop)]
pub(crate) struct Overlay {
    held: Blocks,
    changes: Changes,
    counts: Counts,
}

impl Model for Overlay {
    ghost use Rattle.std.specs.Prelude.{◌≡◌, refl};
    ghost use Rattle.std.specs.Coded.{code_by, coded×};
    ghost use Rattle.std.specs.FinMap as finmap;
    ghost use Rattle.std.specs.FinSet as finset;
    ghost use Rattle.cell_names.specs.contracts.cell.Cell as cell;
    ghost use Rattle.value_core.specs.contracts.val.Val as val;
    ghost use Rattle.cell_names.specs.Cells.{cell_cmp};
    ghost use Rattle.cell_names.specs.Contents.{Contents};
    ghost use Rattle.ledger_cells.specs.Overlay.{Overlaid, over, slots_of, counts_of};

    ghost Value = { Overlaid };

    ghost coded = { code_by (Contents × finset.FinSet cell_cmp)
        (coded× (finmap.code cell.the_row.coded val.the_row.coded) (finset.code cell.the_row.coded))
        (λ o. (o.cells, o.slots)) (λ p. record { cells = p.0; slots = p.1 }) (λ _. refl) };

    ghost view = { λ o. record {
      cells = over o.held o.changes.entries;
      slots = slots_of o.changes.entries;
    } };

    ghost invariant = { λ o. o.counts ≡ counts_of (over o.held o.changes.entries) };
}

impl Overlay {
    /// No cells, and no slots. It takes no memory.
    pub(crate) fn new(alloc: Global) -> Overlay
        ensures cells { result.cells ≡ empty }
        ensures slots { result.slots ≡ no_slots }
    {
        let held = Blocks::new(alloc);
        let changes = BTreeMap::new(alloc);
        Overlay {
            held,
            changes,
            counts: NOTHING,
        }
    }

    /// What is counted of the cells.
    pub(crate) fn counts(&self) -> Counts
        ensures { result ≡ counts_of self.now.cells }
    {
        self.counts
    }

    /// What stands in a cell.
    pub(crate) fn get(&self, c: &Cell) -> Option<HeldVal<'_>>
        ensures { result ≡ get self.now.cells c.now }
    {
        match self.changes.get(c) {
            Some(value) => lent(value),
            None => self.held.get(c),
        }
    }

    /// What an account has.
    pub(crate) fn balance(&self, address: &Address) -> u64
        ensures { result ≡ balance self.now.cells address.now }
    {
        match self.get(&Cell::Balance(*address)) {
            Some(value) => amount_of(value.get()),
            None => 0,
        }
    }

    /// Whether a cell has a slot.
    fn has_slot(&self, c: &Cell) -> bool
        ensures { result ≡ contains self.now.slots c.now }
    {
        self.changes.contains_key(c)
    }
}

impl Overlay {
    /// Puts a value into a cell, which gets a slot, or takes it out; and gives what stood there.
    pub(crate) fn put(
        &mut self,
        alloc: Global,
        c: &Cell,
        value: Option<Val>,
    ) -> Result<Option<Val>, NoMemory>
        requires { supply (put self.old.cells c.now value) < 2 ^ 64 }
        ensures put { OnOk result (self.new.cells ≡ put self.old.cells c.now value) }
        ensures slot { OnOk result (self.new.slots ≡ insert self.old.slots c.now) }
        ensures old { IfOk result (λ old. old ≡ get self.old.cells c.now) }
        ensures unchanged { OnErr result (self.new ≡ self.old) }
    {
        let new = Counts::at(c, &value);
        let old = exchange(alloc, &self.held, &mut self.changes, c, value)?;
        let gone = Counts::at(c, &old);
        self.counts = recount(&self.held, &self.changes, self.counts, gone, new);
        Ok(old)
    }

    /// Puts a value into a cell that has a slot, or takes it out. It takes no memory.
    pub(crate) fn put_back(&mut self, c: &Cell, value: Option<Val>)
        requires slot { contains self.old.slots c.now ≡ true }
        requires within { supply (put self.old.cells c.now value) < 2 ^ 64 }
        ensures put { self.new.cells ≡ put self.old.cells c.now value }
        ensures slots { self.new.slots ≡ self.old.slots }
    {
        let new = Counts::at(c, &value);
        let old = rewrite(&mut self.changes, c, value);
        let gone = Counts::at(c, &old);
        self.counts = recount(&self.held, &self.changes, self.counts, gone, new);
    }

    /// Gives a balance that is above 0, and has no slot, another amount. It takes no memory.
    fn set_held(&mut self, address: &Address, amount: u64)
        requires slot { contains self.old.slots (named.Balance address.now) ≡ false }
        requires some { balance self.old.cells address.now ≢ 0 }
        requires within { supply (with_balance self.old.cells address.now amount) < 2 ^ 64 }
        ensures set { self.new.cells ≡ with_balance self.old.cells address.now amount }
        ensures slots { self.new.slots ≡ self.old.slots }
    {
        let cell = Cell::Balance(*address);
        let gone = Counts::at(&cell, &kept(self.balance(address)));
        let new = Counts::at(&cell, &kept(amount));
        self.held.set_balance(address, amount);
        self.counts = recount(&self.held, &self.changes, self.counts, gone, new);
    }
}

impl Overlay {
    /// Puts a value into a cell that isn't there.
    pub(crate) fn add(&mut self, c: Cell, v: Val) -> Result<(), NoMemory>
        requires absent { get self.old.cells c ≡ None }
        requires holdable { IsHoldable c v }
        requires within { supply (put self.old.cells c (Some v)) < 2 ^ 64 }
        ensures added { OnOk result (self.new.cells ≡ put self.old.cells c (Some v)) }
        ensures slots { (q : Cells) → contains self.old.slots q ≡ true
            → contains self.new.slots q ≡ true }
        ensures unchanged { OnErr result (self.new ≡ self.old) }
    {
        let new = Counts {
            money: money_of(&c, &v),
            cells: 1,
        };
        place(&mut self.held, &mut self.changes, c, v)?;
        self.counts = recount(&self.held, &self.changes, self.counts, NOTHING, new);
        Ok(())
    }

    /// All cells in their order.
    pub(crate) fn walk(&self) -> CellsWalk<'_>
        ensures { result ≡ entries self.now.cells }
    {
        CellsWalk::new(self.held.walk(), &self.changes)
    }

    /// The least cell above `c`, or the least of all.
    pub(crate) fn after(&self, c: Option<&Cell>) -> Option<Row<'_>>
        ensures { MatchOption result (NoneAbove cell_cmp self.now.cells (option_copied c.entry))
            (λ row. IsNext cell_cmp self.now.cells (option_copied c.entry) row.0 row.1) }
    {
        least_above(&self.held, &self.changes, c)
    }

    /// Puts what changed among what is held, so that no cell has a slot.
    pub(crate) fn settle(&mut self, alloc: Global) -> Result<(), NoMemory>
        requires { IsTidy self.old.cells }
        ensures cells { self.new.cells ≡ self.old.cells }
        ensures slots { OnOk result (self.new.slots ≡ no_slots) }
        ensures unchanged { OnErr result (self.new ≡ self.old) }
    {
        let held = gather(alloc, self.walk())?;
        self.held = held;
        self.changes.clear();
        Ok(())
    }

    /// Equal cells and slots.
    pub(crate) fn copy(&self, alloc: Global) -> Result<Overlay, NoMemory>
        ensures { IfOk result (λ copied. copied ≡ self.now) }
    {
        let held = self.held.copy(alloc)?;
        let changes = copy_changes(alloc, &self.changes)?;
        Ok(Overlay {
            held,
            changes,
            counts: self.counts,
        })
    }
}

/// Puts a value into a cell that isn't there: behind what is held, or among the changes.
fn place(held: &mut Blocks, changes: &mut Changes, c: Cell, v: Val) -> Result<(), NoMemory>
    requires absent { get (over held.old changes.old.entries) c ≡ None }
    requires holdable { IsHoldable c v }
    ensures placed { OnOk result (over held.new changes.new.entries
        ≡ put (over held.old changes.old.entries) c (Some v)) }
    ensures slots { (q : Cells) → is_some (find cell_cmp q changes.old.entries) ≡ true
        → is_some (find cell_cmp q changes.new.entries) ≡ true }
    ensures held { OnErr result (held.new ≡ held.old) }
    ensures changes { OnErr result (changes.new.entries ≡ changes.old.entries) }
{
    if stands_last(held, changes, &c) {
        return held.push(c, v);
    }
    write(changes, c, Some(v))
}

/// Whether a cell has no slot, and stands above all that are held.
fn stands_last(held: &Blocks, changes: &Changes, c: &Cell) -> bool
    ensures slot { IsTrue result → find cell_cmp c.now changes.now.entries ≡ None }
    ensures above { IsTrue result → AllBelow held.now c.now }
{
    if changes.contains_key(c) {
        return false;
    }
    held.is_above_all(c)
}

impl Overlay {
    /// Gives a balance another amount. It takes no memory: the balance has a slot, or is above 0.
    pub(crate) fn set_balance(&mut self, address: Address, amount: u64)
        requires findable { contains self.old.slots (named.Balance address) ≡ false
            → balance self.old.cells address ≢ 0 }
        requires within { supply (with_balance self.old.cells address amount) < 2 ^ 64 }
        ensures set { self.new.cells ≡ with_balance self.old.cells address amount }
        ensures slots { self.new.slots ≡ self.old.slots }
    {
        let cell = Cell::Balance(address);
        if self.has_slot(&cell) {
            self.put_back(&cell, kept(amount));
        } else {
            self.set_held(&address, amount);
        }
    }
}

/// The counts of the cells, where one of them adds something else than before.
fn recount(held: &Blocks, changes: &Changes, counts: Counts, gone: Counts, new: Counts) -> Counts
    requires { IsRecount (over held.now changes.now.entries) counts gone new }
    ensures { result ≡ counts_of (over held.now changes.now.entries) }
{
    let _most = most(held, changes);
    counts.exchanged(gone, new)
}

/// How many cells there are at most. That it is below 2^64 is why cells can be counted.
fn most(held: &Blocks, changes: &Changes) -> usize
    ensures { result ≡ len held.now + length changes.now.entries }
{
    held.len() + changes.len()
}

/// Writes what stands in a cell now, which gets a slot, and gives what stood there.
fn exchange(
    alloc: Global,
    held: &Blocks,
    changes: &mut Changes,
    c: &Cell,
    value: Option<Val>,
) -> Result<Option<Val>, NoMemory>
    ensures written { OnOk result
        (IsWritten changes.old.entries c.now value changes.new.entries) }
    ensures old { IfOk result (λ old. old ≡ get (over held.now changes.old.entries) c.now) }
    ensures unchanged { OnErr result (changes.new.entries ≡ changes.old.entries) }
{
    if changes.contains_key(c) {
        return Ok(rewrite(changes, c, value));
    }
    // All memory first: behind the write nothing can fail.
    let old = copy_held(alloc, held.get(c))?;
    let cell = c.copy(alloc)?;
    write(changes, cell, value)?;
    Ok(old)
}

/// The value, where there is one.
fn lent(value: &Option<Val>) -> Option<HeldVal<'_>>
    ensures { result ≡ value.now }
{
    match value {
        None => None,
        Some(value) => Some(HeldVal::lent(value)),
    }
}

/// An equal value, where there is one.
fn copy_held(alloc: Global, value: Option<HeldVal<'_>>) -> Result<Option<Val>, NoMemory>
    ensures { IfOk result (λ copied. copied ≡ value.entry) }
{
    match value {
        None => Ok(None),
        Some(value) => {
            let copied = value.copy(alloc)?;
            Ok(Some(copied))
        }
    }
}
