//! What changed: each cell that has a slot, with what stands there now.

ghost use Rattle.std.specs.Prelude.{◌≡◌, ◌<◌, ◌^◌, IfOk, OnOk, OnErr, IsSome, None, Some, length, is_some, true};
ghost use Rattle.std.specs.BTreeMap.{insert_entry};
ghost use Rattle.std.specs.FinMap.{find};
ghost use Rattle.cell_names.specs.Cells.{cell_cmp};
ghost use Rattle.ledger_cells.specs.Overlay.{IsWritten};

use cell_names::{Cell, NoMemory};
use std::alloc::Global;
use std::collections::BTreeMap;
use std::mem;
use value_core::Val;

/// What stands in each cell that has a slot, in the order of cells.
pub(crate) type Changes = BTreeMap<Cell, Option<Val>>;

/// Writes a cell, which has a slot from then on.
pub(crate) fn write(changes: &mut Changes, c: Cell, value: Option<Val>) -> Result<(), NoMemory>
    ensures written { OnOk result (IsWritten changes.old.entries c value changes.new.entries) }
    ensures entries { OnOk result
        (changes.new.entries ≡ insert_entry cell_cmp changes.old.entries c value) }
    ensures unchanged { OnErr result (changes.new.entries ≡ changes.old.entries) }
    ensures absent { OnErr result (find cell_cmp c changes.old.entries ≡ None) }
{
    changes.insert(c, value)?;
    Ok(())
}

/// Writes a cell that has a slot, and gives what stood there. It takes no memory.
pub(crate) fn rewrite(changes: &mut Changes, c: &Cell, value: Option<Val>) -> Option<Val>
    requires { is_some (find cell_cmp c.now changes.old.entries) ≡ true }
    ensures written { IsWritten changes.old.entries c.now value changes.new.entries }
    ensures old { find cell_cmp c.now changes.old.entries ≡ Some result }
{
    match changes.get_mut(c) {
        Some(slot) => mem::replace(slot, value),
        None => None,
    }
}

/// Equal changes.
pub(crate) fn copy_changes(alloc: Global, changes: &Changes) -> Result<Changes, NoMemory>
    ensures { IfOk result (λ copied. copied.entries ≡ changes.now.entries) }
{
    let mut copied = BTreeMap::new(alloc);
    for (cell, value) in changes.iter() {
        let cell = cell.copy(alloc)?;
        let value = copy_value(alloc, value)?;
        write(&mut copied, cell, value)?;
    }
    Ok(copied)
}

/// An equal value, where there is one.
pub(crate) fn copy_value(alloc: Global, value: &Option<Val>) -> Result<Option<Val>, NoMemory>
    ensures { IfOk result (λ copied. copied ≡ value.now) }
{
    match value {
        None => Ok(None),
        Some(value) => {
            let copied = value.copy(alloc)?;
            Ok(Some(copied))
        }
    }
}
