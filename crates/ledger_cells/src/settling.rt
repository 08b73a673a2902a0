//! Changes put among what is held.

ghost use Rattle.std.specs.Prelude.{◌≡◌, All, IsTrue, IfOk};
ghost use Rattle.std.specs.FinMap.{from_sorted, is_sorted};
ghost use Rattle.cell_names.specs.Cells.{cell_cmp};
ghost use Rattle.cell_blocks.specs.Blocks.{IsHoldable};

use crate::walk::CellsWalk;
use cell_blocks::Blocks;
use cell_names::NoMemory;
use std::alloc::Global;

/// Blocks of the cells that are left.
pub(crate) fn gather(alloc: Global, mut walk: CellsWalk<'_>) -> Result<Blocks, NoMemory>
    requires order { IsTrue (is_sorted cell_cmp walk) }
    requires holdable { All (λ e. IsHoldable e.0 e.1) walk }
    ensures { IfOk result (λ held. held ≡ from_sorted walk.entry) }
{
    let mut held = Blocks::new(alloc);
    while let Some(row) = walk.next() {
        let cell = row.cell().copy(alloc)?;
        let value = row.value().copy(alloc)?;
        held.push(cell, value)?;
    }
    Ok(held)
}
