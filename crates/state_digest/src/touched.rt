//! The cells that may differ from one state to the next, in their order.

ghost use Rattle.std.specs.Prelude.{◌≡◌, IfOk};
ghost use Rattle.std.specs.Option.{option_copied};
ghost use Rattle.state_digest.specs.Bounds.{is_under};
ghost use Rattle.state_digest.specs.Touched.{AreInOrder, beyond, cells_of, first_is_under};

use cell_names::{Cell, NoMemory};
use std::alloc::Global;

/// Whether a cell stands under the bound, if there is one.
pub(crate) fn is_under(c: &Cell, bound: Option<&Cell>) -> bool
    ensures { result ≡ is_under (option_copied bound.entry) c.now }
{
    match bound {
        Some(bound) => c < bound,
        None => true,
    }
}

/// These cells in their order.
pub(crate) fn in_order(alloc: Global, touched: &[Cell]) -> Result<Vec<&Cell>, NoMemory>
    ensures { IfOk result (λ v. AreInOrder touched.now (cells_of v.items)) }
{
    let mut order = lent(alloc, touched)?;
    order.sort()?;
    Ok(order)
}

fn lent(alloc: Global, cells: &[Cell]) -> Result<Vec<&Cell>, NoMemory>
    ensures { IfOk result (λ v. cells_of v.items ≡ cells.now) }
{
    let mut lent = Vec::with_capacity(alloc, cells.len())?;
    for c in cells {
        lent.push(c)?;
    }
    Ok(lent)
}

/// Whether the first cell stands under the bound.
pub(crate) fn first_is_under(touched: &[&Cell], bound: Option<&Cell>) -> bool
    ensures { result ≡ first_is_under (option_copied bound.entry) (cells_of touched.now) }
{
    match touched.split_first() {
        Some((first, _)) => is_under(*first, bound),
        None => false,
    }
}

/// The cells from the first one on that isn't under the bound.
pub(crate) fn beyond<'t, 'a>(touched: &'t [&'a Cell], bound: Option<&Cell>) -> &'t [&'a Cell]
    ensures { cells_of result.now ≡ beyond (option_copied bound.entry) (cells_of touched.now) }
{
    let mut left = touched;
    while first_is_under(left, bound) {
        left = &left[1..];
    }
    left
}
