//! Where a cell stands in the blocks, and what stands at a place.
//!
//! Places are counted over both blocks: those of the other cells go on behind the balances.

ghost use Rattle.std.specs.Prelude.{◌≡◌, ◌-◌, ◌<◌, length, IsTrue, MatchOption, map, slice_get};
ghost use Rattle.std.specs.Option.{option_copied, option_map};
ghost use Rattle.std.specs.FinMap.{is_sorted};
ghost use Rattle.value_core.specs.Places.{StandsAt};
ghost use Rattle.cell_names.specs.Cells.{cell_cmp, kind_of};
ghost use Rattle.cell_blocks.specs.Blocks.{all_of, held_by, AreBlocks};
ghost use Rattle.cell_blocks.specs.Placing.{IsCut};

use crate::holding::Holding;
use crate::row::{HeldVal, Row};
use cell_names::{Cell, order};
use value_core::{Address, Val};

/// Where the balance stands in its block, or else where it would stand.
pub(crate) fn place_of_balance(balances: &[Holding], address: &Address) -> Result<usize, usize>
    requires { IsTrue (is_sorted cell_cmp (map held_by balances.now)) }
    ensures { StandsAt (λ h. (held_by h).0) cell_cmp balances.now (Cell.Balance address.now)
        result }
{
    balances.binary_search_by(|holding| holding.address.cmp(address))
}

/// Where another cell stands in its block, or else where it would stand.
fn place_of_other(others: &[(Cell, Val)], c: &Cell) -> Result<usize, usize>
    requires { IsTrue (is_sorted cell_cmp others.now) }
    ensures { StandsAt (λ e. e.0) cell_cmp others.now c.now result }
{
    others.binary_search_by(|e| order(&e.0, c))
}

/// The account whose balance the cell is, if it is one.
pub(crate) fn account(c: &Cell) -> Option<&Address>
    ensures { MatchOption result (0 < kind_of c.now) (λ address. c.now ≡ Cell.Balance address.now) }
{
    match c {
        Cell::Balance(address) => Some(address),
        Cell::Storage(_) => None,
        Cell::Entry(_, _, _) => None,
    }
}

/// Where the cell stands, or else where it would stand.
pub(crate) fn place(balances: &[Holding], others: &[(Cell, Val)], c: &Cell) -> Result<usize, usize>
    requires { AreBlocks balances.now others.now }
    ensures { StandsAt (λ e. e.0) cell_cmp (all_of balances.now others.now) c.now result }
{
    match account(c) {
        Some(address) => place_of_balance(balances, address),
        None => match place_of_other(others, c) {
            Ok(i) => Ok(balances.len() + i),
            Err(i) => Err(balances.len() + i),
        },
    }
}

/// From which place on the cells are above the given one, if one is given.
pub(crate) fn place_above(balances: &[Holding], others: &[(Cell, Val)], c: Option<&Cell>) -> usize
    requires { AreBlocks balances.now others.now }
    ensures { IsCut cell_cmp (all_of balances.now others.now) (option_copied c.entry) result }
{
    match c {
        None => 0,
        Some(c) => match place(balances, others, c) {
            Ok(i) => i + 1,
            Err(i) => i,
        },
    }
}

/// What stands at the place.
pub(crate) fn row_at<'a>(
    balances: &'a [Holding],
    others: &'a [(Cell, Val)],
    i: usize,
) -> Option<Row<'a>>
    ensures { result ≡ slice_get (all_of balances.now others.now) i }
{
    if i < balances.len() {
        return Some(Row::of_holding(&balances[i]));
    }
    match others.get(i - balances.len()) {
        Some(other) => Some(Row::lent(&other.0, &other.1)),
        None => None,
    }
}

/// What stands in the cell at the place.
pub(crate) fn value_at<'a>(
    balances: &'a [Holding],
    others: &'a [(Cell, Val)],
    i: usize,
) -> Option<HeldVal<'a>>
    ensures { result ≡ option_map (λ e. e.1) (slice_get (all_of balances.now others.now) i) }
{
    match row_at(balances, others, i) {
        Some(row) => Some(row.into_value()),
        None => None,
    }
}

/// What stands at the last place, if there is one.
pub(crate) fn last_row<'a>(balances: &'a [Holding], others: &'a [(Cell, Val)]) -> Option<Row<'a>>
    ensures { let all = all_of balances.now others.now in result ≡ slice_get all (length all - 1) }
{
    let last = (balances.len() + others.len()).saturating_sub(1);
    row_at(balances, others, last)
}
