//! In which bucket each cell is: the cells in runs, with a shelf for each.
//!
//! To hash a cell's name costs as much as to hash the cell twice, so an update hashes names in the
//! runs alone where a touched cell falls. A shelf takes a byte a cell and some eighty bytes.

ghost use Rattle.std.specs.Prelude.{◌≡◌, ◌∷◌, ◌++◌, [], ℕ, Bool, List, false, IfOk, OnOk, MatchOption, length, IsTrue};
ghost use Rattle.std.specs.Option.{option_copied};
ghost use Rattle.std.specs.FinMap.{is_sorted};
ghost use Rattle.cell_names.specs.Cells.{cell_cmp};
ghost use Rattle.state_digest.specs.Bounds.{under};
ghost use Rattle.state_digest.specs.Digest.{bucket_of};
ghost use Rattle.state_digest.specs.Digests.{IsShelfOf};
ghost use Rattle.state_digest.specs.Texts.{HoldTexts, IsWritable};
ghost use Rattle.state_digest.specs.Touched.{cells_of, first_is_under};
ghost use Rattle.state_digest.specs.Shelving.{AreNumbered, AreOnShelf, AreOnShelves, AreRenewed, Held, IsAtEnd, MayBeRenewed, WentBy, bound_of, numbers_of};

use crate::buckets::{Bucket, put_row};
use crate::naming::bucket;
use crate::rows::Rows;
use crate::touched::{beyond, first_is_under};
use cell_blocks::Row;
use cell_names::{Cell, NoMemory};
use std::alloc::Global;
use std::collections::VecDeque;

/// How many cells a shelf has at most.
const MOST_CELLS: usize = 64;

/// A run of cells: the first of them, and the bucket of each.
#[derive(Drop)]
pub(crate) struct Shelf {
    first: Cell,
    numbers: Vec<u8>,
}

/// Shelves for the cells that are left, which go into their buckets. Those of the old ones stay in
/// whose range no touched cell falls: from their first cell to the next shelf's.
pub(crate) fn renew(
    alloc: Global,
    rows: &mut Rows<'_>,
    old: VecDeque<Shelf>,
    touched: &[&Cell],
    buckets: &mut [Bucket],
) -> Result<VecDeque<Shelf>, NoMemory>
    requires count { length buckets.old ≡ 256 }
    requires fit { MayBeRenewed old.items (cells_of touched.now) rows.old }
    ensures { IfOk result (λ shelves. AreRenewed rows.old shelves.items buckets.old buckets.new) }
{
    let mut old = old;
    let mut touched = touched;
    let mut shelves = VecDeque::new(alloc);
    while let Some(shelf) = old.pop_front() {
        let bound = first_of(&old);
        renew_shelf(alloc, rows, shelf, touched, bound, buckets, &mut shelves)?;
        touched = beyond(touched, bound);
    }
    shelve(alloc, rows, None, buckets, &mut shelves)?;
    Ok(shelves)
}

/// The first cell of all shelves.
fn first_of(shelves: &VecDeque<Shelf>) -> Option<&Cell>
    ensures { option_copied result ≡ bound_of shelves.now.items }
{
    match shelves.front() {
        Some(shelf) => Some(&shelf.first),
        None => None,
    }
}

/// Shelves for the cells under the bound: the one that was there, where none of them is touched.
fn renew_shelf(
    alloc: Global,
    rows: &mut Rows<'_>,
    shelf: Shelf,
    touched: &[&Cell],
    bound: Option<&Cell>,
    buckets: &mut [Bucket],
    shelves: &mut VecDeque<Shelf>,
) -> Result<(), NoMemory>
    requires count { length buckets.old ≡ 256 }
    requires sorted { IsTrue (is_sorted cell_cmp rows.old) }
    requires kept { first_is_under (option_copied bound) (cells_of touched.now) ≡ false
        → IsShelfOf (under (option_copied bound) rows.old) shelf }
    ensures { OnOk result (AreOnShelves (option_copied bound.entry) rows.old rows.new
        buckets.old buckets.new shelves.old.items shelves.new.items) }
{
    if first_is_under(touched, bound) {
        return shelve(alloc, rows, bound, buckets, shelves);
    }
    pass(alloc, rows, &shelf.numbers, buckets)?;
    shelves.push_back(shelf)?;
    Ok(())
}

/// The next cells go by, which are in the buckets of these numbers.
fn pass(
    alloc: Global,
    rows: &mut Rows<'_>,
    numbers: &[u8],
    buckets: &mut [Bucket],
) -> Result<(), NoMemory>
    requires { length buckets.old ≡ 256 }
    ensures { OnOk result ((run rest : List Held) → rows.old ≡ run ++ rest
        → numbers_of run ≡ numbers.now
        → WentBy run rows.old rows.new buckets.old buckets.new) }
{
    for number in numbers {
        let Some(row) = rows.next_under(None) else {
            return Ok(());
        };
        put_row(alloc, buckets, *number, &row)?;
    }
    Ok(())
}

/// Shelves for the next cells under the bound, which go into their buckets.
pub(crate) fn shelve(
    alloc: Global,
    rows: &mut Rows<'_>,
    bound: Option<&Cell>,
    buckets: &mut [Bucket],
    shelves: &mut VecDeque<Shelf>,
) -> Result<(), NoMemory>
    requires { length buckets.old ≡ 256 }
    ensures { OnOk result (AreOnShelves (option_copied bound.entry) rows.old rows.new
        buckets.old buckets.new shelves.old.items shelves.new.items) }
{
    while let Some(shelf) = next_shelf(alloc, rows, bound, buckets)? {
        shelves.push_back(shelf)?;
    }
    Ok(())
}

/// The shelf of the next cells under the bound, if there are some.
fn next_shelf(
    alloc: Global,
    rows: &mut Rows<'_>,
    bound: Option<&Cell>,
    buckets: &mut [Bucket],
) -> Result<Option<Shelf>, NoMemory>
    requires { length buckets.old ≡ 256 }
    ensures { IfOk result (λ next. MatchOption next
        (IsAtEnd (option_copied bound.entry) rows.old rows.new buckets.old buckets.new)
        (λ shelf. AreOnShelf (option_copied bound.entry) rows.old rows.new
        buckets.old buckets.new shelf)) }
{
    let Some(row) = rows.next_under(bound) else {
        return Ok(None);
    };
    let first = row.cell().copy(alloc)?;
    let mut numbers = Vec::new(alloc);
    number_row(alloc, &row, buckets, &mut numbers)?;
    fill(alloc, rows, bound, buckets, &mut numbers)?;
    Ok(Some(Shelf { first, numbers }))
}

/// As many of the next cells under the bound as the shelf has room for.
fn fill(
    alloc: Global,
    rows: &mut Rows<'_>,
    bound: Option<&Cell>,
    buckets: &mut [Bucket],
    numbers: &mut Vec<u8>,
) -> Result<(), NoMemory>
    requires { length buckets.old ≡ 256 }
    ensures { OnOk result (AreNumbered (option_copied bound.entry) rows.old rows.new
        buckets.old buckets.new numbers.old.items numbers.new.items) }
{
    while numbers.len() < MOST_CELLS {
        let Some(row) = rows.next_under(bound) else {
            return Ok(());
        };
        number_row(alloc, &row, buckets, numbers)?;
    }
    Ok(())
}

/// Adds a cell to its bucket, and the bucket's number to the others.
fn number_row(
    alloc: Global,
    row: &Row<'_>,
    buckets: &mut [Bucket],
    numbers: &mut Vec<u8>,
) -> Result<(), NoMemory>
    requires count { length buckets.old ≡ 256 }
    requires writable { IsWritable row.now }
    ensures texts { OnOk result ((marks : ℕ → Bool) (passed : List Held)
        → HoldTexts marks passed buckets.old
        → HoldTexts marks (passed ++ row.now ∷ []) buckets.new) }
    ensures numbers { OnOk result (numbers.new.items
        ≡ numbers.old.items ++ bucket_of row.now.0 ∷ []) }
{
    let number = bucket(alloc, row.cell())?;
    put_row(alloc, buckets, number, row)?;
    numbers.push(number)?;
    Ok(())
}
