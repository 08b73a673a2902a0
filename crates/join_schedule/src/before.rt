//! For each operation the set of those before it.

ghost use Rattle.std.specs.Prelude.{◌≡◌, ◌||◌, ℕ, ◌<◌, ◌≤◌, length, slice_index, IfOk};
ghost use Rattle.std.specs.List.{list_any};
ghost use Rattle.join_schedule.specs.Joins.{AreJoins};
ghost use Rattle.join_schedule.specs.Sets.{AreRows, AreStairs, is_marked, is_through, marks};

use crate::joins::Joins;
use std::alloc::{AllocError, Global};

/// Room for a row of each operation.
fn capacity(j: &Joins) -> usize
    ensures { result ≤ length j.now }
{
    j.len()
}

/// A row for each operation, in which those before it are marked.
pub fn rows_before(alloc: Global, j: &Joins) -> Result<Vec<Vec<bool>>, AllocError>
    requires { AreJoins j.now }
    ensures count { IfOk result (λ rows. length rows.items ≡ length j.now) }
    ensures rows { IfOk result (λ rows. AreRows j.now (length j.now) (marks rows.items)) }
{
    let mut rows: Vec<Vec<bool>> = Vec::with_capacity(alloc, capacity(j))?;
    for number in 0..j.len() {
        let row = row_before(alloc, number, j.list(number), rows.as_slice())?;
        rows.push(row)?;
    }
    Ok(rows)
}

/// The row of an operation that is joined to these ones, by their rows.
fn row_before(
    alloc: Global,
    len: usize,
    list: &[u32],
    rows: &[Vec<bool>],
) -> Result<Vec<bool>, AllocError>
    requires earlier { (k : ℕ) → k < length list.now → slice_index list.now k < len }
    requires count { length rows.now ≡ len }
    requires stairs { AreStairs (marks rows.now) }
    ensures length { IfOk result (λ row. length row.items ≡ len) }
    ensures marked { IfOk result (λ row. (i : ℕ)
        → is_marked row.items i ≡ list_any (is_through (marks rows.now) i) list.now) }
{
    let mut row = vec![in alloc; false; len]?;
    mark_before(row.as_mut_slice(), list, rows);
    Ok(row)
}

/// Marks these operations, and what their rows mark.
fn mark_before(row: &mut [bool], list: &[u32], rows: &[Vec<bool>])
    requires earlier { (k : ℕ) → k < length list.now → slice_index list.now k < length row.old }
    requires count { length rows.now ≡ length row.old }
    requires stairs { AreStairs (marks rows.now) }
    ensures { (i : ℕ) → is_marked row.new i
        ≡ (is_marked row.old i || list_any (is_through (marks rows.now) i) list.now) }
{
    for earlier in list {
        let earlier = *earlier as usize;
        add(row, rows[earlier].as_slice());
        row[earlier] = true;
    }
}

/// Marks what is marked in an earlier row.
fn add(row: &mut [bool], earlier: &[bool])
    requires { length earlier.now ≤ length row.old }
    ensures { (i : ℕ) → is_marked row.new i ≡ (is_marked row.old i || is_marked earlier.now i) }
{
    for k in 0..earlier.len() {
        if earlier[k] {
            row[k] = true;
        }
    }
}
