//! Contracts in the order of their addresses.

ghost use Rattle.std.specs.Prelude.{◌≡◌, ◌≤◌, ◌↔◌, insert, length, map, vec_len, IsTrue, IfOk, OnOk, OnErr};
ghost use Rattle.std.specs.Ordering.{nat_cmp};
ghost use Rattle.std.specs.Option.{option_copied};
ghost use Rattle.std.specs.Cmp.Lexicographic.{slice_cmp};
ghost use Rattle.value_core.specs.Places.{StandsAt};
ghost use Rattle.code_book.specs.Listing.{Ascends, IsCut, script_entry};

use michelson_code::Typed;
use std::alloc::{AllocError, Global};
use value_core::Address;

/// Where the address stands, or else where it would stand.
pub(crate) fn place(row: &[(Address, Typed)], a: &Address) -> Result<usize, usize>
    requires { Ascends row.now }
    ensures { StandsAt (λ e. e.0) (slice_cmp nat_cmp) row.now a.now result }
{
    row.binary_search_by(|e| e.0.cmp(a))
}

/// From which place on the addresses are above the given one, if one is given.
pub(crate) fn place_above(row: &[(Address, Typed)], a: Option<&Address>) -> usize
    requires { Ascends row.now }
    ensures { IsCut row.now (option_copied a.entry) result }
{
    match a {
        None => 0,
        Some(a) => match place(row, a) {
            Ok(i) => i + 1,
            Err(i) => i,
        },
    }
}

/// Puts a contract at a place.
pub(crate) fn put(
    row: &mut Vec<(Address, Typed)>,
    i: usize,
    a: Address,
    t: Typed,
) -> Result<(), AllocError>
    requires { i ≤ vec_len row.old }
    ensures put { OnOk result (row.new.items ≡ insert row.old.items i (a, t)) }
    ensures unchanged { OnErr result (row.new.items ≡ row.old.items) }
{
    row.insert(i, (a, t))?;
    Ok(())
}

/// Room for as many contracts.
fn capacity(row: &[(Address, Typed)]) -> usize
    ensures { result ≤ length row.now }
{
    row.len()
}

/// Equal scripts at the same addresses.
pub(crate) fn copy_row(
    alloc: Global,
    row: &[(Address, Typed)],
) -> Result<Vec<(Address, Typed)>, AllocError>
    ensures { IfOk result (λ copied.
        map script_entry copied.items ≡ map script_entry row.now) }
{
    let mut copied = Vec::with_capacity(alloc, capacity(row))?;
    for e in row {
        copied.push((e.0, e.1.copy(alloc)?))?;
    }
    Ok(copied)
}

fn same_entry(a: &(Address, Typed), b: &(Address, Typed)) -> bool
    ensures { IsTrue result ↔ (script_entry a.now ≡ script_entry b.now) }
{
    a.0 == b.0 && a.1.same(&b.1)
}

/// Whether both have the same scripts at the same addresses.
pub(crate) fn same_row(a: &[(Address, Typed)], b: &[(Address, Typed)]) -> bool
    ensures { IsTrue result ↔ (map script_entry a.now ≡ map script_entry b.now) }
{
    if a.len() != b.len() {
        return false;
    }
    for i in 0..a.len() {
        if !same_entry(&a[i], &b[i]) {
            return false;
        }
    }
    true
}
