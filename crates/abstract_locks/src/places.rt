//! The rows of all cells.

ghost use Rattle.std.specs.Prelude.{◌≡◌, ◌↔◌, ◌==◌, ◌&&◌, ℕ, [], IsTrue, IsSome, None, Some, OnOk, OnErr, if◌then◌else◌};
ghost use Rattle.cell_names.specs.declared.cell.Cell.{Cell};
ghost use Rattle.abstract_locks.specs.Holders.{AreApart, IsFree, Answers, asked};
ghost use Rattle.abstract_locks.specs.Tables.{place_in, row_at, held, HasRoom, is_one};
ghost use Rattle.abstract_locks.specs.Lists.{is_among};

use crate::asked::Asked;
use crate::row::Row;
use cell_names::{Cell, Mode, NoMemory};
use std::alloc::Global;
use std::collections::BTreeMap;

/// The cells at which tickets have places.
pub type Rows = BTreeMap<Cell, Row>;

/// Whether the ticket has a place at the cell.
pub fn has_place(rows: &Rows, c: &Cell, ticket: u32) -> bool
    ensures { IsTrue result ↔ HasRoom rows.now.entries c.now ticket }
{
    match rows.get(c) {
        Some(row) => row.at(ticket).is_some(),
        None => false,
    }
}

/// How the ticket is answered that asks for the cell in one more mode.
pub fn answer(rows: &Rows, c: &Cell, ticket: u32, m: Mode) -> Asked
    ensures answer { Answers (held rows.now.entries c.now) ticket m result }
    ensures apart { AreApart (held rows.now.entries c.now) }
{
    match rows.get(c) {
        Some(row) => row.answer(ticket, m),
        None => Asked::Granted,
    }
}

/// Makes a place for a ticket that has none at the cell.
pub fn add(alloc: Global, rows: &mut Rows, c: &Cell, ticket: u32) -> Result<(), NoMemory>
    requires { place_in (row_at rows.old.entries c.now) ticket ≡ None }
    ensures added { OnOk result ((d : Cell) (n : ℕ) → place_in (row_at rows.new.entries d) n
        ≡ (if is_one c.now d && (n == ticket) then Some None
        else place_in (row_at rows.old.entries d) n)) }
    ensures unchanged { OnErr result ((d : Cell) → row_at rows.new.entries d
        ≡ row_at rows.old.entries d) }
{
    match rows.get_mut(c) {
        Some(row) => {
            row.add(ticket)?;
            Ok(())
        }
        None => add_row(alloc, rows, c, ticket),
    }
}

/// Puts the cell's first row, with the ticket's place.
fn add_row(alloc: Global, rows: &mut Rows, c: &Cell, ticket: u32) -> Result<(), NoMemory>
    requires { row_at rows.old.entries c.now ≡ [] }
    ensures added { OnOk result ((d : Cell) (n : ℕ) → place_in (row_at rows.new.entries d) n
        ≡ (if is_one c.now d && (n == ticket) then Some None
        else place_in (row_at rows.old.entries d) n)) }
    ensures unchanged { OnErr result ((d : Cell) → row_at rows.new.entries d
        ≡ row_at rows.old.entries d) }
{
    let mut row = Row::new(alloc);
    row.add(ticket)?;
    let cell = c.copy(alloc)?;
    rows.insert(cell, row)?;
    Ok(())
}

/// Joins the mode to what the ticket holds at the cell. It takes no memory.
pub fn hold(rows: &mut Rows, c: &Cell, ticket: u32, m: Mode)
    requires place { HasRoom rows.old.entries c.now ticket }
    requires free { IsFree (held rows.old.entries c.now) ticket m }
    ensures { (d : Cell) (n : ℕ) → place_in (row_at rows.new.entries d) n
        ≡ (if is_one c.now d && (n == ticket)
        then Some (Some (asked (held rows.old.entries c.now) ticket m))
        else place_in (row_at rows.old.entries d) n) }
{
    if let Some(row) = rows.get_mut(c) {
        row.hold(ticket, m);
    }
}

/// Takes the ticket's place at each of the cells away. It takes no memory.
pub fn leave_all(rows: &mut Rows, cells: &[Cell], ticket: u32)
    ensures { (d : Cell) (n : ℕ) → place_in (row_at rows.new.entries d) n
        ≡ (if is_among d cells.now && (n == ticket) then None
        else place_in (row_at rows.old.entries d) n) }
{
    for cell in cells {
        leave(rows, cell, ticket);
    }
}

/// Takes the ticket's place at the cell away, and the row that is empty then.
fn leave(rows: &mut Rows, c: &Cell, ticket: u32)
    ensures { (d : Cell) (n : ℕ) → place_in (row_at rows.new.entries d) n
        ≡ (if is_one c.now d && (n == ticket) then None
        else place_in (row_at rows.old.entries d) n) }
{
    if leave_row(rows, c, ticket) {
        let _ = rows.remove(c);
    }
}

/// Takes the ticket's place at the cell away. It answers whether the row is empty then.
fn leave_row(rows: &mut Rows, c: &Cell, ticket: u32) -> bool
    ensures left { (d : Cell) (n : ℕ) → place_in (row_at rows.new.entries d) n
        ≡ (if is_one c.now d && (n == ticket) then None
        else place_in (row_at rows.old.entries d) n) }
    ensures empty { IsTrue result → row_at rows.new.entries c.now ≡ [] }
{
    match rows.get_mut(c) {
        Some(row) => {
            row.leave(ticket);
            row.is_empty()
        }
        None => false,
    }
}
