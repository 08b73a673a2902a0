//! Reading the cells of a state's file.

ghost use Rattle.std.specs.Prelude.{◌≡◌, IfErr, IfOk, IsTrue, None};
ghost use Rattle.std.specs.Option.{option_copied};
ghost use Rattle.std.specs.FinMap.{entries, from_sorted, get};
ghost use Rattle.byte_fields.specs.Readers.{chained, checked, made};
ghost use Rattle.byte_fields.specs.Told.{AnswersUnlessFull, IsStop, read_stop};
ghost use Rattle.cell_names.specs.Reading.{cell, is_above};
ghost use Rattle.cell_names.specs.Supply.{supply};
ghost use Rattle.ledger_state.specs.Inside.{IsLast, IsReadInto, before, stop_at};
ghost use Rattle.ledger_state.specs.Reading.{cells, held, next, rows, start, value_in};
ghost use Rattle.ledger_state.specs.Storages.{least_bare};

use crate::storages::least_bare;
use byte_fields::{ReadStop, u32_at};
use cell_names::{Cell, cell_at, order};
use code_book::Book;
use ledger_cells::{AddEnd, Cells};
use std::alloc::Global;
use value_codec::{ANY_VALUE, value_at};

/// The cells of a book, in which each contract has its storage.
pub(crate) fn cells_at<'a>(
    alloc: Global,
    book: &Book,
    bytes: &'a [u8],
) -> Result<(Cells, &'a [u8]), ReadStop>
    ensures flight { IfOk result (λ x. x.0.flight ≡ 0) }
    ensures made_for { IfOk result (λ x. x.0.book ≡ book.now) }
    ensures housed { IfOk result (λ x. least_bare book.now x.0.cells ≡ None) }
    ensures read { AnswersUnlessFull read_stop (λ x. (x.0.cells, x.1.now)) result
        (cells book.now bytes.now) }
{
    match counted_at(alloc, book, bytes) {
        Ok((cells, rest)) => {
            if least_bare(book, &cells).is_some() {
                return Err(ReadStop::Left(bytes.len()));
            }
            Ok((cells, rest))
        }
        Err(stop) => Err(stop),
    }
}

/// The number of cells, and so many.
fn counted_at<'a>(
    alloc: Global,
    book: &Book,
    bytes: &'a [u8],
) -> Result<(Cells, &'a [u8]), ReadStop>
    ensures flight { IfOk result (λ x. x.0.flight ≡ 0) }
    ensures made_for { IfOk result (λ x. x.0.book ≡ book.now) }
    ensures read { AnswersUnlessFull read_stop (λ x. (x.0.cells, x.1.now)) result
        (made from_sorted (rows book.now) bytes.now) }
{
    rows_at(alloc, book, bytes)
}

fn rows_at<'a>(alloc: Global, book: &Book, bytes: &'a [u8]) -> Result<(Cells, &'a [u8]), ReadStop>
    ensures flight { IfOk result (λ x. x.0.flight ≡ 0) }
    ensures made_for { IfOk result (λ x. x.0.book ≡ book.now) }
    ensures read { AnswersUnlessFull read_stop (λ x. (entries x.0.cells, x.1.now)) result
        (rows book.now bytes.now) }
{
    let (count, rest) = u32_at(bytes)?;
    held_at(alloc, book, count, rest)
}

/// So many cells with their values, ascending.
fn held_at<'a>(
    alloc: Global,
    book: &Book,
    count: u32,
    bytes: &'a [u8],
) -> Result<(Cells, &'a [u8]), ReadStop>
    ensures flight { IfOk result (λ x. x.0.flight ≡ 0) }
    ensures made_for { IfOk result (λ x. x.0.book ≡ book.now) }
    ensures read { AnswersUnlessFull read_stop (λ x. (entries x.0.cells, x.1.now)) result
        (chained (held book.now) next start count bytes.now) }
{
    let mut cells = Cells::new(alloc, book)?;
    let mut last: Option<Cell> = None;
    let mut rest = bytes;
    for _ in 0..count {
        match next_held(alloc, last.as_ref(), &mut cells, rest) {
            Ok((cell, after)) => {
                last = Some(cell);
                rest = after;
            }
            Err(stop) => return Err(stop),
        }
    }
    Ok((cells, rest))
}

/// Adds the next cell with its value, and gives an equal cell and the bytes after both.
fn next_held<'a>(
    alloc: Global,
    last: Option<&Cell>,
    cells: &mut Cells,
    bytes: &'a [u8],
) -> Result<(Cell, &'a [u8]), ReadStop>
    requires flight { cells.old.flight ≡ 0 }
    requires last { IsLast (option_copied last) cells.old.cells }
    ensures above { IfOk result (λ x. IsTrue (is_above (option_copied last.entry) x.0)) }
    ensures read { IfOk result (λ x. IsReadInto
        (held cells.old.book (before (option_copied last.entry) cells.old.cells))
        bytes.now cells.old x.0 cells.new x.1.now) }
    ensures stop { IfErr result (λ stop. IsStop (read_stop stop)
        (held cells.old.book (before (option_copied last.entry) cells.old.cells) bytes.now)) }
{
    match name_at(alloc, last, bytes) {
        Ok((cell, rest)) => {
            let name = cell.copy(alloc)?;
            match value_into(alloc, cells, cell, rest) {
                Ok(rest) => Ok((name, rest)),
                Err(stop) => Err(stop),
            }
        }
        Err(stop) => Err(stop),
    }
}

/// A cell above the last one.
fn name_at<'a>(
    alloc: Global,
    last: Option<&Cell>,
    bytes: &'a [u8],
) -> Result<(Cell, &'a [u8]), ReadStop>
    ensures above { IfOk result (λ x. IsTrue (is_above (option_copied last.entry) x.0)) }
    ensures read { AnswersUnlessFull read_stop (λ x. (x.0, x.1.now)) result
        (checked (is_above (option_copied last.entry)) cell bytes.now) }
{
    match cell_at(alloc, bytes) {
        Ok((cell, rest)) => {
            if !follows(last, &cell) {
                return Err(ReadStop::Left(bytes.len()));
            }
            Ok((cell, rest))
        }
        Err(stop) => Err(stop),
    }
}

fn follows(last: Option<&Cell>, cell: &Cell) -> bool
    ensures { result ≡ is_above (option_copied last.entry) cell.now }
{
    match last {
        None => true,
        Some(last) => order(last, cell).is_lt(),
    }
}

/// Adds the cell with the value at the front of the bytes, and gives the bytes after it.
fn value_into<'a>(
    alloc: Global,
    cells: &mut Cells,
    cell: Cell,
    bytes: &'a [u8],
) -> Result<&'a [u8], ReadStop>
    requires flight { cells.old.flight ≡ 0 }
    requires new { get cells.old.cells cell ≡ None }
    ensures read { IfOk result (λ rest. IsReadInto
        (value_in cells.old.book (supply cells.old.cells) cell)
        bytes.now cells.old cell cells.new rest.now) }
    ensures stop { IfErr result (λ stop. IsStop (read_stop stop)
        (value_in cells.old.book (supply cells.old.cells) cell bytes.now)) }
{
    match value_at(alloc, ANY_VALUE, 128, bytes) {
        Ok((value, rest)) => match cells.add(alloc, cell, value) {
            Ok(()) => Ok(rest),
            Err(end) => Err(stop_at(bytes.len(), end)),
        },
        Err(stop) => Err(stop),
    }
}

/// Where reading stops at a value that isn't added: at its tag, unless memory ran out.
fn stop_at(left: usize, end: AddEnd) -> ReadStop
    ensures { result ≡ stop_at left end }
{
    match end {
        AddEnd::Misfit | AddEnd::Twice | AddEnd::TooMuch => ReadStop::Left(left),
        AddEnd::NoMemory => ReadStop::NoMemory,
    }
}
