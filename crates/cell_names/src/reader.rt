//! Reading cells and footprints from bytes.

ghost use Rattle.std.specs.Prelude.{◌≡◌, ◌≤◌, None, length, drop, IfOk};
ghost use Rattle.std.specs.Option.{option_copied};
ghost use Rattle.byte_fields.specs.Readers.{chained, made};
ghost use Rattle.byte_fields.specs.Told.{Answers, AnswersUnlessFull, left_stop, read_stop, field_fault, placed};
ghost use Rattle.byte_fields.specs.Laws.{Spelt, TellsSpelt};
ghost use Rattle.value_codec.specs.Reading.{address, place};
ghost use Rattle.cell_names.specs.declared.cell.Cell.TheVariants as cells;
ghost use Rattle.cell_names.specs.Spelling.{spell_cell, spell_footprint, IsCell, IsFootprint};
ghost use Rattle.cell_names.specs.Reading.{behind, cell, entry, mode, touch, is_above, next_last, footprint, last_cell};

use crate::cell::{Cell, order};
use crate::footprint::{Footprint, MOST_CELLS};
use crate::mode::Mode;
use byte_fields::{FieldFault, Left, ReadStop, fault_at, u8_at, u32_at};
use std::alloc::Global;
use value_codec::{KEY_VALUE, address_at, value_at};

/// The footprint that is spelt at the place, and the place after it.
pub fn read_footprint(alloc: Global, b: &[u8], at: usize) -> Result<(Footprint, usize), FieldFault>
    requires { at ≤ length b.now }
    // What is read is spelt there.
    ensures found { IfOk result (Spelt spell_footprint IsFootprint b.now at) }
    // What is spelt there is read, unless memory runs out.
    ensures only { TellsSpelt field_fault spell_footprint IsFootprint b.now at result }
    // Which fault it is.
    ensures exact { AnswersUnlessFull field_fault (λ x. x) result
        (placed (length b.now) (footprint (drop at b.now))) }
{
    footprint_told(alloc, b, at)
}

fn footprint_told(alloc: Global, b: &[u8], at: usize) -> Result<(Footprint, usize), FieldFault>
    requires { at ≤ length b.now }
    ensures { AnswersUnlessFull field_fault (λ x. x) result
        (placed (length b.now) (footprint (drop at b.now))) }
{
    match footprint_at(alloc, b.split_at(at).1) {
        Ok((footprint, rest)) => Ok((footprint, b.len().saturating_sub(rest.len()))),
        Err(stop) => Err(fault_at(b.len(), stop)),
    }
}

/// The cell that is spelt at the place, and the place after it.
pub fn read_cell(alloc: Global, b: &[u8], at: usize) -> Result<(Cell, usize), FieldFault>
    requires { at ≤ length b.now }
    // What is read is spelt there.
    ensures found { IfOk result (Spelt spell_cell IsCell b.now at) }
    // What is spelt there is read, unless memory runs out.
    ensures only { TellsSpelt field_fault spell_cell IsCell b.now at result }
    // Which fault it is.
    ensures exact { AnswersUnlessFull field_fault (λ x. x) result
        (placed (length b.now) (cell (drop at b.now))) }
{
    cell_told(alloc, b, at)
}

fn cell_told(alloc: Global, b: &[u8], at: usize) -> Result<(Cell, usize), FieldFault>
    requires { at ≤ length b.now }
    ensures { AnswersUnlessFull field_fault (λ x. x) result
        (placed (length b.now) (cell (drop at b.now))) }
{
    match cell_at(alloc, b.split_at(at).1) {
        Ok((cell, rest)) => Ok((cell, b.len().saturating_sub(rest.len()))),
        Err(stop) => Err(fault_at(b.len(), stop)),
    }
}

/// A footprint at the front of the bytes, and the bytes after it.
pub fn footprint_at(alloc: Global, bytes: &[u8]) -> Result<(Footprint, &[u8]), ReadStop>
    ensures { AnswersUnlessFull read_stop (λ x. (x.0, x.1.now)) result (footprint bytes.now) }
{
    let (count, rest) = u32_at(bytes)?;
    if count as usize > MOST_CELLS {
        return Err(ReadStop::Left(bytes.len()));
    }
    touches_at(alloc, count, rest)
}

/// So many touches, ascending.
fn touches_at(alloc: Global, count: u32, bytes: &[u8]) -> Result<(Footprint, &[u8]), ReadStop>
    ensures { AnswersUnlessFull read_stop (λ x. (x.0, x.1.now)) result
        (chained touch next_last None count bytes.now) }
{
    let mut touches: Vec<(Cell, Mode)> = Vec::new(alloc);
    let mut rest = bytes;
    for _ in 0..count {
        match touch_at(alloc, last_of(touches.as_slice()), rest) {
            Ok((touch, after)) => {
                touches.push(touch)?;
                rest = after;
            }
            Err(stop) => return Err(stop),
        }
    }
    Ok((Footprint::of_touches(touches), rest))
}

fn last_of(touches: &[(Cell, Mode)]) -> Option<&Cell>
    ensures { option_copied result ≡ last_cell touches.now }
{
    match touches.last() {
        Some(touch) => Some(&touch.0),
        None => None,
    }
}

fn touch_at<'a>(
    alloc: Global,
    last: Option<&Cell>,
    bytes: &'a [u8],
) -> Result<((Cell, Mode), &'a [u8]), ReadStop>
    ensures { AnswersUnlessFull read_stop (λ x. (x.0, x.1.now)) result
        (touch (option_copied last.entry) bytes.now) }
{
    match cell_at(alloc, bytes) {
        Ok((cell, rest)) => {
            if !stands_above(last, &cell) {
                return Err(ReadStop::Left(bytes.len()));
            }
            touch_of(cell, rest)
        }
        Err(stop) => Err(stop),
    }
}

/// The cell with the mode that stands behind it.
fn touch_of(cell: Cell, bytes: &[u8]) -> Result<((Cell, Mode), &[u8]), ReadStop>
    ensures { AnswersUnlessFull read_stop (λ x. (x.0, x.1.now)) result
        (made (λ mode. (cell, mode)) mode bytes.now) }
{
    match mode_at(bytes) {
        Ok((mode, rest)) => Ok(((cell, mode), rest)),
        Err(stop) => Err(ReadStop::from(stop)),
    }
}

fn stands_above(last: Option<&Cell>, cell: &Cell) -> bool
    ensures { result ≡ is_above (option_copied last.entry) cell.now }
{
    match last {
        None => true,
        Some(last) => order(last, cell).is_lt(),
    }
}

/// A cell at the front of the bytes, and the bytes after it.
pub fn cell_at(alloc: Global, bytes: &[u8]) -> Result<(Cell, &[u8]), ReadStop>
    ensures { AnswersUnlessFull read_stop (λ x. (x.0, x.1.now)) result (cell bytes.now) }
{
    let (kind, rest) = u8_at(bytes)?;
    if kind > 2 {
        return Err(ReadStop::Left(bytes.len()));
    }
    behind(alloc, kind, rest)
}

/// What stands behind the kind of a cell.
fn behind(alloc: Global, kind: u8, bytes: &[u8]) -> Result<(Cell, &[u8]), ReadStop>
    ensures { AnswersUnlessFull read_stop (λ x. (x.0, x.1.now)) result (behind kind bytes.now) }
{
    match kind {
        0 => balance_at(bytes),
        1 => storage_at(bytes),
        2 => entry_at(alloc, bytes),
        _ => Err(ReadStop::Left(bytes.len())),
    }
}

/// What stands behind the kind of a balance.
fn balance_at(bytes: &[u8]) -> Result<(Cell, &[u8]), ReadStop>
    ensures { AnswersUnlessFull read_stop (λ x. (x.0, x.1.now)) result
        (made cells.Balance address bytes.now) }
{
    match address_at(bytes) {
        Ok((address, rest)) => Ok((Cell::Balance(address), rest)),
        Err(stop) => Err(ReadStop::from(stop)),
    }
}

/// What stands behind the kind of a storage.
fn storage_at(bytes: &[u8]) -> Result<(Cell, &[u8]), ReadStop>
    ensures { AnswersUnlessFull read_stop (λ x. (x.0, x.1.now)) result
        (made cells.Storage address bytes.now) }
{
    match address_at(bytes) {
        Ok((address, rest)) => Ok((Cell::Storage(address), rest)),
        Err(stop) => Err(ReadStop::from(stop)),
    }
}

/// What stands behind the kind of an entry.
fn entry_at(alloc: Global, bytes: &[u8]) -> Result<(Cell, &[u8]), ReadStop>
    ensures { AnswersUnlessFull read_stop (λ x. (x.0, x.1.now)) result (entry bytes.now) }
{
    match address_at(bytes) {
        Ok((address, rest)) => {
            let (place, rest) = place_at(rest)?;
            match value_at(alloc, KEY_VALUE, 128, rest) {
                Ok((key, rest)) => Ok((Cell::Entry(address, place, key), rest)),
                Err(stop) => Err(stop),
            }
        }
        Err(stop) => Err(ReadStop::from(stop)),
    }
}

/// The place of a big map in a storage.
fn place_at(bytes: &[u8]) -> Result<(u8, &[u8]), Left>
    ensures { Answers left_stop (λ x. (x.0, x.1.now)) result (place bytes.now) }
{
    let (place, rest) = u8_at(bytes)?;
    if place > 15 {
        return Err(Left(bytes.len()));
    }
    Ok((place, rest))
}

fn mode_at(bytes: &[u8]) -> Result<(Mode, &[u8]), Left>
    ensures { Answers left_stop (λ x. (x.0, x.1.now)) result (mode bytes.now) }
{
    let (byte, rest) = u8_at(bytes)?;
    match byte {
        0 => Ok((Mode::Read, rest)),
        1 => Ok((Mode::Credit, rest)),
        2 => Ok((Mode::Own, rest)),
        _ => Err(Left(bytes.len())),
    }
}
