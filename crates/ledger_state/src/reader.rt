//! Reading a state from its file.

ghost use Rattle.std.specs.Prelude.{◌≡◌, [], IfOk};
ghost use Rattle.byte_fields.specs.Laws.{TellsWhole};
ghost use Rattle.byte_fields.specs.Readers.{with};
ghost use Rattle.byte_fields.specs.Told.{AnswersUnlessFull, field_fault, read_stop};
ghost use Rattle.ledger_state.specs.BookReading.{book};
ghost use Rattle.ledger_state.specs.Reading.{ledger, ledger_of, with_cells};
ghost use Rattle.ledger_state.specs.Spelling.{CanBeStored, spelling};

use crate::contracts::book_at;
use crate::rows::cells_at;
use crate::state::State;
use byte_fields::{FieldFault, ReadStop, fault_at, mark_of, u32_at, u64_at};
use cell_names::Head;
use code_book::Book;
use std::alloc::Global;

/// The state that all of the bytes spell.
pub fn read_state(alloc: Global, bytes: &[u8]) -> Result<State, FieldFault>
    // What is read is spelt so.
    ensures found { IfOk result (λ s. CanBeStored s × (bytes.now ≡ spelling s)) }
    // What is spelt so is read, unless memory runs out.
    ensures only { TellsWhole field_fault spelling CanBeStored bytes.now result }
    // Which fault it is.
    ensures place { AnswersUnlessFull field_fault (λ s. s) result (ledger_of bytes.now) }
{
    state_told(alloc, bytes)
}

fn state_told(alloc: Global, bytes: &[u8]) -> Result<State, FieldFault>
    ensures { AnswersUnlessFull field_fault (λ s. s) result (ledger_of bytes.now) }
{
    match state_at(alloc, bytes) {
        Ok(state) => Ok(state),
        Err(stop) => Err(fault_at(bytes.len(), stop)),
    }
}

#[tactic(auto, unfolding(crate::specs::Reading::ledger))]
fn state_at(alloc: Global, bytes: &[u8]) -> Result<State, ReadStop>
    ensures { AnswersUnlessFull read_stop (λ s. (s, [])) result (ledger bytes.now) }
{
    let rest = mark_of(b"FJS1", bytes)?;
    let (level, rest) = u32_at(rest)?;
    let (now, rest) = u64_at(rest)?;
    match behind_head(alloc, Head { level, now }, rest) {
        Ok((state, rest)) => {
            if !rest.is_empty() {
                return Err(ReadStop::Left(rest.len()));
            }
            Ok(state)
        }
        Err(stop) => Err(stop),
    }
}

/// The contracts and the cells behind a head.
fn behind_head(alloc: Global, head: Head, bytes: &[u8]) -> Result<(State, &[u8]), ReadStop>
    ensures { AnswersUnlessFull read_stop (λ x. (x.0, x.1.now)) result
        (with book (λ contracts. with_cells head.level head.now contracts) bytes.now) }
{
    match book_at(alloc, bytes) {
        Ok((book, rest)) => behind_book(alloc, head, book, rest),
        Err(stop) => Err(stop),
    }
}

/// The cells behind a head and contracts.
fn behind_book(
    alloc: Global,
    head: Head,
    book: Book,
    bytes: &[u8],
) -> Result<(State, &[u8]), ReadStop>
    ensures { AnswersUnlessFull read_stop (λ x. (x.0, x.1.now)) result
        (with_cells head.level head.now book bytes.now) }
{
    match cells_at(alloc, &book, bytes) {
        Ok((cells, rest)) => Ok((State::of(head, book, cells), rest)),
        Err(stop) => Err(stop),
    }
}
