//! What `validate` makes of the bytes of a state and of a block.
ghost use Rattle.std.specs.Prelude.{◌≡◌, ◌<◌, ◌≤◌, ◌^◌, ℕ, List, IfOk, Ok, length};
ghost use Rattle.std.specs.FinMap.{len};
ghost use Rattle.byte_fields.specs.Told.{AnswersUnlessFull};
ghost use Rattle.cell_names.specs.Stops.{format_fault};
ghost use Rattle.edge_io.specs.Outside.{most_bytes};
ghost use Rattle.plain_ledger.specs.Reading.{ledger_of};
ghost use Rattle.block_cli.specs.Verdict.{Accepted};
ghost use Rattle.block_cli.specs.Validating.{Validates, ValidatesOn, answer_to};
ghost use Rattle.block_cli.specs.Inside.{answer_in};

use crate::answer::{Answer, File};
use crate::next::Next;
use crate::report;
use crate::verdict::{Verdict, verdict_of};
use byte_fields::At;
use cell_names::FormatFault;
use plain_ledger::{State, read_state, write_state};
use std::alloc::{AllocError, Global};

/// The state that bytes spell. The bytes are let go here.
fn parsed(alloc: Global, bytes: Vec<u8>) -> Result<State, FormatFault>
    ensures told { AnswersUnlessFull format_fault (λ x. x) result (ledger_of bytes.items) }
    ensures few { IfOk result (λ s. len s.balances ≤ length bytes.items) }
{
    read_state(alloc, &bytes)
}

/// The answer that writes an accepted block's state.
fn accepted<'a>(alloc: Global, next: &'a str, after: Next) -> Result<Answer<'a>, AllocError>
    requires { len after.state.balances < 2 ^ 32 }
    ensures { IfOk result (λ a. answer_in a ≡ answer_to next.now (Accepted after.state)) }
{
    let text = report::accepted(alloc, &after.state, &after.digest)?;
    let bytes = write_state(alloc, &after.state)?;
    let mut written = Vec::new(alloc);
    written.push(File { name: next, bytes })?;
    Ok(Answer::Done(text, written))
}

/// The answer to a block on a state.
fn judged<'a>(
    alloc: Global,
    next: &'a str,
    state: State,
    block: &[u8],
) -> Result<Answer<'a>, AllocError>
    requires { len state.balances ≤ most_bytes }
    ensures { (name : List ℕ) → IfOk result (λ a.
        ValidatesOn name next.now (Ok state) block.now (answer_in a)) }
{
    match verdict_of(alloc, state, block)? {
        Verdict::Refused(why) => Ok(Answer::Refused(report::refused(alloc, &why)?)),
        Verdict::Accepted(after) => accepted(alloc, next, after),
    }
}

/// The answer to the bytes of a state and of a block.
pub fn validate<'a>(
    alloc: Global,
    state: &str,
    next: &'a str,
    spelt: Vec<u8>,
    block: &[u8],
) -> Result<Answer<'a>, AllocError>
    requires { length spelt.items ≤ most_bytes }
    ensures { IfOk result (λ a.
        Validates state.now next.now spelt.items block.now (answer_in a)) }
{
    match parsed(alloc, spelt) {
        Ok(ledger) => judged(alloc, next, ledger, block),
        Err(FormatFault::NoMemory) => Err(AllocError),
        Err(FormatFault::At(At(place))) => {
            Ok(Answer::BadInput(report::malformed(alloc, state, place)?))
        }
        Err(FormatFault::NotYet(place)) => {
            Ok(Answer::BadInput(report::not_yet(alloc, state, place)?))
        }
    }
}
