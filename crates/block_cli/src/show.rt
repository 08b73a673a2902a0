//! What `show` makes of the bytes of a state.
ghost use Rattle.std.specs.Prelude.{◌≡◌, IfOk};
ghost use Rattle.block_cli.specs.Showing.{show_answer};
ghost use Rattle.block_cli.specs.Inside.{answer_in};

use crate::answer::Answer;
use crate::report;
use chain_text::print_genesis;
use ledger_state::{At, FieldFault, read_state};
use std::alloc::{AllocError, Global};

/// The answer to the bytes of a state.
pub fn show<'a>(alloc: Global, state: &str, bytes: &[u8]) -> Result<Answer<'a>, AllocError>
    ensures { IfOk result (λ a. answer_in a ≡ show_answer state.now bytes.now) }
{
    match read_state(alloc, bytes) {
        Ok(shown) => Ok(Answer::Done(print_genesis(alloc, &shown)?, Vec::new(alloc))),
        Err(FieldFault::NoMemory) => Err(AllocError),
        Err(FieldFault::At(At(place))) => {
            Ok(Answer::BadInput(report::malformed(alloc, state, place)?))
        }
    }
}
