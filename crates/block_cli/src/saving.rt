//! The answer that writes a state.
ghost use Rattle.std.specs.Prelude.{◌≡◌, IfOk};
ghost use Rattle.block_cli.specs.Answer.{saving};
ghost use Rattle.block_cli.specs.Inside.{answer_in};

use crate::answer::{Answer, File};
use crate::report;
use ledger_state::{State, write_state};
use std::alloc::{AllocError, Global};

/// The most cells that a file may have.
const MOST_CELLS: usize = u32::MAX as usize;

/// The answer that prints a text and writes a state.
pub fn saving<'a>(
    alloc: Global,
    text: Vec<u8>,
    name: &'a str,
    state: &State,
) -> Result<Answer<'a>, AllocError>
    ensures { IfOk result (λ a. answer_in a ≡ saving text.items name.now state.now) }
{
    if state.cells().len() > MOST_CELLS {
        return Ok(Answer::BadInput(report::too_long_line(alloc, name)?));
    }
    let bytes = write_state(alloc, state)?;
    let mut written = Vec::new(alloc);
    written.push(File { name, bytes })?;
    Ok(Answer::Done(text, written))
}
