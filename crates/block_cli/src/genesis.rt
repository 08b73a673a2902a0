//! What `genesis` makes of the bytes of a state's text.
ghost use Rattle.std.specs.Prelude.{◌≡◌, ◌≤◌, ℕ, List, IfOk, Ok, length};
ghost use Rattle.edge_io.specs.Outside.{most_bytes};
ghost use Rattle.block_cli.specs.Genesis.{founding, genesis_answer};
ghost use Rattle.block_cli.specs.Inside.{answer_in};

use crate::answer::Answer;
use crate::saving::saving;
use crate::{faulty, report};
use chain_text::{ChainRefusal, read_genesis};
use ledger_state::State;
use state_digest::digest;
use std::alloc::{AllocError, Global};

/// The answer that writes the state of a text.
fn founding<'a>(alloc: Global, name: &'a str, state: &State) -> Result<Answer<'a>, AllocError>
    ensures { (text : List ℕ) → IfOk result (λ a.
        answer_in a ≡ founding text name.now (Ok state.now)) }
{
    let digest = digest(alloc, state)?;
    let line = report::state(alloc, &digest)?;
    saving(alloc, line, name, state)
}

/// The answer to the bytes of a state's text.
pub fn genesis<'a>(
    alloc: Global,
    text: &str,
    state: &'a str,
    bytes: &[u8],
) -> Result<Answer<'a>, AllocError>
    requires { length bytes.now ≤ most_bytes }
    ensures { IfOk result (λ a. answer_in a ≡ genesis_answer text.now state.now bytes.now) }
{
    match read_genesis(alloc, bytes) {
        Ok(founded) => founding(alloc, state, &founded),
        Err(ChainRefusal::NoMemory) => Err(AllocError),
        Err(ChainRefusal::Fault(fault)) => {
            Ok(Answer::BadInput(faulty::no_state(alloc, text, &fault)?))
        }
    }
}
