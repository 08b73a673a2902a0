//! A contract chain in files: `genesis TEXT STATE` writes the state that a text says, `show STATE`
//! prints it again, and `validate STATE BLOCK NEXT WORKERS` reads a state and a block, and writes the
//! next state or refuses the block.
//!
//! - `laws`: what is true of the definitions. `run`: the top call; begin there.
//! - `words`: which words ask for a command. `command`: the commands, what each reads, its answer.
//! - `input`: reading the files of a command. `answer`, `output`: what is written and printed.
//! - `validate`: the answer to the bytes of a state and of a block, of the command of that name.
//! - `check`: the answer to the bytes of a script's text. `genesis`: the answer to those of a state's
//!   text; `saving`: how a state is written. `faulty`: the lines of both. `show`: the answer to a state.
//! - `verdict`: what a block is worth on a state. `replay`: its operations, run again against what
//!   it publishes of them. `refusal`: why it is refused. `next`: the state after it, and its digest.
//! - `report`: every line that is printed, over `print`. `status`: how a run ends.
//! - `start`: the words of the process.
//!
//! `specs/Runs.antt` says what a run of any command does, by its status; `specs/Meaning.antt` what
//! each command means for the contents of its files. The order of causes is: the words; reading the
//! files in their order; their grammars in that order; the work; the length of each file to be
//! written; the room for it; writing in order; printing.
#![tactic(auto)]

mod answer;
mod check;
mod command;
mod faulty;
mod genesis;
mod input;
mod laws;
mod next;
mod output;
mod print;
mod refusal;
mod replay;
mod report;
mod run;
mod saving;
mod show;
mod start;
mod status;
#[cfg(test)]
mod tests;
mod validate;
mod verdict;
mod words;

use edge_io::{DiskFiles, StdSink};
use std::io;
use std::process::ExitCode;

fn main(rt: HostRuntime) -> ExitCode {
    let mut files = DiskFiles::new(&rt);
    let mut out = StdSink::new(io::writer(&rt));
    start::start(&rt, &mut files, &mut out)
}
