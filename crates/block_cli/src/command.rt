//! What can be asked of the program.
ghost use Rattle.std.specs.Prelude.{◌≡◌, ◌↔◌, ◌≤◌, [], ◌∷◌, All, IfOk, IsTrue, map, length};
ghost use Rattle.edge_io.specs.Outside.{most_bytes};
ghost use Rattle.block_cli.specs.Commands.{reads, SurelyEnds};
ghost use Rattle.block_cli.specs.Meaning.{Means};
ghost use Rattle.block_cli.specs.Inside.{answer_in, bytes_in, command_in};

use crate::answer::Answer;
use crate::check::check;
use crate::genesis::genesis;
use crate::show::show;
use crate::validate::validate;
use edge_io::Workers;
use std::alloc::{AllocError, Global};

/// A command, with what its words name.
#[derive(Clone, Copy, Debug)]
pub enum Command<'a> {
    /// Judges a block on a state, and writes the next state.
    Validate {
        /// The name of the file that holds the state, not empty; so are the two below.
        state: &'a str,
        /// The name of the file that holds the block.
        block: &'a str,
        /// The name under which the next state is written, not the block's.
        next: &'a str,
        /// How many may work on it, from 1 to 64. Today one does.
        workers: Workers,
    },
    /// Tells whether a script may run, and writes nothing.
    Check {
        /// The name of the file that holds the script's text, not empty.
        code: &'a str,
    },
    /// Writes the state that a text says.
    Genesis {
        /// The name of the file that holds the text, not empty.
        text: &'a str,
        /// The name under which the state is written, not empty.
        state: &'a str,
    },
    /// Prints the text of a state, and writes nothing.
    Show {
        /// The name of the file that holds the state, not empty.
        state: &'a str,
    },
}

/// The first and the second of two.
fn both(contents: Vec<Vec<u8>>) -> (Vec<u8>, Vec<u8>)
    requires { length contents.items ≡ 2 }
    ensures { bytes_in contents.items ≡ result.0.items ∷ result.1.items ∷ [] }
{
    let mut contents = contents;
    let second = contents.pop().unwrap();
    let first = contents.pop().unwrap();
    (first, second)
}

/// The one that there is.
fn only(contents: Vec<Vec<u8>>) -> Vec<u8>
    requires { length contents.items ≡ 1 }
    ensures { bytes_in contents.items ≡ result.items ∷ [] }
{
    let mut contents = contents;
    contents.pop().unwrap()
}

impl<'a> Command<'a> {
    /// Whether a run of it surely ends.
    pub fn surely_ends(&self) -> bool
        ensures { IsTrue result ↔ SurelyEnds (command_in self.now) }
    {
        match self {
            Command::Validate { .. }
            | Command::Check { .. }
            | Command::Genesis { .. }
            | Command::Show { .. } => true,
        }
    }

    /// The names of the files that it reads, in the order in which it reads them.
    pub fn reads(&self, alloc: Global) -> Result<Vec<&'a str>, AllocError>
        ensures { IfOk result (λ names.
            map (λ name. name.now) names.items ≡ reads (command_in self.now)) }
    {
        match self {
            Command::Validate { state, block, .. } => Vec::from_slice(alloc, &[*state, *block]),
            Command::Check { code } => Vec::from_slice(alloc, &[*code]),
            Command::Genesis { text, .. } => Vec::from_slice(alloc, &[*text]),
            Command::Show { state } => Vec::from_slice(alloc, &[*state]),
        }
    }

    /// The answer to the contents of these files.
    pub fn answer(&self, alloc: Global, contents: Vec<Vec<u8>>) -> Result<Answer<'a>, AllocError>
        requires all { length contents.items ≡ length (reads (command_in self.now)) }
        requires short { All (λ bytes. length bytes ≤ most_bytes) (bytes_in contents.items) }
        ensures { IfOk result (λ answer.
            Means (command_in self.now) (bytes_in contents.items) (answer_in answer)) }
    {
        match self {
            Command::Validate { state, next, .. } => {
                let (spelt, block) = both(contents);
                validate(alloc, state, next, spelt, &block)
            }
            Command::Check { code } => check(alloc, code, &only(contents)),
            Command::Genesis { text, state } => genesis(alloc, text, state, &only(contents)),
            Command::Show { state } => show(alloc, state, &only(contents)),
        }
    }
}
