//! Texts of a chain: a state at its beginning, read and printed.
//!
//! A text has lines of words. A contract's script stands in lines of its own behind the contract's
//! line, up to a line `end` (docs/FORMATS.md, "Genesis text").
//!
//! - `laws`: what is true of texts.
//! - `reader`: `read_genesis`. Begin here. `heads` reads the level and the time, and `standing` has a
//!   function for each kind of line behind them.
//! - `printer`: `print_genesis`, whose text is read as the state again. `entries` gives the entries of
//!   big maps, contract by contract.
//! - `lines`: the lines of a text with their numbers. `groups`: those that say something, each with
//!   the script behind it.
//! - `words`: the fields of a line from the left. `numbers` and `addresses` are spelt by words.
//! - `contents`: the script that a text spells, and the storage that data says.
//! - `seen`: the addresses that stood before.
//! - `fault`: why a text is refused, and at which line that is told.
//!
//! The first faulty line is told, and on it the first faulty word from the left.
#![tactic(auto)]

mod addresses;
mod contents;
mod entries;
mod fault;
mod groups;
mod heads;
mod laws;
mod lines;
mod numbers;
mod printer;
mod reader;
mod seen;
mod standing;
#[cfg(test)]
mod tests;
mod words;

pub use fault::{ChainFault, ChainKind, ChainRefusal};
pub use laws::{
    addresses_are_read_again, numbers_have_one_spelling, texts_spell_scripts_and_storages,
};
pub use printer::print_genesis;
pub use reader::read_genesis;
