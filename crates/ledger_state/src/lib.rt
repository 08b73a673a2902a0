//! States: a head, a book and the cells of its contracts and accounts; and the file that holds one.
//!
//! A state is what blocks are run on. Its type keeps that each value fits its cell by the book, that
//! each contract has its storage, and that the supply is below 2^63.
//!
//! - `laws`: a file is read exactly from its spelling; why cells make no state.
//! - `state`: `State` and its calls. Begin there. `building`: a state of given cells.
//! - `storages`: the contracts without a storage.
//! - `script`: the text of a script in a file, which is exactly the printed text of one that may run.
//! - `writer`, `reader`: the file of a state (docs/FORMATS.md, "State file"). `contracts` and `rows`
//!   read its two lists.
//! - `fault`: why cells make no state.
#![tactic(auto)]

mod building;
mod contracts;
mod fault;
mod laws;
mod reader;
mod rows;
mod script;
mod state;
mod storages;
#[cfg(test)]
mod tests;
mod writer;

pub use byte_fields::{At, FieldFault};
pub use cell_names::{Head, NoMemory};
pub use fault::BuildFault;
pub use laws::{
    a_state_is_built_or_the_first_reason_is_told, a_text_is_a_script_where_it_is_printed,
    states_have_one_spelling,
};
pub use reader::read_state;
pub use state::State;
pub use writer::{put_book, write_state};
