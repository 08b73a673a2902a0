//! Micheline text, read with exact faults and printed.
//!
//! A text is nodes parted by `;`. A node is a number, a string, a byte literal, a sequence in
//! braces, or an application: a word, and annotations and arguments in any mixture. An argument
//! that has arguments or annotations of its own stands in parentheses. Blanks and comments part
//! tokens, and nothing else is said by them.
//!
//! - `laws`: what is true of texts, whatever reads them.
//! - `node`: the tree, each node with its place. Begin here.
//! - `reader`: bytes to nodes, token by token. It keeps a stack of open brackets, and calls itself
//!   nowhere: `level` says what may follow at each place.
//! - `gap`, `lexer`, `text`, `literals`: what parts tokens, and the token in front. Strings and
//!   byte literals are read so in other languages too.
//! - `lawfulness`: each literal of a node that the program holds keeps its rule, whatever the node.
//! - `printer`: nodes to bytes. `brackets`: how deep the printed text goes.
//! - `fault`: why bytes are no text, and where that is told.
//!
//! `specs/Grammar.antt` says which tokens make up a text, and knows no order of reading.
//! `specs/Layout.antt` says which bytes are laid out as which tokens, `specs/Cuts.antt` what is no
//! token. A fault is the leftmost token after which no text of the grammar goes on
//! (`specs/Faults.antt`).
#![tactic(auto)]

mod brackets;
mod fault;
mod gap;
mod kinds;
mod lawfulness;
mod laws;
mod level;
mod lexer;
mod literals;
mod node;
mod pile;
mod printer;
mod reader;
mod slices;
mod text;
mod token;

pub use brackets::brackets_within;
pub use fault::TextFault;
pub use gap::Gap;
pub use kinds::{is_blank, is_digit, is_hex, is_letter};
pub use laws::{bytes_are_a_text_or_have_one_fault, bytes_are_cut_in_one_way};
pub use lexer::begins_hex;
pub use literals::hexadecimal;
pub use node::{Body, Node};
pub use printer::print_node;
pub use reader::read_nodes;
pub use text::{Ending, quoted};
pub use value_core::NoMemory;

#[cfg(test)]
mod tests;
