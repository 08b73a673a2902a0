//! Blocks of plain transfers, and their bytes.
//!
//! A block names the state that it stands on and the one that it leads to by their digests. It
//! publishes up to 512 operations, and of each the earlier operations that it is joined to, the
//! cells that it touched, with their modes, and its receipt.
//!
//! - `laws`: what is true of blocks and their bytes.
//! - `transfer`: transfers and receipts, plain data. Begin here.
//! - `block`: the block, whose parts have a place for each operation.
//! - `writer`, `reader`: its bytes, for which `specs/Spelling.antt` has the one spelling of each
//!   block; `fields` reads the operations' fields.
//!
//! A block of a later form may call a contract. A reader that comes to a field of such a block that
//! is lawful and isn't built, where all before it keeps the rules, answers `NotYet` with its place.
//! The order and range of join lists are no part of the bytes: `join_schedule` judges them.
#![tactic(auto)]

mod block;
mod fields;
mod laws;
mod reader;
#[cfg(test)]
mod tests;
mod transfer;
mod writer;

pub use block::Block;
pub use byte_fields::At;
pub use cell_names::FormatFault;
pub use laws::blocks_have_one_spelling;
pub use reader::read_block;
pub use transfer::{Receipt, Transfer};
pub use writer::write_block;
