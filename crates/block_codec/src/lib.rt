//! Blocks of operations, and their bytes.
//!
//! A block names the state that it stands on and the one that it leads to by their digests. It
//! publishes up to 512 operations, and of each the earlier operations that it is joined to, the
//! cells that it touched, with their modes, and its receipt.
//!
//! - `laws`: what is true of blocks and their bytes.
//! - `block`: the block, whose parts have a place for each operation. Begin here.
//! - `limits`: how many operations a block may hold, and how much gas.
//! - `writer`, `reader`: its bytes, for which `specs/Spelling.antt` has the one spelling of each
//!   block; `operation` reads an operation, `receipt` how one ended.
//!
//! The order and range of join lists are no part of the bytes: `join_schedule` judges them.
#![tactic(auto)]

mod block;
mod laws;
mod limits;
mod operation;
mod reader;
mod receipt;
#[cfg(test)]
mod tests;
mod writer;

pub use block::Block;
pub use byte_fields::{At, FieldFault};
pub use laws::blocks_have_one_spelling;
pub use limits::{MOST_BLOCK_GAS, MOST_OPS};
pub use reader::read_block;
pub use writer::write_block;
