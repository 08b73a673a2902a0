//! Cells with their values in sorted blocks, as compact as they can be held.
//!
//! A state may have a million balances. They stand in a block of their own, an address and an
//! amount each, and all other cells behind them, each with its value. Contracts see both blocks as
//! one finite map from cells to values.
//!
//! - `row`: a cell with its value, as it is lent or made for the occasion.
//! - `blocks`: the blocks. Begin here.
//! - `walk`: all cells in their order.
//! - `placing`: where a cell stands in the blocks, and what stands at a place. `listing`: one block
//!   at a time.
#![tactic(auto)]

mod blocks;
mod holding;
mod listing;
mod placing;
mod row;
#[cfg(test)]
mod tests;
mod walk;

pub use blocks::Blocks;
pub use cell_names::NoMemory;
pub use holding::Holding;
pub use row::{HeldVal, Row};
pub use walk::Walk;
