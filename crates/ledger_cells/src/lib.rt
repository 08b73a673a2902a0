//! The cells of a ledger: what is held in blocks, with what changed kept apart until it is settled.
//!
//! An operation changes few cells of many. So what changed stands in an ordered map over the blocks, and each
//! cell of that map has a slot: taking back an access of it takes no memory. Contracts see cells of a ledger as
//! a finite map from cells to values, with the book that they were made for and the amount in flight.
//!
//! - `cells`: the cells themselves. Begin here.
//! - `store`: accesses and undos, one function for each kind.
//! - `adding`: one more cell, or the first reason against it. `fault`: the reasons.
//! - `overlay`: changes put over blocks, with the counts that are kept beside them.
//! - `changes`: the ordered map of what changed. `counts`: how many cells there are, and how much money.
//! - `walk`: all cells in their order. `seeking`: the least cell above a given one. `settling`: changes put
//!   among what is held.
//!
//! The type keeps that each value fits the book, that no balance of 0 stands, and that all money, with what is
//! in flight, stays below 2^63.
#![tactic(auto)]

mod adding;
mod cells;
mod changes;
mod counts;
mod fault;
mod overlay;
mod seeking;
mod settling;
mod store;
mod walk;

pub use cells::Cells;
pub use fault::AddEnd;
pub use walk::CellsWalk;

#[cfg(test)]
mod tests;
