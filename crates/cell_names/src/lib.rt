//! Cells of the ledger, the modes in which operations touch them, accesses, stores and footprints.
//!
//! A cell is a balance, a storage, or an entry of a big map. An operation touches it in one of
//! three modes. Readers share a cell, creditors share a balance, and an owner shares nothing. What
//! an operation touched is its footprint: the cells in their order, each with the join of the modes
//! in which it was touched. A store does accesses and takes them back.
//!
//! - `laws`: bytes against cells and footprints, one to one; and what is true of accesses and
//!   undos, whatever the store.
//! - `mode`: the modes, `conflict` and `join`. Begin here.
//! - `cell`: what can be touched, and the order of cells.
//! - `footprint`: a map from cells to modes, in the order of cells.
//! - `access`: accesses, replies and undos. `effect`: what stands in a cell gives the reply and the
//!   undo. `store`: what a store promises.
//! - `writer`, `reader`: the bytes of cells and footprints, one spelling each.
//! - `fault`: why bytes of a format that isn't all built can't be read; formats above answer by it.
//! - `head`: the level of a state or a block, and its `now`.
//!
//! Contracts see a footprint as the list of its cells and modes. Its type keeps that the cells
//! strictly ascend, so it is a finite map too. They see a store as a finite map from cells to
//! values, the amount in flight, and what is lent, fit and slotted.
#![tactic(auto)]

mod access;
mod cell;
mod effect;
mod fault;
mod footprint;
mod head;
mod laws;
mod mode;
mod optional;
mod reader;
mod store;
mod writer;

pub use access::{Access, Reply, Undo};
pub use cell::{Cell, NoMemory, order, order_is_total};
pub use effect::amount_in;
pub use fault::{FieldStop, FormatFault, FormatStop, fault_at};
pub use footprint::{Footprint, MOST_CELLS};
pub use head::Head;
pub use laws::{
    accesses_keep_cells_tidy, accesses_keep_the_supply, an_access_turns_on_its_cell_alone,
    an_undo_takes_back_its_access, apart_accesses_may_be_exchanged, cells_have_one_spelling,
    footprints_have_one_spelling,
};
pub use mode::{Mode, conflict, join};
pub use reader::{cell_at, footprint_at, read_cell, read_footprint};
pub use store::{Store, StoreEnd};
pub use writer::{write_cell, write_footprint};

#[cfg(test)]
mod tests;
