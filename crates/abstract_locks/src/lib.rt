//! Locks on cells, by tickets: who holds which cell in which mode.
//!
//! A ticket asks for a cell in a mode. It is granted the join of what it holds there with that
//! mode, unless another ticket holds the cell in a mode that conflicts with the join; then it is
//! told the least such ticket, and nothing changes. A ticket keeps what it holds until it is
//! released, and then it holds nothing.
//!
//! - `laws`: a request has one answer, and grants keep tickets apart.
//! - `table`: the lock table. Begin here.
//! - `asked`: how a request is answered.
//! - `row`: the tickets that have a place at one cell.
//! - `places`: the rows of all cells. `lists`: the cells of each ticket.
//!
//! `ask` is made of three calls. `test` changes nothing. `reserve` makes a place for the ticket at
//! the cell, in which it holds nothing yet. `grant` takes no memory. So a caller may make all its
//! room first, and change something only then. A cell is found in a logarithm of the cells, and a
//! release costs what the ticket holds.
#![tactic(auto)]

mod asked;
mod laws;
mod lists;
mod places;
mod row;
mod table;

pub use asked::Asked;
pub use laws::{
    a_grant_is_at_its_cell_and_ticket, a_join_conflicts_where_either_does,
    a_request_has_one_answer, grants_keep_tickets_apart,
};
pub use table::LockTable;

#[cfg(test)]
mod tests;
