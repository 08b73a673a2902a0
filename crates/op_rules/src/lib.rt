//! What an operation is, and what it does: the measure of every way to run one.
//!
//! An operation is a transfer from its source. A transfer moves money and calls a contract, whose
//! code runs, writes what it keeps, and emits further transfers. They run depth first, in one budget
//! of gas, turns, room, cells and calls, and a failure anywhere undoes all of them. `specs` says this
//! on whole maps of cells, as a recursion on transfers: `SerialRule` has one definition for each
//! step, `Serial` the receipt, the footprint and the cells that are left, and the run of a list.
//!
//! - `laws`: what is true of that, whoever runs it.
//! - `op`: operations, and which of them a block may hold. Begin here.
//! - `receipt`: how an operation ended. `batch`: operations that wait for a block.
//! - `transfer`: what operations are made of.
//! - `limits`: how much one operation may do.
#![tactic(auto)]

mod batch;
mod laws;
mod limits;
mod op;
mod receipt;
#[cfg(test)]
mod tests;
mod transfer;

pub use batch::Batch;
pub use laws::{
    a_big_map_has_what_its_cells_have, a_cell_that_a_run_changes_is_in_a_footprint,
    a_changed_cell_is_in_the_footprint, a_failed_operation_changes_nothing, a_ledger_is_its_books,
    a_run_goes_on_where_it_was_cut, a_run_keeps_the_supply, a_run_leaves_a_lawful_ledger,
    a_run_tells_of_each_operation, an_operation_is_its_accesses, an_operation_keeps_the_supply,
    an_operation_leaves_a_lawful_ledger, an_operation_makes_fit_accesses,
    an_operation_turns_on_its_replies, an_operation_turns_on_what_it_sees,
    neighbours_that_never_conflict_may_be_swapped, orders_that_keep_conflicts_have_one_run,
    orders_that_respect_joins_have_one_run, same_types_are_equal, transfers_only_add_accesses,
    worlds_that_answer_alike_run_alike,
};
pub use limits::{MOST_CALLS, MOST_DEPTH, MOST_GAS, MOST_ROOM, MOST_SIZE, MOST_TURNS};
pub use op::{Op, lawful};
pub use receipt::Receipt;
pub use transfer::Transfer;
