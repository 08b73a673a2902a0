//! What takes effects back: a log of undo entries, the last of which is undone first.
//!
//! Whoever does accesses on a store notes what takes each of them back. As long as nobody else
//! touches these cells in conflict, undoing the whole log leads to where the first access began.
//!
//! - `laws`: where undoing a log leads, and what a noted entry and an undone one change of that.
//! - `log`: the log. Begin here.
//!
//! Contracts see a log as the list of its entries, in the order in which they were noted, and the
//! number of those that may be noted without memory. Undoing takes no memory.
#![tactic(auto)]

mod laws;
mod log;

pub use laws::{
    a_log_leads_to_one_end, a_noted_undo_leads_back, an_empty_log_leads_to_what_is_there,
    an_undone_entry_leads_on,
};
pub use log::InverseLog;

#[cfg(test)]
mod tests;
