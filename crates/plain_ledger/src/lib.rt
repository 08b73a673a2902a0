//! Ledgers: a level, a `now` and what each account has, and the file that holds one.
//!
//! A `State` is a list of holdings, strictly ascending by address, that contracts see as a finite
//! map from addresses to amounts (`specs/Ledger.antt`). An account that isn't there has 0; the
//! amounts together stay below 2^63. Nothing changes a state in place: `with_balances` makes the
//! next one in one pass over the holdings and the changes.
//!
//! - `laws`: what is true of ledgers and their files.
//! - `state`: `State` and its calls. Begin there. `holding`: what one account has.
//! - `merge`: where an address stands, and holdings with changes put in.
//! - `writer`, `reader`: the file of a ledger (docs/FORMATS.md, "State file").
//!
//! Contracts aren't built yet, so a ledger has balances of implicit accounts alone. A file that has
//! a contract, or a cell of another kind, is refused as `NotYet` at that place, where all before it
//! keeps the rules.
#![tactic(auto)]

mod holding;
mod laws;
mod merge;
mod reader;
mod state;
#[cfg(test)]
mod tests;
mod writer;

pub use byte_fields::At;
pub use cell_names::{FormatFault, Head, NoMemory};
pub use holding::Holding;
pub use laws::ledgers_have_one_spelling;
pub use reader::read_state;
pub use state::State;
pub use writer::write_state;
