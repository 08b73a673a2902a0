//! One operation, run in steps that ask a ledger.
//!
//! An `OpRun` asks for one access at a time, and is told the reply. It holds no cell and changes
//! none: whoever does the accesses decides where. On all lawful cells that give the replies it was
//! told, its next access is the next one of the operation, run on whole maps; and once it is done,
//! its accesses, its receipt and its footprint are that operation's.
//!
//! - `run`: the public calls. Begin here.
//! - `serial`: an operation run on a store, where a failure undoes all of it.
//! - `advance`: from one access to the next, one step after another.
//! - `steps`, `codes`, `looks`: what each step does, one function for each phase. `replies`: what a
//!   reply does.
//! - `state`, `phase`: what a run goes on with.
//! - `log`: accesses with their replies, and the footprint. `pile`: a vector that contracts see from
//!   its top down. `room`: what values leave of a room.
#![tactic(auto)]

mod advance;
mod codes;
mod log;
mod looks;
mod phase;
mod pile;
mod replies;
mod room;
mod run;
mod serial;
mod state;
mod steps;

pub use advance::Next;
pub use op_rules::{Batch, MOST_CALLS, MOST_GAS, MOST_ROOM, MOST_TURNS, Op, Receipt, lawful};
pub use run::OpRun;
pub use serial::run_serial;
