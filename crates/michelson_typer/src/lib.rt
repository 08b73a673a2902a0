//! The type check: which scripts may run, and why others don't.
//!
//! Typing is a relation (`michelson_code`, `specs/Typing.antt`), and a script has one first fault
//! (`specs/FirstFault.antt` there). `check` answers exactly these, in one walk over the code.
//!
//! - `checker`: the public call. Begin here.
//! - `types`: the types on the checker's stack, each written down once, so that two are equal exactly
//!   where their numbers are; `written` writes down a type of the script.
//! - `stack`: stacks of such types, and their limits.
//! - `extent`: what is asked of a type as a whole. `lines`: the lines of an instruction against a
//!   stack; `results`: what a line leaves; `standing`: the line that stands, and what it leaves.
//! - `numbered`: the instructions that move as many items as they say.
//! - `operands`: instructions without bodies. `opening`: what bodies begin on; `closing`: what an
//!   instruction makes of how they end.
//! - `walk`: code and bodies; it alone knows paths and order.
//! - `keys`: the rules on types as a script writes them; `whole`: the faults of no instruction.
//! - `fault`: why a script isn't typed, and where that is told.
#![tactic(auto)]

mod checker;
mod closing;
mod extent;
mod fault;
mod keys;
mod lines;
mod numbered;
mod opening;
mod operands;
mod results;
mod stack;
mod standing;
#[cfg(test)]
mod tests;
mod types;
mod walk;
mod whole;
mod written;

pub use checker::check;
pub use fault::{TypeFault, TypeRefusal};
