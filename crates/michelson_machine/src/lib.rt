//! The machine that runs a typed script, within its gas and its room, and stops at each question.
//!
//! - `machine`: the public calls. Begin here.
//! - `state`: what a run goes on with, and what is left of it.
//! - `frame`: what is left to do, a frame for each body that isn't done.
//! - `pile`: a vector that contracts see from its top down.
//! - `look`: what a machine waits for.
//! - `step`: one instruction, a line for each.
//! - `moves`, `values`, `branches`, `loops`, `big_maps`: the instructions by families.
//! - `end`: how a run ends.
//!
//! `specs/Resume.antt` says what comes of a machine. Everything here goes by it.
#![tactic(auto)]

mod big_maps;
mod branches;
mod end;
mod frame;
mod items;
mod look;
mod loops;
mod machine;
mod moves;
mod pile;
mod returning;
mod state;
mod step;
#[cfg(test)]
mod tests;
mod values;

pub use end::{End, Turn};
pub use machine::Machine;
pub use michelson_rules::{Ask, Budget, Env};
