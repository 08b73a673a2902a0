//! Files, a sink and a gate: all that the program meets of the outside.
//!
//! The program is written against three traits, and proved for everything that keeps their
//! clauses. A call that fails can't lie: each fault raises a count, and the clauses tie every
//! answer `Failed` to a count that rose in that very call. Contents may be told, as those in
//! memory are, or not, as those of a disk, about which no proof knows anything.
//!
//! - `files`: the trait `Files`, and why a read or write may end early. Begin here.
//! - `sink`: the trait `Sink`, which takes printed bytes.
//! - `gate`: the trait `Gate`, by which a test may hold a worker, and `OpenGate`.
//! - `memory_files`, `memory_sink`: `MemFiles` and `MemSink`, which tell all and fail on demand.
//! - `disk`, `output`: `DiskFiles` and `StdSink`, thin adapters that tell no contents. `pieces`: a
//!   reader's bytes, read one piece after another.
//! - `workers`: how many workers there are, from 1 to 64.
//! - `cursor`: `Cursor`, which takes fields from the front of bytes.
//! - `slot`, `slots`: one name of `MemFiles`, and the list of them. `calls`: which calls fail.
//!
//! The clauses are the relations of `specs/Outside.antt`: `ReadsFile`, `MakesRoom`, `WritesFile`
//! and `TakesPiece`. Calls that take memory have `alloc`, and change nothing where it runs out.
//! What files and a sink in memory do is said exactly, in `specs/Shelf.antt` and
//! `specs/Buffer.antt`.
#![tactic(auto)]

mod calls;
mod cursor;
mod disk;
mod files;
mod gate;
mod memory_files;
mod memory_sink;
mod output;
mod pieces;
mod sink;
mod slot;
mod slots;
#[cfg(test)]
mod tests;
mod workers;

pub use cursor::Cursor;
pub use disk::DiskFiles;
pub use files::{Failed, Files, NoMemory, ReadEnd};
pub use gate::{Gate, OpenGate};
pub use memory_files::MemFiles;
pub use memory_sink::MemSink;
pub use output::StdSink;
pub use sink::Sink;
pub use workers::Workers;
