//! Fields of bytes: what every format of this repository is read and written with.
//!
//! A format is read from its front to its end. A reader takes the bytes that are left and answers
//! what it read with the bytes after it, or how many bytes are left at the first byte of the faulty
//! field. So no reader counts offsets; `fault_at` and `placed` turn what is left into places, once,
//! at the public call of a format. A reader that takes no memory answers `Left`, and so never that
//! memory ran out; one that takes memory answers `ReadStop`.
//!
//! - `fault`: why reading stopped, inside a format (`Left`, `ReadStop`) and for its callers
//!   (`FieldFault`). Begin here.
//! - `fields`: numbers, runs of bytes and marks.
//! - `draft`: what writers write on, and how one that failed leaves nothing behind.
//!
//! `specs/Readers.antt` has the readers as definitions, made of one another, which tell a faulty
//! field and a lawful one that isn't built yet by its kind; `specs/Told.antt` what a function answers
//! of them; `specs/Laws.antt` the law that joins a reader to a spelling. `proofs/` proves that law for each way of making readers,
//! so that a format above proves its own in a line or two a field.
#![tactic(auto)]

mod draft;
mod fault;
mod fields;

pub use draft::Draft;
pub use fault::{At, FieldFault, Left, ReadStop, fault_at};
pub use fields::{array_at, i128_at, mark_of, run_at, u8_at, u32_at, u64_at};

#[cfg(test)]
mod tests;
