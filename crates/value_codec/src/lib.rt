//! Values as bytes.
//!
//! A plain value at most 128 deep has one spelling: a tag, and behind it what the value holds
//! (docs/FORMATS.md, "Values"). No spelling begins another, so a value can stand in front
//! of other bytes.
//!
//! - `laws`: bytes and values, one to one. `tag`: the greatest tag that may stand in a value.
//! - `writer`: `write_val` appends the spelling. Begin here.
//! - `reader`: `read_val` reads a value back, or tells the place of the first fault; `leaves` reads
//!   the values without parts.
//!
//! `specs/Spelling.antt` says which bytes a value has, one line a row of the table, and
//! `specs/Reading.antt` which fault bytes have that spell no value.
#![tactic(auto)]

mod laws;
mod leaves;
mod reader;
mod tag;
mod writer;

pub use byte_fields::{At, FieldFault};
pub use laws::values_have_one_spelling;
pub use leaves::address_at;
pub use reader::{read_val, value_at};
pub use tag::{ANY_VALUE, KEY_VALUE, PASSED_VALUE};
pub use writer::{put_val, spelling, write_val};

#[cfg(test)]
mod tests;
