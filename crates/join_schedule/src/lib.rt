//! The order that a block publishes among its operations, and whether it orders their conflicts.
//!
//! A block joins each operation to some earlier ones. An operation is before another if that one is
//! joined to it, or to an operation that it is before. The joins cover the footprints if of any two
//! operations whose footprints conflict the earlier one is before the later one.
//!
//! - `laws`: what is true of lists of joins and of footprints.
//! - `joins`: the published lists. Begin here.
//! - `bad`: the first list that is no list of joins.
//! - `before`: for each operation the set of those before it, built once.
//! - `toucher`: for each cell the operations that touched it so far.
//! - `unordered`: the first conflict that the joins leave without an order.
//!
//! `bad_join` and `first_unordered` answer by relations that know no order of checking.
#![tactic(auto)]

mod bad;
mod before;
mod joins;
mod laws;
mod toucher;
mod unordered;

pub use bad::bad_join;
pub use joins::Joins;
pub use laws::{joins_cover_or_one_is_unordered, lists_are_joins_or_one_is_bad};
pub use unordered::first_unordered;

#[cfg(test)]
mod tests;
