//! The digest by which a block names a state, and digests that are kept from one state to the next.
//!
//! A cell falls into the bucket that is numbered by the first byte of the SHA-256 of its name. A
//! bucket's digest is the SHA-256 of its cells in order, each its name and its value. The digest of
//! a state is the SHA-256 of its book's digest and of the 256 buckets' digests. Level and `now`
//! aren't in it, so a block without operations keeps the digest (docs/FORMATS.md, "State digest").
//!
//! - `laws`: a list of updates ends with the digest of the last state; digests of one state agree.
//! - `digests`: `digest`, and `Digests`, which an update brings to another state. Begin there.
//! - `steps`: `hash_bucket`, and the counter of its calls.
//! - `shelves`: in which bucket each cell is, so that an update hashes few names. `rows` walks over
//!   the cells, `touched` over the cells that may differ.
//! - `buckets`: the texts of the buckets that are hashed. `naming`: the bucket of a cell.
//!
//! `digest` and `Digests::root` equal `digest_of` of the state (`specs/Digest.antt`), which stands
//! on `sha2`'s function. An update hashes the buckets of the touched cells, and no others.
#![tactic(auto)]

mod buckets;
mod digests;
mod laws;
mod naming;
mod rows;
mod shelves;
mod steps;
#[cfg(test)]
mod tests;
mod touched;

pub use digests::{Digests, digest};
pub use laws::{
    an_untouched_bucket_keeps_its_digest, digests_of_one_state_agree,
    updates_end_with_the_last_state,
};
pub use steps::{Steps, hash_bucket};
