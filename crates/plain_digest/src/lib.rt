//! The digest by which a block names a state.
//!
//! Each balance is a cell with a name (the byte 00 and the address) and a value (the byte 05 and
//! the amount in eight bytes, the highest first). A cell falls into the bucket that is numbered by
//! the first byte of the SHA-256 of its name. A bucket's digest is the SHA-256 of its cells in
//! order, each its name and its value. The digest of a state is the SHA-256 of the digest of its
//! book, here of a book without contracts, and of the 256 buckets' digests. Level and now aren't in
//! it, so a block without operations keeps the digest.
//!
//! - `state`: the one public call, `digest`. Begin here.
//! - `buckets`: a cell's bucket, and the hashers of all buckets, which are fed in one pass.
//!
//! `digest` equals `digest_of` of the state (`specs/Digest.antt`), which stands on `sha2`'s
//! function.
#![tactic(auto)]

mod buckets;
mod state;
#[cfg(test)]
mod tests;

pub use state::digest;
