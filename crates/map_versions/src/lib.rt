//! Versions of maps, each one change away from another.
//!
//! A run changes its big maps without changing them in place: a change of any version makes a new
//! one, and old versions may be looked at and changed again. `Versions` holds the changes of each
//! version, in the order of keys, as search trees that share what they have in common.
//!
//! - `versions`: the versions, by their numbers from 1. Begin here.
//! - `trees`: balanced search trees whose nodes are numbered and never change.
//!
//! A look-up and a change take a logarithm of the number of changes in the version, whatever was
//! done before. How balanced the trees are isn't proved; what stands in them is.
#![tactic(auto)]

#[cfg(test)]
mod tests;
mod trees;
mod versions;

pub use versions::Versions;
