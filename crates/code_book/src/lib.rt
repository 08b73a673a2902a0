//! Contracts by their addresses, and what fits them: entries, cells and accesses.
//!
//! A book is a finite map from the addresses of contracts to their scripts. It says which entries
//! may be called, which values may stand in which cells, and so which accesses are fit. Nothing in
//! a book changes while operations run.
//!
//! - `laws`: accesses and undos keep that a book is a store's; the undo of a fit access is fit.
//! - `book`: the book itself. Begin here.
//! - `listing`: contracts in the order of their addresses, and where one stands.
//! - `fits`: which values may stand in which cells, and which accesses are fit.
//! - `storage`: values at a storage's type, and the big map at a place of it.
//! - `fault`: why a contract isn't added, and why an entry isn't found.
//!
//! Contracts see a book as a finite map. Its type keeps that each script in it is typed, that
//! there are at most 1,024, and that each text has a length in four bytes.
#![tactic(auto)]

mod account;
mod book;
mod fault;
mod fits;
mod laws;
mod listing;
mod storage;
#[cfg(test)]
mod tests;

pub use book::{Book, MOST_CONTRACTS};
pub use fault::{BookEnd, NoEntry};
pub use laws::{a_book_stays_the_stores, the_undo_of_a_fit_access_is_fit};
