//! Data as Micheline nodes: read at a type with exact faults, and printed.
//!
//! A node is data of a type where it is written for a value of that type. Which nodes are written
//! for a value doesn't turn on types (docs/MICHELSON.md, "Data"). A storage is data too, in which a
//! map stands for each big map.
//!
//! - `reader`: `read_data`, and the value that a node says at a type. Begin here. `literals` and
//!   `items` read what stands inside.
//! - `storage`: `read_storage` takes the entries of big maps out of a storage; `big_maps` says
//!   whether a type has no more of them than there are places. `joining` puts entries back.
//! - `printer`: values to nodes, and to text.
//! - `fault`: why a node is no data, and where that is told.
//!
//! `specs/Data.antt` is the grammar, one line for each kind of value, and knows no order of reading.
//! `specs/FirstFault.antt` says at which nodes faults stand, and which fault is told: the one before
//! all others. `laws` says that it is what a reader from the left comes upon (`specs/Faults.antt`).
//!
//! A loop follows the last parts of pairs, so recursion goes as deep as brackets in a text, however
//! long its combs are; a node that is printed for a comb is as deep as the comb is long.
#![tactic(auto)]

mod big_maps;
#[cfg(test)]
mod big_maps_tests;
mod fault;
mod items;
mod joining;
mod laws;
#[cfg(test)]
mod limits_tests;
mod literals;
mod printer;
#[cfg(test)]
mod printer_tests;
mod reader;
mod storage;
#[cfg(test)]
mod tests;

pub use big_maps::has_few_big_maps;
pub use fault::{DataFault, DataKind, DataRefusal};
pub use joining::storage_data;
pub use laws::the_first_fault_is_told;
pub use printer::{data_node, print_data};
pub use reader::read_data;
pub use storage::read_storage;
