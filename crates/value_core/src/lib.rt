//! Values of contract data: their types, their order and size, and which value has which type.
//!
//! A value is a tree of `Val`, a type a tree of `Ty`. Contracts see both as plain trees without
//! pointers, so that a copy equals what it copies. Their leaves are seen as numbers and lists of
//! bytes, and each leaf keeps its own rule as an invariant: a `Num` is a whole number from
//! -(2^127 - 1) to 2^127 - 1, a `Text` a list of at most 131,071 printable bytes, and so on.
//!
//! - `laws`: what is true of all values and types, each law a clause.
//! - `val`, `ty`: the two trees, and the operation that a contract emits. Begin here.
//! - `num`, `text`, `address`, `name`: the leaves, each made from outside data by its rule.
//! - `copying`, `sameness`: equal values, and whether two are equal.
//! - `ordering`: the order of values, which goes by tag first. `order_is_total` says that it is
//!   a total order, in which equal values alone tie.
//! - `sizing`: how large a value is.
//! - `soundness`: ranges, counts, and the order of items and keys.
//! - `lawfulness`: each leaf of a value that the program holds keeps its rule, whatever the value.
//! - `sorted`, `inserting`, `sorted_laws`: sets and maps as ascending lists, in which a key is found
//!   by halving, and what an insertion or a removal leaves.
//! - `plainness`: which values may be written and kept.
//! - `depth`, `limits`: whether values and types are too deep or too large, without a look at more
//!   than there may be.
//! - `big_maps`: the big maps of a type, and whether those of a value stand at their own places.
//! - `kinds`, `typing`: what a type may be used for, and which values have it.
//!
//! A definition over all values is said once for one level of a value, in `specs/Layer.antt`:
//! its tag, what stands in it, and its parts. Every public call equals its definition in
//! `specs/`. Only copies, the makers of values and insertions take memory. A loop follows the last
//! parts of pairs, so recursion goes as deep as brackets in a text, however long its lists and
//! combs are.
#![tactic(auto)]

mod address;
mod big_maps;
mod copying;
mod depth;
mod inserting;
mod kinds;
mod lawfulness;
mod laws;
mod limits;
mod memory;
mod name;
mod num;
mod ordering;
mod plainness;
mod sameness;
mod sizing;
mod small;
mod sorted;
mod sorted_laws;
mod soundness;
#[cfg(test)]
mod tests;
mod text;
mod ty;
mod typing;
mod val;

pub use address::{Address, AddressFault};
pub use big_maps::{count_big_maps, has_no_big_map, is_placed};
pub use depth::{is_within_depth, type_is_within_depth};
pub use inserting::{map_put, set_insert};
pub use kinds::{is_comparable, is_passable};
pub use lawfulness::{leaves_are_lawful, level_is_lawful};
pub use laws::{
    everywhere_is_here_and_in_the_parts, sizes_count_what_is_there, typed_scalars_have_their_form,
    typed_values_have_their_form, types_go_by_parts,
};
pub use limits::{is_within_size, type_is_within_nodes};
pub use memory::NoMemory;
pub use name::Name;
pub use num::Num;
pub use ordering::{compare, order_is_total};
pub use plainness::is_plain;
pub use sizing::size;
pub use sorted::{map_get, map_remove, place_in_map, place_in_set, set_has, set_remove};
pub use sorted_laws::{
    a_map_has_what_is_put, a_map_lacks_what_is_removed, a_set_has_what_is_inserted,
    a_set_lacks_what_is_removed, ascending_lists_are_sets_and_maps,
};
pub use soundness::is_sound;
pub use text::{Blob, Text};
pub use ty::Ty;
pub use typing::{has_type, typed_values_are_plain};
pub use val::{Emit, Val, comb, left, operation, pair, right, some};
