//! Equations of values: what each definition over values says of each kind of value.
//!
//! The definitions stand in `value_core`, most of them said once for one level of a value. Here
//! each has an equation for each kind of value, so that a proof about pairs or big maps cites one
//! clause and never looks at levels. Together with the laws of `value_core` every kind has one.
//!
//! - `soundness`: which values are sound, and which are plain. Begin here.
//! - `measures`: how deep values and types are, and how large values.
//! - `order`: the tag of each kind; values of two tags stand as the tags do, others as what they
//!   hold.
//! - `places`: which big maps a type has, and where those of a value stand.
//! - `types`: which type a value without typed parts has, and what values of the types of contracts
//!   and operations are.
//! - `uses`: which types may be passed, and which may be compared.
//! - `induction`: what holds of a value or a type where it holds of the parts always holds.
//! - `kinds`: the other way round, which types a value of each kind has.
//!
//! Each law is the clause of a function that does nothing, and nothing here takes memory.
#![tactic(auto)]

mod induction;
mod kinds;
mod measures;
mod order;
mod places;
mod soundness;
mod types;
mod uses;

pub use induction::what_passes_with_its_parts_always_passes;
pub use kinds::a_value_has_types_of_its_kind_alone;
pub use measures::{depth_goes_by_parts, depth_of_types_goes_by_parts, sizes_go_by_parts};
pub use order::{order_goes_by_tag_and_parts, tags_go_by_kind};
pub use places::{big_maps_stand_at_their_own_places, big_maps_stand_on_the_path_of_pairs};
pub use soundness::{plainness_goes_by_parts, soundness_goes_by_parts};
pub use types::{typed_calls_have_their_form, types_go_by_kind};
pub use uses::{comparing_goes_by_parts, passing_goes_by_parts};
