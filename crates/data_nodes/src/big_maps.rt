//! How many big maps a storage has.

ghost use Rattle.std.specs.Prelude.{◌≤◌, ◌↔◌, IsTrue, length};
ghost use Rattle.value_core.specs.BigMaps.{big_maps_of};

use value_core::{Ty, count_big_maps};

/// The places for big maps in a storage.
const PLACES: u64 = 16;

/// Whether a storage of the type has at most 16 big maps.
pub fn has_few_big_maps(t: &Ty) -> bool
    ensures { IsTrue result ↔ (length (big_maps_of t.now) ≤ 16) }
{
    count_big_maps(t) <= PLACES
}
