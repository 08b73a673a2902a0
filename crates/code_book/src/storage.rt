//! Values at a storage's type, and the types of its big maps.

ghost use Rattle.std.specs.Prelude.{◌≡◌, slice_get, MatchOption};
ghost use Rattle.value_core.specs.BigMaps.{big_maps_of};
ghost use Rattle.code_book.specs.Fits.{is_balance, is_kept_as, fits_big_map};

use value_core::{Ty, Val, count_big_maps, has_type, is_placed, is_plain};

/// All money stays below it.
const MONEY_END: u64 = 1 << 63;

/// Whether it is an amount of money above 0.
pub(crate) fn is_balance(v: &Val) -> bool
    ensures { result ≡ is_balance v.now }
{
    match v {
        Val::Mutez(amount) => 0 < *amount && *amount < MONEY_END,
        _ => false,
    }
}

/// Whether it may be kept as a storage of the type: plain, and each big map at its own place.
pub(crate) fn is_kept_as(t: &Ty, v: &Val) -> bool
    ensures { result ≡ is_kept_as t.now v.now }
{
    is_plain(v) && has_type(v, t) && is_placed(v, t)
}

/// The types of the keys and the values of the big map at a place, where the type has one.
fn big_map_at(t: &Ty, place: u8) -> Option<(&Ty, &Ty)>
    ensures { MatchOption result (slice_get (big_maps_of t.now) place ≡ None)
        (λ m. slice_get (big_maps_of t.now) place ≡ Some (m.0.now, m.1.now)) }
{
    match t {
        Ty::Pair(first, second) => {
            let count = count_big_maps(first.get());
            if u64::from(place) < count {
                big_map_at(first.get(), place)
            } else {
                big_map_at(second.get(), place - count as u8)
            }
        }
        Ty::BigMap(keys, values) => {
            if place == 0 {
                Some((keys.get(), values.get()))
            } else {
                None
            }
        }
        _ => None,
    }
}

/// Whether a storage type has a big map at the place, of the types of a key and a value.
pub(crate) fn fits_big_map(t: &Ty, place: u8, key: &Val, v: &Val) -> bool
    ensures { result ≡ fits_big_map (slice_get (big_maps_of t.now) place) key.now v.now }
{
    match big_map_at(t, place) {
        Some((keys, values)) => has_type(key, keys) && has_type(v, values),
        None => false,
    }
}
