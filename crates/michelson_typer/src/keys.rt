//! Types as a script writes them: keys, big maps, and what may stand in parameter and storage.

ghost use Rattle.std.specs.Prelude.{◌≡◌, length};
ghost use Rattle.value_core.specs.BigMaps.{big_maps_of};
ghost use Rattle.value_core.specs.Counting.{room_behind};
ghost use Rattle.michelson_code.specs.WrittenTypes.{has_comparable_keys, has_passable_values, has_placed_big_maps, is_free_of_big_maps, is_kept};

use value_core::{Ty, is_comparable, is_passable};

/// Whether keys and elements are comparable.
#[tactic(auto, using(crate::proofs::WrittenLaws::written_parts))]
pub(crate) fn has_comparable_keys(t: &Ty) -> bool
    ensures { result ≡ has_comparable_keys t.now }
{
    let mut rest = t;
    loop {
        match rest {
            Ty::Set(part) => {
                if !is_comparable(part.get()) {
                    return false;
                }
                rest = part.get();
            }
            Ty::Map(first, last) | Ty::BigMap(first, last) => {
                if !is_comparable(first.get()) || !has_comparable_keys(first.get()) {
                    return false;
                }
                rest = last.get();
            }
            Ty::Or(first, last) | Ty::Pair(first, last) => {
                if !has_comparable_keys(first.get()) {
                    return false;
                }
                rest = last.get();
            }
            Ty::Option(part) | Ty::List(part) | Ty::Contract(part) => rest = part.get(),
            Ty::Unit
            | Ty::Bool
            | Ty::Int
            | Ty::Nat
            | Ty::Mutez
            | Ty::Time
            | Ty::Text
            | Ty::Bytes
            | Ty::Addr
            | Ty::Operation => return true,
        }
    }
}

/// Whether the values of big maps are passable.
#[tactic(auto, using(crate::proofs::WrittenLaws::written_parts))]
pub(crate) fn has_passable_values(t: &Ty) -> bool
    ensures { result ≡ has_passable_values t.now }
{
    let mut rest = t;
    loop {
        match rest {
            Ty::BigMap(first, last) => {
                if !is_passable(last.get()) || !has_passable_values(first.get()) {
                    return false;
                }
                rest = last.get();
            }
            Ty::Or(first, last) | Ty::Pair(first, last) | Ty::Map(first, last) => {
                if !has_passable_values(first.get()) {
                    return false;
                }
                rest = last.get();
            }
            Ty::Option(part) | Ty::List(part) | Ty::Set(part) | Ty::Contract(part) => {
                rest = part.get();
            }
            Ty::Unit
            | Ty::Bool
            | Ty::Int
            | Ty::Nat
            | Ty::Mutez
            | Ty::Time
            | Ty::Text
            | Ty::Bytes
            | Ty::Addr
            | Ty::Operation => return true,
        }
    }
}

/// Whether no contract and no operation stands in the type.
pub(crate) fn is_kept(t: &Ty) -> bool
    ensures { result ≡ is_kept t.now }
{
    let mut rest = t;
    loop {
        match rest {
            Ty::Or(first, last)
            | Ty::Pair(first, last)
            | Ty::Map(first, last)
            | Ty::BigMap(first, last) => {
                if !is_kept(first.get()) {
                    return false;
                }
                rest = last.get();
            }
            Ty::Option(part) | Ty::List(part) | Ty::Set(part) => rest = part.get(),
            Ty::Contract(_) | Ty::Operation => return false,
            Ty::Unit
            | Ty::Bool
            | Ty::Int
            | Ty::Nat
            | Ty::Mutez
            | Ty::Time
            | Ty::Text
            | Ty::Bytes
            | Ty::Addr => return true,
        }
    }
}

/// Whether no big map stands in the type.
pub(crate) fn is_free_of_big_maps(t: &Ty) -> bool
    ensures { result ≡ is_free_of_big_maps t.now }
{
    let mut rest = t;
    loop {
        match rest {
            Ty::Or(first, last) | Ty::Pair(first, last) | Ty::Map(first, last) => {
                if !is_free_of_big_maps(first.get()) {
                    return false;
                }
                rest = last.get();
            }
            Ty::Option(part) | Ty::List(part) | Ty::Set(part) | Ty::Contract(part) => {
                rest = part.get();
            }
            Ty::BigMap(_, _) => return false,
            Ty::Unit
            | Ty::Bool
            | Ty::Int
            | Ty::Nat
            | Ty::Mutez
            | Ty::Time
            | Ty::Text
            | Ty::Bytes
            | Ty::Addr
            | Ty::Operation => return true,
        }
    }
}

/// Whether each big map stands on the path of pairs from the root.
#[tactic(auto, using(crate::proofs::WrittenLaws::placed_parts))]
pub(crate) fn has_placed_big_maps(t: &Ty) -> bool
    ensures { result ≡ has_placed_big_maps t.now }
{
    let mut rest = t;
    loop {
        match rest {
            Ty::Pair(first, last) => {
                if !has_placed_big_maps(first.get()) {
                    return false;
                }
                rest = last.get();
            }
            Ty::BigMap(first, last) => {
                return is_free_of_big_maps(first.get()) && is_free_of_big_maps(last.get());
            }
            other => return is_free_of_big_maps(other),
        }
    }
}

/// How many places are left of so many by the big maps on the path of pairs from the root; none
/// where they are too few.
pub(crate) fn places_behind(t: &Ty, places: u8) -> Option<u8>
    ensures { result ≡ room_behind (length (big_maps_of t.now)) places }
{
    let mut rest = t;
    let mut left = places;
    loop {
        match rest {
            Ty::Pair(first, last) => {
                left = places_behind(first.get(), left)?;
                rest = last.get();
            }
            Ty::BigMap(_, _) => return left.checked_sub(1),
            _ => return Some(left),
        }
    }
}
