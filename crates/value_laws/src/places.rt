//! Which big maps a type has, and where those of a value stand.

ghost use Rattle.std.specs.Prelude.{◌≡◌, ◌≢◌, ◌↔◌, ◌∷◌, ◌++◌, [], IsTrue, length};
ghost use Rattle.std.specs.List.{range_with_len};
ghost use Rattle.value_core.specs.BigMaps.{big_maps_of, is_placed, placing, places_of};
ghost use Rattle.value_core.specs.Typed.{fits};
ghost use Rattle.value_core.specs.declared.ty.Ty.{Ty};
ghost use Rattle.value_core.specs.declared.ty.Ty.TheVariants as kind;
ghost use Rattle.value_core.specs.declared.val.Val.{Val};

/// The big maps of a type are those on the path of pairs from its root, from the left.
pub fn big_maps_stand_on_the_path_of_pairs()
    ensures pair { (s t : Ty) → big_maps_of (kind.Pair s t) ≡ big_maps_of s ++ big_maps_of t }
    ensures big_map { (k w : Ty) → big_maps_of (kind.BigMap k w) ≡ (k, w) ∷ [] }
    ensures other { (t : Ty) → ((s u : Ty) → t ≢ kind.Pair s u) →
        ((k w : Ty) → t ≢ kind.BigMap k w) → big_maps_of t ≡ [] }
{}

/// A value has a big map for each of its type, and they stand at their own places where these are
/// 0, 1, 2 and so on, from the left.
pub fn big_maps_stand_at_their_own_places()
    ensures each { (v : Val) (t : Ty) → IsTrue (fits v t) →
        length (places_of t v) ≡ length (big_maps_of t) }
    ensures placed { (v : Val) (t : Ty) → IsTrue (fits v t) →
        IsTrue (is_placed v t) ↔ (places_of t v ≡ range_with_len 0 (length (big_maps_of t))) }
    ensures counted { (t : Ty) → (placing t).0 ≡ length (big_maps_of t) }
{}
