//! Ascending lists of values as finite sets and maps: what is found, and what a change leaves.

ghost use Rattle.std.specs.Prelude.{◌≡◌, ◌≢◌, ◌+◌, ◌↔◌, List, IsTrue, false, is_some, length, if◌then◌else◌};
ghost use Rattle.std.specs.List.Sorted.{IsStrictlySortedBy};
ghost use Rattle.std.specs.FinMap.{is_sorted};
ghost use Rattle.value_core.specs.declared.ty.Ty.TheVariants as ty;
ghost use Rattle.value_core.specs.declared.ty.Ty.{Ty};
ghost use Rattle.value_core.specs.declared.val.Val.TheVariants as val;
ghost use Rattle.value_core.specs.declared.val.Val.{Val};
ghost use Rattle.value_core.specs.Order.{order};
ghost use Rattle.value_core.specs.Size.{entry_size, size_of};
ghost use Rattle.value_core.specs.Sorted.{find, has, keys_of, put, with_key, without, without_key};
ghost use Rattle.value_core.specs.Sound.{ascends, is_countable, is_sound};
ghost use Rattle.value_core.specs.Typed.{has_type};

/// Each item below the next is each below all after it, and lists that answer alike are equal.
pub fn ascending_lists_are_sets_and_maps()
    ensures items { (vs : List Val) → IsTrue (ascends vs) ↔ IsStrictlySortedBy order vs }
    ensures entries { (es : List (Val × Val)) → ascends (keys_of es) ≡ is_sorted order es }
    ensures same_sets { (vs ws : List Val) → IsTrue (ascends vs) → IsTrue (ascends ws)
        → ((q : Val) → has order q vs ≡ has order q ws) → vs ≡ ws }
    ensures same_maps { (es fs : List (Val × Val)) → IsTrue (ascends (keys_of es))
        → IsTrue (ascends (keys_of fs)) → ((q : Val) → find order q es ≡ find order q fs)
        → es ≡ fs }
{}

/// After an insertion a set has the key, and else what it had.
pub fn a_set_has_what_is_inserted()
    ensures there { (vs : List Val) (k : Val) → IsTrue (has order k (with_key order k vs)) }
    ensures others { (vs : List Val) (k q : Val) → q ≢ k
        → has order q (with_key order k vs) ≡ has order q vs }
    ensures ascends { (vs : List Val) (k : Val) → IsTrue (ascends vs)
        → IsTrue (ascends (with_key order k vs)) }
    ensures length { (vs : List Val) (k : Val) → IsTrue (ascends vs)
        → length (with_key order k vs)
        ≡ (if has order k vs then length vs else length vs + 1) }
    ensures size { (vs : List Val) (k : Val) → IsTrue (ascends vs)
        → size_of (val.Set (with_key order k vs))
        ≡ size_of (val.Set vs) + (if has order k vs then 0 else size_of k) }
    ensures sound { (vs : List Val) (k : Val) → IsTrue (is_sound (val.Set vs))
        → IsTrue (is_sound k) → IsTrue (is_countable (with_key order k vs))
        → IsTrue (is_sound (val.Set (with_key order k vs))) }
    ensures typed { (t : Ty) (vs : List Val) (k : Val) → IsTrue (has_type (val.Set vs) (ty.Set t))
        → IsTrue (has_type k t) → IsTrue (is_countable (with_key order k vs))
        → IsTrue (has_type (val.Set (with_key order k vs)) (ty.Set t)) }
{}

/// After a removal a set lacks the key, and has what else it had.
pub fn a_set_lacks_what_is_removed()
    ensures gone { (vs : List Val) (k : Val) → has order k (without_key order k vs) ≡ false }
    ensures others { (vs : List Val) (k q : Val) → q ≢ k
        → has order q (without_key order k vs) ≡ has order q vs }
    ensures ascends { (vs : List Val) (k : Val) → IsTrue (ascends vs)
        → IsTrue (ascends (without_key order k vs)) }
    ensures length { (vs : List Val) (k : Val) → IsTrue (ascends vs)
        → (if has order k vs then 1 else 0) + length (without_key order k vs) ≡ length vs }
    ensures size { (vs : List Val) (k : Val) → IsTrue (ascends vs)
        → size_of (val.Set (without_key order k vs)) + (if has order k vs then size_of k else 0)
        ≡ size_of (val.Set vs) }
    ensures sound { (vs : List Val) (k : Val) → IsTrue (is_sound (val.Set vs))
        → IsTrue (is_sound (val.Set (without_key order k vs))) }
    ensures typed { (t : Ty) (vs : List Val) (k : Val) → IsTrue (has_type (val.Set vs) (ty.Set t))
        → IsTrue (has_type (val.Set (without_key order k vs)) (ty.Set t)) }
{}

/// After an insertion a map has the value at the key, and elsewhere what it had.
pub fn a_map_has_what_is_put()
    ensures there { (es : List (Val × Val)) (k v : Val)
        → find order k (put order k v es) ≡ Some v }
    ensures others { (es : List (Val × Val)) (k v q : Val) → q ≢ k
        → find order q (put order k v es) ≡ find order q es }
    ensures ascends { (es : List (Val × Val)) (k v : Val) → IsTrue (ascends (keys_of es))
        → IsTrue (ascends (keys_of (put order k v es))) }
    ensures length { (es : List (Val × Val)) (k v : Val) → IsTrue (ascends (keys_of es))
        → length (put order k v es)
        ≡ (if is_some (find order k es) then length es else length es + 1) }
    ensures new_size { (es : List (Val × Val)) (k v : Val) → find order k es ≡ None
        → size_of (val.Map (put order k v es)) ≡ size_of (val.Map es) + entry_size (k, v) }
    ensures changed_size { (es : List (Val × Val)) (k v w : Val) → IsTrue (ascends (keys_of es))
        → find order k es ≡ Some w
        → size_of (val.Map (put order k v es)) + size_of w ≡ size_of (val.Map es) + size_of v }
    ensures sound { (es : List (Val × Val)) (k v : Val) → IsTrue (is_sound (val.Map es))
        → IsTrue (is_sound k) → IsTrue (is_sound v) → IsTrue (is_countable (put order k v es))
        → IsTrue (is_sound (val.Map (put order k v es))) }
    ensures typed { (s t : Ty) (es : List (Val × Val)) (k v : Val)
        → IsTrue (has_type (val.Map es) (ty.Map s t)) → IsTrue (has_type k s)
        → IsTrue (has_type v t) → IsTrue (is_countable (put order k v es))
        → IsTrue (has_type (val.Map (put order k v es)) (ty.Map s t)) }
{}

/// After a removal a map has nothing at the key, and elsewhere what it had.
pub fn a_map_lacks_what_is_removed()
    ensures gone { (es : List (Val × Val)) (k : Val)
        → find order k (without order k es) ≡ None }
    ensures others { (es : List (Val × Val)) (k q : Val) → q ≢ k
        → find order q (without order k es) ≡ find order q es }
    ensures absent { (es : List (Val × Val)) (k : Val) → find order k es ≡ None
        → without order k es ≡ es }
    ensures ascends { (es : List (Val × Val)) (k : Val) → IsTrue (ascends (keys_of es))
        → IsTrue (ascends (keys_of (without order k es))) }
    ensures length { (es : List (Val × Val)) (k : Val) → IsTrue (ascends (keys_of es))
        → (if is_some (find order k es) then 1 else 0) + length (without order k es)
        ≡ length es }
    ensures size { (es : List (Val × Val)) (k v : Val) → IsTrue (ascends (keys_of es))
        → find order k es ≡ Some v
        → size_of (val.Map (without order k es)) + entry_size (k, v) ≡ size_of (val.Map es) }
    ensures sound { (es : List (Val × Val)) (k : Val) → IsTrue (is_sound (val.Map es))
        → IsTrue (is_sound (val.Map (without order k es))) }
    ensures typed { (s t : Ty) (es : List (Val × Val)) (k : Val)
        → IsTrue (has_type (val.Map es) (ty.Map s t))
        → IsTrue (has_type (val.Map (without order k es)) (ty.Map s t)) }
{}
