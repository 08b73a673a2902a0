//! What is true of values and their types: each law is a clause.

ghost use Rattle.std.specs.Prelude.{◌≡◌, ◌<◌, ◌≤◌, ◌&&◌, Bool, IsTrue, List, length, map, ℕ, ℤ};
ghost use Rattle.std.specs.List.{AllByRecursion, list_all};
ghost use Rattle.value_core.specs.Everywhere.{everywhere};
ghost use Rattle.value_core.specs.Forms.{IsBigMap, IsListOf, IsMapOf, IsMutez, IsNat, IsOptionOf, IsOrOf, IsPairOf, IsSetOf, are_entries_of, are_of};
ghost use Rattle.value_core.specs.Layer.{Layer, parts_of};
ghost use Rattle.value_core.specs.Size.{size_of};
ghost use Rattle.value_core.specs.Sound.{ascends, is_countable};
ghost use Rattle.value_core.specs.Typed.{has_type};
ghost use Rattle.value_core.specs.declared.ty.Ty.{Ty};
ghost use Rattle.value_core.specs.declared.val.Val.{Val};
ghost use Rattle.value_core.specs.declared.val.Val.TheViews.{out-Val};
ghost use Rattle.value_core.specs.declared.ty.Ty.TheVariants as kind;
ghost use Rattle.value_core.specs.declared.val.Val.TheVariants as value;

/// A test holds everywhere in a value where it holds at its own level and everywhere in its parts.
pub fn everywhere_is_here_and_in_the_parts()
    ensures { (p : Layer Val → Bool) (v : Val) →
        everywhere p v ≡ (p (out-Val v) && list_all (everywhere p) (parts_of (out-Val v))) }
{}

/// A value has the type that is built of its parts' types; a list, set or map of fewer than 2^32
/// items, and a set or map in ascending order.
pub fn types_go_by_parts()
    ensures some { (v : Val) (t : Ty) → has_type (value.Some v) (kind.Option t) ≡ has_type v t }
    ensures left { (v : Val) (s t : Ty) → has_type (value.Left v) (kind.Or s t) ≡ has_type v s }
    ensures right { (v : Val) (s t : Ty) → has_type (value.Right v) (kind.Or s t) ≡ has_type v t }
    ensures pair { (a b : Val) (s t : Ty) →
        has_type (value.Pair a b) (kind.Pair s t) ≡ (has_type a s && has_type b t) }
    ensures list { (items : List Val) (t : Ty) →
        has_type (value.List items) (kind.List t) ≡ (is_countable items && are_of t items) }
    ensures set { (items : List Val) (t : Ty) →
        has_type (value.Set items) (kind.Set t) ≡
        ((is_countable items && ascends items) && are_of t items) }
    ensures map { (entries : List (Val × Val)) (k w : Ty) →
        has_type (value.Map entries) (kind.Map k w) ≡
        ((is_countable entries && ascends (map (λ e. e.0) entries)) && are_entries_of k w entries) }
{}

/// A value of a type with parts is built of values of the parts' types.
pub fn typed_values_have_their_form()
    ensures option { (v : Val) (t : Ty) → IsTrue (has_type v (kind.Option t)) → IsOptionOf t v }
    ensures or { (v : Val) (s t : Ty) → IsTrue (has_type v (kind.Or s t)) → IsOrOf s t v }
    ensures pair { (v : Val) (s t : Ty) → IsTrue (has_type v (kind.Pair s t)) → IsPairOf s t v }
    ensures list { (v : Val) (t : Ty) → IsTrue (has_type v (kind.List t)) → IsListOf t v }
    ensures set { (v : Val) (t : Ty) → IsTrue (has_type v (kind.Set t)) → IsSetOf t v }
    ensures map { (v : Val) (k w : Ty) → IsTrue (has_type v (kind.Map k w)) → IsMapOf k w v }
    ensures big_map { (v : Val) (k w : Ty) → IsTrue (has_type v (kind.BigMap k w)) → IsBigMap v }
{}

/// A value of a scalar type is the scalar of its name; a nat isn't below 0, and an amount is below
/// 2^63.
pub fn typed_scalars_have_their_form()
    ensures unit { (v : Val) → IsTrue (has_type v kind.Unit) → v ≡ value.Unit }
    ensures bool { (v : Val) → IsTrue (has_type v kind.Bool) → (b : Bool) × (v ≡ value.Bool b) }
    ensures int { (v : Val) → IsTrue (has_type v kind.Int) → (n : ℤ) × (v ≡ value.Int n) }
    ensures nat { (v : Val) → IsTrue (has_type v kind.Nat) → IsNat v }
    ensures mutez { (v : Val) → IsTrue (has_type v kind.Mutez) → IsMutez v }
    ensures time { (v : Val) → IsTrue (has_type v kind.Time) → (n : ℤ) × (v ≡ value.Time n) }
    ensures text { (v : Val) → IsTrue (has_type v kind.Text) → (s : List ℕ) × (v ≡ value.Text s) }
    ensures bytes { (v : Val) → IsTrue (has_type v kind.Bytes) →
        (s : List ℕ) × (v ≡ value.Bytes s) }
    ensures addr { (v : Val) → IsTrue (has_type v kind.Addr) → (a : List ℕ) × (v ≡ value.Addr a) }
{}

/// A value has a size of at least 1, a list, set or map of more than what is in it, and no part is
/// larger than the whole.
pub fn sizes_count_what_is_there()
    ensures one { (v : Val) → 1 ≤ size_of v }
    ensures list { (items : List Val) → length items < size_of (value.List items) }
    ensures set { (items : List Val) → length items < size_of (value.Set items) }
    ensures map { (entries : List (Val × Val)) → length entries < size_of (value.Map entries) }
    ensures parts { (v : Val) →
        AllByRecursion (λ part. size_of part ≤ size_of v) (parts_of (out-Val v)) }
{}
