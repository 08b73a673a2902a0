//! Which types a value of each kind has.

ghost use Rattle.std.specs.Prelude.{◌≡◌, Bool, IsTrue, List, ℕ, ℤ};
ghost use Rattle.value_core.specs.Forms.{are_entries_of, are_of};
ghost use Rattle.value_core.specs.Typed.{has_type};
ghost use Rattle.value_core.specs.declared.ty.Ty.{Ty};
ghost use Rattle.value_core.specs.declared.ty.Ty.TheVariants as kind;
ghost use Rattle.value_core.specs.declared.val.Emit.{Emit};
ghost use Rattle.value_core.specs.declared.val.Val.{Val};
ghost use Rattle.value_core.specs.declared.val.Val.TheVariants as value;

/// A value has types of its own kind alone, and its parts have the types' parts.
pub fn a_value_has_types_of_its_kind_alone()
    // Values without typed parts.
    ensures unit { (t : Ty) → IsTrue (has_type value.Unit t) → t ≡ kind.Unit }
    ensures bool { (b : Bool) (t : Ty) → IsTrue (has_type (value.Bool b) t) → t ≡ kind.Bool }
    ensures int { (n : ℤ) (t : Ty) → IsTrue (has_type (value.Int n) t) → t ≡ kind.Int }
    ensures nat { (n : ℤ) (t : Ty) → IsTrue (has_type (value.Nat n) t) → t ≡ kind.Nat }
    ensures mutez { (n : ℕ) (t : Ty) → IsTrue (has_type (value.Mutez n) t) → t ≡ kind.Mutez }
    ensures time { (n : ℤ) (t : Ty) → IsTrue (has_type (value.Time n) t) → t ≡ kind.Time }
    ensures text { (text : List ℕ) (t : Ty) → IsTrue (has_type (value.Text text) t) →
        t ≡ kind.Text }
    ensures bytes { (bytes : List ℕ) (t : Ty) → IsTrue (has_type (value.Bytes bytes) t) →
        t ≡ kind.Bytes }
    ensures addr { (address : List ℕ) (t : Ty) → IsTrue (has_type (value.Addr address) t) →
        t ≡ kind.Addr }
    ensures operation { (emit : Emit) (t : Ty) → IsTrue (has_type (value.Operation emit) t) →
        t ≡ kind.Operation }
    ensures nothing { (t : Ty) → IsTrue (has_type value.Nothing t) →
        (s : Ty) × (t ≡ kind.Option s) }
    ensures big_map { (place version : ℕ) (t : Ty) →
        IsTrue (has_type (value.BigMap place version) t) → (k w : Ty) × (t ≡ kind.BigMap k w) }
    ensures contract { (address entry : List ℕ) (t : Ty) →
        IsTrue (has_type (value.Contract address entry) t) → (s : Ty) × (t ≡ kind.Contract s) }

    // Values with parts.
    ensures some { (v : Val) (t : Ty) → IsTrue (has_type (value.Some v) t) →
        (s : Ty) × (t ≡ kind.Option s) × IsTrue (has_type v s) }
    ensures left { (v : Val) (t : Ty) → IsTrue (has_type (value.Left v) t) →
        (s u : Ty) × (t ≡ kind.Or s u) × IsTrue (has_type v s) }
    ensures right { (v : Val) (t : Ty) → IsTrue (has_type (value.Right v) t) →
        (s u : Ty) × (t ≡ kind.Or s u) × IsTrue (has_type v u) }
    ensures pair { (a b : Val) (t : Ty) → IsTrue (has_type (value.Pair a b) t) →
        (s u : Ty) × (t ≡ kind.Pair s u) × IsTrue (has_type a s) × IsTrue (has_type b u) }
    ensures list { (items : List Val) (t : Ty) → IsTrue (has_type (value.List items) t) →
        (s : Ty) × (t ≡ kind.List s) × IsTrue (are_of s items) }
    ensures set { (items : List Val) (t : Ty) → IsTrue (has_type (value.Set items) t) →
        (s : Ty) × (t ≡ kind.Set s) × IsTrue (are_of s items) }
    ensures map { (entries : List (Val × Val)) (t : Ty) → IsTrue (has_type (value.Map entries) t) →
        (k w : Ty) × (t ≡ kind.Map k w) × IsTrue (are_entries_of k w entries) }
{}
