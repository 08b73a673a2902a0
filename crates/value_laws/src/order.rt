//! The tag of each kind of value, and the order of values of two tags and of one kind.

ghost use Rattle.std.specs.Prelude.{◌≡◌, ◌≢◌, Bool, List, if◌then◌else◌, ℕ, ℤ};
ghost use Rattle.std.specs.Cmp.Lexicographic.{slice_cmp};
ghost use Rattle.std.specs.Ordering.{bool_cmp, int_cmp, nat_cmp, ordering_then};
ghost use Rattle.std.specs.declared.cmp.Ordering.TheVariants as than;
ghost use Rattle.value_core.specs.Layer.{flat, tag_of};
ghost use Rattle.value_core.specs.Order.{order, order_emit};
ghost use Rattle.value_core.specs.declared.val.Emit.{Emit};
ghost use Rattle.value_core.specs.declared.val.Val.{Val};
ghost use Rattle.value_core.specs.declared.val.Val.TheVariants as value;
ghost use Rattle.value_core.specs.declared.val.Val.TheViews.{out-Val};

/// A kind has a tag of its own, from 0 for Unit to 20 for operations; true and false have one each.
pub fn tags_go_by_kind()
    ensures unit { tag_of (out-Val value.Unit) ≡ 0 }
    ensures bool { (b : Bool) → tag_of (out-Val (value.Bool b)) ≡ (if b then 2 else 1) }
    ensures int { (n : ℤ) → tag_of (out-Val (value.Int n)) ≡ 3 }
    ensures nat { (n : ℤ) → tag_of (out-Val (value.Nat n)) ≡ 4 }
    ensures mutez { (n : ℕ) → tag_of (out-Val (value.Mutez n)) ≡ 5 }
    ensures time { (n : ℤ) → tag_of (out-Val (value.Time n)) ≡ 6 }
    ensures text { (text : List ℕ) → tag_of (out-Val (value.Text text)) ≡ 7 }
    ensures bytes { (bytes : List ℕ) → tag_of (out-Val (value.Bytes bytes)) ≡ 8 }
    ensures addr { (address : List ℕ) → tag_of (out-Val (value.Addr address)) ≡ 9 }
    ensures nothing { tag_of (out-Val value.Nothing) ≡ 10 }
    ensures some { (v : Val) → tag_of (out-Val (value.Some v)) ≡ 11 }
    ensures left { (v : Val) → tag_of (out-Val (value.Left v)) ≡ 12 }
    ensures right { (v : Val) → tag_of (out-Val (value.Right v)) ≡ 13 }
    ensures pair { (a b : Val) → tag_of (out-Val (value.Pair a b)) ≡ 14 }
    ensures list { (items : List Val) → tag_of (out-Val (value.List items)) ≡ 15 }
    ensures set { (items : List Val) → tag_of (out-Val (value.Set items)) ≡ 16 }
    ensures map { (entries : List (Val × Val)) → tag_of (out-Val (value.Map entries)) ≡ 17 }
    ensures big_map { (place version : ℕ) → tag_of (out-Val (value.BigMap place version)) ≡ 18 }
    ensures contract { (address entry : List ℕ) →
        tag_of (out-Val (value.Contract address entry)) ≡ 19 }
    ensures operation { (emit : Emit) → tag_of (out-Val (value.Operation emit)) ≡ 20 }
{}

/// Values of two tags stand as their tags do; values of one tag as what they hold, from the left.
pub fn order_goes_by_tag_and_parts()
    ensures tags { (v w : Val) → tag_of (out-Val v) ≢ tag_of (out-Val w) →
        order v w ≡ nat_cmp (tag_of (out-Val v)) (tag_of (out-Val w)) }

    // Values without parts.
    ensures unit { order value.Unit value.Unit ≡ than.Equal }
    ensures bool { (a b : Bool) → order (value.Bool a) (value.Bool b) ≡ bool_cmp a b }
    ensures int { (m n : ℤ) → order (value.Int m) (value.Int n) ≡ int_cmp m n }
    ensures nat { (m n : ℤ) → order (value.Nat m) (value.Nat n) ≡ int_cmp m n }
    ensures mutez { (m n : ℕ) → order (value.Mutez m) (value.Mutez n) ≡ nat_cmp m n }
    ensures time { (m n : ℤ) → order (value.Time m) (value.Time n) ≡ int_cmp m n }
    ensures text { (a b : List ℕ) →
        order (value.Text a) (value.Text b) ≡ slice_cmp nat_cmp a b }
    ensures bytes { (a b : List ℕ) →
        order (value.Bytes a) (value.Bytes b) ≡ slice_cmp nat_cmp a b }
    ensures addr { (a b : List ℕ) →
        order (value.Addr a) (value.Addr b) ≡ slice_cmp nat_cmp a b }
    ensures nothing { order value.Nothing value.Nothing ≡ than.Equal }
    ensures big_map { (p v q w : ℕ) → order (value.BigMap p v) (value.BigMap q w) ≡
        ordering_then (nat_cmp p q) (nat_cmp v w) }
    ensures contract { (a e b f : List ℕ) → order (value.Contract a e) (value.Contract b f) ≡
        ordering_then (slice_cmp nat_cmp a b) (slice_cmp nat_cmp e f) }

    // Values with parts.
    ensures some { (v w : Val) → order (value.Some v) (value.Some w) ≡ order v w }
    ensures left { (v w : Val) → order (value.Left v) (value.Left w) ≡ order v w }
    ensures right { (v w : Val) → order (value.Right v) (value.Right w) ≡ order v w }
    ensures pair { (a b c d : Val) → order (value.Pair a b) (value.Pair c d) ≡
        ordering_then (order a c) (order b d) }
    ensures list { (vs ws : List Val) →
        order (value.List vs) (value.List ws) ≡ slice_cmp order vs ws }
    ensures set { (vs ws : List Val) →
        order (value.Set vs) (value.Set ws) ≡ slice_cmp order vs ws }
    ensures map { (es fs : List (Val × Val)) →
        order (value.Map es) (value.Map fs) ≡ slice_cmp order (flat es) (flat fs) }
    ensures operation { (d e : Emit) →
        order (value.Operation d) (value.Operation e) ≡ order_emit d e }
{}
