//! How deep and how large values of each kind are.

ghost use Rattle.std.specs.Prelude.{◌≡◌, ◌+◌, ◌/◌, Bool, List, length, map, max, sum_by, ℕ, ℤ};
ghost use Rattle.value_core.specs.Depth.{depth_of, depth_of_type, greatest};
ghost use Rattle.value_core.specs.Layer.{flat};
ghost use Rattle.value_core.specs.Size.{entry_size, size_of};
ghost use Rattle.value_core.specs.declared.ty.Ty.{Ty};
ghost use Rattle.value_core.specs.declared.ty.Ty.TheVariants as kind;
ghost use Rattle.value_core.specs.declared.val.Emit.{Emit};
ghost use Rattle.value_core.specs.declared.val.Val.{Val};
ghost use Rattle.value_core.specs.declared.val.Val.TheVariants as value;

/// A value is one deeper than its deepest part, and 1 deep without parts.
pub fn depth_goes_by_parts()
    // Values with parts.
    ensures some { (v : Val) → depth_of (value.Some v) ≡ 1 + depth_of v }
    ensures left { (v : Val) → depth_of (value.Left v) ≡ 1 + depth_of v }
    ensures right { (v : Val) → depth_of (value.Right v) ≡ 1 + depth_of v }
    ensures pair { (a b : Val) →
        depth_of (value.Pair a b) ≡ 1 + max (depth_of a) (depth_of b) }
    ensures list { (items : List Val) →
        depth_of (value.List items) ≡ 1 + greatest (map depth_of items) }
    ensures set { (items : List Val) →
        depth_of (value.Set items) ≡ 1 + greatest (map depth_of items) }
    ensures map { (entries : List (Val × Val)) →
        depth_of (value.Map entries) ≡ 1 + greatest (map depth_of (flat entries)) }
    ensures operation { (emit : Emit) →
        depth_of (value.Operation emit) ≡ 1 + depth_of emit.param }

    // Values without parts.
    ensures unit { depth_of value.Unit ≡ 1 }
    ensures bool { (b : Bool) → depth_of (value.Bool b) ≡ 1 }
    ensures int { (n : ℤ) → depth_of (value.Int n) ≡ 1 }
    ensures nat { (n : ℤ) → depth_of (value.Nat n) ≡ 1 }
    ensures mutez { (n : ℕ) → depth_of (value.Mutez n) ≡ 1 }
    ensures time { (n : ℤ) → depth_of (value.Time n) ≡ 1 }
    ensures text { (text : List ℕ) → depth_of (value.Text text) ≡ 1 }
    ensures bytes { (bytes : List ℕ) → depth_of (value.Bytes bytes) ≡ 1 }
    ensures addr { (address : List ℕ) → depth_of (value.Addr address) ≡ 1 }
    ensures nothing { depth_of value.Nothing ≡ 1 }
    ensures big_map { (place version : ℕ) → depth_of (value.BigMap place version) ≡ 1 }
    ensures contract { (address entry : List ℕ) →
        depth_of (value.Contract address entry) ≡ 1 }
{}

/// A type is one deeper than its deepest part, and 1 deep without parts.
pub fn depth_of_types_goes_by_parts()
    // Types with parts.
    ensures option { (t : Ty) → depth_of_type (kind.Option t) ≡ 1 + depth_of_type t }
    ensures or { (s t : Ty) →
        depth_of_type (kind.Or s t) ≡ 1 + max (depth_of_type s) (depth_of_type t) }
    ensures pair { (s t : Ty) →
        depth_of_type (kind.Pair s t) ≡ 1 + max (depth_of_type s) (depth_of_type t) }
    ensures list { (t : Ty) → depth_of_type (kind.List t) ≡ 1 + depth_of_type t }
    ensures set { (t : Ty) → depth_of_type (kind.Set t) ≡ 1 + depth_of_type t }
    ensures map { (k w : Ty) →
        depth_of_type (kind.Map k w) ≡ 1 + max (depth_of_type k) (depth_of_type w) }
    ensures big_map { (k w : Ty) →
        depth_of_type (kind.BigMap k w) ≡ 1 + max (depth_of_type k) (depth_of_type w) }
    ensures contract { (t : Ty) → depth_of_type (kind.Contract t) ≡ 1 + depth_of_type t }

    // Types without parts.
    ensures unit { depth_of_type kind.Unit ≡ 1 }
    ensures bool { depth_of_type kind.Bool ≡ 1 }
    ensures int { depth_of_type kind.Int ≡ 1 }
    ensures nat { depth_of_type kind.Nat ≡ 1 }
    ensures mutez { depth_of_type kind.Mutez ≡ 1 }
    ensures time { depth_of_type kind.Time ≡ 1 }
    ensures text { depth_of_type kind.Text ≡ 1 }
    ensures bytes { depth_of_type kind.Bytes ≡ 1 }
    ensures addr { depth_of_type kind.Addr ≡ 1 }
    ensures operation { depth_of_type kind.Operation ≡ 1 }
{}

/// A value is as large as its parts and 1 more, a pair as its parts alone; texts and bytes count 1
/// for every 32 bytes.
pub fn sizes_go_by_parts()
    // Values with parts.
    ensures some { (v : Val) → size_of (value.Some v) ≡ 1 + size_of v }
    ensures left { (v : Val) → size_of (value.Left v) ≡ 1 + size_of v }
    ensures right { (v : Val) → size_of (value.Right v) ≡ 1 + size_of v }
    ensures pair { (a b : Val) → size_of (value.Pair a b) ≡ size_of a + size_of b }
    ensures list { (items : List Val) → size_of (value.List items) ≡ 1 + sum_by size_of items }
    ensures set { (items : List Val) → size_of (value.Set items) ≡ 1 + sum_by size_of items }
    ensures map { (entries : List (Val × Val)) →
        size_of (value.Map entries) ≡ 1 + sum_by entry_size entries }
    ensures operation { (emit : Emit) →
        size_of (value.Operation emit) ≡ 1 + size_of emit.param }

    // Values that grow with their bytes.
    ensures text { (text : List ℕ) → size_of (value.Text text) ≡ 1 + length text / 32 }
    ensures bytes { (bytes : List ℕ) → size_of (value.Bytes bytes) ≡ 1 + length bytes / 32 }

    // Values of size 1.
    ensures unit { size_of value.Unit ≡ 1 }
    ensures bool { (b : Bool) → size_of (value.Bool b) ≡ 1 }
    ensures int { (n : ℤ) → size_of (value.Int n) ≡ 1 }
    ensures nat { (n : ℤ) → size_of (value.Nat n) ≡ 1 }
    ensures mutez { (n : ℕ) → size_of (value.Mutez n) ≡ 1 }
    ensures time { (n : ℤ) → size_of (value.Time n) ≡ 1 }
    ensures addr { (address : List ℕ) → size_of (value.Addr address) ≡ 1 }
    ensures nothing { size_of value.Nothing ≡ 1 }
    ensures big_map { (place version : ℕ) → size_of (value.BigMap place version) ≡ 1 }
    ensures contract { (address entry : List ℕ) →
        size_of (value.Contract address entry) ≡ 1 }
{}
