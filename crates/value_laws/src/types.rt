//! Which values without parts have which type, and what contracts and operations are.

ghost use Rattle.std.specs.Prelude.{◌≡◌, ◌^◌, ◌&&◌, pos, Bool, IsTrue, List, int_le, nat_lt, true, ℕ, ℤ};
ghost use Rattle.value_core.specs.Sound.{is_sound};
ghost use Rattle.value_core.specs.Typed.{has_type};
ghost use Rattle.value_core.specs.declared.ty.Ty.{Ty};
ghost use Rattle.value_core.specs.declared.ty.Ty.TheVariants as kind;
ghost use Rattle.value_core.specs.declared.val.Emit.{Emit};
ghost use Rattle.value_core.specs.declared.val.Val.{Val};
ghost use Rattle.value_core.specs.declared.val.Val.TheVariants as value;

/// A value without typed parts has the type of its name where it is sound.
pub fn types_go_by_kind()
    // Values that always have their type.
    ensures unit { has_type value.Unit kind.Unit ≡ true }
    ensures bool { (b : Bool) → has_type (value.Bool b) kind.Bool ≡ true }
    ensures int { (n : ℤ) → has_type (value.Int n) kind.Int ≡ true }
    ensures time { (n : ℤ) → has_type (value.Time n) kind.Time ≡ true }
    ensures text { (text : List ℕ) → has_type (value.Text text) kind.Text ≡ true }
    ensures bytes { (bytes : List ℕ) → has_type (value.Bytes bytes) kind.Bytes ≡ true }
    ensures addr { (address : List ℕ) → has_type (value.Addr address) kind.Addr ≡ true }
    ensures nothing { (t : Ty) → has_type value.Nothing (kind.Option t) ≡ true }
    ensures contract { (address entry : List ℕ) (t : Ty) →
        has_type (value.Contract address entry) (kind.Contract t) ≡ true }

    // Values with a range.
    ensures nat { (n : ℤ) → has_type (value.Nat n) kind.Nat ≡ int_le (pos 0) n }
    ensures mutez { (n : ℕ) → has_type (value.Mutez n) kind.Mutez ≡ nat_lt n (2 ^ 63) }
    ensures big_map { (place version : ℕ) (k w : Ty) →
        has_type (value.BigMap place version) (kind.BigMap k w) ≡ nat_lt place 16 }
    ensures operation { (emit : Emit) → has_type (value.Operation emit) kind.Operation ≡
        (nat_lt emit.amount (2 ^ 63) && is_sound emit.param) }
{}

/// A value of a contract type is an address and the name of an entry, and one of the operation
/// type is an operation of less than 2^63 whose parameter is sound.
pub fn typed_calls_have_their_form()
    ensures contract { (v : Val) (t : Ty) → IsTrue (has_type v (kind.Contract t)) →
        (address entry : List ℕ) × (v ≡ value.Contract address entry) }
    ensures operation { (v : Val) → IsTrue (has_type v kind.Operation) →
        (emit : Emit) × (v ≡ value.Operation emit) × IsTrue (nat_lt emit.amount (2 ^ 63))
        × IsTrue (is_sound emit.param) }
{}
