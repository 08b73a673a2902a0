//! Which types may be passed, and which may be compared, by the kind of the type.

ghost use Rattle.std.specs.Prelude.{◌≡◌, ◌&&◌, false, true};
ghost use Rattle.value_core.specs.Kinds.{is_comparable, is_passable};
ghost use Rattle.value_core.specs.declared.ty.Ty.{Ty};
ghost use Rattle.value_core.specs.declared.ty.Ty.TheVariants as kind;

/// A type may be passed where its parts may be; a big map, a contract or an operation never is.
pub fn passing_goes_by_parts()
    // Types with parts.
    ensures option { (t : Ty) → is_passable (kind.Option t) ≡ is_passable t }
    ensures or { (s t : Ty) → is_passable (kind.Or s t) ≡ (is_passable s && is_passable t) }
    ensures pair { (s t : Ty) → is_passable (kind.Pair s t) ≡ (is_passable s && is_passable t) }
    ensures list { (t : Ty) → is_passable (kind.List t) ≡ is_passable t }
    ensures set { (t : Ty) → is_passable (kind.Set t) ≡ is_passable t }
    ensures map { (k w : Ty) → is_passable (kind.Map k w) ≡ (is_passable k && is_passable w) }
    ensures big_map { (k w : Ty) → is_passable (kind.BigMap k w) ≡ false }
    ensures contract { (t : Ty) → is_passable (kind.Contract t) ≡ false }

    // Types without parts.
    ensures unit { is_passable kind.Unit ≡ true }
    ensures bool { is_passable kind.Bool ≡ true }
    ensures int { is_passable kind.Int ≡ true }
    ensures nat { is_passable kind.Nat ≡ true }
    ensures mutez { is_passable kind.Mutez ≡ true }
    ensures time { is_passable kind.Time ≡ true }
    ensures text { is_passable kind.Text ≡ true }
    ensures bytes { is_passable kind.Bytes ≡ true }
    ensures addr { is_passable kind.Addr ≡ true }
    ensures operation { is_passable kind.Operation ≡ false }
{}

/// A type may be compared where it is a scalar, or an option, an `or` or a pair of such types.
pub fn comparing_goes_by_parts()
    // Types with parts.
    ensures option { (t : Ty) → is_comparable (kind.Option t) ≡ is_comparable t }
    ensures or { (s t : Ty) → is_comparable (kind.Or s t) ≡ (is_comparable s && is_comparable t) }
    ensures pair { (s t : Ty) →
        is_comparable (kind.Pair s t) ≡ (is_comparable s && is_comparable t) }
    ensures list { (t : Ty) → is_comparable (kind.List t) ≡ false }
    ensures set { (t : Ty) → is_comparable (kind.Set t) ≡ false }
    ensures map { (k w : Ty) → is_comparable (kind.Map k w) ≡ false }
    ensures big_map { (k w : Ty) → is_comparable (kind.BigMap k w) ≡ false }
    ensures contract { (t : Ty) → is_comparable (kind.Contract t) ≡ false }

    // Types without parts.
    ensures unit { is_comparable kind.Unit ≡ true }
    ensures bool { is_comparable kind.Bool ≡ true }
    ensures int { is_comparable kind.Int ≡ true }
    ensures nat { is_comparable kind.Nat ≡ true }
    ensures mutez { is_comparable kind.Mutez ≡ true }
    ensures time { is_comparable kind.Time ≡ true }
    ensures text { is_comparable kind.Text ≡ true }
    ensures bytes { is_comparable kind.Bytes ≡ true }
    ensures addr { is_comparable kind.Addr ≡ true }
    ensures operation { is_comparable kind.Operation ≡ false }
{}
