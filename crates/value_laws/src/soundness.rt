//! Which values of each kind are sound, and which are plain.

ghost use Rattle.std.specs.Prelude.{◌≡◌, ◌^◌, ◌&&◌, ◌==◌, pos, Bool, List, false, int_le, map, nat_lt, true, ℕ, ℤ};
ghost use Rattle.std.specs.List.{list_all};
ghost use Rattle.value_core.specs.Layer.{flat};
ghost use Rattle.value_core.specs.Sound.{ascends, is_countable, is_plain, is_sound};
ghost use Rattle.value_core.specs.SoundParts.{is_sound_list, is_sound_map, is_sound_set};
ghost use Rattle.value_core.specs.declared.val.Emit.{Emit};
ghost use Rattle.value_core.specs.declared.val.Val.{Val};
ghost use Rattle.value_core.specs.declared.val.Val.TheVariants as value;

/// A value is sound where its own rule holds and its parts are sound.
pub fn soundness_goes_by_parts()
    // Values with a range.
    ensures nat { (n : ℤ) → is_sound (value.Nat n) ≡ int_le (pos 0) n }
    ensures mutez { (n : ℕ) → is_sound (value.Mutez n) ≡ nat_lt n (2 ^ 63) }
    ensures big_map { (place version : ℕ) →
        is_sound (value.BigMap place version) ≡ nat_lt place 16 }

    // Values with parts.
    ensures some { (v : Val) → is_sound (value.Some v) ≡ is_sound v }
    ensures left { (v : Val) → is_sound (value.Left v) ≡ is_sound v }
    ensures right { (v : Val) → is_sound (value.Right v) ≡ is_sound v }
    ensures pair { (a b : Val) → is_sound (value.Pair a b) ≡ (is_sound a && is_sound b) }
    ensures list { (items : List Val) → is_sound (value.List items) ≡ is_sound_list items }
    ensures set { (items : List Val) → is_sound (value.Set items) ≡ is_sound_set items }
    ensures map { (entries : List (Val × Val)) →
        is_sound (value.Map entries) ≡ is_sound_map entries }
    ensures operation { (emit : Emit) → is_sound (value.Operation emit) ≡
        (nat_lt emit.amount (2 ^ 63) && is_sound emit.param) }

    // All others are sound.
    ensures unit { is_sound value.Unit ≡ true }
    ensures bool { (b : Bool) → is_sound (value.Bool b) ≡ true }
    ensures int { (n : ℤ) → is_sound (value.Int n) ≡ true }
    ensures time { (n : ℤ) → is_sound (value.Time n) ≡ true }
    ensures text { (text : List ℕ) → is_sound (value.Text text) ≡ true }
    ensures bytes { (bytes : List ℕ) → is_sound (value.Bytes bytes) ≡ true }
    ensures addr { (address : List ℕ) → is_sound (value.Addr address) ≡ true }
    ensures nothing { is_sound value.Nothing ≡ true }
    ensures contract { (address entry : List ℕ) →
        is_sound (value.Contract address entry) ≡ true }
{}

/// A value is plain where its own rule holds and its parts are plain; an unchanged big map is, and
/// a contract or an operation never is.
pub fn plainness_goes_by_parts()
    // Values with a range.
    ensures nat { (n : ℤ) → is_plain (value.Nat n) ≡ int_le (pos 0) n }
    ensures mutez { (n : ℕ) → is_plain (value.Mutez n) ≡ nat_lt n (2 ^ 63) }
    ensures big_map { (place version : ℕ) →
        is_plain (value.BigMap place version) ≡ (nat_lt place 16 && version == 0) }

    // Values with parts.
    ensures some { (v : Val) → is_plain (value.Some v) ≡ is_plain v }
    ensures left { (v : Val) → is_plain (value.Left v) ≡ is_plain v }
    ensures right { (v : Val) → is_plain (value.Right v) ≡ is_plain v }
    ensures pair { (a b : Val) → is_plain (value.Pair a b) ≡ (is_plain a && is_plain b) }
    ensures list { (items : List Val) →
        is_plain (value.List items) ≡ (is_countable items && list_all is_plain items) }
    ensures set { (items : List Val) → is_plain (value.Set items) ≡
        ((is_countable items && ascends items) && list_all is_plain items) }
    ensures map { (entries : List (Val × Val)) → is_plain (value.Map entries) ≡
        ((is_countable entries && ascends (map (λ e. e.0) entries))
        && list_all is_plain (flat entries)) }

    // Values that are never written.
    ensures contract { (address entry : List ℕ) →
        is_plain (value.Contract address entry) ≡ false }
    ensures operation { (emit : Emit) → is_plain (value.Operation emit) ≡ false }

    // All others are plain.
    ensures unit { is_plain value.Unit ≡ true }
    ensures bool { (b : Bool) → is_plain (value.Bool b) ≡ true }
    ensures int { (n : ℤ) → is_plain (value.Int n) ≡ true }
    ensures time { (n : ℤ) → is_plain (value.Time n) ≡ true }
    ensures text { (text : List ℕ) → is_plain (value.Text text) ≡ true }
    ensures bytes { (bytes : List ℕ) → is_plain (value.Bytes bytes) ≡ true }
    ensures addr { (address : List ℕ) → is_plain (value.Addr address) ≡ true }
    ensures nothing { is_plain value.Nothing ≡ true }
{}
