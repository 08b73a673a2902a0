//! What is true of quotients: each law is a clause.

ghost use Rattle.std.specs.Prelude.{◌≡◌, ◌*ℤ◌, ◌+ℤ◌, ◌+◌, ◌*◌, ◌<◌, ◌/◌, ◌%◌, ℕ, ℤ, pos, unsigned_abs};
ghost use Rattle.std.specs.Int.{int_div_euclid, int_rem_euclid};

/// Quotient and remainder make up the number, and the remainder is from 0 to below the divisor
/// without its sign. No other two do so.
pub fn quotient_and_remainder_make_up_the_number()
    ensures number { (a b : ℤ) → (b ≡ pos 0 → ⊥) →
        a ≡ int_div_euclid a b *ℤ b +ℤ int_rem_euclid a b }
    ensures remainder { (a b : ℤ) → (b ≡ pos 0 → ⊥) →
        (r : ℕ) × (int_rem_euclid a b ≡ pos r) × (r < unsigned_abs b) }
    ensures one { (a b q : ℤ) (r : ℕ) → a ≡ q *ℤ b +ℤ pos r → r < unsigned_abs b →
        (q ≡ int_div_euclid a b) × (pos r ≡ int_rem_euclid a b) }
    ensures amounts { (x y : ℕ) → 0 < y → (x ≡ x / y * y + x % y) × (x % y < y) }
    ensures one_of_amounts { (x y q r : ℕ) → x ≡ q * y + r → r < y → (q ≡ x / y) × (r ≡ x % y) }
{}
