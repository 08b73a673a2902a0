//! Bits and bools: shifts, both, either, one alone, and the other.

ghost use Rattle.std.specs.Prelude.{◌*ℤ◌, ◌/◌, ◌<◌, ◌^◌, ◌≡◌, IsTrue, SomeIff, pos, unsigned_abs};
ghost use Rattle.value_core.specs.declared.val.Val.TheViews.{out-Val};
ghost use Rattle.value_core.specs.Lawful.{is_number};
ghost use Rattle.michelson_rules.specs.Numbers as rule;
ghost use Rattle.michelson_data.specs.Tells.{Tells};

use crate::fault::DataEnd;
use crate::ranges::{int, natural, number};
use value_core::{Num, Val};

/// Bits to the left.
pub(crate) fn shifted_left(x: &Val, y: &Val) -> Result<Val, DataEnd>
    ensures { Tells result (rule.shifted_left (out-Val x.now) (out-Val y.now)) }
{
    match (x, y) {
        (Val::Nat(_), Val::Nat(by)) if by.get() > 256 => Err(DataEnd::Shift),
        (Val::Nat(x), Val::Nat(by)) => match raised(*x, by.get().unsigned_abs()) {
            Some(n) => Ok(Val::Nat(n)),
            None => Err(DataEnd::Overflow),
        },
        _ => Err(DataEnd::NoMemory),
    }
}

/// The number times a power of 2, where that is one.
fn raised(n: Num, by: u128) -> Option<Num>
    ensures { SomeIff result (IsTrue (is_number (n *ℤ pos (2 ^ by)))) (n *ℤ pos (2 ^ by)) }
{
    if n.get() == 0 {
        Some(n)
    } else if by < 127 {
        number(n.get().checked_mul(power(by)))
    } else {
        None
    }
}

/// A power of 2.
fn power(exponent: u128) -> i128
    requires { exponent < 127 }
    ensures { result ≡ pos (2 ^ exponent) }
{
    (1u128 << exponent) as i128
}

/// Bits to the right.
pub(crate) fn shifted_right(x: &Val, y: &Val) -> Result<Val, DataEnd>
    ensures { Tells result (rule.shifted_right (out-Val x.now) (out-Val y.now)) }
{
    match (x, y) {
        (Val::Nat(_), Val::Nat(y)) if y.get() > 256 => Err(DataEnd::Shift),
        (Val::Nat(x), Val::Nat(y)) => {
            natural(lowered(x.get().unsigned_abs(), y.get().unsigned_abs()))
        }
        _ => Err(DataEnd::NoMemory),
    }
}

/// The number through a power of 2.
fn lowered(n: u128, by: u128) -> u128
    ensures { result ≡ n / 2 ^ by }
{
    if by < 128 { n >> by } else { 0 }
}

/// Both, bit by bit.
pub(crate) fn both(x: &Val, y: &Val) -> Result<Val, DataEnd>
    ensures { Tells result (rule.both (out-Val x.now) (out-Val y.now)) }
{
    match (x, y) {
        (Val::Bool(x), Val::Bool(y)) => Ok(Val::Bool(*x && *y)),
        (Val::Nat(x), Val::Nat(y)) => natural(x.get().unsigned_abs() & y.get().unsigned_abs()),
        (Val::Int(x), Val::Nat(y)) => natural(bits_of_both(x.get(), y.get().unsigned_abs())),
        _ => Err(DataEnd::NoMemory),
    }
}

/// The bits that both have; a number below 0 has the bits that -1 less the number lacks.
fn bits_of_both(x: i128, y: u128) -> u128
    ensures { result ≡ rule.bits_of_both x y }
{
    if x < 0 {
        y - (!x as u128 & y)
    } else {
        x as u128 & y
    }
}

/// Either, bit by bit.
pub(crate) fn either(x: &Val, y: &Val) -> Result<Val, DataEnd>
    ensures { Tells result (rule.either (out-Val x.now) (out-Val y.now)) }
{
    match (x, y) {
        (Val::Bool(x), Val::Bool(y)) => Ok(Val::Bool(*x || *y)),
        (Val::Nat(x), Val::Nat(y)) => natural(x.get().unsigned_abs() | y.get().unsigned_abs()),
        _ => Err(DataEnd::NoMemory),
    }
}

/// One and not the other, bit by bit.
pub(crate) fn one_alone(x: &Val, y: &Val) -> Result<Val, DataEnd>
    ensures { Tells result (rule.one_alone (out-Val x.now) (out-Val y.now)) }
{
    match (x, y) {
        (Val::Bool(x), Val::Bool(y)) => Ok(Val::Bool(*x != *y)),
        (Val::Nat(x), Val::Nat(y)) => natural(x.get().unsigned_abs() ^ y.get().unsigned_abs()),
        _ => Err(DataEnd::NoMemory),
    }
}

/// The other, bit by bit.
pub(crate) fn opposite(x: &Val) -> Result<Val, DataEnd>
    ensures { Tells result (rule.opposite (out-Val x.now)) }
{
    match x {
        Val::Bool(x) => Ok(Val::Bool(!*x)),
        Val::Int(x) | Val::Nat(x) => int(Some(!x.get())),
        _ => Err(DataEnd::NoMemory),
    }
}
