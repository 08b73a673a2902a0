//! Sums, differences, products and quotients; signs and comparisons.

ghost use Rattle.std.specs.Prelude.{◌≡◌, ◌+ℤ◌, IfOk, IsTrue, SomeIff, not, int_le, int_lt, pos, true, false, ℤ};
ghost use Rattle.value_core.specs.declared.val.Val.TheViews.{out-Val};
ghost use Rattle.michelson_rules.specs.Numbers as rule;
ghost use Rattle.michelson_data.specs.AgainstZero.{test_of};
ghost use Rattle.michelson_data.specs.Tells.{Tells};

use crate::against_zero::Test;
use crate::fault::DataEnd;
use crate::ranges::{int, mutez, nat, natural, timestamp};
use std::alloc::Global;
use std::cmp::Ordering;
use value_core::{Val, compare, some};

/// The sum.
pub(crate) fn sum(x: &Val, y: &Val) -> Result<Val, DataEnd>
    ensures { Tells result (rule.sum (out-Val x.now) (out-Val y.now)) }
{
    match (x, y) {
        (Val::Nat(x), Val::Nat(y)) => nat(x.get().checked_add(y.get())),
        (Val::Int(x), Val::Int(y)) => int(x.get().checked_add(y.get())),
        (Val::Int(x), Val::Nat(y)) => int(x.get().checked_add(y.get())),
        (Val::Nat(x), Val::Int(y)) => int(x.get().checked_add(y.get())),
        (Val::Time(x), Val::Int(y)) => timestamp(x.get().checked_add(y.get())),
        (Val::Int(x), Val::Time(y)) => timestamp(x.get().checked_add(y.get())),
        (Val::Mutez(x), Val::Mutez(y)) => mutez(Some(*x as u128 + *y as u128)),
        _ => Err(DataEnd::NoMemory),
    }
}

/// The difference.
pub(crate) fn difference(x: &Val, y: &Val) -> Result<Val, DataEnd>
    ensures { Tells result (rule.difference (out-Val x.now) (out-Val y.now)) }
{
    match (x, y) {
        (Val::Nat(x), Val::Nat(y)) => int(x.get().checked_sub(y.get())),
        (Val::Int(x), Val::Int(y)) => int(x.get().checked_sub(y.get())),
        (Val::Int(x), Val::Nat(y)) => int(x.get().checked_sub(y.get())),
        (Val::Nat(x), Val::Int(y)) => int(x.get().checked_sub(y.get())),
        (Val::Time(x), Val::Int(y)) => timestamp(x.get().checked_sub(y.get())),
        (Val::Time(x), Val::Time(y)) => int(x.get().checked_sub(y.get())),
        _ => Err(DataEnd::NoMemory),
    }
}

/// The difference of two amounts, or none below 0.
pub(crate) fn amount_left(alloc: Global, x: &Val, y: &Val) -> Result<Val, DataEnd>
    ensures { Tells result (rule.amount_left (out-Val x.now) (out-Val y.now)) }
{
    match (x, y) {
        (Val::Mutez(x), Val::Mutez(y)) => match x.checked_sub(*y) {
            Some(left) => Ok(some(alloc, Val::Mutez(left))?),
            None => Ok(Val::Nothing),
        },
        _ => Err(DataEnd::NoMemory),
    }
}

/// The number with the other sign.
pub(crate) fn negated(x: &Val) -> Result<Val, DataEnd>
    ensures { Tells result (rule.negated (out-Val x.now)) }
{
    match x {
        Val::Int(x) | Val::Nat(x) => int(x.get().checked_neg()),
        _ => Err(DataEnd::NoMemory),
    }
}

/// The number without its sign.
pub(crate) fn without_sign(x: &Val) -> Result<Val, DataEnd>
    ensures { Tells result (rule.without_sign (out-Val x.now)) }
{
    match x {
        Val::Int(x) => natural(x.get().unsigned_abs()),
        _ => Err(DataEnd::NoMemory),
    }
}

/// The number as a `nat`, or none below 0.
pub(crate) fn as_nat(alloc: Global, x: &Val) -> Result<Val, DataEnd>
    ensures { Tells result (rule.as_nat (out-Val x.now)) }
{
    match x {
        Val::Int(x) if x.get() < 0 => Ok(Val::Nothing),
        Val::Int(x) => Ok(some(alloc, Val::Nat(*x))?),
        _ => Err(DataEnd::NoMemory),
    }
}

/// The `nat` as an `int`.
pub(crate) fn as_int(x: &Val) -> Result<Val, DataEnd>
    ensures { Tells result (rule.as_int (out-Val x.now)) }
{
    match x {
        Val::Nat(x) => int(Some(x.get())),
        _ => Err(DataEnd::NoMemory),
    }
}

/// The product.
pub(crate) fn product(x: &Val, y: &Val) -> Result<Val, DataEnd>
    ensures { Tells result (rule.product (out-Val x.now) (out-Val y.now)) }
{
    match (x, y) {
        (Val::Nat(x), Val::Nat(y)) => nat(x.get().checked_mul(y.get())),
        (Val::Int(x), Val::Int(y)) => int(x.get().checked_mul(y.get())),
        (Val::Int(x), Val::Nat(y)) => int(x.get().checked_mul(y.get())),
        (Val::Nat(x), Val::Int(y)) => int(x.get().checked_mul(y.get())),
        (Val::Mutez(x), Val::Nat(y)) => mutez((*x as u128).checked_mul(y.get().unsigned_abs())),
        (Val::Nat(x), Val::Mutez(y)) => mutez(x.get().unsigned_abs().checked_mul(*y as u128)),
        _ => Err(DataEnd::NoMemory),
    }
}

/// Whether the int is so to 0.
pub(crate) fn tested(test: Test, x: &Val) -> Result<Val, DataEnd>
    ensures { Tells result (rule.tested (test_of test) (out-Val x.now)) }
{
    match x {
        Val::Int(x) => Ok(Val::Bool(test.holds(x.get()))),
        _ => Err(DataEnd::NoMemory),
    }
}

/// -1, 0 or 1, as the first value stands to the second.
pub(crate) fn compared(x: &Val, y: &Val) -> Result<Val, DataEnd>
    ensures { Tells result (rule.compared x.now y.now) }
{
    int(Some(match compare(x, y) {
        Ordering::Less => -1,
        Ordering::Equal => 0,
        Ordering::Greater => 1,
    }))
}
