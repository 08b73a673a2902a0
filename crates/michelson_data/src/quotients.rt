//! Quotients with remainders that aren't below 0.

ghost use Rattle.std.specs.Prelude.{◌/◌, ◌%◌, ◌≡◌, IfOk, SomeIff, pos, false, unsigned_abs};
ghost use Rattle.std.specs.Int.{int_div_euclid, int_rem_euclid};
ghost use Rattle.value_core.specs.declared.val.Val.TheViews.{out-Val};
ghost use Rattle.michelson_rules.specs.Numbers as rule;
ghost use Rattle.michelson_data.specs.Tells.{Tells};

use crate::fault::DataEnd;
use std::alloc::Global;
use value_core::{NoMemory, Num, Val, pair, some};

/// Quotient and remainder, or none for a divisor of 0.
pub(crate) fn quotient(alloc: Global, x: &Val, y: &Val) -> Result<Val, DataEnd>
    ensures { Tells result (rule.quotient (out-Val x.now) (out-Val y.now)) }
{
    match (x, y) {
        (Val::Nat(x), Val::Nat(y)) => of_nats(alloc, *x, *y),
        (Val::Int(x), Val::Int(y)) => of_ints(alloc, *x, *y),
        (Val::Int(x), Val::Nat(y)) => of_ints(alloc, *x, *y),
        (Val::Nat(x), Val::Int(y)) => of_ints(alloc, *x, *y),
        (Val::Mutez(x), Val::Nat(y)) => of_amount(alloc, *x, *y),
        (Val::Mutez(x), Val::Mutez(y)) => of_amounts(alloc, *x, *y),
        _ => Err(DataEnd::NoMemory),
    }
}

fn of_nats(alloc: Global, x: Num, y: Num) -> Result<Val, DataEnd>
    ensures { Tells result (rule.divided y (Val.Nat (int_div_euclid x y))
        (Val.Nat (int_rem_euclid x y))) }
{
    match divided(x, y) {
        Some((q, r)) => Ok(some_pair(alloc, Val::Nat(q), Val::Nat(r))?),
        None => Ok(Val::Nothing),
    }
}

fn of_ints(alloc: Global, x: Num, y: Num) -> Result<Val, DataEnd>
    ensures { Tells result (rule.divided y (Val.Int (int_div_euclid x y))
        (Val.Nat (int_rem_euclid x y))) }
{
    match divided(x, y) {
        Some((q, r)) => Ok(some_pair(alloc, Val::Int(q), Val::Nat(r))?),
        None => Ok(Val::Nothing),
    }
}

/// The quotient and the remainder, unless the divisor is 0. Neither is further from 0 than the two.
fn divided(x: Num, y: Num) -> Option<(Num, Num)>
    ensures { SomeIff result (rule.is_zero y ≡ false) (int_div_euclid x y, int_rem_euclid x y) }
{
    let (a, b) = (x.get(), y.get());
    if b == 0 {
        return None;
    }
    Some((Num::new(a.div_euclid(b))?, Num::new(a.rem_euclid(b))?))
}

fn of_amount(alloc: Global, x: u64, y: Num) -> Result<Val, DataEnd>
    ensures { Tells result (rule.divided y (Val.Mutez (x / unsigned_abs y))
        (Val.Mutez (x % unsigned_abs y))) }
{
    let parts = y.get().unsigned_abs();
    if parts == 0 {
        return Ok(Val::Nothing);
    }
    let (q, r) = (x as u128 / parts, x as u128 % parts);
    Ok(some_pair(alloc, Val::Mutez(q as u64), Val::Mutez(r as u64))?)
}

fn of_amounts(alloc: Global, x: u64, y: u64) -> Result<Val, DataEnd>
    ensures { Tells result (rule.divided (pos y) (Val.Nat (pos (x / y))) (Val.Mutez (x % y))) }
{
    if y == 0 {
        return Ok(Val::Nothing);
    }
    match Num::new((x / y) as i128) {
        Some(q) => Ok(some_pair(alloc, Val::Nat(q), Val::Mutez(x % y))?),
        None => Err(DataEnd::Overflow),
    }
}

/// Some pair.
fn some_pair(alloc: Global, a: Val, b: Val) -> Result<Val, NoMemory>
    ensures { IfOk result (λ v. v ≡ Val.Some (Val.Pair a b)) }
{
    some(alloc, pair(alloc, a, b)?)
}
