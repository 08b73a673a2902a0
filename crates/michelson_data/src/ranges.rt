//! Numbers and amounts, where they are in the range of their type.

ghost use Rattle.std.specs.Prelude.{◌^◌, ◌<◌, FitsSigned, IsTrue, SomeIff, pos, ℕ, ℤ};
ghost use Rattle.std.specs.Int.{w128};
ghost use Rattle.value_core.specs.Lawful.{is_number};
ghost use Rattle.michelson_rules.specs.Numbers as rule;
ghost use Rattle.michelson_data.specs.Tells.{Tells};

use crate::fault::DataEnd;
use value_core::{Num, Val};

/// The number that a step came to, where it is one.
pub(crate) fn number(n: Option<i128>) -> Option<Num>
    ensures { (z : ℤ) → SomeIff n (FitsSigned w128 z) z → SomeIff result (IsTrue (is_number z)) z }
{
    Num::new(n?)
}

/// An `int`.
pub(crate) fn int(n: Option<i128>) -> Result<Val, DataEnd>
    ensures { (z : ℤ) → SomeIff n (FitsSigned w128 z) z → Tells result (rule.int z) }
{
    match number(n) {
        Some(n) => Ok(Val::Int(n)),
        None => Err(DataEnd::Overflow),
    }
}

/// A `nat`.
pub(crate) fn nat(n: Option<i128>) -> Result<Val, DataEnd>
    ensures { (z : ℤ) → SomeIff n (FitsSigned w128 z) z → Tells result (rule.nat z) }
{
    match number(n) {
        Some(n) => Ok(Val::Nat(n)),
        None => Err(DataEnd::Overflow),
    }
}

/// A `timestamp`.
pub(crate) fn timestamp(n: Option<i128>) -> Result<Val, DataEnd>
    ensures { (z : ℤ) → SomeIff n (FitsSigned w128 z) z → Tells result (rule.timestamp z) }
{
    match number(n) {
        Some(n) => Ok(Val::Time(n)),
        None => Err(DataEnd::Overflow),
    }
}

/// A `nat` that isn't below 0.
pub(crate) fn natural(n: u128) -> Result<Val, DataEnd>
    ensures { Tells result (rule.nat (pos n)) }
{
    nat(i128::try_from(n).ok())
}

/// An amount.
pub(crate) fn mutez(n: Option<u128>) -> Result<Val, DataEnd>
    ensures { (m : ℕ) → SomeIff n (m < 2 ^ 128) m → Tells result (rule.mutez m) }
{
    match n {
        Some(n) if n < 1 << 63 => Ok(Val::Mutez(n as u64)),
        _ => Err(DataEnd::Overflow),
    }
}
