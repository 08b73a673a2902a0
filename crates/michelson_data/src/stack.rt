//! Instructions that make one value of one or two operands: what they do with the stack.

ghost use Rattle.std.specs.Prelude.{◌-◌, ◌≡◌, ◌≤◌, Err, length, reverse, take};
ghost use Rattle.value_core.specs.declared.val.Val.TheViews.{out-Val};
ghost use Rattle.michelson_rules.specs.Answers as rule;
ghost use Rattle.michelson_data.specs.Replaces.{Replaces};
ghost use Rattle.michelson_data.specs.Operands as table;
ghost use Rattle.michelson_data.specs.Settled.{left_by, told};
ghost use Rattle.michelson_data.specs.Tells.{Tells, TellsIf};

use crate::against_zero::Test;
use crate::bits::{both, either, one_alone, opposite, shifted_left, shifted_right};
use crate::fault::DataEnd;
use crate::keys::{found, member};
use crate::numbers::{
    amount_left, as_int, as_nat, compared, difference, negated, product, sum, tested, without_sign,
};
use crate::op::DataOp;
use crate::quotients::quotient;
use crate::rows::{count, hashed};
use std::alloc::Global;
use value_core::Val;

/// Puts what was made in the place of so many operands. Where memory ran out, they stay.
pub(crate) fn settle(
    stack: &mut Vec<Val>,
    operands: usize,
    made: Result<Val, DataEnd>,
) -> Result<(), DataEnd>
    requires some { 1 ≤ operands }
    requires there { operands ≤ length stack.old.items }
    ensures told { result ≡ told made }
    ensures left { stack.new.items ≡
        left_by made (take (length stack.old.items - operands) stack.old.items) stack.old.items }
{
    let below = stack.len() - operands;
    match made {
        Ok(v) => {
            stack[below] = v;
            stack.truncate(below + 1);
            Ok(())
        }
        Err(DataEnd::NoMemory) => Err(DataEnd::NoMemory),
        Err(end) => {
            stack.truncate(below);
            Err(end)
        }
    }
}

/// An instruction on the top.
pub(crate) fn on_one(alloc: Global, op: DataOp, stack: &mut Vec<Val>) -> Result<(), DataEnd>
    ensures applies { Replaces (rule.on_one (table.of_one op) (reverse stack.old.items))
        result (reverse stack.new.items) }
    ensures unchanged { result ≡ Err DataEnd.NoMemory → stack.new.items ≡ stack.old.items }
{
    let height = stack.len();
    if height < 1 {
        return Err(DataEnd::NoMemory);
    }
    let made = of_one(alloc, op, &stack[height - 1]);
    settle(stack, 1, made)
}

/// An instruction on the two on top.
pub(crate) fn on_two(alloc: Global, op: DataOp, stack: &mut Vec<Val>) -> Result<(), DataEnd>
    ensures applies { Replaces (rule.on_both (table.of_two op) (reverse stack.old.items))
        result (reverse stack.new.items) }
    ensures unchanged { result ≡ Err DataEnd.NoMemory → stack.new.items ≡ stack.old.items }
{
    let height = stack.len();
    if height < 2 {
        return Err(DataEnd::NoMemory);
    }
    let made = of_two(alloc, op, &stack[height - 1], &stack[height - 2]);
    settle(stack, 2, made)
}

/// What is made of the top, one line for each instruction.
fn of_one(alloc: Global, op: DataOp, x: &Val) -> Result<Val, DataEnd>
    ensures { Tells result (table.of_one op (out-Val x.now)) }
{
    match op {
        DataOp::Neg => negated(x),
        DataOp::Abs => without_sign(x),
        DataOp::IsNat => as_nat(alloc, x),
        DataOp::Int => as_int(x),
        DataOp::Not => opposite(x),
        DataOp::Eq => tested(Test::Zero, x),
        DataOp::Neq => tested(Test::Other, x),
        DataOp::Lt => tested(Test::Below, x),
        DataOp::Gt => tested(Test::Above, x),
        DataOp::Le => tested(Test::AtMost, x),
        DataOp::Ge => tested(Test::AtLeast, x),
        DataOp::Size => count(x),
        DataOp::Sha256 => hashed(alloc, x),
        _ => Err(DataEnd::NoMemory),
    }
}

/// What is made of the two on top, one line for each instruction.
fn of_two(alloc: Global, op: DataOp, x: &Val, y: &Val) -> Result<Val, DataEnd>
    ensures { TellsIf result (table.of_two op x.now y.now) }
{
    match op {
        DataOp::Add => sum(x, y),
        DataOp::Sub => difference(x, y),
        DataOp::SubMutez => amount_left(alloc, x, y),
        DataOp::Lsl => shifted_left(x, y),
        DataOp::Lsr => shifted_right(x, y),
        DataOp::And => both(x, y),
        DataOp::Or => either(x, y),
        DataOp::Xor => one_alone(x, y),
        DataOp::Compare => compared(x, y),
        DataOp::Mul => product(x, y),
        DataOp::Ediv => quotient(alloc, x, y),
        DataOp::Mem => member(x, y),
        DataOp::Get => found(alloc, x, y),
        _ => Err(DataEnd::NoMemory),
    }
}
