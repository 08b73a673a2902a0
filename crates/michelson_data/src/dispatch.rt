//! One instruction on data.

ghost use Rattle.std.specs.Prelude.{◌≡◌, Err, reverse};
ghost use Rattle.michelson_rules.specs.Bodies.{Meaning};
ghost use Rattle.michelson_rules.specs.Plain.{data_at};
ghost use Rattle.michelson_data.specs.Replaces.{Replaces};
ghost use Rattle.michelson_data.specs.Form.{form};

use crate::changes::{in_front, updated, updated_with_old};
use crate::fault::DataEnd;
use crate::op::DataOp;
use crate::operands::{Operands, operands_of};
use crate::pairs::{apart, together};
use crate::rows::concatenated;
use crate::stack::{on_one, on_two};
use std::alloc::Global;
use value_core::Val;

/// Does with the stack, whose last item is its top, what the table says of the instruction.
pub fn apply(alloc: Global, op: DataOp, stack: &mut Vec<Val>) -> Result<(), DataEnd>
    ensures applies { Replaces (data_at {A = Meaning} (form op) (reverse stack.old.items)) result
        (reverse stack.new.items) }
    ensures unchanged { result ≡ Err DataEnd.NoMemory → stack.new.items ≡ stack.old.items }
{
    match operands_of(op) {
        Operands::One => on_one(alloc, op, stack),
        Operands::Two => on_two(alloc, op, stack),
        Operands::Together(n) => together(alloc, stack, n),
        Operands::Apart(n) => apart(stack, n),
        Operands::Front => in_front(alloc, stack),
        Operands::Row => concatenated(alloc, stack),
        Operands::Entry => updated(alloc, stack),
        Operands::EntryWithOld => updated_with_old(alloc, stack),
    }
}
