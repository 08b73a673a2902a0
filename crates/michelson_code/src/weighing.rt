//! How much gas a code costs once through, and how many instructions it has.

ghost use Rattle.std.specs.Prelude.{◌≡◌, ◌-◌, ◌^◌, ◌∷◌, [], min, sum_by};
ghost use Rattle.michelson_code.specs.Forms.{bodies};
ghost use Rattle.michelson_code.specs.Shown.{operand_shown, operands_shown};
ghost use Rattle.michelson_code.specs.Weight.{code_count, code_weight, count_of, weight_of};

use crate::instr::Instr;
use crate::table::{Operand, Operands, form_of};

/// The sum of the costs of all instructions, both branches and each body once, or 2^64 - 1 where
/// it is greater.
#[cycle(weighing)]
pub fn weight(code: &[Instr]) -> u64
    ensures { result ≡ min (code_weight code.now) (2 ^ 64 - 1) }
{
    let mut total: u64 = 0;
    for instr in code {
        total = total.saturating_add(weight_of_one(instr));
    }
    total
}

#[cycle(weighing)]
fn weight_of_one(instr: &Instr) -> u64
    ensures { result ≡ min (weight_of instr.now) (2 ^ 64 - 1) }
{
    let form = form_of(instr);
    form.cost.saturating_add(weight_inside(form.operands))
}

#[cycle(weighing)]
fn weight_inside(operands: Operands<'_>) -> u64
    ensures { result ≡
        min (sum_by code_weight (bodies (operands_shown operands.entry))) (2 ^ 64 - 1) }
{
    match operands {
        Operands::None => 0,
        Operands::One(x) => weight_behind(x),
        Operands::Two(x, y) => weight_behind(x).saturating_add(weight_behind(y)),
    }
}

#[cycle(weighing)]
fn weight_behind(operand: Operand<'_>) -> u64
    ensures { result ≡
        min (sum_by code_weight (bodies (operand_shown operand.entry ∷ []))) (2 ^ 64 - 1) }
{
    match operand {
        Operand::Code(code) => weight(code),
        _ => 0,
    }
}

/// The number of instructions, those in bodies included, or 2^64 - 1 where it is greater.
#[cycle(counting)]
pub fn count(code: &[Instr]) -> u64
    ensures { result ≡ min (code_count code.now) (2 ^ 64 - 1) }
{
    let mut total: u64 = 0;
    for instr in code {
        total = total.saturating_add(count_of_one(instr));
    }
    total
}

#[cycle(counting)]
fn count_of_one(instr: &Instr) -> u64
    ensures { result ≡ min (count_of instr.now) (2 ^ 64 - 1) }
{
    count_inside(form_of(instr).operands).saturating_add(1)
}

#[cycle(counting)]
fn count_inside(operands: Operands<'_>) -> u64
    ensures { result ≡
        min (sum_by code_count (bodies (operands_shown operands.entry))) (2 ^ 64 - 1) }
{
    match operands {
        Operands::None => 0,
        Operands::One(x) => count_behind(x),
        Operands::Two(x, y) => count_behind(x).saturating_add(count_behind(y)),
    }
}

#[cycle(counting)]
fn count_behind(operand: Operand<'_>) -> u64
    ensures { result ≡
        min (sum_by code_count (bodies (operand_shown operand.entry ∷ []))) (2 ^ 64 - 1) }
{
    match operand {
        Operand::Code(code) => count(code),
        _ => 0,
    }
}
