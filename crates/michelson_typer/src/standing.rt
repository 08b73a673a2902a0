//! The line of an instruction whose operands stand on a stack, and what it leaves there.

ghost use Rattle.std.specs.Prelude.{◌≡◌, ◌≤◌, ◌∷◌, [], IfOk, IfSome, IsTrue, MatchOption, length};
ghost use Rattle.michelson_code.specs.declared.instr.Instr.TheViews.{out-Instr};
ghost use Rattle.michelson_code.specs.Typing.{slot_list};
ghost use Rattle.michelson_typer.specs.Lines.{FindsMade, FindsNone, IsWritten, StandsOrNot};
ghost use Rattle.michelson_typer.specs.Tables.{Grows, IsTypeOf, are_in, types_at};
ghost use Rattle.value_core.specs.declared.ty.Ty.TheVariants as type;

use crate::lines::{FREE, Letters, Written, operands_stand};
use crate::results::{all_chosen, results};
use crate::types::{TypeId, Types};
use michelson_code::{Instr, Line, Script, Slots, lines_of};
use std::alloc::Global;
use value_core::NoMemory;

/// What an instruction leaves by the line whose operands stand on the stack; none where none does.
pub(crate) fn by_line(
    alloc: Global,
    script: &Script,
    types: &mut Types,
    instr: &Instr,
    stack: &[TypeId],
    written: Written,
    unit: TypeId,
) -> Result<Option<Vec<TypeId>>, NoMemory>
    requires stack { IsTrue (are_in types.old stack.now) }
    requires written { IsWritten script.now (out-Instr instr.now) types.old written }
    requires unit { IsTypeOf types.old unit type.Unit }
    ensures grows { Grows types.old types.new }
    ensures made { IfOk result (λ r. MatchOption r
        (FindsNone script.now (out-Instr instr.now) (types_at types.old stack.now))
        (λ made. FindsMade script.now (out-Instr instr.now) (types_at types.old stack.now)
        types.new made.items)) }
{
    let _ = script;
    match line_that_stands(types, written, lines_of(instr), stack) {
        None => Ok(None),
        Some((letters, line)) => {
            let chosen = all_chosen(letters, unit, written);
            let below = &stack[slot_count(line.0)..];
            Ok(Some(results(alloc, types, chosen, line.1, below)?))
        }
    }
}

/// How many slots there are.
pub(crate) fn slot_count(slots: Slots) -> usize
    ensures { result ≡ length (slot_list slots) }
{
    match slots {
        Slots::None => 0,
        Slots::One(_) => 1,
        Slots::Two(_, _) => 2,
        Slots::Three(_, _, _) => 3,
    }
}

/// The line whose operands stand on top of the stack, and what its letters stand for.
fn line_that_stands(
    types: &Types,
    written: Written,
    lines: &'static [Line],
    stack: &[TypeId],
) -> Option<(Letters, Line)>
    requires stack { IsTrue (are_in types.now stack.now) }
    requires written { IsTrue (are_in types.now (written.t ∷ written.u ∷ [])) }
    ensures stands { StandsOrNot types.now written FREE lines.now stack.now result }
    ensures enough { IfSome result (λ found. length (slot_list found.1.0) ≤ length stack.now) }
{
    match lines {
        [] => None,
        [line, rest @ ..] => match operands_stand(types, written, line.0, stack) {
            Some(letters) => Some((letters, *line)),
            None => line_that_stands(types, written, rest, stack),
        },
    }
}
