//! Whether the brackets of a printed script go deeper than so many.

ghost use Rattle.std.specs.Prelude.{◌≤◌, ◌↔◌, IsTrue, map};
ghost use Rattle.value_core.specs.Depth.{greatest};
ghost use Rattle.michelson_code.specs.Brackets.{brackets_of, code_brackets, name_brackets, operand_brackets, script_brackets, type_brackets};
ghost use Rattle.michelson_code.specs.Levels.{operand_map};
ghost use Rattle.michelson_code.specs.Shown.{operand_shown, operands_shown};

use crate::instr::Instr;
use crate::script::{Script, Side};
use crate::table::{Operand, Operands, form_of};
use crate::value_brackets::argument_within;
use sqlite_items::Items;
use value_core::{Name, Ty, type_is_within_depth};

/// Whether the brackets of a script's text go at most so deep. It looks no deeper than that.
pub fn brackets_within(script: &Script, most: u16) -> bool
    ensures { IsTrue result ↔ (script_brackets script.now ≤ most) }
{
    type_within(&script.param, most)
        && type_within(&script.storage, most)
        && code_within(script.code.as_slice(), most)
        && names_within(script.names.as_slice(), most)
}

/// A type as an argument.
fn type_within(t: &Ty, most: u16) -> bool
    ensures { IsTrue result ↔ (type_brackets t.now ≤ most) }
{
    type_is_within_depth(t, u32::from(most) + 1)
}

/// The names of entries, at their nodes.
fn names_within(names: &[(Items<Side>, Name)], most: u16) -> bool
    ensures { IsTrue result ↔ (greatest (map name_brackets names.now) ≤ most) }
{
    for name in names {
        if name.0.len() >= usize::from(most) {
            return false;
        }
    }
    true
}

/// A code, with its braces.
#[cycle(code_bracketing)]
fn code_within(code: &[Instr], most: u16) -> bool
    ensures { IsTrue result ↔ (code_brackets code.now ≤ most) }
{
    if most == 0 {
        return false;
    }
    for instr in code {
        if !instr_within(instr, most - 1) {
            return false;
        }
    }
    true
}

#[cycle(code_bracketing)]
fn instr_within(instr: &Instr, most: u16) -> bool
    ensures { IsTrue result ↔ (brackets_of instr.now ≤ most) }
{
    operands_within(form_of(instr).operands, most)
}

/// What stands behind a word.
#[cycle(code_bracketing)]
fn operands_within(operands: Operands<'_>, most: u16) -> bool
    ensures { IsTrue result ↔
        (greatest (map operand_brackets
        (map (operand_map brackets_of) (operands_shown operands.entry))) ≤ most) }
{
    match operands {
        Operands::None => true,
        Operands::One(x) => operand_within(x, most),
        Operands::Two(x, y) => operand_within(x, most) && operand_within(y, most),
    }
}

#[cycle(code_bracketing)]
fn operand_within(operand: Operand<'_>, most: u16) -> bool
    ensures { IsTrue result ↔
        (operand_brackets (operand_map brackets_of (operand_shown operand.entry)) ≤ most) }
{
    match operand {
        Operand::Number { .. } => true,
        Operand::Type(t) => type_within(t, most),
        Operand::Data(_, v) => argument_within(v, most),
        Operand::Code(code) => code_within(code, most),
    }
}
