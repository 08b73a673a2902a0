//! Whether a script is read again as it is printed.

ghost use Rattle.std.specs.Prelude.{◌≡◌, ◌↔◌, IsTrue, is_some, map};
ghost use Rattle.std.specs.List.{list_all};
ghost use Rattle.michelson_code.specs.Entries.{are_in_order, is_before, type_at};
ghost use Rattle.michelson_code.specs.Levels.{operand_map};
ghost use Rattle.michelson_code.specs.Printable.{IsPrintableScript, are_entries_of, is_count, is_fit, is_fit_operand, is_pushed, stands_in};
ghost use Rattle.michelson_code.specs.Shown.{operand_shown, operands_shown};

use crate::brackets::brackets_within;
use crate::entries::type_at;
use crate::instr::Instr;
use crate::script::{Script, Side};
use crate::table::{Operand, Operands, form_of};
use sqlite_items::Items;
use value_core::{Name, Ty, Val, has_type, is_passable, is_within_size};

/// Whether the text of a script is read again as the script.
pub fn is_printable(script: &Script) -> bool
    ensures { IsTrue result ↔ IsPrintableScript script.now }
{
    are_entries_of(&script.param, script.names.as_slice())
        && code_is_fit(script.code.as_slice())
        && brackets_within(script, 256)
}

/// Whether names stand at nodes of a parameter that `or` alone reaches, in the order of the text.
pub fn are_entries_of(param: &Ty, names: &[(Items<Side>, Name)]) -> bool
    ensures { result ≡ are_entries_of param.now names.now }
{
    all_stand_in(param, names) && are_in_order(names)
}

fn all_stand_in(param: &Ty, names: &[(Items<Side>, Name)]) -> bool
    ensures { result ≡ list_all (stands_in param.now) names.now }
{
    for name in names {
        if !stands_in(param, name.0.as_slice()) {
            return false;
        }
    }
    true
}

fn stands_in(param: &Ty, path: &[Side]) -> bool
    ensures { result ≡ is_some (type_at path.now param.now) }
{
    type_at(path, param).is_some()
}

fn are_in_order(names: &[(Items<Side>, Name)]) -> bool
    ensures { result ≡ are_in_order names.now }
{
    let Some((first, rest)) = names.split_first() else {
        return true;
    };
    let mut last = first.0.as_slice();
    for name in rest {
        if !is_before(last, name.0.as_slice()) {
            return false;
        }
        last = name.0.as_slice();
    }
    true
}

/// Whether a node stands before another in the text.
fn is_before(a: &[Side], b: &[Side]) -> bool
    ensures { result ≡ is_before a.now b.now }
{
    match a {
        [] => !b.is_empty(),
        [Side::Left, p @ ..] => match b {
            [] => false,
            [Side::Left, q @ ..] => is_before(p, q),
            [Side::Right, ..] => true,
        },
        [Side::Right, p @ ..] => match b {
            [] => false,
            [Side::Left, ..] => false,
            [Side::Right, q @ ..] => is_before(p, q),
        },
    }
}

#[cycle(fitting)]
fn code_is_fit(code: &[Instr]) -> bool
    ensures { result ≡ list_all is_fit code.now }
{
    for instr in code {
        if !instr_is_fit(instr) {
            return false;
        }
    }
    true
}

#[cycle(fitting)]
fn instr_is_fit(instr: &Instr) -> bool
    ensures { result ≡ is_fit instr.now }
{
    operands_are_fit(form_of(instr).operands)
}

#[cycle(fitting)]
fn operands_are_fit(operands: Operands<'_>) -> bool
    ensures { result ≡
        list_all is_fit_operand (map (operand_map is_fit) (operands_shown operands.entry)) }
{
    match operands {
        Operands::None => true,
        Operands::One(x) => operand_is_fit(x),
        Operands::Two(x, y) => operand_is_fit(x) && operand_is_fit(y),
    }
}

#[cycle(fitting)]
fn operand_is_fit(operand: Operand<'_>) -> bool
    ensures { result ≡ is_fit_operand (operand_map is_fit (operand_shown operand.entry)) }
{
    match operand {
        Operand::Number { least, number } => is_count(least, number),
        Operand::Type(_) => true,
        Operand::Data(t, v) => is_pushed(t, v),
        Operand::Code(code) => code_is_fit(code),
    }
}

/// Whether a number may be read where this is the least.
pub fn is_count(least: u32, number: u32) -> bool
    ensures { result ≡ is_count least number }
{
    least <= number && number <= 65_535
}

/// Whether a value may be pushed at a type.
pub fn is_pushed(t: &Ty, v: &Val) -> bool
    ensures { result ≡ is_pushed t.now v.now }
{
    is_passable(t) && has_type(v, t) && is_within_size(v, 4096)
}
