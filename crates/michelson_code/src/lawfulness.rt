//! The numbers, names and values in a script are what the program can hold.

ghost use Rattle.std.specs.Prelude.{◌^◌, IsTrue, map, nat_lt};
ghost use Rattle.std.specs.List.{list_all};
ghost use Rattle.value_core.specs.Leaves.{is_name};
ghost use Rattle.michelson_code.specs.Lawful.{is_lawful_entry, is_lawful_instr, is_lawful_name, is_lawful_operand, is_lawful_script};
ghost use Rattle.michelson_code.specs.Levels.{operand_map};
ghost use Rattle.michelson_code.specs.Shown.{operand_shown, operands_shown};

use crate::instr::Instr;
use crate::script::{Script, Side};
use crate::table::{Operand, Operands, form_of};
use sqlite_items::Items;
use value_core::{Name, leaves_are_lawful};

/// Each number in a script that the program holds is below 2^32, each name is one, and each value
/// is lawful.
pub fn script_is_lawful(script: &Script)
    ensures { IsTrue (is_lawful_script script.now) }
{
    names_are_lawful(script.names.as_slice());
    code_is_lawful(script.code.as_slice());
}

fn names_are_lawful(names: &[(Items<Side>, Name)])
    ensures { IsTrue (list_all is_lawful_entry names.now) }
{
    for name in names {
        name_is_lawful(&name.1);
    }
}

fn name_is_lawful(name: &Name)
    ensures { IsTrue (is_name name.now) }
{
    // Reading it tells that it is one.
    let _bytes = name.bytes();
}

fn number_fits(n: u32)
    ensures { IsTrue (nat_lt n (2 ^ 32)) }
{}

fn entry_is_lawful(entry: Option<Option<Name>>)
    ensures { IsTrue (is_lawful_name entry) }
{
    if let Some(Some(name)) = entry {
        name_is_lawful(&name);
    }
}

#[cycle(lawful)]
fn code_is_lawful(code: &[Instr])
    ensures { IsTrue (list_all is_lawful_instr code.now) }
{
    for instr in code {
        instr_is_lawful(instr);
    }
}

#[cycle(lawful)]
fn instr_is_lawful(instr: &Instr)
    ensures { IsTrue (is_lawful_instr instr.now) }
{
    let form = form_of(instr);
    entry_is_lawful(form.entry);
    operands_are_lawful(form.operands);
}

#[cycle(lawful)]
fn operands_are_lawful(operands: Operands<'_>)
    ensures { IsTrue (list_all is_lawful_operand
        (map (operand_map is_lawful_instr) (operands_shown operands.entry))) }
{
    match operands {
        Operands::None => {}
        Operands::One(x) => operand_is_lawful(x),
        Operands::Two(x, y) => {
            operand_is_lawful(x);
            operand_is_lawful(y);
        }
    }
}

#[cycle(lawful)]
fn operand_is_lawful(operand: Operand<'_>)
    ensures { IsTrue (is_lawful_operand
        (operand_map is_lawful_instr (operand_shown operand.entry))) }
{
    match operand {
        Operand::Data(_, v) => leaves_are_lawful(v),
        Operand::Code(code) => code_is_lawful(code),
        Operand::Number { number, .. } => number_fits(number),
        Operand::Type(_) => {}
    }
}
