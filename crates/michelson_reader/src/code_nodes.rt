//! Code to nodes, each instruction by its line in the table of forms.

ghost use Rattle.std.specs.Prelude.{◌≡◌, IfOk, map};
ghost use Rattle.michelson_code.specs.Shown.{operand_shown, operands_shown};
ghost use Rattle.michelson_reader.specs.Printed.{code_node, entry_names, instruction_node};
ghost use Rattle.michelson_reader.specs.Printing.{node_behind, nodes_behind, note_of};

use crate::nodes::{node, note, number, one, two, word};
use crate::type_nodes::type_node;
use data_nodes::data_node;
use micheline_text::{Body, NoMemory, Node};
use michelson_code::{Instr, Operand, Operands, form_of};
use sqlite_items::Items;
use std::alloc::Global;
use value_core::Name;

/// The node of a code: those of its instructions in braces.
#[cycle(code_nodes)]
pub(crate) fn code_node(alloc: Global, code: &[Instr]) -> Result<Node, NoMemory>
    ensures { IfOk result (λ n. n ≡ code_node code.now) }
{
    let mut nodes = Items::new(alloc);
    for instr in code {
        nodes.push(instruction_node(alloc, instr)?)?;
    }
    Ok(node(Body::Seq(nodes)))
}

#[cycle(code_nodes)]
fn instruction_node(alloc: Global, instr: &Instr) -> Result<Node, NoMemory>
    ensures { IfOk result (λ n. n ≡ instruction_node instr.now) }
{
    let form = form_of(instr);
    let notes = entry_notes(alloc, form.entry)?;
    let args = operand_nodes(alloc, form.operands)?;
    word(alloc, form.word.as_bytes(), notes, args)
}

/// The name of an entry as an annotation, where there is one.
fn entry_notes(alloc: Global, entry: Option<Option<Name>>) -> Result<Items<Items<u8>>, NoMemory>
    ensures { IfOk result (λ ns. ns ≡ map note_of (entry_names entry)) }
{
    let mut notes = Items::new(alloc);
    if let Some(Some(name)) = entry {
        notes.push(note(alloc, &name)?)?;
    }
    Ok(notes)
}

#[cycle(code_nodes)]
fn operand_nodes(alloc: Global, operands: Operands<'_>) -> Result<Items<Node>, NoMemory>
    ensures { IfOk result (λ ns. ns ≡ nodes_behind (operands_shown operands.entry)) }
{
    match operands {
        Operands::None => Ok(Items::new(alloc)),
        Operands::One(x) => one(alloc, operand_node(alloc, x)?),
        Operands::Two(x, y) => {
            let first = operand_node(alloc, x)?;
            two(alloc, first, operand_node(alloc, y)?)
        }
    }
}

#[cycle(code_nodes)]
fn operand_node(alloc: Global, operand: Operand<'_>) -> Result<Node, NoMemory>
    ensures { IfOk result (λ n. n ≡ node_behind (operand_shown operand.entry)) }
{
    match operand {
        Operand::Number { number: n, .. } => Ok(number(n)),
        Operand::Type(t) => type_node(alloc, t),
        Operand::Data(_, v) => data_node(alloc, v),
        Operand::Code(code) => code_node(alloc, code),
    }
}
