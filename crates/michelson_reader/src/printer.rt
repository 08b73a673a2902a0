//! Scripts to bytes.

ghost use Rattle.std.specs.Prelude.{◌≡◌, ◌∷◌, [], IfOk};
ghost use Rattle.micheline_text.specs.Printed.{printed};
ghost use Rattle.data_nodes.specs.Nodes.{applied};
ghost use Rattle.michelson_code.specs.Printable.{IsPrintableScript};
ghost use Rattle.michelson_reader.specs.Lines.{AreThreeLines};
ghost use Rattle.michelson_reader.specs.Printed.{script_text};
ghost use Rattle.michelson_reader.specs.Script.{IsScriptOf};

use crate::code_nodes::code_node;
use crate::nodes::{one, word};
use crate::parameter_nodes::parameter_node;
use crate::type_nodes::type_node;
use micheline_text::{NoMemory, Node, print_node};
use michelson_code::{Script, script_is_lawful};
use sqlite_items::Items;
use std::alloc::Global;

/// The text of a script, in three lines.
pub fn print_script(alloc: Global, s: &Script) -> Result<Vec<u8>, NoMemory>
    ensures text { IfOk result (λ text. text.items ≡ script_text s.now) }
    // Where the script is printable, it is read again as the script.
    ensures again { IfOk result (λ text. IsPrintableScript s.now → IsScriptOf text.items s.now) }
    // Then it is three lines, of which none is `end`.
    ensures in_lines { IfOk result (λ text. IsPrintableScript s.now → AreThreeLines text.items) }
{
    script_is_lawful(s);
    lines(alloc, s)
}

/// The sections, each with its newline.
fn lines(alloc: Global, s: &Script) -> Result<Vec<u8>, NoMemory>
    ensures { IfOk result (λ text. text.items ≡ script_text s.now) }
{
    let parameter = parameter_node(alloc, &s.param, s.names.as_slice())?;
    let mut out = section(alloc, b"parameter", parameter)?;
    out.extend_from_slice(b" ;\n")?;
    let storage = section(alloc, b"storage", type_node(alloc, &s.storage)?)?;
    out.extend_from_slice(storage.as_slice())?;
    out.extend_from_slice(b" ;\n")?;
    let code = section(alloc, b"code", code_node(alloc, s.code.as_slice())?)?;
    out.extend_from_slice(code.as_slice())?;
    out.push(b'\n')?;
    Ok(out)
}

/// The text of a section: its word, and its one argument.
fn section(alloc: Global, name: &[u8], arg: Node) -> Result<Vec<u8>, NoMemory>
    ensures { IfOk result (λ text. text.items ≡ printed (applied name.now (arg ∷ []))) }
{
    let args = one(alloc, arg)?;
    print_node(alloc, &word(alloc, name, Items::new(alloc), args)?)
}
