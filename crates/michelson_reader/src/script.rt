//! Scripts, read from texts.

ghost use Rattle.std.specs.Prelude.{◌≡◌, ◌^◌, ◌<◌, length, IfErr, IfOk, Ok};
ghost use Rattle.std.specs.Option.{option_map};
ghost use Rattle.micheline_text.specs.declared.node.Body.TheViews.{out-Body};
ghost use Rattle.michelson_code.specs.declared.script.Script as declared;
ghost use Rattle.micheline_text.specs.Told.{AnswersUnlessFull};
ghost use Rattle.michelson_reader.specs.Answers.{IsReadFault, read_fault};
ghost use Rattle.michelson_reader.specs.Returned.{code_section, only_argument, parameter_section, shown, storage_section};
ghost use Rattle.michelson_reader.specs.Script.{IsScriptOf, unbraced};
ghost use Rattle.michelson_reader.specs.ScriptFaults.{all_three, script_read, section, section_body};

use crate::code::read_code;
use crate::fault::ReadFault;
use crate::parameter::{Parameter, read_parameter};
use crate::types::read_type;
use crate::words::is_word;
use micheline_text::{Body, Node, read_nodes};
use michelson_code::{Code, Script};
use std::alloc::Global;
use value_core::Ty;

/// The sections so far.
#[derive(Drop)]
struct Sections {
    parameter: Option<Parameter>,
    storage: Option<Ty>,
    code: Option<Code>,
}

impl Sections {
    /// One more section, which a node is.
    fn add(&mut self, alloc: Global, n: &Node) -> Result<(), ReadFault>
        ensures { AnswersUnlessFull read_fault (λ u. shown self.new) result
            (section_body n.now.at (out-Body n.now.body) (shown self.old)) }
    {
        let at = n.at as usize;
        match &n.body {
            Body::Prim { name, args, .. } => {
                self.add_word(alloc, at, name.as_slice(), args.as_slice())
            }
            _ => Err(ReadFault::Sections(at)),
        }
    }

    fn add_word(
        &mut self,
        alloc: Global,
        at: usize,
        name: &[u8],
        args: &[Node],
    ) -> Result<(), ReadFault>
        ensures { AnswersUnlessFull read_fault (λ u. shown self.new) result
            (section at name.now args.now (shown self.old)) }
    {
        if is_word(name, "parameter") {
            self.add_parameter(alloc, at, args)
        } else if is_word(name, "storage") {
            self.add_storage(alloc, at, args)
        } else if is_word(name, "code") {
            self.add_code(alloc, at, args)
        } else {
            Err(ReadFault::Sections(at))
        }
    }

    fn add_parameter(&mut self, alloc: Global, at: usize, args: &[Node]) -> Result<(), ReadFault>
        ensures { AnswersUnlessFull read_fault (λ u. shown self.new) result
            (parameter_section at args.now (shown self.old)) }
    {
        let argument = only_argument(at, self.parameter.is_some(), args)?;
        self.parameter = Some(read_parameter(alloc, argument)?);
        Ok(())
    }

    fn add_storage(&mut self, alloc: Global, at: usize, args: &[Node]) -> Result<(), ReadFault>
        ensures { AnswersUnlessFull read_fault (λ u. shown self.new) result
            (storage_section at args.now (shown self.old)) }
    {
        let argument = only_argument(at, self.storage.is_some(), args)?;
        self.storage = Some(read_type(alloc, argument)?);
        Ok(())
    }

    fn add_code(&mut self, alloc: Global, at: usize, args: &[Node]) -> Result<(), ReadFault>
        ensures { AnswersUnlessFull read_fault (λ u. shown self.new) result
            (code_section at args.now (shown self.old)) }
    {
        let argument = only_argument(at, self.code.is_some(), args)?;
        self.code = Some(read_code(alloc, argument)?);
        Ok(())
    }

    /// The script, if each section stood; what is missing is told at the text's end.
    fn script(self, end: usize) -> Result<Script, ReadFault>
        ensures { AnswersUnlessFull read_fault (λ s. s) result
            (all_three end (shown self).parameter (shown self).storage (shown self).code) }
    {
        let Sections {
            parameter,
            storage,
            code,
        } = self;
        let (Some(parameter), Some(storage), Some(code)) = (parameter, storage, code) else {
            return Err(ReadFault::Sections(end));
        };
        let Parameter { ty, names } = parameter;
        Ok(Script {
            param: ty,
            names,
            storage,
            code,
        })
    }
}

/// The one argument of a section that didn't stand before.
fn only_argument(at: usize, repeated: bool, args: &[Node]) -> Result<&Node, ReadFault>
    ensures { AnswersUnlessFull read_fault (λ n. n.now) result
        (only_argument at repeated args.now) }
{
    if repeated {
        return Err(ReadFault::Sections(at));
    }
    match args {
        [argument] => Ok(argument),
        _ => Err(ReadFault::Arity(at)),
    }
}

/// One pair of braces round all nodes is taken away.
fn unbraced(nodes: &[Node]) -> &[Node]
    ensures { result.now ≡ unbraced nodes.now }
{
    match nodes {
        [node] => match &node.body {
            Body::Seq(inner) => inner.as_slice(),
            _ => nodes,
        },
        _ => nodes,
    }
}

/// The script that nodes are, where their text ends there.
fn script_of(alloc: Global, end: usize, nodes: &[Node]) -> Result<Script, ReadFault>
    ensures { AnswersUnlessFull read_fault (λ s. s) result (script_read end nodes.now) }
{
    let mut sections = Sections {
        parameter: None,
        storage: None,
        code: None,
    };
    let inner = unbraced(nodes);
    for node in inner {
        sections.add(alloc, node)?;
    }
    sections.script(end)
}

/// The script of a text.
pub fn read_script(alloc: Global, b: &[u8]) -> Result<Script, ReadFault>
    requires { length b.now < 2 ^ 32 }
    // What is read is a text of the script.
    ensures found { IfOk result (λ s. IsScriptOf b.now s) }
    // A text of a script is read, unless memory runs out.
    ensures only { (s : declared.Script) → IsScriptOf b.now s →
        AnswersUnlessFull read_fault (λ s. s) result (Ok s) }
    // A fault is one of the text, or else the first one of its nodes.
    ensures fault { IfErr result (IsReadFault b.now) }
{
    let nodes = read_nodes(alloc, b)?;
    script_of(alloc, b.len(), nodes.as_slice())
}
