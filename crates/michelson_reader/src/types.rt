//! Types, read from nodes.

ghost use Rattle.std.specs.Prelude.{◌≡◌, drop, map, IfOk};
ghost use Rattle.micheline_text.specs.Told.{AnswersUnlessFull};
ghost use Rattle.michelson_reader.specs.Answers.{read_fault};
ghost use Rattle.michelson_reader.specs.Returned.{each, nested};
ghost use Rattle.michelson_reader.specs.TypeFaults.{applied, type_read};

use crate::fault::ReadFault;
use crate::type_words::{TypeOfOne, TypeOfTwo, plain_type};
use crate::words::{is_word, no_form};
use micheline_text::{Body, Node};
use sqlite_items::Items;
use std::alloc::Global;
use value_core::{NoMemory, Ty};

/// The type that a node is written for; its annotations say nothing.
#[cycle(reading_types)]
pub(crate) fn read_type(alloc: Global, n: &Node) -> Result<Ty, ReadFault>
    ensures { AnswersUnlessFull read_fault (λ t. t) result (type_read n.now) }
{
    let at = n.at as usize;
    match &n.body {
        Body::Prim { name, args, .. } => applied(alloc, at, name.as_slice(), args.as_slice()),
        _ => Err(ReadFault::Arity(at)),
    }
}

#[cycle(reading_types)]
fn applied(alloc: Global, at: usize, name: &[u8], args: &[Node]) -> Result<Ty, ReadFault>
    ensures { AnswersUnlessFull read_fault (λ t. t) result
        (applied at name.now (map type_read args.now)) }
{
    match args {
        [] => match plain_type(name) {
            Some(t) => Ok(t),
            None => Err(no_form(alloc, at, name)),
        },
        [part] => match TypeOfOne::named(name) {
            Some(kind) => Ok(kind.of(alloc, read_type(alloc, part)?)?),
            None => Err(no_form(alloc, at, name)),
        },
        [first, second] => match TypeOfTwo::named(name) {
            Some(kind) => {
                let first = read_type(alloc, first)?;
                let second = read_type(alloc, second)?;
                Ok(kind.of(alloc, first, second)?)
            }
            None => Err(no_form(alloc, at, name)),
        },
        [first, ..] if is_word(name, "pair") => {
            let first = read_type(alloc, first)?;
            let rest = read_others(alloc, args)?;
            Ok(comb(alloc, first, rest)?)
        }
        _ => Err(no_form(alloc, at, name)),
    }
}

/// The types of all nodes but the first.
#[cycle(reading_types)]
fn read_others(alloc: Global, nodes: &[Node]) -> Result<Items<Ty>, ReadFault>
    ensures { AnswersUnlessFull read_fault (λ ts. ts) result
        (each (map type_read (drop 1 nodes.now))) }
{
    let mut types = Items::new(alloc);
    for i in 1..nodes.len() {
        types.push(read_type(alloc, &nodes[i])?)?;
    }
    Ok(types)
}

/// `pair a b c`, which is `pair a (pair b c)`.
fn comb(alloc: Global, first: Ty, mut rest: Items<Ty>) -> Result<Ty, NoMemory>
    ensures { IfOk result (λ t. t ≡ nested first rest) }
{
    let Some(mut last) = rest.pop() else {
        return Ok(first);
    };
    while let Some(part) = rest.pop() {
        last = TypeOfTwo::Pair.of(alloc, part, last)?;
    }
    TypeOfTwo::Pair.of(alloc, first, last)
}
