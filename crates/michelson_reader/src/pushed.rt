//! Data that is pushed, and words in it that are left out.

ghost use Rattle.std.specs.Prelude.{◌≡◌, map};
ghost use Rattle.std.specs.Option.{option_map};
ghost use Rattle.michelson_reader.specs.CodeFaults.{data_fault, first_found, left_out_in, pushed};
ghost use Rattle.micheline_text.specs.Told.{AnswersUnlessFull, IsTold};
ghost use Rattle.michelson_reader.specs.Answers.{read_fault};

use crate::fault::ReadFault;
use crate::words::{is_left_out, left_out_fault};
use data_nodes::{DataFault, DataRefusal, read_data};
use micheline_text::{Body, Node};
use std::alloc::Global;
use value_core::{Ty, Val};

/// A word that is left out, and its offset.
#[derive(Clone, Copy)]
struct LeftOut<'a> {
    at: usize,
    word: &'a [u8],
}

/// The value of the type that a node is written for.
pub(crate) fn pushed(alloc: Global, t: &Ty, n: &Node) -> Result<Val, ReadFault>
    ensures { AnswersUnlessFull read_fault (λ v. v) result (pushed t.now n.now) }
{
    match read_data(alloc, t, n) {
        Ok(v) => Ok(v),
        Err(DataRefusal::Fault(fault)) => Err(data_fault(alloc, fault, n)),
        Err(DataRefusal::NoMemory) => Err(ReadFault::NoMemory),
    }
}

/// A word that is left out is told before what is wrong with the data there or behind it.
fn data_fault(alloc: Global, fault: DataFault, n: &Node) -> ReadFault
    ensures { IsTold {Y = Unit {0}} (read_fault result) (data_fault fault (left_out_in n.now)) }
{
    match left_out_in(n) {
        Some(found) if found.at <= fault.at => left_out_fault(alloc, found.at, found.word),
        _ => ReadFault::Data(fault),
    }
}

/// The leftmost word in a node that is left out.
#[cycle(searching)]
fn left_out_in(n: &Node) -> Option<LeftOut<'_>>
    ensures { option_map (λ found. (found.at, found.word.now)) result ≡ left_out_in n.now }
{
    match &n.body {
        Body::Prim { name, args, .. } => {
            let word = name.as_slice();
            if is_left_out(word) {
                let at = n.at as usize;
                return Some(LeftOut { at, word });
            }
            first_left_out(args.as_slice())
        }
        Body::Seq(nodes) => first_left_out(nodes.as_slice()),
        _ => None,
    }
}

#[cycle(searching)]
fn first_left_out(nodes: &[Node]) -> Option<LeftOut<'_>>
    ensures { option_map (λ found. (found.at, found.word.now)) result
        ≡ first_found (map left_out_in nodes.now) }
{
    for node in nodes {
        if let Some(found) = left_out_in(node) {
            return Some(found);
        }
    }
    None
}
