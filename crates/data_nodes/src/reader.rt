//! Nodes read at a type.

ghost use Rattle.std.specs.Prelude.{◌≡◌, ◌≤◌, IfErr, IfOk, IsTrue, Ok, length, map};
ghost use Rattle.std.specs.Str.{bytes_eq};
ghost use Rattle.value_core.specs.declared.ty.Ty.TheViews.{out-Ty};
ghost use Rattle.value_core.specs.declared.val.Val.{Val};
ghost use Rattle.value_core.specs.Size.{size_of};
ghost use Rattle.value_core.specs.Sound.{is_countable, is_plain};
ghost use Rattle.micheline_text.specs.Told.{AnswersUnlessFull, IsTold};
ghost use Rattle.data_nodes.specs.Told.{Tells, node_fault};
ghost use Rattle.data_nodes.specs.FirstFault.{IsDataFault};
ghost use Rattle.data_nodes.specs.Data.{IsData};
ghost use Rattle.data_nodes.specs.Readers.{comb, is_comb_of, pair};
ghost use Rattle.data_nodes.specs.Faults.{alone, applied, data_read, reader, sequence, storage_read, with_one};

use crate::fault::{DataRefusal, shape, too_large};
use crate::items::{ascending, entries, items};
use crate::literals::{bytes, number, string};
use micheline_text::{Body, Node};
use sqlite_items::Items;
use std::alloc::Global;
use value_core::{Ty, Val, left, right, size, some};

/// The leaves that data may have.
const LARGEST: u64 = 4096;

/// The value of a type that a node is written for; at most 4,096 leaves.
pub fn read_data(alloc: Global, t: &Ty, n: &Node) -> Result<Val, DataRefusal>
    // What is read is data of the type, and not too large.
    ensures found { IfOk result (λ v. IsData t.now n.now v × (size_of v ≤ 4096)) }
    // It may be written and kept: no contract, operation or big map stands in it.
    ensures plain { IfOk result (λ v. IsTrue (is_plain v)) }
    // Such data is read, unless memory runs out.
    ensures only { (v : Val) → IsData t.now n.now v → size_of v ≤ 4096 →
        AnswersUnlessFull node_fault (λ v. v) result (Ok v) }
    // The fault is the one that stands before all others, or that the value is too large.
    ensures first { IfErr result (Tells (IsDataFault t.now n.now)) }
    // So it is what a reader from the left comes upon.
    ensures fault { IfErr result (λ e. IsTold (node_fault e) (data_read t.now n.now)) }
{
    read_small(alloc, t, n)
}

fn read_small(alloc: Global, t: &Ty, n: &Node) -> Result<Val, DataRefusal>
    ensures { AnswersUnlessFull node_fault (λ v. v) result (data_read t.now n.now) }
{
    let v = value(alloc, t, n)?;
    if size(&v) > LARGEST {
        return Err(too_large(n.at as usize));
    }
    Ok(v)
}

pub(crate) fn is_word(name: &[u8], word: &str) -> bool
    ensures { result ≡ bytes_eq name.now word.now }
{
    name == word.as_bytes()
}

/// What the node says at the type, of any size.
#[cycle(reading)]
pub(crate) fn value(alloc: Global, t: &Ty, n: &Node) -> Result<Val, DataRefusal>
    ensures { AnswersUnlessFull node_fault (λ v. v) result (storage_read t.now n.now) }
{
    let at = n.at as usize;
    match &n.body {
        Body::Int(z) => number(t, at, *z),
        Body::Text(text) => string(alloc, t, at, text),
        Body::Bytes(blob) => bytes(alloc, t, at, blob),
        Body::Prim { name, args, .. } => applied(alloc, t, at, name.as_slice(), args.as_slice()),
        Body::Seq(nodes) => sequence(alloc, t, at, nodes.as_slice()),
    }
}

#[cycle(reading)]
fn applied(alloc: Global, t: &Ty, at: usize, name: &[u8], args: &[Node]) -> Result<Val, DataRefusal>
    ensures { AnswersUnlessFull node_fault (λ v. v) result
        (applied at name.now (map reader args.now) t.now) }
{
    match args {
        [] => alone(t, at, name),
        [part] => with_one(alloc, t, at, name, part),
        _ if is_word(name, "Pair") => pair_of(alloc, t, at, args),
        _ => Err(shape(at)),
    }
}

fn alone(t: &Ty, at: usize, name: &[u8]) -> Result<Val, DataRefusal>
    ensures { AnswersUnlessFull node_fault (λ v. v) result (alone at name.now (out-Ty t.now)) }
{
    match t {
        Ty::Unit if is_word(name, "Unit") => Ok(Val::Unit),
        Ty::Bool if is_word(name, "True") => Ok(Val::Bool(true)),
        Ty::Bool if is_word(name, "False") => Ok(Val::Bool(false)),
        Ty::Option(_) if is_word(name, "None") => Ok(Val::Nothing),
        _ => Err(shape(at)),
    }
}

#[cycle(reading)]
fn with_one(alloc: Global, t: &Ty, at: usize, name: &[u8], part: &Node) -> Result<Val, DataRefusal>
    ensures { AnswersUnlessFull node_fault (λ v. v) result
        (with_one at name.now (reader part.now) (out-Ty t.now)) }
{
    match t {
        Ty::Option(t) if is_word(name, "Some") => Ok(some(alloc, value(alloc, t.get(), part)?)?),
        Ty::Or(s, _) if is_word(name, "Left") => Ok(left(alloc, value(alloc, s.get(), part)?)?),
        Ty::Or(_, t) if is_word(name, "Right") => Ok(right(alloc, value(alloc, t.get(), part)?)?),
        _ => Err(shape(at)),
    }
}

/// The items of a pair, if there are two at least and no more than its type has.
#[cycle(reading)]
fn pair_of(alloc: Global, t: &Ty, at: usize, nodes: &[Node]) -> Result<Val, DataRefusal>
    ensures { AnswersUnlessFull node_fault (λ v. v) result (pair at (map reader nodes.now) t.now) }
{
    if nodes.len() < 2 || !is_comb_of(nodes, t) {
        return Err(shape(at));
    }
    comb(alloc, t, at, nodes)
}

fn is_comb_of(nodes: &[Node], t: &Ty) -> bool
    ensures { result ≡ is_comb_of (map reader nodes.now) t.now }
{
    let (mut left, mut behind) = (nodes, t);
    loop {
        match left {
            [] => return false,
            [_] => return true,
            [_, rest @ ..] => match behind {
                Ty::Pair(_, t) => {
                    left = rest;
                    behind = t.get();
                }
                _ => return false,
            },
        }
    }
}

/// The items of a comb in a loop, since a flat `Pair` may have millions.
#[cycle(reading)]
fn comb(alloc: Global, t: &Ty, at: usize, nodes: &[Node]) -> Result<Val, DataRefusal>
    ensures { AnswersUnlessFull node_fault (λ v. v) result (comb at (map reader nodes.now) t.now) }
{
    let mut firsts = Items::new(alloc);
    let (mut left, mut behind) = (nodes, t);
    loop {
        match left {
            [] => return Err(shape(at)),
            [last] => {
                let last = value(alloc, behind, last)?;
                return Ok(value_core::comb(alloc, firsts, last)?);
            }
            [first, rest @ ..] => match behind {
                Ty::Pair(s, t) => {
                    firsts.push(value(alloc, s.get(), first)?)?;
                    left = rest;
                    behind = t.get();
                }
                _ => return Err(shape(at)),
            },
        }
    }
}

/// The nodes in braces.
#[cycle(reading)]
fn sequence(alloc: Global, t: &Ty, at: usize, nodes: &[Node]) -> Result<Val, DataRefusal>
    ensures { AnswersUnlessFull node_fault (λ v. v) result
        (sequence at (map reader nodes.now) t.now (out-Ty t.now)) }
{
    match t {
        Ty::Pair(_, _) => pair_of(alloc, t, at, nodes),
        _ if !is_countable(nodes) => Err(shape(at)),
        Ty::List(item) => Ok(Val::List(items(alloc, item.get(), nodes)?)),
        Ty::Set(item) => Ok(Val::Set(ascending(alloc, item.get(), nodes)?)),
        Ty::Map(k, v) => Ok(Val::Map(entries(alloc, k.get(), v.get(), nodes)?)),
        _ => Err(shape(at)),
    }
}

fn is_countable(nodes: &[Node]) -> bool
    ensures { result ≡ is_countable nodes.now }
{
    nodes.len() < 0x1_0000_0000
}
