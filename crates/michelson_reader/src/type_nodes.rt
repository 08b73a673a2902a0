//! Types to nodes.

ghost use Rattle.std.specs.Prelude.{◌≡◌, [], IfOk};
ghost use Rattle.value_core.specs.Combs.{comb};
ghost use Rattle.michelson_reader.specs.Printed.{type_node};
ghost use Rattle.michelson_reader.specs.Printing.{annotated, pair_node, type_parts, type_word};

use crate::nodes::{one, two, word};
use micheline_text::{NoMemory, Node};
use sqlite_items::Items;
use std::alloc::Global;
use value_core::Ty;

/// The node of a type. The second parts of pairs are followed in a loop: a flat `pair` is as deep as
/// it has parts.
#[cycle(type_nodes)]
pub(crate) fn type_node(alloc: Global, t: &Ty) -> Result<Node, NoMemory>
    ensures { IfOk result (λ n. n ≡ type_node t.now) }
{
    let mut firsts = Items::new(alloc);
    let mut rest = t;
    while let Ty::Pair(first, second) = rest {
        firsts.push(type_node(alloc, first.get())?)?;
        rest = second.get();
    }
    let last = node_by_parts(alloc, rest)?;
    pairs(alloc, firsts, last)
}

#[cycle(type_nodes)]
fn node_by_parts(alloc: Global, t: &Ty) -> Result<Node, NoMemory>
    ensures { IfOk result (λ n. n ≡ type_node t.now) }
{
    word(
        alloc,
        type_word(t),
        Items::new(alloc),
        type_parts(alloc, t)?,
    )
}

/// Each first node in a `pair` with all that stands behind it.
fn pairs(alloc: Global, mut firsts: Items<Node>, last: Node) -> Result<Node, NoMemory>
    ensures { IfOk result (λ n. n ≡ comb pair_node firsts last) }
{
    let mut made = last;
    while let Some(first) = firsts.pop() {
        made = word(alloc, b"pair", Items::new(alloc), two(alloc, first, made)?)?;
    }
    Ok(made)
}

/// The node of a type, with these annotations.
pub(crate) fn annotated_type(
    alloc: Global,
    notes: Items<Items<u8>>,
    t: &Ty,
) -> Result<Node, NoMemory>
    ensures { IfOk result (λ n. n ≡ annotated notes t.now) }
{
    word(alloc, type_word(t), notes, type_parts(alloc, t)?)
}

fn type_word(t: &Ty) -> &'static [u8]
    ensures { result.now ≡ type_word t.now }
{
    match t {
        Ty::Unit => b"unit",
        Ty::Bool => b"bool",
        Ty::Int => b"int",
        Ty::Nat => b"nat",
        Ty::Mutez => b"mutez",
        Ty::Time => b"timestamp",
        Ty::Text => b"string",
        Ty::Bytes => b"bytes",
        Ty::Addr => b"address",
        Ty::Option(_) => b"option",
        Ty::Or(_, _) => b"or",
        Ty::Pair(_, _) => b"pair",
        Ty::List(_) => b"list",
        Ty::Set(_) => b"set",
        Ty::Map(_, _) => b"map",
        Ty::BigMap(_, _) => b"big_map",
        Ty::Contract(_) => b"contract",
        Ty::Operation => b"operation",
    }
}

#[cycle(type_nodes)]
fn type_parts(alloc: Global, t: &Ty) -> Result<Items<Node>, NoMemory>
    ensures { IfOk result (λ ns. ns ≡ type_parts t.now) }
{
    match t {
        Ty::Option(t) | Ty::List(t) | Ty::Set(t) | Ty::Contract(t) => {
            one(alloc, type_node(alloc, t.get())?)
        }
        Ty::Or(s, t) | Ty::Pair(s, t) | Ty::Map(s, t) | Ty::BigMap(s, t) => {
            let first = type_node(alloc, s.get())?;
            two(alloc, first, type_node(alloc, t.get())?)
        }
        _ => Ok(Items::new(alloc)),
    }
}
