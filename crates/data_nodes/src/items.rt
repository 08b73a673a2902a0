//! The items of lists and sets, and the entries of maps.

ghost use Rattle.std.specs.Prelude.{◌≡◌, None, map};
ghost use Rattle.value_core.specs.Lasts.{is_above, last_item, last_key};
ghost use Rattle.micheline_text.specs.Told.{AnswersUnlessFull};
ghost use Rattle.data_nodes.specs.Told.{node_fault};
ghost use Rattle.data_nodes.specs.Readers.{ascending, entries, items};
ghost use Rattle.data_nodes.specs.Faults.{entry_of, key_and_value, reader};

use crate::fault::{DataRefusal, out_of_order, shape};
use crate::reader::{is_word, value};
use micheline_text::{Body, Node};
use sqlite_items::Items;
use std::alloc::Global;
use std::cmp::Ordering;
use value_core::{Ty, Val, compare};

#[cycle(reading)]
pub(crate) fn items(alloc: Global, t: &Ty, nodes: &[Node]) -> Result<Items<Val>, DataRefusal>
    ensures { AnswersUnlessFull node_fault (λ vs. vs) result (items t.now (map reader nodes.now)) }
{
    let mut items = Items::new(alloc);
    for node in nodes {
        items.push(value(alloc, t, node)?)?;
    }
    Ok(items)
}

/// The items of a set, each above the one before.
#[cycle(reading)]
pub(crate) fn ascending(alloc: Global, t: &Ty, nodes: &[Node]) -> Result<Items<Val>, DataRefusal>
    ensures { AnswersUnlessFull node_fault (λ vs. vs) result
        (ascending t.now None (map reader nodes.now)) }
{
    let mut items: Items<Val> = Items::new(alloc);
    for node in nodes {
        let item = value(alloc, t, node)?;
        if !is_above_last(items.as_slice(), &item) {
            return Err(out_of_order(node.at as usize));
        }
        items.push(item)?;
    }
    Ok(items)
}

/// The entries of a map, each key above the one before.
#[cycle(reading)]
pub(crate) fn entries(
    alloc: Global,
    k: &Ty,
    v: &Ty,
    nodes: &[Node],
) -> Result<Items<(Val, Val)>, DataRefusal>
    ensures { AnswersUnlessFull node_fault (λ es. es) result
        (entries k.now v.now None (map reader nodes.now)) }
{
    let mut entries: Items<(Val, Val)> = Items::new(alloc);
    for node in nodes {
        let entry = entry(alloc, k, v, entries.as_slice(), node)?;
        entries.push(entry)?;
    }
    Ok(entries)
}

/// `Elt k v`, behind the entries before it.
#[cycle(reading)]
fn entry(
    alloc: Global,
    k: &Ty,
    v: &Ty,
    before: &[(Val, Val)],
    n: &Node,
) -> Result<(Val, Val), DataRefusal>
    ensures { AnswersUnlessFull node_fault (λ e. e) result
        ((reader n.now).entry (last_key before.now) k.now v.now) }
{
    let at = n.at as usize;
    match &n.body {
        Body::Prim { name, args, .. } => {
            entry_of(alloc, k, v, before, at, name.as_slice(), args.as_slice())
        }
        _ => Err(shape(at)),
    }
}

#[cycle(reading)]
fn entry_of(
    alloc: Global,
    k: &Ty,
    v: &Ty,
    before: &[(Val, Val)],
    at: usize,
    name: &[u8],
    args: &[Node],
) -> Result<(Val, Val), DataRefusal>
    ensures { AnswersUnlessFull node_fault (λ e. e) result
        (entry_of at name.now (map reader args.now) (last_key before.now) k.now v.now) }
{
    match args {
        [key, item] if is_word(name, "Elt") => {
            let first = value(alloc, k, key)?;
            if !is_above_last_key(before, &first) {
                return Err(out_of_order(key.at as usize));
            }
            Ok((first, value(alloc, v, item)?))
        }
        _ => Err(shape(at)),
    }
}

fn is_above_last(items: &[Val], item: &Val) -> bool
    ensures { result ≡ is_above (last_item items.now) item.now }
{
    match items.last() {
        None => true,
        Some(last) => compare(last, item) == Ordering::Less,
    }
}

fn is_above_last_key(entries: &[(Val, Val)], key: &Val) -> bool
    ensures { result ≡ is_above (last_key entries.now) key.now }
{
    match entries.last() {
        None => true,
        Some(last) => compare(&last.0, key) == Ordering::Less,
    }
}
