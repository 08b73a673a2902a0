//! The parameter's type to a node, in which each name of an entry stands at its own node.

ghost use Rattle.std.specs.Prelude.{◌≡◌, IfOk, map};
ghost use Rattle.michelson_reader.specs.Printed.{parameter_node};
ghost use Rattle.michelson_reader.specs.Printing.{below_of, entry_of, notes_of, part_node};

use crate::nodes::{note, two, word};
use crate::type_nodes::annotated_type;
use micheline_text::{NoMemory, Node};
use michelson_code::Side;
use sqlite_items::Items;
use std::alloc::Global;
use value_core::{Name, Ty};

/// The name of an entry, and what is left of the way to its node.
#[derive(Clone, Copy)]
struct EntryBelow<'a> {
    path: &'a [Side],
    name: &'a Name,
}

/// The node of the parameter's type, with the names of its entries.
pub(crate) fn parameter_node(
    alloc: Global,
    t: &Ty,
    names: &[(Items<Side>, Name)],
) -> Result<Node, NoMemory>
    ensures { IfOk result (λ n. n ≡ parameter_node t.now names.now) }
{
    let mut entries = Vec::new(alloc);
    for (path, name) in names {
        entries.push(EntryBelow {
            path: path.as_slice(),
            name,
        })?;
    }
    part_node(alloc, t, entries.as_slice())
}

/// The node of a part, with the names from it on.
fn part_node(alloc: Global, t: &Ty, entries: &[EntryBelow<'_>]) -> Result<Node, NoMemory>
    ensures { IfOk result (λ n. n ≡ part_node t.now (map entry_of entries.now)) }
{
    let notes = notes_here(alloc, entries)?;
    match t {
        Ty::Or(s, t) => {
            let left = entries_below(alloc, Side::Left, entries)?;
            let left_node = part_node(alloc, s.get(), left.as_slice())?;
            let right = entries_below(alloc, Side::Right, entries)?;
            let right_node = part_node(alloc, t.get(), right.as_slice())?;
            word(alloc, b"or", notes, two(alloc, left_node, right_node)?)
        }
        _ => annotated_type(alloc, notes, t),
    }
}

/// The annotations of the names that stand right there.
fn notes_here(alloc: Global, entries: &[EntryBelow<'_>]) -> Result<Items<Items<u8>>, NoMemory>
    ensures { IfOk result (λ ns. ns ≡ notes_of entries.now) }
{
    let mut notes = Items::new(alloc);
    for entry in entries {
        if entry.path.is_empty() {
            notes.push(note(alloc, entry.name)?)?;
        }
    }
    Ok(notes)
}

/// The names whose way goes on to this side, by the rest of it.
fn entries_below<'a>(
    alloc: Global,
    side: Side,
    entries: &[EntryBelow<'a>],
) -> Result<Vec<EntryBelow<'a>>, NoMemory>
    ensures { IfOk result (λ below. map entry_of below.items ≡ below_of side entries.now) }
{
    let mut below = Vec::new(alloc);
    for entry in entries {
        if let Some((first, path)) = entry.path.split_first() {
            if *first == side {
                below.push(EntryBelow {
                    path,
                    name: entry.name,
                })?;
            }
        }
    }
    Ok(below)
}
