//! The parameter's type, with the names of its entries.

ghost use Rattle.std.specs.Prelude.{◌≡◌, ◌&&◌, ◌++◌, ◌∷◌, [], codes, length, nat_eq, IfErr, IfOk};
ghost use Rattle.std.specs.Str.{bytes_eq};
ghost use Rattle.michelson_reader.specs.Entries.{own};
ghost use Rattle.micheline_text.specs.Told.{AnswersUnlessFull, IsTold};
ghost use Rattle.michelson_reader.specs.Answers.{read_fault};
ghost use Rattle.michelson_reader.specs.Returned.{IsReadBehind, below_way};
ghost use Rattle.michelson_reader.specs.ScriptFaults.{parameter_read};

use crate::entries::entry_in;
use crate::fault::ReadFault;
use crate::type_words::TypeOfTwo;
use crate::types::read_type;
use crate::words::{is_word, no_form};
use micheline_text::{Body, Node};
use michelson_code::Side;
use sqlite_items::Items;
use std::alloc::Global;
use value_core::{Name, NoMemory, Ty};

/// Names of entries, each with the way to its node.
pub(crate) type Names = Items<(Items<Side>, Name)>;

/// A parameter's type, and the names at the nodes that `or` alone reaches.
#[derive(Drop)]
pub(crate) struct Parameter {
    pub(crate) ty: Ty,
    pub(crate) names: Names,
}

/// The way from the parameter's root down to a node, and the names so far in the text's order.
#[derive(Drop)]
struct Place {
    way: Items<Side>,
    names: Names,
}

/// The parameter that a node is written for.
pub(crate) fn read_parameter(alloc: Global, n: &Node) -> Result<Parameter, ReadFault>
    ensures { AnswersUnlessFull read_fault (λ p. (p.ty, p.names)) result (parameter_read n.now) }
{
    let mut place = Place {
        way: Items::new(alloc),
        names: Items::new(alloc),
    };
    let ty = part(alloc, n, &mut place)?;
    let Place { names, .. } = place;
    Ok(Parameter { ty, names })
}

/// The type of a part of the parameter, with its names behind those so far.
#[cycle(reading_parameters)]
fn part(alloc: Global, n: &Node, place: &mut Place) -> Result<Ty, ReadFault>
    ensures read { IfOk result (λ t.
        IsReadBehind n.now place.old.way place.old.names t place.new.names) }
    ensures way { IfOk result (λ t. place.new.way ≡ place.old.way) }
    ensures fault { IfErr result (λ e. IsTold (read_fault e) (parameter_read n.now)) }
{
    let Body::Prim { name, notes, args } = &n.body else {
        return read_type(alloc, n);
    };
    let Some(entry) = entry_in(notes.as_slice()) else {
        return Err(no_form(alloc, n.at as usize, name.as_slice()));
    };
    name_here(alloc, entry, place)?;
    let args = args.as_slice();
    if !is_or(name.as_slice(), args) {
        return read_type(alloc, n);
    }
    let left = side(alloc, Side::Left, &args[0], place)?;
    let right = side(alloc, Side::Right, &args[1], place)?;
    Ok(TypeOfTwo::Or.of(alloc, left, right)?)
}

/// Whether it is an `or` with two parts.
fn is_or(name: &[u8], args: &[Node]) -> bool
    ensures { result ≡ (nat_eq (length args.now) 2 && bytes_eq name.now (codes "or")) }
{
    args.len() == 2 && is_word(name, "or")
}

/// The part to one side of an `or`.
#[cycle(reading_parameters)]
fn side(alloc: Global, side: Side, n: &Node, place: &mut Place) -> Result<Ty, ReadFault>
    ensures read { IfOk result (λ t.
        IsReadBehind n.now (place.old.way ++ side ∷ []) place.old.names t place.new.names) }
    ensures way { IfOk result (λ t. place.new.way ≡ place.old.way) }
    ensures fault { IfErr result (λ e. IsTold (read_fault e) (parameter_read n.now)) }
{
    place.way.push(side)?;
    let t = part(alloc, n, place)?;
    place.way.pop();
    Ok(t)
}

/// The name of an entry, if there is one, at the node where the way ends.
fn name_here(alloc: Global, entry: Option<Name>, place: &mut Place) -> Result<(), NoMemory>
    ensures names { IfOk result (λ u.
        place.new.names ≡ place.old.names ++ below_way place.old.way (own entry)) }
    ensures way { place.new.way ≡ place.old.way }
{
    if let Some(name) = entry {
        let way = Items::from_slice(alloc, place.way.as_slice())?;
        place.names.push((way, name))?;
    }
    Ok(())
}
