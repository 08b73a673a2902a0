//! The results of a line.

ghost use Rattle.std.specs.Prelude.{◌≡◌, ◌++◌, IfOk, IsTrue, unwrap_or};
ghost use Rattle.michelson_code.specs.Typing.{level_type, part_type, slot_type, slot_types};
ghost use Rattle.michelson_typer.specs.Stacks.{IsLevelFor, IsStackOf, choice_of, numbers_of};
ghost use Rattle.michelson_typer.specs.Tables.{Grows, IsTypeOf, are_in, types_at};

use crate::lines::{Letters, Written};
use crate::stack::joined;
use crate::types::{TypeId, Types};
use michelson_code::{Level, Part, Slot, Slots};
use std::alloc::Global;
use value_core::NoMemory;

/// What the letters of a line stand for.
#[derive(Clone, Copy)]
pub(crate) struct Chosen {
    pub a: TypeId,
    pub b: TypeId,
    pub k: TypeId,
    pub written: Written,
}

/// A letter that no operand has stands for unit.
pub(crate) fn all_chosen(letters: Letters, unit: TypeId, written: Written) -> Chosen
    ensures { result ≡ record {
      a = unwrap_or letters.a unit;
      b = unwrap_or letters.b unit;
      k = unwrap_or letters.k unit;
      written = written;
    } }
{
    Chosen {
        a: letters.a.unwrap_or(unit),
        b: letters.b.unwrap_or(unit),
        k: letters.k.unwrap_or(unit),
        written,
    }
}

/// The results on top of a stack.
pub(crate) fn results(
    alloc: Global,
    types: &mut Types,
    chosen: Chosen,
    slots: Slots,
    below: &[TypeId],
) -> Result<Vec<TypeId>, NoMemory>
    requires chosen { IsTrue (are_in types.old (numbers_of chosen)) }
    requires below { IsTrue (are_in types.old below.now) }
    ensures grows { Grows types.old types.new }
    ensures made { IfOk result (λ stack. IsStackOf types.new stack.items
        (slot_types (choice_of types.old chosen) slots ++ types_at types.old below.now)) }
{
    match slots {
        Slots::None => Vec::from_slice(alloc, below),
        Slots::One(x) => {
            let x = slot_id(types, chosen, x)?;
            joined(alloc, &[x], below)
        }
        Slots::Two(x, y) => {
            let x = slot_id(types, chosen, x)?;
            let y = slot_id(types, chosen, y)?;
            joined(alloc, &[x, y], below)
        }
        Slots::Three(x, y, z) => {
            let x = slot_id(types, chosen, x)?;
            let y = slot_id(types, chosen, y)?;
            let z = slot_id(types, chosen, z)?;
            joined(alloc, &[x, y, z], below)
        }
    }
}

/// The type of a slot.
fn slot_id(types: &mut Types, chosen: Chosen, slot: Slot) -> Result<TypeId, NoMemory>
    requires { IsTrue (are_in types.old (numbers_of chosen)) }
    ensures grows { Grows types.old types.new }
    ensures made { IfOk result (λ id.
        IsTypeOf types.new id (slot_type (choice_of types.old chosen) slot)) }
{
    match slot {
        Slot::Whole(part) => part_id(types, chosen, part),
        Slot::Of(level) => level_id(types, chosen, level),
        Slot::OptionOf(level) => {
            let id = level_id(types, chosen, level)?;
            types.intern(Level::Option(id))
        }
    }
}

fn level_id(types: &mut Types, chosen: Chosen, level: Level<Part>) -> Result<TypeId, NoMemory>
    requires { IsTrue (are_in types.old (numbers_of chosen)) }
    ensures grows { Grows types.old types.new }
    ensures made { IfOk result (λ id.
        IsTypeOf types.new id (level_type (part_type (choice_of types.old chosen)) level)) }
{
    let level = level_of_ids(types, chosen, level)?;
    types.intern(level)
}

/// The level with the types of its parts.
fn level_of_ids(
    types: &mut Types,
    chosen: Chosen,
    level: Level<Part>,
) -> Result<Level<TypeId>, NoMemory>
    requires { IsTrue (are_in types.old (numbers_of chosen)) }
    ensures grows { Grows types.old types.new }
    ensures made { IfOk result (λ l.
        IsLevelFor types.new l (level_type (part_type (choice_of types.old chosen)) level)) }
{
    Ok(match level {
        Level::Unit => Level::Unit,
        Level::Bool => Level::Bool,
        Level::Int => Level::Int,
        Level::Nat => Level::Nat,
        Level::Mutez => Level::Mutez,
        Level::Time => Level::Time,
        Level::Text => Level::Text,
        Level::Bytes => Level::Bytes,
        Level::Addr => Level::Addr,
        Level::Operation => Level::Operation,
        Level::Option(p) => Level::Option(part_id(types, chosen, p)?),
        Level::List(p) => Level::List(part_id(types, chosen, p)?),
        Level::Set(p) => Level::Set(part_id(types, chosen, p)?),
        Level::Contract(p) => Level::Contract(part_id(types, chosen, p)?),
        Level::Or(p, q) => Level::Or(part_id(types, chosen, p)?, part_id(types, chosen, q)?),
        Level::Pair(p, q) => Level::Pair(part_id(types, chosen, p)?, part_id(types, chosen, q)?),
        Level::Map(p, q) => Level::Map(part_id(types, chosen, p)?, part_id(types, chosen, q)?),
        Level::BigMap(p, q) => Level::BigMap(
            part_id(types, chosen, p)?,
            part_id(types, chosen, q)?,
        ),
    })
}

/// The type of a part.
fn part_id(types: &mut Types, chosen: Chosen, part: Part) -> Result<TypeId, NoMemory>
    requires { IsTrue (are_in types.old (numbers_of chosen)) }
    ensures grows { Grows types.old types.new }
    ensures made { IfOk result (λ id.
        IsTypeOf types.new id (part_type (choice_of types.old chosen) part)) }
{
    match part {
        Part::A => Ok(chosen.a),
        Part::B => Ok(chosen.b),
        Part::K => Ok(chosen.k),
        Part::T => Ok(chosen.written.t),
        Part::U => Ok(chosen.written.u),
        Part::Int => types.intern(Level::Int),
        Part::Nat => types.intern(Level::Nat),
        Part::Mutez => types.intern(Level::Mutez),
        Part::Text => types.intern(Level::Text),
        Part::Bytes => types.intern(Level::Bytes),
    }
}
