//! The operands of a line against a stack.

ghost use Rattle.std.specs.Prelude.{◌≡◌, ◌<◌, ◌≤◌, ◌↔◌, ◌∷◌, [], IfSome, IsTrue, OnSome, length};
ghost use Rattle.michelson_code.specs.Typing.{level_type, slot_list};
ghost use Rattle.michelson_typer.specs.Matching.{Answers, AreKnown, Front, LevelIs, PartIs, SlotIs, bound, where_true, with_a, with_b, with_k};
ghost use Rattle.michelson_typer.specs.Tables.{are_in, parts_in, type_at};

use crate::types::{TypeId, Types};
use michelson_code::{Level, Part, Slot, Slots};

/// The types that an instruction writes; unit where it writes none.
#[derive(Clone, Copy)]
pub(crate) struct Written {
    pub t: TypeId,
    pub u: TypeId,
}

/// What the letters of a line stand for so far.
#[derive(Clone, Copy)]
pub(crate) struct Letters {
    pub a: Option<TypeId>,
    pub b: Option<TypeId>,
    pub k: Option<TypeId>,
}

/// No letter stands for a type yet.
pub(crate) const FREE: Letters = Letters {
    a: None,
    b: None,
    k: None,
};

/// What the letters stand for where the operands are those on top of the stack.
pub(crate) fn operands_stand(
    types: &Types,
    written: Written,
    slots: Slots,
    stack: &[TypeId],
) -> Option<Letters>
    requires stack { IsTrue (are_in types.now stack.now) }
    requires written { IsTrue (are_in types.now (written.t ∷ written.u ∷ [])) }
    ensures answer { Answers types.now written FREE
        (Front types.now (slot_list slots) stack.now) result }
    ensures known { IfSome result (AreKnown types.now) }
    ensures enough { OnSome result (length (slot_list slots) ≤ length stack.now) }
{
    match (slots, stack) {
        (Slots::None, _) => Some(FREE),
        (Slots::One(x), [r, ..]) => slot_stands(types, written, FREE, x, *r),
        (Slots::Two(x, y), [r, s, ..]) => {
            let letters = slot_stands(types, written, FREE, x, *r)?;
            slot_stands(types, written, letters, y, *s)
        }
        (Slots::Three(x, y, z), [r, s, t, ..]) => {
            let letters = slot_stands(types, written, FREE, x, *r)?;
            let letters = slot_stands(types, written, letters, y, *s)?;
            slot_stands(types, written, letters, z, *t)
        }
        _ => None,
    }
}

/// The letters, with those of a slot that stands for the type.
fn slot_stands(
    types: &Types,
    written: Written,
    letters: Letters,
    slot: Slot,
    id: TypeId,
) -> Option<Letters>
    requires id { id < length types.now }
    requires written { IsTrue (are_in types.now (written.t ∷ written.u ∷ [])) }
    requires known { AreKnown types.now letters }
    ensures answer { Answers types.now written letters (SlotIs types.now slot id) result }
    ensures known { IfSome result (AreKnown types.now) }
{
    match slot {
        Slot::Whole(part) => part_stands(types, written, letters, part, id),
        Slot::Of(level) => level_stands(types, written, letters, level, types.level(id)),
        Slot::OptionOf(level) => match types.level(id) {
            Level::Option(t) => level_stands(types, written, letters, level, types.level(t)),
            _ => None,
        },
    }
}

fn level_stands(
    types: &Types,
    written: Written,
    letters: Letters,
    level: Level<Part>,
    found: Level<TypeId>,
) -> Option<Letters>
    requires found { IsTrue (are_in types.now (parts_in found)) }
    requires written { IsTrue (are_in types.now (written.t ∷ written.u ∷ [])) }
    requires known { AreKnown types.now letters }
    ensures answer { Answers types.now written letters (LevelIs types.now level found) result }
    ensures known { IfSome result (AreKnown types.now) }
{
    match (level, found) {
        (Level::Unit, Level::Unit)
        | (Level::Bool, Level::Bool)
        | (Level::Int, Level::Int)
        | (Level::Nat, Level::Nat)
        | (Level::Mutez, Level::Mutez)
        | (Level::Time, Level::Time)
        | (Level::Text, Level::Text)
        | (Level::Bytes, Level::Bytes)
        | (Level::Addr, Level::Addr)
        | (Level::Operation, Level::Operation) => Some(letters),
        (Level::Option(p), Level::Option(s)) => part_stands(types, written, letters, p, s),
        (Level::List(p), Level::List(s)) => part_stands(types, written, letters, p, s),
        (Level::Set(p), Level::Set(s)) => part_stands(types, written, letters, p, s),
        (Level::Contract(p), Level::Contract(s)) => part_stands(types, written, letters, p, s),
        (Level::Or(p, q), Level::Or(s, t)) => {
            parts_stand(types, written, letters, (p, s), (q, t))
        }
        (Level::Pair(p, q), Level::Pair(s, t)) => {
            parts_stand(types, written, letters, (p, s), (q, t))
        }
        (Level::Map(p, q), Level::Map(s, t)) => {
            parts_stand(types, written, letters, (p, s), (q, t))
        }
        (Level::BigMap(p, q), Level::BigMap(s, t)) => {
            parts_stand(types, written, letters, (p, s), (q, t))
        }
        _ => None,
    }
}

/// The letters, with those of two parts, each of which stands for the type beside it.
fn parts_stand(
    types: &Types,
    written: Written,
    letters: Letters,
    first: (Part, TypeId),
    last: (Part, TypeId),
) -> Option<Letters>
    requires first { first.1 < length types.now }
    requires last { last.1 < length types.now }
    requires written { IsTrue (are_in types.now (written.t ∷ written.u ∷ [])) }
    requires known { AreKnown types.now letters }
    ensures answer { Answers types.now written letters
        (λ c. PartIs types.now first.0 first.1 c × PartIs types.now last.0 last.1 c) result }
    ensures known { IfSome result (AreKnown types.now) }
{
    let letters = part_stands(types, written, letters, first.0, first.1)?;
    part_stands(types, written, letters, last.0, last.1)
}

/// The letters, with that of a part that stands for the type.
fn part_stands(
    types: &Types,
    written: Written,
    letters: Letters,
    part: Part,
    id: TypeId,
) -> Option<Letters>
    requires id { id < length types.now }
    requires written { IsTrue (are_in types.now (written.t ∷ written.u ∷ [])) }
    requires known { AreKnown types.now letters }
    ensures answer { Answers types.now written letters (PartIs types.now part id) result }
    ensures known { IfSome result (AreKnown types.now) }
{
    types.are_distinct();
    match part {
        Part::A => with_a(letters, id),
        Part::B => with_b(letters, id),
        Part::K => {
            if types.extent(id).comparable {
                with_k(letters, id)
            } else {
                None
            }
        }
        Part::T => where_true(written.t == id, letters),
        Part::U => where_true(written.u == id, letters),
        Part::Int => where_true(has_level(types, id, Level::Int), letters),
        Part::Nat => where_true(has_level(types, id, Level::Nat), letters),
        Part::Mutez => where_true(has_level(types, id, Level::Mutez), letters),
        Part::Text => where_true(has_level(types, id, Level::Text), letters),
        Part::Bytes => where_true(has_level(types, id, Level::Bytes), letters),
    }
}

/// Whether a type has this level.
pub(crate) fn has_level(types: &Types, id: TypeId, level: Level<TypeId>) -> bool
    requires id { id < length types.now }
    requires parts { IsTrue (are_in types.now (parts_in level)) }
    ensures { IsTrue result ↔ (type_at types.now id ≡ level_type (type_at types.now) level) }
{
    types.are_distinct();
    types.level(id) == level
}

fn with_a(letters: Letters, id: TypeId) -> Option<Letters>
    ensures { result ≡ with_a letters id }
{
    let a = bound(letters.a, id)?;
    Some(Letters {
        a: Some(a),
        ..letters
    })
}

fn with_b(letters: Letters, id: TypeId) -> Option<Letters>
    ensures { result ≡ with_b letters id }
{
    let b = bound(letters.b, id)?;
    Some(Letters {
        b: Some(b),
        ..letters
    })
}

fn with_k(letters: Letters, id: TypeId) -> Option<Letters>
    ensures { result ≡ with_k letters id }
{
    let k = bound(letters.k, id)?;
    Some(Letters {
        k: Some(k),
        ..letters
    })
}

/// What a letter stands for, where it may stand for the type.
fn bound(letter: Option<TypeId>, id: TypeId) -> Option<TypeId>
    ensures { result ≡ bound letter id }
{
    match letter {
        None => Some(id),
        Some(bound) => { if bound == id { Some(bound) } else { None } }
    }
}

fn where_true(holds: bool, letters: Letters) -> Option<Letters>
    ensures { result ≡ where_true holds letters }
{
    if holds { Some(letters) } else { None }
}
