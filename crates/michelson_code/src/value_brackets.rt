//! Whether the brackets of a printed value go deeper than so many.

ghost use Rattle.std.specs.Prelude.{◌≤◌, ◌↔◌, IsTrue, map};
ghost use Rattle.value_core.specs.Depth.{greatest};
ghost use Rattle.michelson_code.specs.Brackets.{argued, entry_inside, inside, nesting_of, nestings_of};

use value_core::Val;

/// As an argument: parentheses stand round a word with arguments.
#[cycle(nesting)]
#[tactic(auto, using(crate::proofs::Nestings::nestings))]
pub(crate) fn argument_within(v: &Val, most: u16) -> bool
    ensures { IsTrue result ↔ (argued (nesting_of v.now) ≤ most) }
{
    match v {
        Val::Some(_) | Val::Left(_) | Val::Right(_) | Val::Pair(_, _) => {
            most > 0 && node_within(v, most - 1)
        }
        _ => node_within(v, most),
    }
}

/// By itself.
#[cycle(nesting)]
#[tactic(auto, using(crate::proofs::Nestings::nestings))]
fn node_within(v: &Val, most: u16) -> bool
    ensures { IsTrue result ↔ (inside (nesting_of v.now) ≤ most) }
{
    match v {
        Val::Some(part) | Val::Left(part) | Val::Right(part) => argument_within(part.get(), most),
        Val::Pair(a, b) => argument_within(a.get(), most) && argument_within(b.get(), most),
        Val::List(items) | Val::Set(items) => most > 0 && items_within(items.as_slice(), most - 1),
        Val::Map(entries) => most > 0 && entries_within(entries.as_slice(), most - 1),
        Val::BigMap { .. } | Val::Contract(_, _) | Val::Operation(_) => most > 0,
        Val::Unit
        | Val::Bool(_)
        | Val::Int(_)
        | Val::Nat(_)
        | Val::Mutez(_)
        | Val::Time(_)
        | Val::Text(_)
        | Val::Bytes(_)
        | Val::Addr(_)
        | Val::Nothing => true,
    }
}

#[cycle(nesting)]
#[tactic(auto, using(crate::proofs::Nestings::nestings))]
fn items_within(items: &[Val], most: u16) -> bool
    ensures { IsTrue result ↔ (greatest (map inside (map nesting_of items.now)) ≤ most) }
{
    for item in items {
        if !node_within(item, most) {
            return false;
        }
    }
    true
}

#[cycle(nesting)]
#[tactic(auto, using(crate::proofs::Nestings::nestings))]
fn entries_within(entries: &[(Val, Val)], most: u16) -> bool
    ensures { IsTrue result ↔
        (greatest (map entry_inside (map nestings_of entries.now)) ≤ most) }
{
    for entry in entries {
        if !argument_within(&entry.0, most) || !argument_within(&entry.1, most) {
            return false;
        }
    }
    true
}
