//! How large a value is.

ghost use Rattle.std.specs.Prelude.{◌≡◌, ◌-◌, ◌^◌, ◌+◌, IsTrue, min, sum_by};
ghost use Rattle.std.specs.List.{list_all};
ghost use Rattle.value_core.specs.Lawful.{is_lawful, is_lawful_entry};
ghost use Rattle.value_core.specs.Size.{entry_size, size_of};

use crate::lawfulness::level_is_lawful;
use crate::val::Val;

/// The size of the value, or 2^64 - 1 where it is greater.
#[cycle(sizing)]
pub fn size(v: &Val) -> u64
    ensures size { result ≡ min (size_of v.now) (2 ^ 64 - 1) }
    ensures lawful { IsTrue (is_lawful v.now) }
{
    let (mut v, mut before) = (v, 0_u64);
    loop {
        level_is_lawful(v);
        match v {
            Val::Some(part) | Val::Left(part) | Val::Right(part) => {
                before = before.saturating_add(1);
                v = part.get();
            }
            Val::Pair(first, rest) => {
                before = before.saturating_add(size(first.get()));
                v = rest.get();
            }
            Val::Operation(emit) => {
                before = before.saturating_add(1);
                v = &emit.get().param;
            }
            Val::Text(text) => return before.saturating_add(1 + text.bytes().len() as u64 / 32),
            Val::Bytes(blob) => return before.saturating_add(1 + blob.bytes().len() as u64 / 32),
            Val::List(items) | Val::Set(items) => {
                return before.saturating_add(size_of_items(items.as_slice()));
            }
            Val::Map(entries) => return before.saturating_add(size_of_entries(entries.as_slice())),
            Val::Unit
            | Val::Bool(_)
            | Val::Int(_)
            | Val::Nat(_)
            | Val::Mutez(_)
            | Val::Time(_)
            | Val::Addr(_)
            | Val::Nothing
            | Val::BigMap { .. }
            | Val::Contract(_, _) => return before.saturating_add(1),
        }
    }
}

#[cycle(sizing)]
fn size_of_items(items: &[Val]) -> u64
    ensures size { result ≡ min (1 + sum_by size_of items.now) (2 ^ 64 - 1) }
    ensures lawful { IsTrue (list_all is_lawful items.now) }
{
    let mut total: u64 = 1;
    for item in items {
        total = total.saturating_add(size(item));
    }
    total
}

#[cycle(sizing)]
fn size_of_entries(entries: &[(Val, Val)]) -> u64
    ensures size { result ≡ min (1 + sum_by entry_size entries.now) (2 ^ 64 - 1) }
    ensures lawful { IsTrue (list_all is_lawful_entry entries.now) }
{
    let mut total: u64 = 1;
    for entry in entries {
        total = total
            .saturating_add(size(&entry.0))
            .saturating_add(size(&entry.1));
    }
    total
}
