//! Ascending lists of values as sets and maps: keys are found by halving, and put and taken out.

ghost use Rattle.std.specs.Prelude.{◌≡◌, IsTrue, length};
ghost use Rattle.std.specs.List.Sorted.{IsSearchInRange};
ghost use Rattle.std.specs.Option.{option_copied};
ghost use Rattle.value_core.specs.Order.{order};
ghost use Rattle.value_core.specs.Places.{StandsAt};
ghost use Rattle.value_core.specs.Sorted.{find, has, keys_of, without, without_key};
ghost use Rattle.value_core.specs.Sound.{ascends};

use crate::ordering::compare;
use crate::val::Val;
use sqlite_items::Items;

/// Where the key stands in a set, or else where it would stand. Any list may be asked; where it
/// doesn't ascend the answer says nothing.
pub fn place_in_set(items: &[Val], key: &Val) -> Result<usize, usize>
    ensures within { IsSearchInRange result (length items.now) }
    ensures place { IsTrue (ascends items.now) →
        StandsAt (λ item. item) order items.now key.now result }
{
    items.binary_search_by(|item| compare(item, key))
}

/// Where the key stands in a map, or else where it would stand, as in a set.
pub fn place_in_map(entries: &[(Val, Val)], key: &Val) -> Result<usize, usize>
    ensures within { IsSearchInRange result (length entries.now) }
    ensures place { IsTrue (ascends (keys_of entries.now)) →
        StandsAt (λ entry. entry.0) order entries.now key.now result }
{
    entries.binary_search_by(|entry| compare(&entry.0, key))
}

/// Whether the key stands in a set.
pub fn set_has(items: &[Val], key: &Val) -> bool
    requires { IsTrue (ascends items.now) }
    ensures { result ≡ has order key.now items.now }
{
    place_in_set(items, key).is_ok()
}

/// What a map has at the key.
pub fn map_get<'a>(entries: &'a [(Val, Val)], key: &Val) -> Option<&'a Val>
    requires { IsTrue (ascends (keys_of entries.now)) }
    ensures { option_copied result ≡ find order key.now entries.now }
{
    match place_in_map(entries, key) {
        Ok(at) => Some(&entries[at].1),
        Err(_) => None,
    }
}

/// Takes the key out of a set, and tells whether it was there.
pub fn set_remove(items: &mut Items<Val>, key: &Val) -> bool
    requires { IsTrue (ascends items.old) }
    ensures removed { items.new ≡ without_key order key.now items.old }
    ensures told { result ≡ has order key.now items.old }
{
    match place_in_set(items.as_slice(), key) {
        Ok(at) => {
            let _ = items.remove(at);
            true
        }
        Err(_) => false,
    }
}

/// Takes the key out of a map, with the value that it had.
pub fn map_remove(entries: &mut Items<(Val, Val)>, key: &Val) -> Option<Val>
    requires { IsTrue (ascends (keys_of entries.old)) }
    ensures removed { entries.new ≡ without order key.now entries.old }
    ensures told { result ≡ find order key.now entries.old }
{
    match place_in_map(entries.as_slice(), key) {
        Ok(at) => {
            let (_, value) = entries.remove(at);
            Some(value)
        }
        Err(_) => None,
    }
}
