//! What values leave of a room.

ghost use Rattle.std.specs.Prelude.{◌≡◌, ◌<◌, ◌+◌, MatchOption};
ghost use Rattle.value_core.specs.Size.{size_of};
ghost use Rattle.michelson_rules.specs.BigMaps.{room_of};

use value_core::{Val, is_within_size, size};

/// What is left of the room behind the value, where there is so much; no more of a larger value
/// than that is looked at.
pub(crate) fn behind(room: u64, v: &Val) -> Option<u64>
    ensures { MatchOption result (room < size_of v.now) (λ left. left + size_of v.now ≡ room) }
{
    if is_within_size(v, room) {
        Some(room - size(v))
    } else {
        None
    }
}

/// The same of a storage, which takes 1 more.
pub(crate) fn behind_storage(room: u64, v: &Val) -> Option<u64>
    ensures { MatchOption result (room < 1 + size_of v.now)
        (λ left. left + (1 + size_of v.now) ≡ room) }
{
    if room == 0 {
        return None;
    }
    behind(room - 1, v)
}

/// The same of an entry's key, and of its value where there is one.
pub(crate) fn behind_entry(room: u64, key: &Val, choice: &Option<Val>) -> Option<u64>
    ensures { MatchOption result (room < room_of key.now choice.now)
        (λ left. left + room_of key.now choice.now ≡ room) }
{
    match behind_storage(room, key) {
        None => None,
        Some(left) => match choice {
            None => Some(left),
            Some(v) => behind(left, v),
        },
    }
}
