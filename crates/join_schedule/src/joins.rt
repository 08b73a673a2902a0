//! The published lists of joins.

ghost use Rattle.std.specs.Prelude.{◌≡◌, ◌<◌, length, map, slice_get};
ghost use Rattle.std.specs.Option.{option_map};
ghost use Rattle.join_schedule.specs.Joins.{joins_of};

use std::marker::Model;

/// For each operation the numbers of operations that it is joined to.
#[derive(Debug, Drop)]
pub struct Joins {
    lists: Vec<Vec<u32>>,
}

impl Model for Joins {
    ghost use Rattle.std.specs.Prelude.{List, ℕ, map};

    ghost Value = { List (List ℕ) };

    ghost view = { λ j. map (λ list. list.items) j.lists.items };
}

impl Joins {
    /// The lists as joins, whatever stands in them.
    pub fn new(lists: Vec<Vec<u32>>) -> Joins
        ensures { result ≡ map (λ list. list.items) lists.items }
    {
        Joins { lists }
    }

    /// The list of the operation with that number.
    pub fn of(&self, j: usize) -> Option<&[u32]>
        ensures { option_map (λ list. list.now) result ≡ slice_get self.now j }
    {
        match self.lists.as_slice().get(j) {
            Some(list) => Some(list.as_slice()),
            None => None,
        }
    }

    /// The list of an operation that is there.
    pub(crate) fn list(&self, j: usize) -> &[u32]
        requires { j < length self.now }
        ensures { result.now ≡ joins_of self.now j }
    {
        self.lists[j].as_slice()
    }

    /// The number of operations.
    pub fn len(&self) -> usize
        ensures { result ≡ length self.now }
    {
        self.lists.len()
    }
}
