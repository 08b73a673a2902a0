//! How many workers there are.
ghost use Rattle.std.specs.Prelude.{◌≡◌, ◌≤◌, SomeIff};

use std::marker::Model;

/// A number of workers, from 1 to 64.
#[derive(Clone, Copy, Debug, PartialEq, Eq)]
pub struct Workers {
    count: u32,
}

impl Model for Workers {
    ghost use Rattle.std.specs.Prelude.{ℕ, ◌≤◌};

    ghost Value = { ℕ };

    ghost view = { λ w. w.count };

    ghost invariant = { λ w. (1 ≤ w.count) × (w.count ≤ 64) };

    ghost inverse = { λ n. record { count = n } };
}

impl Workers {
    /// None exactly outside 1 to 64.
    pub fn new(n: u64) -> Option<Workers>
        ensures { SomeIff result ((1 ≤ n) × (n ≤ 64)) n }
    {
        if n < 1 || n > 64 {
            return None;
        }
        Some(Workers { count: n as u32 })
    }

    /// The number.
    pub fn get(self) -> u32
        ensures number { result ≡ self }
        ensures low { 1 ≤ result }
        ensures high { result ≤ 64 }
    {
        self.count
    }
}
