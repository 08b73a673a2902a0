//! Numbers of 128 bits, as many below zero as above it.

ghost use Rattle.std.specs.Prelude.{◌≡◌, SomeIff};
ghost use Rattle.value_core.specs.Leaves.{IsNumber};

use std::marker::Model;

/// A whole number from -(2^127 - 1) to 2^127 - 1.
#[derive(Clone, Copy, Debug, PartialEq, Eq)]
pub struct Num {
    value: i128,
}

impl Model for Num {
    ghost use Rattle.std.specs.Prelude.{ℤ};
    ghost use Rattle.value_core.specs.Leaves.{IsNumber};

    ghost Value = { ℤ };

    ghost view = { λ n. n.value };

    ghost inverse = { λ z. record { value = z } };

    ghost invariant = { λ n. IsNumber n.value };
}

impl Num {
    /// The number, unless it is -2^127.
    pub fn new(n: i128) -> Option<Num>
        ensures { SomeIff result (IsNumber n) n }
    {
        if n == i128::MIN {
            None
        } else {
            Some(Num { value: n })
        }
    }

    /// The number as the machine holds it.
    pub fn get(self) -> i128
        ensures value { result ≡ self }
        ensures number { IsNumber self }
    {
        self.value
    }
}
