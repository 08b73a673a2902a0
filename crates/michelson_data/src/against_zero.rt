//! How an int stands to 0.

ghost use Rattle.std.specs.Prelude.{◌≡◌};
ghost use Rattle.michelson_data.specs.AgainstZero.{test_of};

/// A test of an int.
#[derive(Clone, Copy, Debug, PartialEq, Eq)]
pub(crate) enum Test {
    /// It is 0.
    Zero,
    /// It isn't 0.
    Other,
    /// It is below 0.
    Below,
    /// It is above 0.
    Above,
    /// It is at most 0.
    AtMost,
    /// It is at least 0.
    AtLeast,
}

impl Test {
    /// Whether the number passes.
    pub(crate) fn holds(self, n: i128) -> bool
        ensures { result ≡ test_of self n }
    {
        match self {
            Test::Zero => n == 0,
            Test::Other => n != 0,
            Test::Below => n < 0,
            Test::Above => 0 < n,
            Test::AtMost => n <= 0,
            Test::AtLeast => 0 <= n,
        }
    }
}
