//! Room for a node above what is read.

ghost use Rattle.std.specs.Prelude.{◌≡◌, max};

/// The greater of two.
pub(crate) fn greater(a: u32, b: u32) -> u32
    ensures { result ≡ max a b }
{
    if a < b { b } else { a }
}
