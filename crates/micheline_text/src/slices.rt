//! The two parts of a slice.

ghost use Rattle.std.specs.Prelude.{◌≡◌, ◌≤◌, length, take, drop};

/// The first so many bytes.
pub(crate) fn front_of(bytes: &[u8], n: usize) -> &[u8]
    requires { n ≤ length bytes.now }
    ensures { result.now ≡ take n bytes.now }
{
    bytes.split_at(n).0
}

/// What stands behind the first so many bytes.
pub(crate) fn rest_from(bytes: &[u8], n: usize) -> &[u8]
    requires { n ≤ length bytes.now }
    ensures { result.now ≡ drop n bytes.now }
{
    bytes.split_at(n).1
}
