//! Entries of a parameter: the parts that `or` alone reaches.

ghost use Rattle.std.specs.Prelude.{◌≡◌};
ghost use Rattle.std.specs.Option.{option_copied};
ghost use Rattle.michelson_code.specs.Entries.{type_at};

use crate::script::Side;
use value_core::Ty;

/// The part of a type at the end of a way, or none where the way leaves `or`.
pub fn type_at<'a>(path: &[Side], t: &'a Ty) -> Option<&'a Ty>
    ensures { option_copied result ≡ type_at path.now t.now }
{
    match path {
        [] => Some(t),
        [Side::Left, rest @ ..] => match t {
            Ty::Or(left, _) => type_at(rest, left.get()),
            _ => None,
        },
        [Side::Right, rest @ ..] => match t {
            Ty::Or(_, right) => type_at(rest, right.get()),
            _ => None,
        },
    }
}
