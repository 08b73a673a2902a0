//! Which types may be passed, and which have an order of their values.

ghost use Rattle.std.specs.Prelude.{◌≡◌};
ghost use Rattle.value_core.specs.Kinds.{is_comparable, is_passable};

use crate::ty::Ty;

/// Whether no contract, operation or big map stands in the type.
pub fn is_passable(t: &Ty) -> bool
    ensures { result ≡ is_passable t.now }
{
    let mut t = t;
    loop {
        match t {
            Ty::Option(part) | Ty::List(part) | Ty::Set(part) => t = part.get(),
            Ty::Or(first, rest) | Ty::Pair(first, rest) | Ty::Map(first, rest) => {
                if !is_passable(first.get()) {
                    return false;
                }
                t = rest.get();
            }
            Ty::BigMap(_, _) | Ty::Contract(_) | Ty::Operation => return false,
            Ty::Unit
            | Ty::Bool
            | Ty::Int
            | Ty::Nat
            | Ty::Mutez
            | Ty::Time
            | Ty::Text
            | Ty::Bytes
            | Ty::Addr => return true,
        }
    }
}

/// Whether the type is built of scalars, options, ors and pairs alone.
pub fn is_comparable(t: &Ty) -> bool
    ensures { result ≡ is_comparable t.now }
{
    let mut t = t;
    loop {
        match t {
            Ty::Option(part) => t = part.get(),
            Ty::Or(first, rest) | Ty::Pair(first, rest) => {
                if !is_comparable(first.get()) {
                    return false;
                }
                t = rest.get();
            }
            Ty::List(_)
            | Ty::Set(_)
            | Ty::Map(_, _)
            | Ty::BigMap(_, _)
            | Ty::Contract(_)
            | Ty::Operation => return false,
            Ty::Unit
            | Ty::Bool
            | Ty::Int
            | Ty::Nat
            | Ty::Mutez
            | Ty::Time
            | Ty::Text
            | Ty::Bytes
            | Ty::Addr => return true,
        }
    }
}
