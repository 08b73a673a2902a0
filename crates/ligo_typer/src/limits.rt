//! What is asked of the image of every type.

ghost use Rattle.std.specs.Prelude.{◌≡◌};
ghost use Rattle.ligo_typer.specs.Limits.{is_narrow};

use value_core::{Ty, type_is_within_depth, type_is_within_nodes};

/// Whether the image has at most 1,024 nodes and is at most 64 deep; no more than that are looked at.
pub fn is_narrow(image: &Ty) -> bool
    ensures { result ≡ is_narrow image.now }
{
    type_is_within_nodes(image, 1024) && type_is_within_depth(image, 64)
}
