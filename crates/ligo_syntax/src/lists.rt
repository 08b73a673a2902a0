//! Lists of one and more.

ghost use Rattle.std.specs.Prelude.{◌≡◌, ◌∷◌, IfOk};

use sqlite_items::Items;
use std::alloc::{AllocError, Global};

/// The first, and then the others.
pub(crate) fn listed<T: Drop>(
    alloc: Global,
    first: T,
    more: Items<T>,
) -> Result<Items<T>, AllocError>
    ensures { IfOk result (λ all. all ≡ first ∷ more) }
{
    let mut all = Items::new(alloc);
    all.push(first)?;
    all.append(more)?;
    Ok(all)
}
