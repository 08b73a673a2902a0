//! Values that may be absent.

ghost use Rattle.std.specs.Prelude.{◌≡◌, ◌↔◌, IsTrue, IfOk};

use crate::cell::NoMemory;
use std::alloc::Global;
use value_core::Val;

/// An equal value, where there is one.
pub(crate) fn copy_value(alloc: Global, value: &Option<Val>) -> Result<Option<Val>, NoMemory>
    ensures { IfOk result (λ copied. copied ≡ value.now) }
{
    match value {
        None => Ok(None),
        Some(value) => {
            let copied = value.copy(alloc)?;
            Ok(Some(copied))
        }
    }
}

/// Whether both are absent, or one value.
pub(crate) fn same_value(a: &Option<Val>, b: &Option<Val>) -> bool
    ensures { IsTrue result ↔ (a.now ≡ b.now) }
{
    match (a, b) {
        (None, None) => true,
        (Some(x), Some(y)) => x.same(y),
        _ => false,
    }
}
