//! The first conflict that the joins leave without an order.

ghost use Rattle.std.specs.Prelude.{◌≡◌, ◌<◌, ◌^◌, length, IfOk, IfSome, IfNone};
ghost use Rattle.join_schedule.specs.Joins.{AreJoins};
ghost use Rattle.join_schedule.specs.Cover.{Cover, IsFirstUnordered};

use crate::before::rows_before;
use crate::joins::Joins;
use crate::toucher::{first_among, note};
use cell_names::{Cell, Footprint, NoMemory};
use std::alloc::Global;
use std::collections::BTreeMap;

/// Two operations that conflict without an order, and the cell: the least later one, then the least
/// earlier one, then the least cell.
pub fn first_unordered(
    alloc: Global,
    j: &Joins,
    f: &[Footprint],
) -> Result<Option<(u32, u32, Cell)>, NoMemory>
    requires joins { AreJoins j.now }
    requires paired { length j.now ≡ length f.now }
    requires small { length f.now < 2 ^ 32 }
    ensures cover { IfOk result (λ first. IfNone first (Cover j.now f.now)) }
    ensures first { IfOk result (λ first.
        IfSome first (λ told. IsFirstUnordered j.now f.now told.0 told.1 told.2)) }
{
    let rows = rows_before(alloc, j)?;
    let mut touchers = BTreeMap::new(alloc);
    for later in 0..f.len() {
        let touches = f[later].touches();
        match first_among(rows[later].as_slice(), &touchers, touches) {
            Some((earlier, cell)) => {
                return Ok(Some((earlier, later as u32, cell.copy(alloc)?)));
            }
            None => note(alloc, &mut touchers, later as u32, touches)?,
        }
    }
    Ok(None)
}
