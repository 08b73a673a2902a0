//! What keeps the values of cells.

ghost use Rattle.std.specs.Prelude.{◌≡◌, ◌↔◌, IsTrue, IfOk};
ghost use Rattle.cell_names.specs.declared.store.StoreEnd.TheVariants as ends;
ghost use Rattle.cell_names.specs.Conditions.{Seen, CanAccess, CanUndo};
ghost use Rattle.cell_names.specs.Stores.{Accesses, Undoes};

use crate::access::{Access, Reply, Undo};
use crate::cell::{Cell, NoMemory};
use std::alloc::{AllocError, Global};

/// Why a store doesn't do an access.
#[derive(Debug, Drop)]
pub enum StoreEnd {
    /// The store doesn't lend this cell in the mode that the access needs.
    Outside(Cell),
    /// Memory ran out.
    NoMemory,
}

impl From<AllocError> for StoreEnd {
    ghost from_gives = { λ _ e. e ≡ ends.NoMemory };

    fn from(_e: AllocError) -> StoreEnd {
        StoreEnd::NoMemory
    }
}

impl StoreEnd {
    /// An equal end.
    pub fn copy(&self, alloc: Global) -> Result<StoreEnd, NoMemory>
        ensures { IfOk result (λ end. end ≡ self.now) }
    {
        match self {
            StoreEnd::Outside(cell) => {
                let cell = cell.copy(alloc)?;
                Ok(StoreEnd::Outside(cell))
            }
            StoreEnd::NoMemory => Ok(StoreEnd::NoMemory),
        }
    }

    /// Whether both are one end.
    pub fn same(&self, other: &StoreEnd) -> bool
        ensures { IsTrue result ↔ (self.now ≡ other.now) }
    {
        match (self, other) {
            (StoreEnd::Outside(a), StoreEnd::Outside(b)) => a.same(b),
            (StoreEnd::NoMemory, StoreEnd::NoMemory) => true,
            _ => false,
        }
    }
}

/// What keeps the values of cells, lends some of them, and has an amount in flight.
pub trait Store {
    ghost seen: { Self → Seen };

    /// Does the access, and tells its reply and what takes it back. `Outside` comes exactly where
    /// the cell isn't lent so; then, and where memory runs out, cells and flight are as before.
    fn access(&mut self, alloc: Global, a: &Access) -> Result<(Reply, Undo), StoreEnd>
        requires { CanAccess (seen self.old) a.now }
        ensures { Accesses (seen self.old) a.now result (seen self.new) };

    /// Takes an access back. It takes no memory.
    fn undo(&mut self, u: Undo)
        requires { CanUndo (seen self.old) u }
        ensures { Undoes (seen self.old) u (seen self.new) };
}
