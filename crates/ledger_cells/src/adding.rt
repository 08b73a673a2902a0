//! One more cell, or the first reason against it.

ghost use Rattle.std.specs.Prelude.{◌≡◌, OnOk, OnErr, IfErr, None};
ghost use Rattle.ledger_cells.specs.Placing.{misplaced, IsAdded, IsTold};

use crate::cells::Cells;
use crate::counts::money_of;
use crate::fault::AddEnd;
use cell_names::Cell;
use std::alloc::Global;
use value_core::Val;

/// How much money there is no more of.
const MONEY_END: u64 = 1 << 63;

impl Cells {
    /// Adds a cell, or tells the first reason against it. Cells that come in their order are held
    /// as compactly as can be.
    pub fn add(&mut self, alloc: Global, c: Cell, v: Val) -> Result<(), AddEnd>
        ensures added { OnOk result (IsAdded self.old c v self.new) }
        ensures free { OnOk result (misplaced self.old c v ≡ None) }
        ensures told { IfErr result (λ end. IsTold end (misplaced self.old c v)) }
        ensures unchanged { OnErr result (self.new ≡ self.old) }
    {
        match self.reason(&c, &v) {
            Some(end) => Err(end),
            None => {
                self.overlay.add(c, v)?;
                Ok(())
            }
        }
    }

    /// The first reason against a cell.
    fn reason(&self, c: &Cell, v: &Val) -> Option<AddEnd>
        ensures { result ≡ misplaced self.now c.now v.now }
    {
        if !self.book.fits(c, v) {
            return Some(AddEnd::Misfit);
        }
        if self.overlay.get(c).is_some() {
            return Some(AddEnd::Twice);
        }
        if money_of(c, v) >= MONEY_END - self.supply() {
            return Some(AddEnd::TooMuch);
        }
        None
    }
}
