//! What an operation touched.

ghost use Rattle.std.specs.Prelude.{◌≡◌, ◌≤◌, ◌↔◌, [], length, IsTrue, IfOk, OnOk, OnErr, slice_get};
ghost use Rattle.std.specs.Option.{option_map};
ghost use Rattle.value_core.specs.Places.{StandsAt};
ghost use Rattle.cell_names.specs.Cells.{cell_cmp};
ghost use Rattle.cell_names.specs.Footprints.{mode_of, touched, ascends};

use crate::cell::{Cell, NoMemory, order};
use crate::mode::{Mode, join};
use std::alloc::Global;
use std::marker::Model;

/// How many cells one operation may touch.
pub const MOST_CELLS: usize = 256;

/// The cells that an operation touched, ascending, each with the join of its modes.
#[derive(Debug, Drop)]
pub struct Footprint {
    touches: Vec<(Cell, Mode)>,
}

impl Model for Footprint {
    ghost use Rattle.std.specs.Prelude.{List, IsTrue};
    ghost use Rattle.std.specs.Coded.{codes};
    ghost use Rattle.value_core.specs.contracts.val.Val as val;
    ghost use Rattle.cell_names.specs.declared.cell.Cell.{Cell};
    ghost use Rattle.cell_names.specs.declared.mode.Mode.{Mode};
    ghost use Rattle.cell_names.specs.Footprints.{ascends};

    ghost Value = { List (Cell × Mode) };

    ghost coded = { Prim.hlevel (codes, val.the_row.coded) };

    ghost view = { λ f. f.touches.items };

    ghost invariant = { λ f. IsTrue (ascends f.touches.items) };
}

impl Footprint {
    /// The footprint of an operation that has touched nothing yet. It takes no memory.
    pub fn new(alloc: Global) -> Footprint
        ensures { result ≡ [] }
    {
        Footprint {
            touches: Vec::new(alloc),
        }
    }

    /// The footprint with these touches, which ascend.
    pub(crate) fn of_touches(touches: Vec<(Cell, Mode)>) -> Footprint
        requires { IsTrue (ascends touches.items) }
        ensures { result ≡ touches.items }
    {
        Footprint { touches }
    }

    /// The number of cells.
    pub fn len(&self) -> usize
        ensures length { result ≡ length self.now }
        ensures ascending { IsTrue (ascends self.now) }
    {
        self.touches.len()
    }

    /// Whether there is no cell.
    pub fn is_empty(&self) -> bool
        ensures { IsTrue result ↔ (self.now ≡ []) }
    {
        self.touches.is_empty()
    }

    /// The mode in which the cell was touched.
    pub fn get(&self, c: &Cell) -> Option<Mode>
        ensures { result ≡ mode_of self.now c.now }
    {
        match place(self.touches.as_slice(), c) {
            Ok(i) => Some(self.touches[i].1),
            Err(_) => None,
        }
    }

    /// The touch that stands at the place, counted from 0.
    pub fn at(&self, i: usize) -> Option<(&Cell, Mode)>
        ensures touch { option_map (λ t. (t.0.now, t.1)) result ≡ slice_get self.now i }
        ensures ascending { IsTrue (ascends self.now) }
    {
        match self.touches.as_slice().get(i) {
            Some(touch) => Some((&touch.0, touch.1)),
            None => None,
        }
    }

    /// The cells and their modes, ascending.
    pub fn touches(&self) -> &[(Cell, Mode)]
        ensures value { result.now ≡ self.now }
        ensures ascending { IsTrue (ascends self.now) }
    {
        self.touches.as_slice()
    }

    /// Notes a touch of the cell, whose mode is joined with the mode that stands there.
    pub fn touch(&mut self, alloc: Global, c: &Cell, m: Mode) -> Result<(), NoMemory>
        ensures touched { OnOk result (self.new ≡ touched self.old c.now m) }
        ensures unchanged { OnErr result (self.new ≡ self.old) }
    {
        match place(self.touches.as_slice(), c) {
            Ok(i) => {
                self.touches[i].1 = join(self.touches[i].1, m);
                Ok(())
            }
            Err(i) => {
                let cell = c.copy(alloc)?;
                self.touches.insert(i, (cell, m))?;
                Ok(())
            }
        }
    }
}

impl Footprint {
    /// An equal footprint.
    pub fn copy(&self, alloc: Global) -> Result<Footprint, NoMemory>
        ensures { IfOk result (λ f. f ≡ self.now) }
    {
        let touches = copy_touches(alloc, self.touches.as_slice())?;
        Ok(Footprint { touches })
    }

    /// Whether both have the same cells in the same modes.
    pub fn same(&self, other: &Footprint) -> bool
        ensures { IsTrue result ↔ (self.now ≡ other.now) }
    {
        same_touches(self.touches.as_slice(), other.touches.as_slice())
    }
}

/// Room for as many touches.
fn capacity(touches: &[(Cell, Mode)]) -> usize
    ensures { result ≤ length touches.now }
{
    touches.len()
}

fn copy_touches(alloc: Global, touches: &[(Cell, Mode)]) -> Result<Vec<(Cell, Mode)>, NoMemory>
    ensures { IfOk result (λ copied. copied.items ≡ touches.now) }
{
    let mut copied = Vec::with_capacity(alloc, capacity(touches))?;
    for touch in touches {
        copied.push((touch.0.copy(alloc)?, touch.1))?;
    }
    Ok(copied)
}

fn same_touches(a: &[(Cell, Mode)], b: &[(Cell, Mode)]) -> bool
    ensures { IsTrue result ↔ (a.now ≡ b.now) }
{
    if a.len() != b.len() {
        return false;
    }
    for i in 0..a.len() {
        if !(a[i].0.same(&b[i].0) && a[i].1 == b[i].1) {
            return false;
        }
    }
    true
}

/// Where the cell stands, or else where it would stand.
fn place(touches: &[(Cell, Mode)], c: &Cell) -> Result<usize, usize>
    requires { IsTrue (ascends touches.now) }
    ensures { StandsAt (λ touch. touch.0) cell_cmp touches.now c.now result }
{
    touches.binary_search_by(|touch| order(&touch.0, c))
}
