//! What operations touch, and its order.

ghost use Rattle.std.specs.Prelude.{◌≡◌, ◌↔◌, ℕ, IsTrue, IfOk, Some, refl};
ghost use Rattle.std.specs.Cmp.{partial_equiv_from_equiv, eq_by_cmp_equiv, po};
ghost use Rattle.std.specs.Ordering.{eq_by_cmp};
ghost use Rattle.cell_names.specs.Cells.{kind_of, address_of, entry_cmp, cell_cmp, IsCellOrder};
ghost use Rattle.cell_names.specs.CellOrder.{cell_cmp-total};

use std::alloc::{AllocError, Global};
use std::cmp::Ordering;
use value_core::{Address, Val, compare};

/// Memory ran out.
pub type NoMemory = AllocError;

/// A part of the ledger that operations touch as a whole.
#[derive(Debug, Drop)]
pub enum Cell {
    /// The balance of an account.
    Balance(Address),
    /// The storage of a contract.
    Storage(Address),
    /// What a big map of a contract has at a key: the contract, the map's place in its storage,
    /// the key.
    Entry(Address, u8, Val),
}

/// How two cells stand in the order of footprints: by kind, by address, by place, then by key.
pub fn order(a: &Cell, b: &Cell) -> Ordering
    ensures { result ≡ cell_cmp a.now b.now }
{
    match kind(a).cmp(&kind(b)) {
        Ordering::Equal => match address(a).bytes().cmp(address(b).bytes()) {
            Ordering::Equal => order_entries(a, b),
            unequal => unequal,
        },
        unequal => unequal,
    }
}

/// The order is total, and ties equal cells alone.
pub fn order_is_total()
    ensures { IsCellOrder cell_cmp }
{}

/// The number of the cell's kind, with which its bytes begin.
pub(crate) fn kind(c: &Cell) -> u8
    ensures { result ≡ kind_of c.now }
{
    match c {
        Cell::Balance(_) => 0,
        Cell::Storage(_) => 1,
        Cell::Entry(_, _, _) => 2,
    }
}

/// The account or contract whose cell it is.
pub(crate) fn address(c: &Cell) -> &Address
    ensures { result.now ≡ address_of c.now }
{
    match c {
        Cell::Balance(address) => address,
        Cell::Storage(address) => address,
        Cell::Entry(address, _, _) => address,
    }
}

/// How two cells of one kind stand by place and key, which entries alone have.
fn order_entries(a: &Cell, b: &Cell) -> Ordering
    ensures { kind_of a.now ≡ kind_of b.now → result ≡ entry_cmp a.now b.now }
{
    match (a, b) {
        (Cell::Entry(_, place, key), Cell::Entry(_, other_place, other_key)) => {
            match place.cmp(other_place) {
                Ordering::Equal => compare(key, other_key),
                unequal => unequal,
            }
        }
        _ => Ordering::Equal,
    }
}

impl Cell {
    /// An equal cell.
    pub fn copy(&self, alloc: Global) -> Result<Cell, NoMemory>
        ensures { IfOk result (λ cell. cell ≡ self.now) }
    {
        match self {
            Cell::Balance(address) => Ok(Cell::Balance(*address)),
            Cell::Storage(address) => Ok(Cell::Storage(*address)),
            Cell::Entry(address, place, key) => {
                let key = key.copy(alloc)?;
                Ok(Cell::Entry(*address, *place, key))
            }
        }
    }

    /// Whether both are one cell.
    pub fn same(&self, other: &Cell) -> bool
        ensures { IsTrue result ↔ (self.now ≡ other.now) }
    {
        order(self, other).is_eq()
    }
}

impl PartialEq for Cell {
    ghost eq = { eq_by_cmp cell_cmp };

    ghost laws = { partial_equiv_from_equiv (eq_by_cmp_equiv cell_cmp-total) };

    fn eq(&self, other: &Cell) -> bool {
        order(self, other).is_eq()
    }
}

impl Eq for Cell {
    ghost laws = { eq_by_cmp_equiv cell_cmp-total };
}

impl PartialOrd for Cell {
    ghost partial_cmp = { λ a b. Some (cell_cmp a b) };

    ghost laws = { po cell_cmp-total (λ a b. refl) };

    fn partial_cmp(&self, other: &Cell) -> Option<Ordering> {
        Some(order(self, other))
    }
}

impl Ord for Cell {
    ghost cmp = { cell_cmp };

    ghost total = { cell_cmp-total };

    ghost matches_partial_cmp = { λ a b. refl };

    ghost matches_eq = { λ a b. refl };

    fn cmp(&self, other: &Cell) -> Ordering {
        order(self, other)
    }
}
