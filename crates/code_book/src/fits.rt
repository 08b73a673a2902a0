//! Which values may stand in which cells, and which accesses are fit.

ghost use Rattle.std.specs.Prelude.{◌≡◌};
ghost use Rattle.std.specs.FinMap.{get};
ghost use Rattle.code_book.specs.Books.{has_account};
ghost use Rattle.code_book.specs.Fits.{fits, fits_access, fits_entry, fits_storage, fits_write};

use crate::account::is_implicit;
use crate::book::Book;
use crate::storage::{fits_big_map, is_balance, is_kept_as};
use cell_names::{Access, Cell};
use value_core::{Address, Val};

impl Book {
    /// Whether the value may stand in the cell.
    pub fn fits(&self, c: &Cell, v: &Val) -> bool
        ensures { result ≡ fits self.now c.now v.now }
    {
        match c {
            Cell::Balance(address) => self.has_account(address) && is_balance(v),
            Cell::Storage(address) => self.fits_storage(address, v),
            Cell::Entry(address, place, key) => self.fits_entry(address, *place, key, v),
        }
    }

    /// Whether the access is fit for the book.
    pub fn fits_access(&self, a: &Access) -> bool
        ensures { result ≡ fits_access self.now a.now }
    {
        match a {
            Access::Read(_) => true,
            Access::Write(cell, value) => self.fits_write(cell, value),
            Access::Credit(address, _) => self.has_account(address),
            Access::Debit(_, _) => true,
        }
    }

    fn fits_write(&self, c: &Cell, value: &Option<Val>) -> bool
        ensures { result ≡ fits_write self.now c.now value.now }
    {
        match (c, value) {
            (Cell::Balance(_), _) => false,
            (Cell::Storage(_), None) => false,
            (Cell::Storage(address), Some(v)) => self.fits_storage(address, v),
            (Cell::Entry(_, _, _), None) => true,
            (Cell::Entry(address, place, key), Some(v)) => {
                self.fits_entry(address, *place, key, v)
            }
        }
    }

    /// Whether the account may have money: an implicit one's, or a contract's of the book.
    fn has_account(&self, address: &Address) -> bool
        ensures { result ≡ has_account self.now address.now }
    {
        is_implicit(address) || self.code(address).is_some()
    }

    fn fits_storage(&self, address: &Address, v: &Val) -> bool
        ensures { result ≡ fits_storage (get self.now address.now) v.now }
    {
        match self.code(address) {
            Some(t) => is_kept_as(&t.script().storage, v),
            None => false,
        }
    }

    fn fits_entry(&self, address: &Address, place: u8, key: &Val, v: &Val) -> bool
        ensures { result ≡ fits_entry (get self.now address.now) place key.now v.now }
    {
        match self.code(address) {
            Some(t) => fits_big_map(&t.script().storage, place, key, v),
            None => false,
        }
    }
}
