//! Contracts without a storage.

ghost use Rattle.std.specs.Prelude.{◌≡◌};
ghost use Rattle.std.specs.FinMap.{contains_key};
ghost use Rattle.cell_names.specs.declared.cell.Cell.TheVariants as named;
ghost use Rattle.ledger_state.specs.Storages.{least_bare};

use cell_names::Cell;
use code_book::Book;
use ledger_cells::Cells;
use value_core::Address;

/// The contract with the least address whose storage isn't there.
pub(crate) fn least_bare(book: &Book, cells: &Cells) -> Option<Address>
    ensures { result ≡ least_bare book.now cells.now.cells }
{
    let count = book.len();
    let mut last: Option<Address> = None;
    for _ in 0..count {
        match book.after(last.as_ref()) {
            Some((address, _)) => {
                if !has_storage(cells, address) {
                    return Some(*address);
                }
                last = Some(*address);
            }
            None => return None,
        }
    }
    None
}

/// Whether the contract's storage is there.
fn has_storage(cells: &Cells, address: &Address) -> bool
    ensures { result ≡ contains_key cells.now.cells (named.Storage address.now) }
{
    cells.get(&Cell::Storage(*address)).is_some()
}
