//! Accounts by the first bytes of their addresses.

ghost use Rattle.std.specs.Prelude.{◌≡◌, IsTrue};
ghost use Rattle.value_core.specs.Lawful.{is_lawful_address};
ghost use Rattle.cell_names.specs.Accounts.{is_implicit};

use value_core::Address;

/// Whether the address is an implicit account's, and not a contract's.
pub(crate) fn is_implicit(address: &Address) -> bool
    ensures implicit { result ≡ is_implicit address.now }
    ensures lawful { IsTrue (is_lawful_address address.now) }
{
    address.bytes()[0] == 0
}
