//! Addresses, and what isn't one.

ghost use Rattle.std.specs.Prelude.{◌≡◌, ◌≢◌, ◌↔◌, IsTrue, length, slice_index};
ghost use Rattle.value_core.specs.Addresses.{IsAnswer};
ghost use Rattle.value_core.specs.Lawful.{is_lawful_address};

use crate::small::bytes_are_small;
use std::cmp::Ordering;
use std::marker::Model;

/// 22 bytes, the first 0 for an implicit account and 1 for a contract.
#[derive(Clone, Copy, Debug, PartialEq, Eq)]
pub struct Address {
    bytes: [u8; 22],
}

impl Model for Address {
    ghost use Rattle.std.specs.Prelude.{IsTrue, List, ℕ};
    ghost use Rattle.value_core.specs.Leaves.{is_address};

    ghost Value = { List ℕ };

    ghost view = { λ a. a.bytes };

    ghost inverse = { λ l. record { bytes = l } };

    ghost invariant = { λ a. IsTrue (is_address a.bytes) };
}

/// Why bytes are no address.
#[derive(Clone, Copy, Debug, PartialEq, Eq)]
pub enum AddressFault {
    /// There are that many bytes, and not 22.
    BadLength(usize),
    /// The first of the 22 bytes is this one, and neither 0 nor 1.
    BadFirst(u8),
}

impl Address {
    /// The address of these bytes.
    pub fn from_bytes(b: &[u8]) -> Result<Address, AddressFault>
        ensures { IsAnswer b.now result }
    {
        if b.len() != 22 {
            return Err(AddressFault::BadLength(b.len()));
        }
        if b[0] > 1 {
            return Err(AddressFault::BadFirst(b[0]));
        }
        bytes_are_small(b);
        let mut bytes = [0; 22];
        bytes.copy_from_slice(b);
        Ok(Address { bytes })
    }

    /// Whether this is a contract's address, and not an implicit account's.
    pub fn is_contract(&self) -> bool
        ensures { IsTrue result ↔ (slice_index self.now 0 ≡ 1) }
    {
        self.bytes[0] == 1
    }

    /// The 22 bytes.
    pub fn bytes(&self) -> &[u8; 22]
        ensures value { result.now ≡ self.now }
        ensures lawful { IsTrue (is_lawful_address self.now) }
    {
        bytes_are_small(&self.bytes);
        &self.bytes
    }
}

impl PartialOrd for Address {
    ghost use Rattle.std.specs.Prelude.{Some};
    ghost use Rattle.std.specs.Ordering.{nat_cmp};
    ghost use Rattle.std.specs.Cmp.{po};
    ghost use Rattle.std.specs.Cmp.Lexicographic.{nat_list_cmp_total, slice_cmp};
    ghost use Rattle.value_core.specs.BytesOrder.{bytes_tie};

    ghost partial_cmp = { λ a b. Some (slice_cmp nat_cmp a b) };

    ghost laws = { po nat_list_cmp_total bytes_tie };

    fn partial_cmp(&self, other: &Address) -> Option<Ordering> {
        Some(self.cmp(other))
    }
}

/// Addresses go by their bytes.
impl Ord for Address {
    ghost use Rattle.std.specs.Prelude.{refl};
    ghost use Rattle.std.specs.Ordering.{nat_cmp};
    ghost use Rattle.std.specs.Cmp.Lexicographic.{nat_list_cmp_total, slice_cmp};
    ghost use Rattle.value_core.specs.BytesOrder.{bytes_tie};

    ghost cmp = { slice_cmp nat_cmp };

    ghost total = { nat_list_cmp_total };

    ghost matches_partial_cmp = { λ a b. refl };

    ghost matches_eq = { bytes_tie };

    fn cmp(&self, other: &Address) -> Ordering {
        self.bytes.as_slice().cmp(other.bytes.as_slice())
    }
}
