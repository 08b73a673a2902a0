//! Addresses that stood before.

ghost use Rattle.std.specs.Prelude.{◌≡◌, OnErr, OnOk};
ghost use Rattle.std.specs.FinSet.{contains, empty, insert};

use std::alloc::{AllocError, Global};
use std::collections::BTreeSet;
use std::marker::Model;
use value_core::Address;

/// A set of addresses.
#[derive(Drop)]
pub(crate) struct Seen {
    addresses: BTreeSet<Address>,
}

impl Model for Seen {
    ghost use Rattle.std.specs.FinSet as set;
    ghost use Rattle.std.specs.Ordering.{nat_cmp};
    ghost use Rattle.std.specs.Cmp.Lexicographic.{slice_cmp};
    ghost use Rattle.std.specs.Coded.{coded_ℕ, coded_list};

    ghost Value = { set.FinSet (slice_cmp nat_cmp) };

    ghost coded = { set.code (coded_list coded_ℕ) };

    ghost view = { λ s. set.from_list s.addresses.keys };
}

impl Seen {
    /// No address.
    pub(crate) fn new(alloc: Global) -> Seen
        ensures { result ≡ empty }
    {
        Seen {
            addresses: BTreeSet::new(alloc),
        }
    }

    /// Whether the address is among them.
    pub(crate) fn has(&self, address: &Address) -> bool
        ensures { result ≡ contains self.now address.now }
    {
        self.addresses.contains(address)
    }

    /// Puts an address among them.
    pub(crate) fn add(&mut self, address: Address) -> Result<(), AllocError>
        ensures added { OnOk result (self.new ≡ insert self.old address) }
        ensures unchanged { OnErr result (self.new ≡ self.old) }
    {
        self.addresses.insert(address)?;
        Ok(())
    }
}
