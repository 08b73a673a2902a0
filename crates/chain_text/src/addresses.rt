//! Addresses as words.

ghost use Rattle.std.specs.Prelude.{◌≡◌, ◌++◌, OnOk};
ghost use Rattle.cell_names.specs.Accounts.{is_implicit};
ghost use Rattle.hex.specs.Hex.{decode_sized};
ghost use Rattle.chain_text.specs.Addresses.{address_of, address_or_none, address_word};

use std::alloc::{AllocError, Global};
use value_core::Address;

/// The address that a word spells, in either case.
#[tactic(auto, unfolding(crate::specs::Addresses::address_of))]
pub(crate) fn address_of(word: &[u8]) -> Option<Address>
    ensures { result ≡ address_of word.now }
{
    if word.len() < 2 {
        return None;
    }
    let (mark, digits) = word.split_at(2);
    if mark != b"0x".as_slice() {
        return None;
    }
    address_in(digits)
}

/// The address that digits spell.
fn address_in(digits: &[u8]) -> Option<Address>
    ensures { result ≡ address_or_none (decode_sized digits.now 22) }
{
    let mut bytes = [0; 22];
    match hex::decode_to_slice(digits, &mut bytes) {
        Ok(()) => Address::from_bytes(&bytes).ok(),
        Err(_) => None,
    }
}

/// Whether the address is an implicit account's, and not a contract's.
pub(crate) fn is_implicit(address: &Address) -> bool
    ensures { result ≡ is_implicit address.now }
{
    address.bytes()[0] == 0
}

/// Prints the word of an address.
pub(crate) fn put_address(
    alloc: Global,
    address: &Address,
    out: &mut Vec<u8>,
) -> Result<(), AllocError>
    ensures { OnOk result (out.new.items ≡ out.old.items ++ address_word address.now) }
{
    let digits = hex::encode(alloc, address.bytes().as_slice())?;
    out.extend_from_slice(b"0x")?;
    out.extend_from_slice(digits.as_bytes())
}
