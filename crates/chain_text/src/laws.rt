//! What is true of texts.

ghost use Rattle.chain_text.specs.Addresses.{AddressesAreReadAgain};
ghost use Rattle.chain_text.specs.Numbers.{NumbersAreDecimals, NumbersHaveOneSpelling};
ghost use Rattle.chain_text.specs.Scripts.{ScriptsAreSpelt, StoragesAreSaid};

/// A text spells a script exactly where it is one of a script that may run. It says a storage of a
/// type with at most 16 big maps exactly where it is one of a node that is the storage.
pub fn texts_spell_scripts_and_storages()
    ensures scripts { ScriptsAreSpelt }
    ensures storages { StoragesAreSaid }
{}

/// The word that is printed for an address is read as the address.
pub fn addresses_are_read_again()
    ensures { AddressesAreReadAgain }
{}

/// A number is spelt as a word in one way: `0`, or digits of which the first isn't 0.
pub fn numbers_have_one_spelling()
    ensures one { NumbersHaveOneSpelling }
    ensures decimal { NumbersAreDecimals }
{}
