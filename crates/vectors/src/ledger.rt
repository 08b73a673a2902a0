//! What a case says of the ledger: a balance, entries of big maps, and the entries that stand.

use crate::words::{address_of, type_of, value_of};
use michelson_machine::Ask;
use std::alloc::{AllocError, Global};
use value_core::{Address, Name, Ty, Val};

/// What answers the questions of a run.
#[derive(Debug, Drop)]
pub struct Ledger {
    balance: u64,
    entries: Vec<(u8, Val, Val)>,
    contracts: Vec<(Address, Name, Ty)>,
}

impl Ledger {
    /// Of the words of a case; none where one of them isn't as it has to be.
    pub fn of_words(
        alloc: Global,
        balance: &str,
        maps: &str,
        contracts: &str,
    ) -> Result<Option<Ledger>, AllocError> {
        let (Some(entries), Some(contracts)) = (entries(alloc, maps)?, standing(alloc, contracts)?)
        else {
            return Ok(None);
        };
        match balance.parse::<u64>() {
            Ok(balance) => Ok(Some(Ledger {
                balance,
                entries,
                contracts,
            })),
            Err(_) => Ok(None),
        }
    }

    /// The answer to a question.
    pub fn answer(&self, alloc: Global, ask: &Ask) -> Result<Option<Val>, AllocError> {
        match ask {
            Ask::Balance => Ok(Some(Val::Mutez(self.balance))),
            Ask::Entry { place, key } => self.entry(alloc, *place, key),
            Ask::Contract { address, entry, ty } if self.stands(address, entry, ty) => {
                Ok(Some(Val::Contract(*address, *entry)))
            }
            Ask::Contract { .. } => Ok(None),
        }
    }

    fn entry(&self, alloc: Global, place: u8, key: &Val) -> Result<Option<Val>, AllocError> {
        for entry in &self.entries {
            if entry.0 == place && entry.1.same(key) {
                return Ok(Some(entry.2.copy(alloc)?));
            }
        }
        Ok(None)
    }

    /// An implicit account always has `default` of unit.
    fn stands(&self, address: &Address, entry: &Name, ty: &Ty) -> bool {
        if !address.is_contract() {
            return entry.bytes() == b"default".as_slice() && matches!(ty, Ty::Unit);
        }
        let named = |c: &&(Address, Name, Ty)| c.0 == *address && c.1 == *entry;
        self.contracts.iter().any(|c| named(&c) && c.2.same(ty))
    }
}

fn entries(alloc: Global, word: &str) -> Result<Option<Vec<(u8, Val, Val)>>, AllocError> {
    let mut entries = Vec::new(alloc);
    if word == "-" {
        return Ok(Some(entries));
    }
    for item in word.split(',') {
        match entry_of(alloc, item)? {
            Some(entry) => entries.push(entry)?,
            None => return Ok(None),
        }
    }
    Ok(Some(entries))
}

fn entry_of(alloc: Global, item: &str) -> Result<Option<(u8, Val, Val)>, AllocError> {
    let Some((place, rest)) = item.split_once(':') else {
        return Ok(None);
    };
    let Some((key, value)) = rest.split_once(':') else {
        return Ok(None);
    };
    match (
        place.parse::<u8>(),
        value_of(alloc, key)?,
        value_of(alloc, value)?,
    ) {
        (Ok(place), Some(key), Some(value)) => Ok(Some((place, key, value))),
        _ => Ok(None),
    }
}

fn standing(alloc: Global, word: &str) -> Result<Option<Vec<(Address, Name, Ty)>>, AllocError> {
    let mut contracts = Vec::new(alloc);
    if word == "-" {
        return Ok(Some(contracts));
    }
    for item in word.split(',') {
        match contract_of(alloc, item)? {
            Some(contract) => contracts.push(contract)?,
            None => return Ok(None),
        }
    }
    Ok(Some(contracts))
}

fn contract_of(alloc: Global, item: &str) -> Result<Option<(Address, Name, Ty)>, AllocError> {
    let Some((address, rest)) = item.split_once(':') else {
        return Ok(None);
    };
    let Some((entry, ty)) = rest.split_once(':') else {
        return Ok(None);
    };
    let address = address_of(alloc, address)?;
    match (address, Name::new(entry.as_bytes()), type_of(alloc, ty)?) {
        (Some(address), Some(entry), Some(ty)) => Ok(Some((address, entry, ty))),
        _ => Ok(None),
    }
}
