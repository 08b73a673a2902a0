ghost use Rattle.std.specs.Prelude.{◌≡◌, ℕ, List, IfOk};
ghost use Rattle.cell_names.specs.declared.access.Undo.TheVariants as undo;

use crate::InverseLog;
use cell_names::{Access, Reply, Store, StoreEnd, Undo};
use std::alloc::Global;
use std::test::Fail;
use value_core::Address;

// A store that lends nothing, has nothing and finds any access fit. It keeps whose account was uncredited last.
#[derive(Drop)]
struct NoCells {
    last: Option<Address>,
}

impl Store for NoCells {
    ghost use Rattle.std.specs.Prelude.{None, false, true};
    ghost use Rattle.std.specs.FinMap.{empty};

    ghost seen = { λ _. record {
      cells = empty;
      flight = 0;
      lent = λ _. None;
      fits = λ _. true;
      slots = λ _. false;
    } };

    fn access(&mut self, _alloc: Global, _a: &Access) -> Result<(Reply, Undo), StoreEnd> {
        Err(StoreEnd::NoMemory)
    }

    fn undo(&mut self, u: Undo) {
        if let Undo::Uncredit(address, _) = u {
            self.last = Some(address);
        }
    }
}

// The address of an implicit account, by its last byte.
fn account(last: u8) -> Result<Address, Fail> {
    let mut bytes = [0; 22];
    bytes[21] = last;
    Ok(Address::from_bytes(&bytes).ok().ok_or("no address")?)
}

fn uncredit(last: u8) -> Result<Undo, Fail>
    ensures { IfOk result (λ u. (a : List ℕ) × (u ≡ undo.Uncredit a 0)) }
{
    let address = account(last)?;
    Ok(Undo::Uncredit(address, 0))
}

#[test]
fn the_last_entry_is_undone_first(rt: HostRuntime) -> Result<(), Fail> {
    let mut cells = NoCells { last: None };
    let mut log = InverseLog::new(rt.alloc());
    log.reserve(2)?;
    log.note(uncredit(1)?);
    log.note(uncredit(2)?);
    assert!(rt; log.pop_apply(&mut cells));
    assert!(rt; cells.last == Some(account(2)?));
    assert_eq!(rt; log.len(), 1);
    Ok(())
}

#[test]
fn a_log_is_undone_to_its_first_entry(rt: HostRuntime) -> Result<(), Fail> {
    let mut cells = NoCells { last: None };
    let mut log = InverseLog::new(rt.alloc());
    log.reserve(1)?;
    log.note(uncredit(1)?);
    log.undo_all(&mut cells);
    assert!(rt; cells.last == Some(account(1)?));
    assert!(rt; !log.pop_apply(&mut cells));
    Ok(())
}
