//! Each refusal once, in their order, and each call that takes memory with ample memory.

use crate::{Book, BookEnd, NoEntry};
use cell_names::{Access, Cell};
use michelson_code::{Instr, Script, Typed, the_counter_is_typed};
use sqlite_items::Items;
use std::alloc::{AllocError, Global};
use std::test::Fail;
use value_core::{Address, Name, Num, Ty, Val};

// A contract of the storage int, and one that nobody has.
const CONTRACT: u8 = 1;

const IMPLICIT: u8 = 0;

// `parameter int ; storage int ; code { UNPAIR ; ADD ; NIL operation ; PAIR }`
fn counter(alloc: Global) -> Result<Typed, AllocError> {
    let mut code = Items::new(alloc);
    code.push(Instr::Unpair)?;
    code.push(Instr::Add)?;
    code.push(Instr::Nil(Ty::Operation))?;
    code.push(Instr::Pair)?;
    let script = Script {
        param: Ty::Int,
        names: Items::new(alloc),
        storage: Ty::Int,
        code,
    };
    the_counter_is_typed();
    Ok(Typed::new(script))
}

// The address of so many, of an implicit account or a contract.
fn address(first: u8, number: u16) -> Result<Address, Fail> {
    let mut bytes = [0; 22];
    bytes[0] = first;
    bytes[20] = (number >> 8) as u8;
    bytes[21] = (number & 0xff) as u8;
    Ok(Address::from_bytes(&bytes).ok().ok_or("no address")?)
}

// A book of so many contracts.
fn book_of(alloc: Global, count: u16) -> Result<Book, Fail> {
    let mut book = Book::new(alloc);
    for number in 0..count {
        book.add(alloc, address(CONTRACT, number)?, counter(alloc)?)
            .ok()
            .ok_or("not added")?;
    }
    Ok(book)
}

fn refused(alloc: Global, book: &mut Book, a: Address) -> Result<Option<BookEnd>, Fail> {
    Ok(book.add(alloc, a, counter(alloc)?).err())
}

#[test]
fn each_reason_is_told_in_its_order(rt: HostRuntime) -> Result<(), Fail> {
    let alloc = rt.alloc();
    let mut book = book_of(alloc, 1024)?;
    assert_eq!(rt; book.len(), 1024);
    assert!(rt; refused(alloc, &mut book, address(IMPLICIT, 0)?)? == Some(BookEnd::NotContract));
    assert!(rt; refused(alloc, &mut book, address(CONTRACT, 7)?)? == Some(BookEnd::Taken));
    assert!(rt; refused(alloc, &mut book, address(CONTRACT, 1024)?)? == Some(BookEnd::Full));
    Ok(())
}

#[test]
fn contracts_are_found_in_order_and_copied(rt: HostRuntime) -> Result<(), Fail> {
    let alloc = rt.alloc();
    let book = book_of(alloc, 3)?;
    let (first, _) = book.after(None).ok_or("no contract")?;
    assert!(rt; *first == address(CONTRACT, 0)?);
    let (second, _) = book.after(Some(first)).ok_or("one contract")?;
    assert!(rt; *second == address(CONTRACT, 1)?);
    assert!(rt; book.after(Some(&address(CONTRACT, 2)?)).is_none());
    assert!(rt; book.code(&address(CONTRACT, 3)?).is_none());
    assert!(rt; book.copy(alloc)?.same(&book));
    assert!(rt; !book.same(&Book::new(alloc)));
    Ok(())
}

#[test]
fn entries_are_those_of_contracts_and_of_implicit_accounts(rt: HostRuntime) -> Result<(), Fail> {
    let alloc = rt.alloc();
    let book = book_of(alloc, 1)?;
    let name = Name::new(b"default").ok_or("no name")?;
    let other = Name::new(b"add").ok_or("no name")?;
    assert!(rt; matches!(book.entry(&address(CONTRACT, 0)?, &name), Ok(Ty::Int)));
    assert!(rt; matches!(book.entry(&address(IMPLICIT, 0)?, &name), Ok(Ty::Unit)));
    assert!(rt;
        matches!(
            book.entry(&address(CONTRACT, 0)?, &other),
            Err(NoEntry::NoSuchEntry)
        )
    );
    assert!(rt;
        matches!(
            book.entry(&address(IMPLICIT, 0)?, &other),
            Err(NoEntry::NoSuchEntry)
        )
    );
    assert!(rt;
        matches!(
            book.entry(&address(CONTRACT, 1)?, &name),
            Err(NoEntry::NoSuchContract)
        )
    );
    Ok(())
}

#[test]
fn values_fit_by_the_kind_of_their_cell(rt: HostRuntime) -> Result<(), Fail> {
    let book = book_of(rt.alloc(), 1)?;
    let number = Val::Int(Num::new(5).ok_or("no number")?);
    assert!(rt; book.fits(&Cell::Balance(address(IMPLICIT, 9)?), &Val::Mutez(1)));
    assert!(rt; !book.fits(&Cell::Balance(address(IMPLICIT, 9)?), &Val::Mutez(0)));
    assert!(rt; !book.fits(&Cell::Balance(address(CONTRACT, 9)?), &Val::Mutez(1)));
    assert!(rt; book.fits(&Cell::Storage(address(CONTRACT, 0)?), &number));
    assert!(rt; !book.fits(&Cell::Storage(address(CONTRACT, 0)?), &Val::Unit));
    assert!(rt; !book.fits(&Cell::Entry(address(CONTRACT, 0)?, 0, Val::Unit), &number));
    assert!(rt; book.fits_access(&Access::Credit(address(CONTRACT, 0)?, 1)));
    assert!(rt; !book.fits_access(&Access::Credit(address(CONTRACT, 1)?, 1)));
    assert!(rt; !book.fits_access(&Access::Write(Cell::Storage(address(CONTRACT, 0)?), None)));
    Ok(())
}
