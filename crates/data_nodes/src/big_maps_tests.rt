//! Types with as many big maps as a storage may have.

use crate::has_few_big_maps;
use sqlite_items::Boxed;
use std::alloc::Global;
use std::test::Fail;
use value_core::Ty;

// A comb of so many big maps that ends in a unit.
fn comb(alloc: Global, count: u32) -> Result<Ty, Fail> {
    let mut t = Ty::Unit;
    for _ in 0..count {
        let map = Ty::BigMap(Boxed::new(alloc, Ty::Nat)?, Boxed::new(alloc, Ty::Text)?);
        t = Ty::Pair(Boxed::new(alloc, map)?, Boxed::new(alloc, t)?);
    }
    Ok(t)
}

#[test]
fn a_storage_has_at_most_16_big_maps(rt: HostRuntime) -> Result<(), Fail> {
    let alloc = rt.alloc();
    assert!(rt; has_few_big_maps(&comb(alloc, 16)?) && !has_few_big_maps(&comb(alloc, 17)?));
    Ok(())
}
