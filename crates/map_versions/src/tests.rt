//! Versions that branch, and many keys.

use crate::Versions;
use std::alloc::Global;
use std::test::Fail;
use value_core::{Num, Val};

/// What a version gave a key.
#[derive(Clone, Copy, Debug, PartialEq, Eq)]
enum Answer {
    Nothing,
    Removed,
    Given(i128),
    Other,
}

fn number(n: i128) -> Result<Val, Fail> {
    Ok(Val::Int(Num::new(n).ok_or("no number")?))
}

fn give(versions: &mut Versions, version: u32, key: i128, value: i128) -> Result<u32, Fail> {
    Ok(versions.put(version, number(key)?, Some(number(value)?))?)
}

fn remove(versions: &mut Versions, version: u32, key: i128) -> Result<u32, Fail> {
    Ok(versions.put(version, number(key)?, None)?)
}

fn told(versions: &Versions, version: u32, key: i128) -> Result<Answer, Fail> {
    let key = number(key)?;
    Ok(match versions.find(version, &key) {
        None => Answer::Nothing,
        Some(None) => Answer::Removed,
        Some(Some(Val::Int(n))) => Answer::Given(n.get()),
        Some(Some(_)) => Answer::Other,
    })
}

fn keys(alloc: Global, versions: &Versions, version: u32) -> Result<Vec<i128>, Fail> {
    let changes = versions.changes(alloc, version)?;
    let mut keys = Vec::new(alloc);
    for (key, _) in changes.as_slice() {
        if let Val::Int(n) = key {
            keys.push(n.get())?;
        }
    }
    Ok(keys)
}

#[test]
fn two_versions_branch_from_one(rt: HostRuntime) -> Result<(), Fail> {
    let mut versions = Versions::new(rt.alloc());
    let first = give(&mut versions, 0, 5, 50)?;
    let left = give(&mut versions, first, 6, 60)?;
    let right = give(&mut versions, first, 5, 51)?;
    assert_eq!(rt; [first, left, right], [1, 2, 3]);
    for (version, key, answer) in [
        (0, 5, Answer::Nothing),
        (1, 5, Answer::Given(50)),
        (1, 6, Answer::Nothing),
        (2, 5, Answer::Given(50)),
        (2, 6, Answer::Given(60)),
        (3, 5, Answer::Given(51)),
        (3, 6, Answer::Nothing),
        (4, 5, Answer::Nothing),
    ] {
        assert_eq!(rt; told(&versions, version, key)?, answer);
    }
    Ok(())
}

#[test]
fn a_removed_key_is_a_change_too(rt: HostRuntime) -> Result<(), Fail> {
    let mut versions = Versions::new(rt.alloc());
    let given = give(&mut versions, 0, 1, 10)?;
    let removed = remove(&mut versions, given, 1)?;
    let _again = give(&mut versions, removed, 1, 11)?;
    for (version, answer) in [
        (1, Answer::Given(10)),
        (2, Answer::Removed),
        (3, Answer::Given(11)),
    ] {
        assert_eq!(rt; told(&versions, version, 1)?, answer);
    }
    Ok(())
}

#[test]
fn changes_stand_in_the_order_of_keys(rt: HostRuntime) -> Result<(), Fail> {
    let mut versions = Versions::new(rt.alloc());
    let mut version = 0;
    for key in [4, 2, 9, 2, 7, 1] {
        version = give(&mut versions, version, key, 0)?;
    }
    let last = keys(rt.alloc(), &versions, version)?;
    assert_eq!(rt; last.as_slice(), [1, 2, 4, 7, 9].as_slice());
    Ok(())
}

/// How high the tree of a version with 255 keys is, where the nth key is n times `step` modulo 256.
fn height(alloc: Global, step: u8) -> Result<u32, Fail> {
    let mut versions = Versions::new(alloc);
    let mut version = 0;
    for n in 1..256u32 {
        version = give(
            &mut versions,
            version,
            (n * step as u32 % 256) as i128,
            n as i128,
        )?;
    }
    Ok(versions.height(version))
}

#[test]
fn trees_are_low_whatever_the_order_of_keys(rt: HostRuntime) -> Result<(), Fail> {
    for step in [1, 3, 85, 101, 127, 129, 171, 253, 255] {
        assert!(rt; height(rt.alloc(), step)? <= 10);
    }
    Ok(())
}

#[test]
fn each_of_three_hundred_keys_is_found(rt: HostRuntime) -> Result<(), Fail> {
    let mut versions = Versions::new(rt.alloc());
    let mut version = 0;
    for key in 0..300u32 {
        version = give(&mut versions, version, key as i128, key as i128)?;
    }
    for key in 0..300u32 {
        assert_eq!(rt;
            told(&versions, version, key as i128)?,
            Answer::Given(key as i128)
        );
    }
    Ok(())
}
