//! Versions of maps by their numbers, from 1 on.

ghost use Rattle.std.specs.Prelude.{◌≡◌};
ghost use Rattle.map_versions.specs.Roots.{root_of};

use crate::trees::Trees;
use sqlite_items::Items;
use std::alloc::{AllocError, Global};
use std::marker::Model;
use value_core::{NoMemory, Val};

/// The changes of each version, which is one change away from version 0, that has none, or from
/// another version.
#[derive(Drop)]
pub struct Versions {
    trees: Trees,
    roots: Items<usize>,
}

impl Model for Versions {
    ghost use Rattle.std.specs.Prelude.{◌≡◌, List, true};
    ghost use Rattle.std.specs.List.{list_all};
    ghost use Rattle.std.specs.Coded.{codes};
    ghost use Rattle.value_core.specs.contracts.val.Val as val;
    ghost use Rattle.michelson_rules.specs.Runs.{Changes};
    ghost use Rattle.map_versions.specs.Roots.{is_root, versions_of};

    ghost Value = { List Changes };

    ghost coded = { Prim.hlevel (codes, val.the_row.coded) };

    ghost view = { λ v. versions_of v.trees.trees v.roots };

    ghost invariant = { λ v. list_all (is_root v.trees.trees) v.roots ≡ true };
}

impl Versions {
    ghost use Rattle.std.specs.Prelude.{◌≡◌, ◌∷◌, ◌++◌, [], IfOk, IsTrue, OnErr, OnOk, length, ℕ};
    ghost use Rattle.std.specs.Option.{option_copied};
    ghost use Rattle.value_core.specs.Order.{order};
    ghost use Rattle.value_core.specs.Sorted.{find, keys_of, put};
    ghost use Rattle.value_core.specs.Sound.{ascends};
    ghost use Rattle.michelson_rules.specs.Runs.{changes_of};

    /// No version but version 0. It takes no memory.
    pub fn new(alloc: Global) -> Versions
        ensures { result ≡ [] }
    {
        Versions {
            trees: Trees::new(alloc),
            roots: Items::new(alloc),
        }
    }

    /// How many versions there are, beside version 0.
    pub fn len(&self) -> usize
        ensures { result ≡ length self.now }
    {
        self.roots.len()
    }

    /// The changes of each version ascend by key.
    pub fn ascend(&self)
        ensures { (version : ℕ) → IsTrue (ascends (keys_of (changes_of version self.now))) }
    {
        let _ = &self.roots;
    }

    /// What a version gave the key: a value, or that it has none; nothing where it left the key as
    /// it is.
    pub fn find(&self, version: u32, key: &Val) -> Option<&Option<Val>>
        ensures { option_copied result ≡ find order key.now (changes_of version self.now) }
    {
        self.trees.find(root(&self.roots, version), key)
    }

    /// Makes a new version, which is the old one with the key changed; its number.
    pub fn put(&mut self, version: u32, key: Val, choice: Option<Val>) -> Result<u32, NoMemory>
        ensures made { OnOk result (self.new ≡
            self.old ++ put order key choice (changes_of version self.old) ∷ []) }
        ensures number { IfOk result (λ number. number ≡ length self.new) }
        ensures unchanged { OnErr result (self.new ≡ self.old) }
    {
        let versions = self.roots.len();
        if versions >= u32::MAX as usize {
            return Err(AllocError);
        }
        let old = root(&self.roots, version);
        let change = self.trees.note(key, choice)?;
        let new = self.trees.put(old, change)?;
        self.roots.push(new)?;
        Ok(versions as u32 + 1)
    }

    /// A copy of the changes of a version, in the order of keys.
    pub fn changes(
        &self,
        alloc: Global,
        version: u32,
    ) -> Result<Items<(Val, Option<Val>)>, NoMemory>
        ensures { IfOk result (λ copies. copies ≡ changes_of version self.now) }
    {
        let mut copies = Items::new(alloc);
        self.trees
            .copy_into(alloc, root(&self.roots, version), &mut copies)?;
        Ok(copies)
    }
}

#[cfg(test)]
impl Versions {
    /// How high the tree of a version is.
    pub fn height(&self, version: u32) -> u32 {
        self.trees.height(root(&self.roots, version))
    }
}

/// The root of a version; that of version 0, and where there is no such version, is the empty tree.
fn root(roots: &Items<usize>, version: u32) -> usize
    ensures { result ≡ root_of version roots.now }
{
    if version == 0 {
        return 0;
    }
    match roots.get(version as usize - 1) {
        Some(root) => *root,
        None => 0,
    }
}
