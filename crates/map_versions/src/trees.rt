//! Search trees that share their nodes. A node never changes, so that trees of before stay.

ghost use Rattle.std.specs.Prelude.{◌≡◌, IfOk};

use sqlite_items::Items;
use std::alloc::Global;
use std::cmp::Ordering;
use std::marker::Model;
use value_core::{NoMemory, Val, compare};

/// A node: its change, and the trees of the changes before and after it by key.
#[derive(Clone, Copy)]
pub(crate) struct Node {
    left: usize,
    change: usize,
    right: usize,
    height: u32,
}

/// The changes that were made, and trees of them. Tree 0 is empty, tree n is that of the nth node,
/// whose sides stand before it.
#[derive(Drop)]
pub(crate) struct Trees {
    changes: Items<(Val, Option<Val>)>,
    nodes: Items<Node>,
}

impl Model for Trees {
    ghost use Rattle.std.specs.Prelude.{◌≡◌, [], length, true};
    ghost use Rattle.std.specs.Coded.{codes};
    ghost use Rattle.value_core.specs.contracts.val.Val as val;
    ghost use Rattle.map_versions.specs.Forest.{Forest};
    ghost use Rattle.map_versions.specs.Nodes.{all_stand, trees_from};

    ghost Value = { Forest };

    ghost coded = { Prim.hlevel (codes, val.the_row.coded) };

    ghost view = { λ t. record { made = t.changes; trees = trees_from t.changes [] t.nodes } };

    ghost invariant = { λ t. all_stand (length t.changes) 0 t.nodes ≡ true };
}

impl Trees {
    ghost use Rattle.std.specs.Prelude.{◌≡◌, ◌<◌, ◌≤◌, [], ◌∷◌, ◌++◌, IfOk, IfSome, IsTrue, None, OnErr, OnOk, length};
    ghost use Rattle.std.specs.Option.{option_copied};
    ghost use Rattle.std.specs.FinMap.{is_sorted};
    ghost use Rattle.value_core.specs.Order.{order};
    ghost use Rattle.value_core.specs.Sorted.{find};
    ghost use Rattle.michelson_rules.specs.Runs.{changes_of};
    ghost use Rattle.map_versions.specs.Changed.{change_at};
    ghost use Rattle.map_versions.specs.Forest.{AreThere, Grows, IsTree, changed, joined};
    ghost use Rattle.map_versions.specs.Nodes.{IsNode};

    /// No change, and no tree but the empty one.
    pub fn new(alloc: Global) -> Trees
        ensures made { result.made ≡ [] }
        ensures trees { result.trees ≡ [] }
    {
        Trees {
            changes: Items::new(alloc),
            nodes: Items::new(alloc),
        }
    }

    /// One change more, which stands in no tree yet; its number.
    pub fn note(&mut self, key: Val, choice: Option<Val>) -> Result<usize, NoMemory>
        ensures made { OnOk result (self.new.made ≡ self.old.made ++ (key, choice) ∷ []) }
        ensures trees { self.new.trees ≡ self.old.trees }
        ensures number { IfOk result (λ number. number ≡ length self.old.made) }
        ensures unchanged { OnErr result (self.new ≡ self.old) }
    {
        let number = self.changes.len();
        self.changes.push((key, choice))?;
        Ok(number)
    }

    /// The change of a number.
    fn change(&self, number: usize) -> &(Val, Option<Val>)
        requires { number < length self.now.made }
        ensures { result.now ≡ change_at self.now.made number }
    {
        &self.changes.as_slice()[number]
    }

    /// The node of a tree, where it isn't empty.
    fn node(&self, tree: usize) -> Option<Node>
        ensures empty { result ≡ None → changes_of tree self.now.trees ≡ [] }
        ensures node { IfSome result (IsNode self.now tree) }
    {
        if tree == 0 {
            return None;
        }
        match self.nodes.get(tree - 1) {
            Some(node) => Some(*node),
            None => None,
        }
    }

    /// How high a tree is.
    pub fn height(&self, tree: usize) -> u32 {
        match self.node(tree) {
            Some(node) => node.height,
            None => 0,
        }
    }

    /// The tree of two trees and the change between them.
    fn join(&mut self, left: usize, change: usize, right: usize) -> Result<usize, NoMemory>
        requires { AreThere self.old left change right }
        ensures grows { Grows self.old self.new }
        ensures tree { IfOk result (λ tree. IsTree self.new tree (joined self.old left change right)) }
    {
        let below = self.height(left).max(self.height(right));
        self.nodes.push(Node {
            left,
            change,
            right,
            height: below.saturating_add(1),
        })?;
        Ok(self.nodes.len())
    }

    /// Joins two trees and the change between them, where a side is two higher than the other so
    /// that no side is.
    fn balance(&mut self, left: usize, change: usize, right: usize) -> Result<usize, NoMemory>
        requires { AreThere self.old left change right }
        ensures grows { Grows self.old self.new }
        ensures tree { IfOk result (λ tree. IsTree self.new tree (joined self.old left change right)) }
    {
        if self.height(left) > self.height(right).saturating_add(1) {
            let left = self.lean_left(left)?;
            self.turn_right(left, change, right)
        } else if self.height(right) > self.height(left).saturating_add(1) {
            let right = self.lean_right(right)?;
            self.turn_left(left, change, right)
        } else {
            self.join(left, change, right)
        }
    }

    /// A tree of the same changes whose right side isn't higher than its left one.
    fn lean_left(&mut self, tree: usize) -> Result<usize, NoMemory>
        requires { tree ≤ length self.old.trees }
        ensures grows { Grows self.old self.new }
        ensures tree { IfOk result (λ made. IsTree self.new made (changes_of tree self.old.trees)) }
    {
        match self.node(tree) {
            Some(top) if self.height(top.left) < self.height(top.right) => {
                self.turn_left(top.left, top.change, top.right)
            }
            _ => Ok(tree),
        }
    }

    /// A tree of the same changes whose left side isn't higher than its right one.
    fn lean_right(&mut self, tree: usize) -> Result<usize, NoMemory>
        requires { tree ≤ length self.old.trees }
        ensures grows { Grows self.old self.new }
        ensures tree { IfOk result (λ made. IsTree self.new made (changes_of tree self.old.trees)) }
    {
        match self.node(tree) {
            Some(top) if self.height(top.right) < self.height(top.left) => {
                self.turn_right(top.left, top.change, top.right)
            }
            _ => Ok(tree),
        }
    }

    /// Joins two trees and the change between them, with the top of the left one on top.
    fn turn_right(&mut self, left: usize, change: usize, right: usize) -> Result<usize, NoMemory>
        requires { AreThere self.old left change right }
        ensures grows { Grows self.old self.new }
        ensures tree { IfOk result (λ tree. IsTree self.new tree (joined self.old left change right)) }
    {
        match self.node(left) {
            Some(top) => {
                let below = self.join(top.right, change, right)?;
                self.join(top.left, top.change, below)
            }
            None => self.join(left, change, right),
        }
    }

    /// Joins two trees and the change between them, with the top of the right one on top.
    fn turn_left(&mut self, left: usize, change: usize, right: usize) -> Result<usize, NoMemory>
        requires { AreThere self.old left change right }
        ensures grows { Grows self.old self.new }
        ensures tree { IfOk result (λ tree. IsTree self.new tree (joined self.old left change right)) }
    {
        match self.node(right) {
            Some(top) => {
                let below = self.join(left, change, top.left)?;
                self.join(below, top.change, top.right)
            }
            None => self.join(left, change, right),
        }
    }

    /// The tree with one change more.
    pub fn put(&mut self, tree: usize, change: usize) -> Result<usize, NoMemory>
        requires tree { tree ≤ length self.old.trees }
        requires change { change < length self.old.made }
        requires sorted { IsTrue (is_sorted order (changes_of tree self.old.trees)) }
        ensures grows { Grows self.old self.new }
        ensures tree { IfOk result (λ made. IsTree self.new made (changed self.old tree change)) }
    {
        let Some(node) = self.node(tree) else {
            return self.join(0, change, 0);
        };
        match compare(&self.change(change).0, &self.change(node.change).0) {
            Ordering::Less => {
                let left = self.put(node.left, change)?;
                self.balance(left, node.change, node.right)
            }
            Ordering::Equal => self.join(node.left, change, node.right),
            Ordering::Greater => {
                let right = self.put(node.right, change)?;
                self.balance(node.left, node.change, right)
            }
        }
    }

    /// What a tree gives a key.
    pub fn find(&self, tree: usize, key: &Val) -> Option<&Option<Val>>
        requires sorted { IsTrue (is_sorted order (changes_of tree self.now.trees)) }
        ensures { option_copied result ≡ find order key.now (changes_of tree self.now.trees) }
    {
        let node = self.node(tree)?;
        let change = self.change(node.change);
        match compare(key, &change.0) {
            Ordering::Less => self.find(node.left, key),
            Ordering::Equal => Some(&change.1),
            Ordering::Greater => self.find(node.right, key),
        }
    }

    /// Copies the changes of a tree, in the order of keys, behind those that are there.
    pub fn copy_into(
        &self,
        alloc: Global,
        tree: usize,
        copies: &mut Items<(Val, Option<Val>)>,
    ) -> Result<(), NoMemory>
        ensures { OnOk result (copies.new ≡ copies.old ++ changes_of tree self.now.trees) }
    {
        let Some(node) = self.node(tree) else {
            return Ok(());
        };
        self.copy_into(alloc, node.left, copies)?;
        copies.push(copy_change(alloc, self.change(node.change))?)?;
        self.copy_into(alloc, node.right, copies)
    }
}

/// An equal change.
fn copy_change(alloc: Global, change: &(Val, Option<Val>)) -> Result<(Val, Option<Val>), NoMemory>
    ensures { IfOk result (λ made. made ≡ change.now) }
{
    let choice = match &change.1 {
        Some(value) => Some(value.copy(alloc)?),
        None => None,
    };
    Ok((change.0.copy(alloc)?, choice))
}
