//! A vector that contracts see from its top down.

ghost use Rattle.std.specs.Prelude.{◌≡◌, ◌∷◌, [], reverse, ◌++◌, MatchOption, OnOk, OnErr, length, take, drop, ◌≤◌, ◌<◌, ◌+◌, IfOk, Some, None, slice_get};
ghost use Rattle.std.specs.Option.{option_copied};
ghost use Rattle.michelson_data.specs.Replaces.{Replaces};
ghost use Rattle.michelson_machine.specs.Made.{made_by};
ghost use Rattle.value_core.specs.declared.val.Val.{Val};
ghost use Rattle.value_core.specs.declared.val.Val.TheViews.{out-Val};
ghost use Rattle.michelson_rules.specs.BigMaps.{change_on_top, key_on_top};
ghost use Rattle.michelson_rules.specs.Collections.{chosen};
ghost use Rattle.michelson_machine.specs.Resume.{changed_on};
ghost use Rattle.michelson_machine.specs.Steps.{keyed_on, place_in};

use crate::look::{Change, Key};
use michelson_data::{DataEnd, DataOp, apply};
use std::alloc::{AllocError, Global};
use std::marker::Model;
use value_core::{NoMemory, Val};

/// A stack, which contracts see from its top down.
#[derive(Debug, Drop)]
pub struct Pile<T> {
    items: Vec<T>,
}

impl<T> Model for Pile<T> {
    ghost use Rattle.std.specs.Prelude.{List, reverse};
    ghost use Rattle.std.specs.Coded.{coded_list};

    ghost Value = { List T };

    ghost coded = { coded_list T.code };

    ghost view = { λ p. reverse p.items.items };
}

impl<T: Drop> Pile<T> {
    /// Nothing.
    pub fn new(alloc: Global) -> Pile<T>
        ensures { result ≡ [] }
    {
        Pile {
            items: Vec::new(alloc),
        }
    }

    /// How many there are.
    pub fn len(&self) -> usize
        ensures { result ≡ length self.now }
    {
        self.items.len()
    }

    /// Puts an item on top.
    pub fn push(&mut self, item: T) -> Result<(), AllocError>
        ensures ok { OnOk result (self.new ≡ item ∷ self.old) }
        ensures err { OnErr result (self.new ≡ self.old) }
    {
        self.items.push(item)?;
        Ok(())
    }

    /// Takes the item on top.
    pub fn pop(&mut self) -> Option<T>
        ensures { MatchOption result ((self.old ≡ []) × (self.new ≡ []))
            (λ top. self.old ≡ top ∷ self.new) }
    {
        self.items.pop()
    }

    /// The item below so many others.
    pub fn peek(&self, depth: usize) -> Option<&T>
        ensures { option_copied result ≡ slice_get self.now depth }
    {
        if depth < self.items.len() {
            Some(&self.items[self.items.len() - 1 - depth])
        } else {
            None
        }
    }

    /// Takes so many items from the top away.
    pub fn drop_top(&mut self, count: usize)
        requires { count ≤ length self.old }
        ensures { self.new ≡ drop count self.old }
    {
        let kept = self.items.len() - count;
        self.items.truncate(kept);
    }

    /// Takes the item below so many others out.
    pub fn dig(&mut self, depth: usize) -> T
        requires { depth < length self.old }
        ensures above { take depth self.old ≡ take depth self.new }
        ensures below { drop depth self.old ≡ result ∷ drop depth self.new }
    {
        let place = self.items.len() - 1 - depth;
        self.items.remove(place)
    }

    /// Puts an item below so many others.
    pub fn dug(&mut self, depth: usize, item: T) -> Result<(), AllocError>
        requires { depth ≤ length self.old }
        ensures above { OnOk result (take depth self.new ≡ take depth self.old) }
        ensures below { OnOk result (drop depth self.new ≡ item ∷ drop depth self.old) }
    {
        let place = self.items.len() - depth;
        self.items.insert(place, item)?;
        Ok(())
    }

    /// Sets so many items aside, so that the lowest is on top; none where there are fewer.
    #[tactic(auto, using(crate::proofs::Piles::moved_over))]
    pub fn set_aside(&mut self, alloc: Global, count: u32) -> Result<Option<Pile<T>>, AllocError>
        ensures { IfOk result (λ r. MatchOption r (length self.old < count)
            (λ aside. (self.old ≡ reverse aside ++ self.new) × (length aside ≡ count))) }
    {
        let mut aside = Pile::new(alloc);
        while aside.len() < count as usize {
            match self.pop() {
                None => return Ok(None),
                Some(item) => aside.push(item)?,
            }
        }
        Ok(Some(aside))
    }

    /// Puts items back that were set aside.
    #[tactic(auto, using(crate::proofs::Piles::moved_over))]
    pub fn put_back(&mut self, mut aside: Pile<T>) -> Result<(), AllocError>
        ensures { OnOk result (self.new ≡ reverse aside ++ self.old) }
    {
        while let Some(item) = aside.pop() {
            self.push(item)?;
        }
        Ok(())
    }
}

impl Pile<Val> {
    /// Replaces an operation to the top.
    pub fn apply(&mut self, alloc: Global, op: DataOp) -> Result<(), DataEnd>
        ensures { Replaces (made_by op self.old) result self.new }
    {
        apply(alloc, op, &mut self.items)
    }

    /// Puts what an option or a side of an `or` has on top.
    pub fn push_part(&mut self, v: Val) -> Result<(), NoMemory>
        ensures some { OnOk result ((part : Val) → v ≡ Val.Some part → self.new ≡ part ∷ self.old) }
        ensures left { OnOk result ((part : Val) → v ≡ Val.Left part → self.new ≡ part ∷ self.old) }
        ensures right { OnOk result ((part : Val) → v ≡ Val.Right part →
            self.new ≡ part ∷ self.old) }
    {
        match v.into_part() {
            Ok(part) => self.push(part),
            Err(_) => Err(AllocError),
        }
    }

    /// The place and the version of a big map below so many items, where one is there.
    fn big_map_at(&self, depth: usize) -> Option<(u8, u32)>
        ensures { result ≡ place_in (slice_get self.now depth) }
    {
        match self.peek(depth) {
            None => None,
            Some(v) => match v {
                Val::BigMap { place, version } => Some((*place, *version)),
                _ => None,
            },
        }
    }

    /// Takes a key and the big map below it away, where one is there.
    pub fn take_key(&mut self) -> Result<Option<Key>, NoMemory>
        ensures { IfOk result (λ r. MatchOption r ((key_on_top self.old ≡ None)
            × (self.new ≡ self.old)) (λ k. key_on_top self.old ≡ Some (keyed_on k self.new))) }
    {
        match self.big_map_at(1) {
            None => Ok(None),
            Some((place, version)) => match (self.pop(), self.pop()) {
                (Some(key), Some(_)) => Ok(Some(Key {
                    place,
                    version,
                    key,
                })),
                _ => Err(AllocError),
            },
        }
    }

    /// Takes a key, a choice and the big map below them away, where one is there.
    pub fn take_change(&mut self) -> Result<Option<Change>, NoMemory>
        ensures { IfOk result (λ r. MatchOption r ((change_on_top self.old ≡ None)
            × (self.new ≡ self.old))
            (λ c. change_on_top self.old ≡ Some (changed_on c self.new, c.choice))) }
    {
        match self.big_map_at(2) {
            None => Ok(None),
            Some((place, version)) => match (self.pop(), self.pop(), self.pop()) {
                (Some(key), Some(choice), Some(_)) => Ok(Some(Change {
                    place,
                    version,
                    key,
                    choice: chosen(choice)?,
                })),
                _ => Err(AllocError),
            },
        }
    }
}

/// What may be there, of an option.
fn chosen(v: Val) -> Result<Option<Val>, NoMemory>
    ensures { IfOk result (λ choice. chosen (out-Val v) ≡ Some choice) }
{
    match &v {
        Val::Nothing => Ok(None),
        Val::Some(_) => match v.into_part() {
            Ok(part) => Ok(Some(part)),
            Err(_) => Err(AllocError),
        },
        _ => Err(AllocError),
    }
}
