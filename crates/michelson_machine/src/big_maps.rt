//! Big maps, and what is asked of the ledger.

ghost use Rattle.std.specs.Prelude.{◌≡◌, ◌∷◌, ◌+◌, ◌<◌, ◌≤◌, ◌^◌, Some, MatchOption, MatchBool, IfOk, is_some};
ghost use Rattle.value_core.specs.declared.val.Val.{Val};
ghost use Rattle.value_core.specs.declared.val.Val.TheViews.{out-Val};
ghost use Rattle.michelson_machine.specs.Made.{made_by};
ghost use Rattle.michelson_rules.specs.BigMaps.{change_on_top, key_on_top, room_of};
ghost use Rattle.michelson_rules.specs.Collections.{chosen, option};
ghost use Rattle.michelson_rules.specs.Metered.{less_room};
ghost use Rattle.michelson_rules.specs.Rules.{balance, changed_map, changed_map_with_old, contract, looked_up_as, or_plain};
ghost use Rattle.michelson_rules.specs.Bodies.{on_top};
ghost use Rattle.michelson_machine.specs.Resume.{answer_does, changed_on, changing, taken, work_at};
ghost use Rattle.michelson_machine.specs.Steps.{Enacts, Nearer, above, ends_on, keyed_on};

use crate::look::{Change, Key, Look};
use crate::state::{State, Step};
use michelson_code::Why;
use michelson_data::DataOp;
use std::alloc::{AllocError, Global};
use value_core::{NoMemory, Val, size, some};

impl<'a> State<'a> {
    /// `MEM`.
    pub fn has(&mut self, alloc: Global) -> Result<Step<'a>, NoMemory>
        ensures same { Enacts (λ w stack. or_plain (made_by DataOp.Mem stack) (key_on_top stack)
            (looked_up_as w (λ v. Val.Bool (is_some v)))) self.old self.new result }
        ensures nearer { Nearer 4 self.old self.new result }
    {
        match self.stack.take_key()? {
            None => self.data(alloc, DataOp::Mem),
            Some(key) => self.has_key(key),
        }
    }

    /// `GET`.
    pub fn get(&mut self, alloc: Global) -> Result<Step<'a>, NoMemory>
        ensures same { Enacts (λ w stack. or_plain (made_by DataOp.Get stack) (key_on_top stack)
            (looked_up_as w option)) self.old self.new result }
        ensures nearer { Nearer 4 self.old self.new result }
    {
        match self.stack.take_key()? {
            None => self.data(alloc, DataOp::Get),
            Some(key) => self.get_key(alloc, key),
        }
    }

    /// `UPDATE`.
    pub fn update(&mut self, alloc: Global) -> Result<Step<'a>, NoMemory>
        ensures same { Enacts (λ w stack. or_plain (made_by DataOp.Update stack)
            (change_on_top stack) (changed_map w)) self.old self.new result }
        ensures nearer { Nearer 4 self.old self.new result }
    {
        match self.stack.take_change()? {
            None => self.data(alloc, DataOp::Update),
            Some(change) => self.change(change, None),
        }
    }

    /// `GET_AND_UPDATE`.
    pub fn get_and_update(&mut self, alloc: Global) -> Result<Step<'a>, NoMemory>
        ensures same { Enacts (λ w stack. or_plain (made_by DataOp.GetAndUpdate stack)
            (change_on_top stack) (changed_map_with_old w)) self.old self.new result }
        ensures nearer { Nearer 4 self.old self.new result }
    {
        match self.stack.take_change()? {
            None => self.data(alloc, DataOp::GetAndUpdate),
            Some(change) => self.get_and_change(alloc, change),
        }
    }

    fn has_key(&mut self, key: Key) -> Result<Step<'a>, NoMemory>
        ensures same { Enacts (λ w stack. looked_up_as w (λ v. Val.Bool (is_some v))
            (keyed_on key stack)) self.old self.new result }
        ensures nearer { Nearer 4 self.old self.new result }
    {
        match self.versions.find(key.version, &key.key) {
            None => Ok(Step::Ask(Look::Has {
                place: key.place,
                key: key.key,
            })),
            Some(found) => {
                let has = found.is_some();
                self.stack.push(Val::Bool(has))?;
                Ok(Step::On)
            }
        }
    }

    fn get_key(&mut self, alloc: Global, key: Key) -> Result<Step<'a>, NoMemory>
        ensures same { Enacts (λ w stack. looked_up_as w option (keyed_on key stack)) self.old
            self.new result }
        ensures nearer { Nearer 4 self.old self.new result }
    {
        match self.versions.find(key.version, &key.key) {
            None => Ok(Step::Ask(Look::Get {
                place: key.place,
                key: key.key,
            })),
            Some(found) => {
                let found = copy_of(alloc, found)?;
                let told = option(alloc, found)?;
                self.stack.push(told)?;
                Ok(Step::On)
            }
        }
    }

    fn get_and_change(&mut self, alloc: Global, change: Change) -> Result<Step<'a>, NoMemory>
        ensures same { Enacts (λ w stack. changed_map_with_old w (
          changed_on change stack,
          change.choice,
        )) self.old self.new result }
        ensures nearer { Nearer 4 self.old self.new result }
    {
        match self.versions.find(change.version, &change.key) {
            None => Ok(Step::Ask(Look::Change(change))),
            Some(found) => {
                let found = copy_of(alloc, found)?;
                let old = option(alloc, found)?;
                self.change(change, Some(old))
            }
        }
    }

    /// A version more with a change; above it, where it is given, what was there before.
    fn change(&mut self, change: Change, old: Option<Val>) -> Result<Step<'a>, NoMemory>
        ensures same { Enacts (λ w stack. changing change (above old stack) stack) self.old
            self.new result }
        ensures still { work_at self.new ≤ work_at self.old }
    {
        if !self.pay(&change.key, &change.choice) {
            return Ok(Step::Fail(Why::TooMuchData));
        }
        let Change {
            place,
            version,
            key,
            choice,
        } = change;
        let version = self.versions.put(version, key, choice)?;
        self.stack.push(Val::BigMap { place, version })?;
        match old {
            None => Ok(Step::On),
            Some(old) => {
                self.stack.push(old)?;
                Ok(Step::On)
            }
        }
    }

    /// What comes after an answer.
    pub fn answer(
        &mut self,
        alloc: Global,
        look: Look<'a>,
        v: Option<Val>,
    ) -> Result<Step<'a>, NoMemory>
        ensures same { Enacts (λ w. answer_does look.entry v) self.old self.new result }
        ensures still { work_at self.new ≤ work_at self.old }
    {
        match look {
            Look::Has { place: _, key } => {
                if !self.pay(&key, &v) {
                    return Ok(Step::Fail(Why::TooMuchData));
                }
                self.stack.push(Val::Bool(v.is_some()))?;
                Ok(Step::On)
            }
            Look::Get { place: _, key } => {
                if !self.pay(&key, &v) {
                    return Ok(Step::Fail(Why::TooMuchData));
                }
                self.tell(alloc, v)
            }
            Look::Change(change) => {
                if !self.pay(&change.key, &v) {
                    return Ok(Step::Fail(Why::TooMuchData));
                }
                let old = option(alloc, v)?;
                self.change(change, Some(old))
            }
            Look::Balance => match v {
                None => Err(AllocError),
                Some(balance) => self.tell_balance(balance),
            },
            Look::Contract {
                address: _,
                entry: _,
                ty: _,
            } => self.tell(alloc, v),
        }
    }

    fn tell(&mut self, alloc: Global, v: Option<Val>) -> Result<Step<'a>, NoMemory>
        ensures same { Enacts (λ w stack. ends_on (option v ∷ stack)) self.old self.new result }
        ensures still { work_at self.new ≤ work_at self.old }
    {
        let told = option(alloc, v)?;
        self.stack.push(told)?;
        Ok(Step::On)
    }

    fn tell_balance(&mut self, balance: Val) -> Result<Step<'a>, NoMemory>
        ensures same { Enacts (λ w stack. taken 1 (balance ∷ stack)) self.old self.new result }
        ensures still { work_at self.new ≤ work_at self.old }
    {
        if self.left.room == 0 {
            return Ok(Step::Fail(Why::TooMuchData));
        }
        self.left.room -= 1;
        self.stack.push(balance)?;
        Ok(Step::On)
    }

    /// Takes the room of a key and of what may stand there, where there is as much.
    fn pay(&mut self, key: &Val, v: &Option<Val>) -> bool
        ensures { MatchBool result
            ((room_of key.now v.now ≤ self.old.left.room)
            × (self.new ≡ record self.old {
              left = less_room self.old.left
                  (room_of key.now v.now);
            }))
            ((self.old.left.room < room_of key.now v.now) × (self.new ≡ self.old)) }
    {
        match room_of(key, v) {
            None => {
                let _room = self.left.room;
                false
            }
            Some(need) => {
                if self.left.room < need {
                    return false;
                }
                self.left.room -= need;
                true
            }
        }
    }
}

/// The room of a key and of what may stand there, unless it is beyond all numbers.
fn room_of(key: &Val, v: &Option<Val>) -> Option<u64>
    ensures { MatchOption result (2 ^ 64 ≤ room_of key.now v.now) (λ n. n ≡ room_of key.now v.now) }
{
    let of_key = size(key).checked_add(1)?;
    match v {
        None => Some(of_key),
        Some(v) => of_key.checked_add(size(v)),
    }
}

fn copy_of(alloc: Global, v: &Option<Val>) -> Result<Option<Val>, NoMemory>
    ensures { IfOk result (λ copy. copy ≡ v.now) }
{
    match v {
        None => Ok(None),
        Some(v) => Ok(Some(v.copy(alloc)?)),
    }
}

/// An option as a value.
fn option(alloc: Global, v: Option<Val>) -> Result<Val, NoMemory>
    ensures { IfOk result (λ told. told ≡ option v) }
{
    match v {
        None => Ok(Val::Nothing),
        Some(v) => some(alloc, v),
    }
}
