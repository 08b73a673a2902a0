//! Values made of operands alone.

ghost use Rattle.std.specs.Prelude.{◌≡◌, ◌∷◌, [], codes, pos};
ghost use Rattle.value_core.specs.declared.val.Val.{Val};
ghost use Rattle.michelson_code.specs.Typing.{called};
ghost use Rattle.michelson_code.specs.declared.why.Why.TheVariants as why;
ghost use Rattle.michelson_machine.specs.Made.{made_by};
ghost use Rattle.michelson_rules.specs.Answers.{Ends, gives, on_any, on_entry, on_none, on_one, sized};
ghost use Rattle.michelson_rules.specs.Plain.{address_of, emitted, part_of};
ghost use Rattle.michelson_machine.specs.Resume.{work_at};
ghost use Rattle.michelson_machine.specs.Steps.{Enacts, Nearer, plainly};

use crate::state::{State, Step};
use michelson_code::Why;
use michelson_data::{DataEnd, DataOp};
use sqlite_items::Items;
use std::alloc::{AllocError, Global};
use value_core::{Emit, Name, NoMemory, Num, Val, is_within_size, left, operation, right, some};

impl<'a> State<'a> {
    /// An operation on data.
    pub fn data(&mut self, alloc: Global, op: DataOp) -> Result<Step<'a>, NoMemory>
        ensures same { Enacts (plainly (made_by op)) self.old self.new result }
        ensures nearer { Nearer 4 self.old self.new result }
    {
        match self.stack.apply(alloc, op) {
            Ok(()) => Ok(Step::On),
            Err(DataEnd::Overflow) => Ok(Step::Fail(Why::Overflow)),
            Err(DataEnd::Shift) => Ok(Step::Fail(Why::Shift)),
            Err(DataEnd::TooLarge) => Ok(Step::Fail(Why::TooLarge)),
            Err(DataEnd::NoMemory) => Err(AllocError),
        }
    }

    /// A value of its own on top.
    pub fn put(&mut self, v: Val) -> Result<Step<'a>, NoMemory>
        ensures same { Enacts (plainly (on_none v)) self.old self.new result }
        ensures nearer { Nearer 4 self.old self.new result }
    {
        self.stack.push(v)?;
        Ok(Step::On)
    }

    /// A value on top, unless it is too large.
    pub fn put_sized(&mut self, v: Val) -> Result<Step<'a>, NoMemory>
        ensures same { Enacts (plainly (λ stack. (sized v, stack))) self.old self.new result }
        ensures nearer { Nearer 1 self.old self.new result }
    {
        if !is_within_size(&v, 4096) {
            return Ok(Step::Fail(Why::TooLarge));
        }
        self.stack.push(v)?;
        Ok(Step::On)
    }

    /// Unit.
    pub fn unit(&mut self) -> Result<Step<'a>, NoMemory>
        ensures same { Enacts (plainly (on_none (Val.Unit))) self.old self.new result }
        ensures nearer { Nearer 4 self.old self.new result }
    {
        self.put(Val::Unit)
    }

    /// None of an option.
    pub fn nothing(&mut self) -> Result<Step<'a>, NoMemory>
        ensures same { Enacts (plainly (on_none (Val.Nothing))) self.old self.new result }
        ensures nearer { Nearer 4 self.old self.new result }
    {
        self.put(Val::Nothing)
    }

    /// The empty list.
    pub fn nil(&mut self, alloc: Global) -> Result<Step<'a>, NoMemory>
        ensures same { Enacts (plainly (on_none (Val.List []))) self.old self.new result }
        ensures nearer { Nearer 4 self.old self.new result }
    {
        self.put(Val::List(Items::new(alloc)))
    }

    /// The empty set.
    pub fn empty_set(&mut self, alloc: Global) -> Result<Step<'a>, NoMemory>
        ensures same { Enacts (plainly (on_none (Val.Set []))) self.old self.new result }
        ensures nearer { Nearer 4 self.old self.new result }
    {
        self.put(Val::Set(Items::new(alloc)))
    }

    /// The empty map.
    pub fn empty_map(&mut self, alloc: Global) -> Result<Step<'a>, NoMemory>
        ensures same { Enacts (plainly (on_none (Val.Map []))) self.old self.new result }
        ensures nearer { Nearer 4 self.old self.new result }
    {
        self.put(Val::Map(Items::new(alloc)))
    }

    /// A copy of a value.
    pub fn push(&mut self, alloc: Global, v: &Val) -> Result<Step<'a>, NoMemory>
        ensures same { Enacts (plainly (on_none (v.now))) self.old self.new result }
        ensures nearer { Nearer 4 self.old self.new result }
    {
        self.put(v.copy(alloc)?)
    }

    /// What came with the call.
    pub fn amount(&mut self) -> Result<Step<'a>, NoMemory>
        ensures same { Enacts (plainly (on_none (Val.Mutez self.old.env.amount))) self.old self.new
            result }
        ensures nearer { Nearer 4 self.old self.new result }
    {
        self.put(Val::Mutez(self.env.amount))
    }

    /// Who called.
    pub fn sender(&mut self) -> Result<Step<'a>, NoMemory>
        ensures same { Enacts (plainly (on_none (Val.Addr self.old.env.sender))) self.old self.new
            result }
        ensures nearer { Nearer 4 self.old self.new result }
    {
        self.put(Val::Addr(self.env.sender))
    }

    /// Who sent the operation.
    pub fn source(&mut self) -> Result<Step<'a>, NoMemory>
        ensures same { Enacts (plainly (on_none (Val.Addr self.old.env.source))) self.old self.new
            result }
        ensures nearer { Nearer 4 self.old self.new result }
    {
        self.put(Val::Addr(self.env.source))
    }

    /// The address of this contract.
    pub fn own_address(&mut self) -> Result<Step<'a>, NoMemory>
        ensures same { Enacts (plainly (on_none (Val.Addr self.old.env.me))) self.old self.new
            result }
        ensures nearer { Nearer 4 self.old self.new result }
    {
        self.put(Val::Addr(self.env.me))
    }

    /// The time of the block.
    pub fn now(&mut self) -> Result<Step<'a>, NoMemory>
        ensures same { Enacts (plainly (on_none (Val.Time (pos self.old.env.now)))) self.old self.new
            result }
        ensures nearer { Nearer 4 self.old self.new result }
    {
        self.put(Val::Time(number(self.env.now)))
    }

    /// The level of the block.
    pub fn level(&mut self) -> Result<Step<'a>, NoMemory>
        ensures same { Enacts (plainly (on_none (Val.Nat (pos self.old.env.level)))) self.old self.new
            result }
        ensures nearer { Nearer 4 self.old self.new result }
    {
        self.put(Val::Nat(number(u64::from(self.env.level))))
    }

    /// An entry of this contract.
    pub fn own_entry(&mut self, entry: &Option<Name>) -> Result<Step<'a>, NoMemory>
        ensures same { Enacts (plainly
            (on_none (Val.Contract self.old.env.me (called entry.now)))) self.old self.new result }
        ensures nearer { Nearer 4 self.old self.new result }
    {
        self.put(Val::Contract(self.env.me, called(entry)))
    }

    /// The top stays.
    pub fn keep(&mut self) -> Result<Step<'a>, NoMemory>
        ensures same { Enacts (plainly (on_any gives)) self.old self.new result }
        ensures nearer { Nearer 4 self.old self.new result }
    {
        match self.stack.pop() {
            None => Err(AllocError),
            Some(top) => self.put(top),
        }
    }

    /// The first part of a pair.
    pub fn car(&mut self) -> Result<Step<'a>, NoMemory>
        ensures same { Enacts (plainly (on_one (part_of (λ x y. x)))) self.old self.new result }
        ensures nearer { Nearer 4 self.old self.new result }
    {
        match self.stack.pop() {
            None => Err(AllocError),
            Some(top) => match top.into_pair() {
                Err(_) => Err(AllocError),
                Ok((first, _)) => self.put(first),
            },
        }
    }

    /// The second part of a pair.
    pub fn cdr(&mut self) -> Result<Step<'a>, NoMemory>
        ensures same { Enacts (plainly (on_one (part_of (λ x y. y)))) self.old self.new result }
        ensures nearer { Nearer 4 self.old self.new result }
    {
        match self.stack.pop() {
            None => Err(AllocError),
            Some(top) => match top.into_pair() {
                Err(_) => Err(AllocError),
                Ok((_, second)) => self.put(second),
            },
        }
    }

    /// An option of the top.
    pub fn some(&mut self, alloc: Global) -> Result<Step<'a>, NoMemory>
        ensures same { Enacts (plainly (on_any (λ v. gives (Val.Some v)))) self.old self.new result }
        ensures nearer { Nearer 4 self.old self.new result }
    {
        match self.stack.pop() {
            None => Err(AllocError),
            Some(top) => self.put(some(alloc, top)?),
        }
    }

    /// The left of an `or`.
    pub fn left(&mut self, alloc: Global) -> Result<Step<'a>, NoMemory>
        ensures same { Enacts (plainly (on_any (λ v. gives (Val.Left v)))) self.old self.new result }
        ensures nearer { Nearer 4 self.old self.new result }
    {
        match self.stack.pop() {
            None => Err(AllocError),
            Some(top) => self.put(left(alloc, top)?),
        }
    }

    /// The right of an `or`.
    pub fn right(&mut self, alloc: Global) -> Result<Step<'a>, NoMemory>
        ensures same { Enacts (plainly (on_any (λ v. gives (Val.Right v)))) self.old self.new
            result }
        ensures nearer { Nearer 4 self.old self.new result }
    {
        match self.stack.pop() {
            None => Err(AllocError),
            Some(top) => self.put(right(alloc, top)?),
        }
    }

    /// The run ends with the top as its cause.
    pub fn fail(&mut self) -> Result<Step<'a>, NoMemory>
        ensures same { Enacts (plainly (on_any (λ v. Ends (why.Raised v)))) self.old self.new
            result }
        ensures nearer { Nearer 4 self.old self.new result }
    {
        match self.stack.pop() {
            None => Err(AllocError),
            Some(top) => Ok(Step::Fail(Why::Raised(top))),
        }
    }

    /// The address of an entry.
    pub fn address(&mut self) -> Result<Step<'a>, NoMemory>
        ensures same { Enacts (plainly (on_one address_of)) self.old self.new result }
        ensures nearer { Nearer 4 self.old self.new result }
    {
        match self.stack.pop() {
            None => Err(AllocError),
            Some(top) => match &top {
                Val::Contract(address, _) => self.put(Val::Addr(*address)),
                _ => Err(AllocError),
            },
        }
    }

    /// A call of an entry, as an operation.
    pub fn transfer(&mut self, alloc: Global) -> Result<Step<'a>, NoMemory>
        ensures same { Enacts (plainly (on_entry emitted)) self.old self.new result }
        ensures nearer { Nearer 4 self.old self.new result }
    {
        match (self.stack.pop(), self.stack.pop(), self.stack.pop()) {
            (Some(param), Some(sum), Some(to)) => self.emit(alloc, param, &sum, &to),
            _ => Err(AllocError),
        }
    }

    fn emit(&mut self, alloc: Global, param: Val, sum: &Val, to: &Val) -> Result<Step<'a>, NoMemory>
        ensures same { Enacts (plainly (λ stack. on_entry emitted
            (param ∷ sum.now ∷ to.now ∷ stack))) self.old self.new result }
        ensures nearer { Nearer 4 self.old self.new result }
    {
        match (sum, to) {
            (Val::Mutez(amount), Val::Contract(dest, entry)) => {
                let emit = Emit {
                    dest: *dest,
                    entry: *entry,
                    param,
                    amount: *amount,
                };
                self.put_sized(operation(alloc, emit)?)
            }
            _ => Err(AllocError),
        }
    }
}

/// A number as the values have it.
fn number(n: u64) -> Num
    ensures { result ≡ pos n }
{
    match Num::new(i128::from(n)) {
        Some(number) => number,
        None => unreachable!(),
    }
}

/// The name, or `default`.
pub fn called(name: &Option<Name>) -> Name
    ensures { result ≡ called name.now }
{
    match name {
        Some(name) => *name,
        None => match Name::new(b"default") {
            Some(name) => name,
            None => unreachable!(),
        },
    }
}
