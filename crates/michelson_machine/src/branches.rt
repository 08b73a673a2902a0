//! Branches, and bodies below items.

ghost use Rattle.michelson_rules.specs.Rules.{charges, rules};
ghost use Rattle.michelson_rules.specs.Bodies.{below, by_bool, by_first, by_none, by_side, on_top};
ghost use Rattle.michelson_machine.specs.Steps.{Enacts, Nearer, runs};

use crate::frame::Frame;
use crate::items::split_first;
use crate::state::{State, Step};
use michelson_code::Instr;
use std::alloc::{AllocError, Global};
use value_core::{NoMemory, Val};

impl<'a> State<'a> {
    /// Begins a code.
    pub fn enter(&mut self, code: &'a [Instr]) -> Result<Step<'a>, NoMemory>
        ensures same { Enacts (λ w. runs self.old w code.now) self.old self.new result }
        ensures nearer { Nearer 4 self.old self.new result }
    {
        self.frames.push(Frame::Rest(code))?;
        Ok(Step::On)
    }

    /// Begins a code below the item on top.
    pub fn dip(&mut self, code: &'a [Instr]) -> Result<Step<'a>, NoMemory>
        ensures same { Enacts (λ w. below 1 (runs self.old w code.now)) self.old self.new result }
        ensures nearer { Nearer 4 self.old self.new result }
    {
        match self.stack.pop() {
            None => Err(AllocError),
            Some(x) => {
                self.frames.push(Frame::Under(x))?;
                self.frames.push(Frame::Rest(code))?;
                Ok(Step::On)
            }
        }
    }

    /// Begins a code below so many items.
    pub fn dip_all(
        &mut self,
        alloc: Global,
        count: u32,
        code: &'a [Instr],
    ) -> Result<Step<'a>, NoMemory>
        ensures same { Enacts (λ w. below count (runs self.old w code.now)) self.old self.new
            result }
        ensures nearer { Nearer 4 self.old self.new result }
    {
        match self.stack.set_aside(alloc, count)? {
            None => Err(AllocError),
            Some(aside) => {
                self.frames.push(Frame::UnderAll(aside))?;
                self.frames.push(Frame::Rest(code))?;
                Ok(Step::On)
            }
        }
    }

    /// The first code where the top is true, else the second.
    pub fn branch(&mut self, yes: &'a [Instr], no: &'a [Instr]) -> Result<Step<'a>, NoMemory>
        ensures same { Enacts (λ w. on_top (by_bool (runs self.old w yes.now)
            (runs self.old w no.now))) self.old self.new result }
        ensures nearer { Nearer 4 self.old self.new result }
    {
        match self.stack.pop() {
            None => Err(AllocError),
            Some(top) => match &top {
                Val::Bool(true) => self.enter(yes),
                Val::Bool(false) => self.enter(no),
                _ => Err(AllocError),
            },
        }
    }

    /// The first code where the top is none, else the second on its value.
    pub fn if_none(&mut self, none: &'a [Instr], some: &'a [Instr]) -> Result<Step<'a>, NoMemory>
        ensures same { Enacts (λ w. on_top (by_none (runs self.old w none.now)
            (runs self.old w some.now))) self.old self.new result }
        ensures nearer { Nearer 4 self.old self.new result }
    {
        match self.stack.pop() {
            None => Err(AllocError),
            Some(top) => match &top {
                Val::Nothing => self.enter(none),
                Val::Some(_) => {
                    self.stack.push_part(top)?;
                    self.enter(some)
                }
                _ => Err(AllocError),
            },
        }
    }

    /// The first code on what is left, the second on what is right.
    pub fn if_left(&mut self, left: &'a [Instr], right: &'a [Instr]) -> Result<Step<'a>, NoMemory>
        ensures same { Enacts (λ w. on_top (by_side (runs self.old w left.now)
            (runs self.old w right.now))) self.old self.new result }
        ensures nearer { Nearer 4 self.old self.new result }
    {
        match self.stack.pop() {
            None => Err(AllocError),
            Some(top) => match &top {
                Val::Left(_) => {
                    self.stack.push_part(top)?;
                    self.enter(left)
                }
                Val::Right(_) => {
                    self.stack.push_part(top)?;
                    self.enter(right)
                }
                _ => Err(AllocError),
            },
        }
    }

    /// The first code on an item and the rest of a list, the second where it is empty.
    pub fn if_cons(&mut self, cons: &'a [Instr], nil: &'a [Instr]) -> Result<Step<'a>, NoMemory>
        ensures same { Enacts (λ w. on_top (by_first (runs self.old w cons.now)
            (runs self.old w nil.now))) self.old self.new result }
        ensures nearer { Nearer 4 self.old self.new result }
    {
        match self.stack.pop() {
            None => Err(AllocError),
            Some(top) => match top.into_list() {
                Err(_) => Err(AllocError),
                Ok(items) => match split_first(items) {
                    None => self.enter(nil),
                    Some((item, rest)) => {
                        self.stack.push(Val::List(rest))?;
                        self.stack.push(item)?;
                        self.enter(cons)
                    }
                },
            },
        }
    }
}
