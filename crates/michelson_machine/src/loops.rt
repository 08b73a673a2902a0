//! Loops, and bodies for each item.

ghost use Rattle.std.specs.Prelude.{◌≡◌, ◌∷◌, ◌++◌, []};
ghost use Rattle.michelson_rules.specs.Rules.{iterated, mapped};
ghost use Rattle.michelson_rules.specs.Bodies.{each, looped, on_top};
ghost use Rattle.michelson_machine.specs.Resume.{does, finished, loops_on, mapping, with_top};
ghost use Rattle.michelson_machine.specs.Steps.{Enacts, Nearer, follows, runs, started};

use crate::frame::{Frame, Mapping, While};
use crate::items::{items_of, keys_of, made_of};
use crate::pile::Pile;
use crate::state::{State, Step};
use michelson_code::{Instr, Why};
use michelson_rules::{a_loop_is_its_body_and_itself, both_ways_to_charge_are_fair};
use sqlite_items::Items;
use std::alloc::{AllocError, Global};
use value_core::{NoMemory, Val};

impl<'a> State<'a> {
    /// Begins a loop.
    pub fn begin_loop(&mut self, kind: While, body: &'a [Instr]) -> Result<Step<'a>, NoMemory>
        ensures same { Enacts (λ w. looped (loops_on kind) (runs self.old w body.now)) self.old
            self.new result }
        ensures nearer { Nearer 4 self.old self.new result }
    {
        self.frames.push(Frame::Again(kind, body))?;
        Ok(Step::On)
    }

    /// Begins a body for each item.
    pub fn iter(&mut self, alloc: Global, body: &'a [Instr]) -> Result<Step<'a>, NoMemory>
        ensures same { Enacts (λ w. on_top (iterated (runs self.old w body.now))) self.old
            self.new result }
        ensures nearer { Nearer 4 self.old self.new result }
    {
        match self.stack.pop() {
            None => Err(AllocError),
            Some(top) => {
                let items = items_of(alloc, top)?;
                self.frames.push(Frame::Each(body, items))?;
                Ok(Step::On)
            }
        }
    }

    /// Begins a body that leaves a result for each item.
    pub fn map(&mut self, alloc: Global, body: &'a [Instr]) -> Result<Step<'a>, NoMemory>
        ensures same { Enacts (λ w. on_top (mapped (runs self.old w body.now))) self.old self.new
            result }
        ensures nearer { Nearer 4 self.old self.new result }
    {
        match self.stack.pop() {
            None => Err(AllocError),
            Some(top) => {
                let keys = keys_of(alloc, &top)?;
                let items = items_of(alloc, top)?;
                self.map_rest(alloc, body, items, keys, Items::new(alloc))
            }
        }
    }

    /// A loop at its top.
    pub fn again(&mut self, kind: While, body: &'a [Instr]) -> Result<Step<'a>, NoMemory>
        ensures same { Enacts (λ w. looped (loops_on kind) (runs self.old w body.now)) self.old
            self.new result }
        ensures nearer { Nearer 1 self.old self.new result }
    {
        both_ways_to_charge_are_fair();
        a_loop_is_its_body_and_itself();
        match self.stack.pop() {
            None => Err(AllocError),
            Some(top) => match kind {
                While::True => match &top {
                    Val::Bool(true) => self.turn(Frame::Again(kind, body), body),
                    Val::Bool(false) => Ok(Step::On),
                    _ => Err(AllocError),
                },
                While::Left => match &top {
                    Val::Left(_) => {
                        self.stack.push_part(top)?;
                        self.turn(Frame::Again(kind, body), body)
                    }
                    Val::Right(_) => {
                        self.stack.push_part(top)?;
                        Ok(Step::On)
                    }
                    _ => Err(AllocError),
                },
            },
        }
    }

    /// A body for the next of the items, where there is one.
    pub fn each(&mut self, body: &'a [Instr], mut items: Pile<Val>) -> Result<Step<'a>, NoMemory>
        ensures same { Enacts (λ w. each (runs self.old w body.now) items) self.old self.new result }
        ensures nearer { Nearer 1 self.old self.new result }
    {
        match items.pop() {
            None => Ok(Step::On),
            Some(item) => {
                self.stack.push(item)?;
                self.turn(Frame::Each(body, items), body)
            }
        }
    }

    /// The result of a body is on top; the next items follow.
    pub fn map_on(&mut self, alloc: Global, rest: Mapping<'a>) -> Result<Step<'a>, NoMemory>
        ensures same { Enacts (λ w. with_top (λ y. mapping (runs self.old w rest.entry.body.now)
            rest.entry.keys (rest.entry.done ++ y ∷ []) rest.entry.items)) self.old self.new
            result }
        ensures nearer { Nearer 1 self.old self.new result }
    {
        match self.stack.pop() {
            None => Err(AllocError),
            Some(result_of_body) => {
                let Mapping {
                    body,
                    items,
                    keys,
                    mut done,
                } = rest;
                done.push(result_of_body)?;
                self.map_rest(alloc, body, items, keys, done)
            }
        }
    }

    /// `MAP` on the items that are left, after some results.
    fn map_rest(
        &mut self,
        alloc: Global,
        body: &'a [Instr],
        mut items: Pile<Val>,
        keys: Option<Items<Val>>,
        done: Items<Val>,
    ) -> Result<Step<'a>, NoMemory>
        ensures same { Enacts (λ w. mapping (runs self.old w body.now) keys done items) self.old
            self.new result }
        ensures nearer { Nearer 1 self.old self.new result }
    {
        match items.pop() {
            None => {
                let made = made_of(alloc, keys, done)?;
                self.put_sized(made)
            }
            Some(item) => {
                self.stack.push(item)?;
                let rest = Mapping {
                    body,
                    items,
                    keys,
                    done,
                };
                self.turn(Frame::Mapping(rest), body)
            }
        }
    }

    /// Starts a body for a turn, with a frame to follow.
    fn turn(&mut self, then: Frame<'a>, body: &'a [Instr]) -> Result<Step<'a>, NoMemory>
        ensures same { Enacts (λ w. started (runs self.old w body.now)
            (follows self.old w then.entry))
            self.old self.new result }
        ensures nearer { Nearer 1 self.old self.new result }
    {
        if self.left.turns == 0 {
            return Ok(Step::Fail(Why::OutOfTurns));
        }
        self.left.turns -= 1;
        self.frames.push(then)?;
        self.frames.push(Frame::Rest(body))?;
        Ok(Step::On)
    }
}
