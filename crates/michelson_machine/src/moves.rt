//! Items of the stack moved, copied and taken away.

ghost use Rattle.michelson_rules.specs.Plain.{copied_from, dropped, dug_in, dug_out};
ghost use Rattle.michelson_machine.specs.Steps.{Enacts, Nearer, plainly};

use crate::state::{State, Step};
use std::alloc::{AllocError, Global};
use value_core::NoMemory;

impl<'a> State<'a> {
    /// Takes so many items away.
    pub fn drop_top(&mut self, count: u32) -> Result<Step<'a>, NoMemory>
        ensures same { Enacts (plainly (dropped count)) self.old self.new result }
        ensures nearer { Nearer 4 self.old self.new result }
    {
        if self.stack.len() < count as usize {
            return Err(AllocError);
        }
        self.stack.drop_top(count as usize);
        Ok(Step::On)
    }

    /// Copies the item of that number, counted from 1.
    pub fn dup(&mut self, alloc: Global, number: u32) -> Result<Step<'a>, NoMemory>
        ensures same { Enacts (plainly (copied_from number)) self.old self.new result }
        ensures nearer { Nearer 4 self.old self.new result }
    {
        if number == 0 {
            return Err(AllocError);
        }
        match self.stack.peek(number as usize - 1) {
            None => Err(AllocError),
            Some(item) => {
                let copy = item.copy(alloc)?;
                self.stack.push(copy)?;
                Ok(Step::On)
            }
        }
    }

    /// Brings the item below so many others to the top.
    pub fn dig(&mut self, depth: u32) -> Result<Step<'a>, NoMemory>
        ensures same { Enacts (plainly (dug_out depth)) self.old self.new result }
        ensures nearer { Nearer 4 self.old self.new result }
    {
        if self.stack.len() <= depth as usize {
            return Err(AllocError);
        }
        let item = self.stack.dig(depth as usize);
        self.stack.push(item)?;
        Ok(Step::On)
    }

    /// Puts the top item below so many others.
    pub fn dug(&mut self, depth: u32) -> Result<Step<'a>, NoMemory>
        ensures same { Enacts (plainly (dug_in depth)) self.old self.new result }
        ensures nearer { Nearer 4 self.old self.new result }
    {
        match self.stack.pop() {
            None => Err(AllocError),
            Some(item) => {
                if self.stack.len() < depth as usize {
                    return Err(AllocError);
                }
                self.stack.dug(depth as usize, item)?;
                Ok(Step::On)
            }
        }
    }
}
