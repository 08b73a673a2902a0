//! One step: what is next is taken from the frames, paid for and done.

ghost use Rattle.std.specs.Prelude.{◌≢◌, IfOk};
ghost use Rattle.michelson_machine.specs.declared.state.Step.TheVariants as what;
ghost use Rattle.michelson_code.specs.Typing.{called};
ghost use Rattle.michelson_rules.specs.Rules.{charges, contract, rule, rules};
ghost use Rattle.michelson_rules.specs.Bodies.{on_top};
ghost use Rattle.michelson_machine.specs.Steps.{Enacts, Resumes, Nearer, acted, follows, runs};

use crate::frame::{Frame, While};
use crate::look::Look;
use crate::state::{State, Step};
use crate::values::called;
use michelson_code::{Instr, Why, cost};
use michelson_data::DataOp;
use std::alloc::{AllocError, Global};
use value_core::{Name, NoMemory, Ty, Val};

impl<'a> State<'a> {
    /// Steps to the next question, or to the end.
    pub fn run(&mut self, alloc: Global) -> Result<Step<'a>, NoMemory>
        ensures stops { IfOk result (λ step. step ≢ what.On) }
        ensures same { Resumes self.old self.new result }
        ensures nearer { Nearer 0 self.old self.new result }
    {
        'steps: loop {
            match self.step(alloc)? {
                Step::On => {}
                step => return Ok(step),
            }
        }
    }

    /// The next step.
    pub fn step(&mut self, alloc: Global) -> Result<Step<'a>, NoMemory>
        ensures same { Resumes self.old self.new result }
        ensures nearer { Nearer 0 self.old self.new result }
    {
        match self.frames.pop() {
            None => Ok(Step::Return),
            Some(frame) => self.follow(alloc, frame),
        }
    }

    /// What a frame does.
    fn follow(&mut self, alloc: Global, frame: Frame<'a>) -> Result<Step<'a>, NoMemory>
        ensures same { Enacts (λ w. follows self.old w frame.entry) self.old self.new result }
        ensures nearer { Nearer 1 self.old self.new result }
    {
        match frame {
            Frame::Rest(code) => self.rest(alloc, code),
            Frame::Under(item) => {
                self.stack.push(item)?;
                Ok(Step::On)
            }
            Frame::UnderAll(items) => {
                self.stack.put_back(items)?;
                Ok(Step::On)
            }
            Frame::Again(kind, body) => self.again(kind, body),
            Frame::Each(body, items) => self.each(body, items),
            Frame::Mapping(mapping) => self.map_on(alloc, mapping),
        }
    }

    /// The rest of a code.
    fn rest(&mut self, alloc: Global, code: &'a [Instr]) -> Result<Step<'a>, NoMemory>
        ensures same { Enacts (λ w. runs self.old w code.now) self.old self.new result }
        ensures nearer { Nearer 1 self.old self.new result }
    {
        match code.split_first() {
            None => Ok(Step::On),
            Some((first, others)) => {
                self.frames.push(Frame::Rest(others))?;
                self.pay_for(alloc, first)
            }
        }
    }

    /// The cost of an instruction comes before it.
    fn pay_for(&mut self, alloc: Global, instr: &'a Instr) -> Result<Step<'a>, NoMemory>
        ensures same { Enacts (λ w. rule charges self.old.script.now self.old.env w instr.now)
            self.old self.new result }
        ensures nearer { Nearer 0 self.old self.new result }
    {
        let cost = cost(instr);
        if self.left.gas < cost {
            return Ok(Step::Fail(Why::OutOfGas));
        }
        self.left.gas -= cost;
        self.act(alloc, instr)
    }

    /// An instruction that is paid for.
    fn act(&mut self, alloc: Global, instr: &'a Instr) -> Result<Step<'a>, NoMemory>
        ensures same { Enacts (λ w. acted self.old w instr.now) self.old self.new result }
        ensures nearer { Nearer 4 self.old self.new result }
    {
        match instr {
            Instr::Drop => self.drop_top(1),
            Instr::DropN(n) => self.drop_top(*n),
            Instr::Dup => self.dup(alloc, 1),
            Instr::DupN(n) => self.dup(alloc, *n),
            Instr::Swap => self.dig(1),
            Instr::Dig(n) => self.dig(*n),
            Instr::Dug(n) => self.dug(*n),
            Instr::Unit => self.unit(),
            Instr::Pair => self.data(alloc, DataOp::Pair),
            Instr::PairN(n) => self.data(alloc, DataOp::PairN(*n)),
            Instr::Unpair => self.data(alloc, DataOp::Unpair),
            Instr::UnpairN(n) => self.data(alloc, DataOp::UnpairN(*n)),
            Instr::Car => self.car(),
            Instr::Cdr => self.cdr(),
            Instr::Some => self.some(alloc),
            Instr::None(_) => self.nothing(),
            Instr::Left(_) => self.left(alloc),
            Instr::Right(_) => self.right(alloc),
            Instr::Nil(_) => self.nil(alloc),
            Instr::Cons => self.data(alloc, DataOp::Cons),
            Instr::Cast(_) => self.keep(),
            Instr::Rename => self.keep(),
            Instr::Push(_, v) => self.push(alloc, v),
            Instr::Dip(c) => self.dip(c.as_slice()),
            Instr::DipN(n, c) => self.dip_all(alloc, *n, c.as_slice()),
            Instr::If(c, d) => self.branch(c.as_slice(), d.as_slice()),
            Instr::IfNone(c, d) => self.if_none(c.as_slice(), d.as_slice()),
            Instr::IfLeft(c, d) => self.if_left(c.as_slice(), d.as_slice()),
            Instr::IfCons(c, d) => self.if_cons(c.as_slice(), d.as_slice()),
            Instr::Loop(c) => self.begin_loop(While::True, c.as_slice()),
            Instr::LoopLeft(c) => self.begin_loop(While::Left, c.as_slice()),
            Instr::Iter(c) => self.iter(alloc, c.as_slice()),
            Instr::Map(c) => self.map(alloc, c.as_slice()),
            Instr::EmptySet(_) => self.empty_set(alloc),
            Instr::EmptyMap(_, _) => self.empty_map(alloc),
            Instr::Failwith => self.fail(),
            Instr::Add => self.data(alloc, DataOp::Add),
            Instr::Sub => self.data(alloc, DataOp::Sub),
            Instr::SubMutez => self.data(alloc, DataOp::SubMutez),
            Instr::Neg => self.data(alloc, DataOp::Neg),
            Instr::Abs => self.data(alloc, DataOp::Abs),
            Instr::IsNat => self.data(alloc, DataOp::IsNat),
            Instr::Int => self.data(alloc, DataOp::Int),
            Instr::Lsl => self.data(alloc, DataOp::Lsl),
            Instr::Lsr => self.data(alloc, DataOp::Lsr),
            Instr::And => self.data(alloc, DataOp::And),
            Instr::Or => self.data(alloc, DataOp::Or),
            Instr::Xor => self.data(alloc, DataOp::Xor),
            Instr::Not => self.data(alloc, DataOp::Not),
            Instr::Eq => self.data(alloc, DataOp::Eq),
            Instr::Neq => self.data(alloc, DataOp::Neq),
            Instr::Lt => self.data(alloc, DataOp::Lt),
            Instr::Gt => self.data(alloc, DataOp::Gt),
            Instr::Le => self.data(alloc, DataOp::Le),
            Instr::Ge => self.data(alloc, DataOp::Ge),
            Instr::Size => self.data(alloc, DataOp::Size),
            Instr::Amount => self.amount(),
            Instr::Sender => self.sender(),
            Instr::Source => self.source(),
            Instr::SelfAddress => self.own_address(),
            Instr::Now => self.now(),
            Instr::Level => self.level(),
            Instr::SelfEntry(e) => self.own_entry(e),
            Instr::Address => self.address(),
            Instr::Compare => self.data(alloc, DataOp::Compare),
            Instr::Mul => self.data(alloc, DataOp::Mul),
            Instr::Ediv => self.data(alloc, DataOp::Ediv),
            Instr::Concat => self.data(alloc, DataOp::Concat),
            Instr::Mem => self.has(alloc),
            Instr::Get => self.get(alloc),
            Instr::Update => self.update(alloc),
            Instr::GetAndUpdate => self.get_and_update(alloc),
            Instr::Sha256 => self.data(alloc, DataOp::Sha256),
            Instr::Balance => Ok(Step::Ask(Look::Balance)),
            Instr::Contract(e, t) => self.contract(e, t),
            Instr::TransferTokens => self.transfer(alloc),
        }
    }

    /// `CONTRACT`.
    fn contract(&mut self, entry: &Option<Name>, ty: &'a Ty) -> Result<Step<'a>, NoMemory>
        ensures same { Enacts (λ w. on_top (contract w (called entry.now) ty.now)) self.old
            self.new result }
        ensures nearer { Nearer 4 self.old self.new result }
    {
        match self.stack.pop() {
            None => Err(AllocError),
            Some(top) => match &top {
                Val::Addr(address) => Ok(Step::Ask(Look::Contract {
                    address: *address,
                    entry: called(entry),
                    ty,
                })),
                _ => Err(AllocError),
            },
        }
    }
}
