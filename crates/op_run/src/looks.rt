//! How a code that runs looks at the ledger.

ghost use Rattle.std.specs.Prelude.{◌≡◌, ◌<◌, ◌≤◌, ◌+◌, ◌*◌, Some, None, OnOk, OnErr, IfOk, IsSome, if◌then◌else◌};
ghost use Rattle.michelson_rules.specs.declared.ask.Ask.{Ask};
ghost use Rattle.michelson_machine.specs.Outcomes as machines;
ghost use Rattle.michelson_machine.specs.Outcomes.{awaits};
ghost use Rattle.code_book.specs.Entries.{entry_of};
ghost use Rattle.op_rules.specs.CodeRule.{access_for};
ghost use Rattle.op_rules.specs.Replies.{flight_of};
ghost use Rattle.op_rules.specs.Worlds.{is_of_type};
ghost use Rattle.op_run.specs.Sound.{Looks, Runs, Sound};
ghost use Rattle.op_run.specs.States.{Stays};
ghost use Rattle.op_run.specs.Codes.{IsTold, LooksOn, LooksSafe};
ghost use Rattle.op_run.specs.Steps.{begun, transfer_work, work};

use crate::phase::{Code, Phase, Then};
use crate::state::State;
use cell_names::{Access, Cell};
use code_book::Book;
use michelson_machine::Ask;
use std::alloc::Global;
use value_core::{Address, Name, NoMemory, Ty, Val};

/// Whether the entry stands at the address with the type, as a contract value.
fn standing(book: &Book, address: Address, entry: Name, ty: &Ty) -> Option<Val>
    ensures { result ≡ (if is_of_type ty.now (entry_of book.now address entry)
        then Some (Val.Contract address entry) else None) }
{
    match book.entry(&address, &entry) {
        Ok(found) => {
            if found.same(ty) {
                Some(Val::Contract(address, entry))
            } else {
                None
            }
        }
        Err(_) => None,
    }
}

/// The answer is told to a code that asked.
pub(crate) fn told<'a>(
    alloc: Global,
    code: Code<'a>,
    answer: Option<Val>,
) -> Result<Code<'a>, NoMemory>
    requires { IsSome (awaits code.machine) }
    ensures { IfOk result (λ after. IsTold code.entry answer after) }
{
    let mut code = code;
    code.machine.reply(alloc, answer)?;
    Ok(code)
}

impl<'a> State<'a> {
    /// A code looks at a cell; whether an entry stands is told at once.
    pub(crate) fn look(&mut self, alloc: Global, code: Code<'a>, ask: Ask) -> Result<(), NoMemory>
        requires runs { Runs self.old.book.now code (Some ask) }
        requires flight { flight_of self.old.log ≡ 0 }
        ensures stays { OnOk result (Stays self.old self.new) }
        ensures sound { OnOk result (Sound self.new) }
        ensures same { OnOk result (LooksOn self.old code.entry ask self.new) }
        ensures safe { OnOk result (LooksSafe self.old code.entry ask self.new) }
        ensures less { OnOk result (work self.new ≤ transfer_work * self.old.calls
            + (begun + 2 * machines.work code.entry.machine)) }
        ensures spent { OnErr result (self.new.phase ≡ self.old.phase) }
    {
        match ask {
            Ask::Contract { address, entry, ty } => self.tell(alloc, code, address, entry, ty),
            Ask::Balance => {
                let cell = Cell::Balance(code.dest);
                self.read(code, cell);
                Ok(())
            }
            Ask::Entry { place, key } => {
                let cell = Cell::Entry(code.dest, place, key);
                self.read(code, cell);
                Ok(())
            }
        }
    }

    /// A code is told whether an entry stands.
    fn tell(
        &mut self,
        alloc: Global,
        code: Code<'a>,
        address: Address,
        entry: Name,
        ty: Ty,
    ) -> Result<(), NoMemory>
        requires runs { Runs self.old.book.now code (Some (Ask.Contract address entry ty)) }
        requires flight { flight_of self.old.log ≡ 0 }
        ensures stays { OnOk result (Stays self.old self.new) }
        ensures sound { OnOk result (Sound self.new) }
        ensures same { OnOk result
            (LooksOn self.old code.entry (Ask.Contract address entry ty) self.new) }
        ensures safe { OnOk result
            (LooksSafe self.old code.entry (Ask.Contract address entry ty) self.new) }
        ensures less { OnOk result (work self.new ≤ transfer_work * self.old.calls
            + (begun + 2 * machines.work code.entry.machine)) }
        ensures spent { OnErr result (self.new.phase ≡ self.old.phase) }
    {
        let answer = standing(self.book, address, entry, &ty);
        let code = told(alloc, code, answer)?;
        self.go_on(Phase::Running(code));
        Ok(())
    }

    /// A code waits for what a cell has.
    fn read(&mut self, code: Code<'a>, cell: Cell)
        requires looks { Looks self.old.book.now code (Access.Read cell) }
        requires flight { flight_of self.old.log ≡ 0 }
        ensures stays { Stays self.old self.new }
        ensures sound { Sound self.new }
        ensures same { (ask : Ask) → access_for code.entry.dest ask ≡ Some (Access.Read cell)
            → LooksOn self.old code.entry ask self.new }
        ensures safe { (ask : Ask) → access_for code.entry.dest ask ≡ Some (Access.Read cell)
            → LooksSafe self.old code.entry ask self.new }
        ensures less { work self.new ≤ transfer_work * self.old.calls
            + (begun + 2 * machines.work code.entry.machine) }
    {
        self.left = code.machine.left();
        self.ask(Access::Read(cell), Then::Looked(code));
    }
}
