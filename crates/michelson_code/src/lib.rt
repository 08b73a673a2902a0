//! Instructions, scripts and the ends of runs, as data.
//!
//! An instruction has one variant of `Instr` for each form in which it is written: `DROP` and
//! `DROP n` are two forms, and so are `DIP c` and `DIP n c`. There are 71 instructions and 76
//! forms. A code is a list of instructions, and a body or a branch is a code inside one of them.
//! Contracts see all of them as plain trees and lists without pointers.
//!
//! - `laws`: what is true of all this, as clauses.
//! - `instr`: the forms, in the order of their table. Begin here.
//! - `table`: the table of forms, a line for each: its word, its cost, whether it takes the name of
//!   an entry, and its operands. `specs/Forms.antt` is the table as a definition.
//! - `weighing`: the sum of all costs of a code, and how many instructions it has.
//! - `copying`, `sameness`: equal instructions, and whether two are equal.
//! - `operands`: the table of operands, a line for each kind of operands that an instruction takes.
//! - `typed`, `type_fault`: scripts that are typed, and why others aren't. `specs/Typing.antt` is typing
//!   as a relation, `specs/FirstFault.antt` the first fault; `typing_laws` says what is true of them.
//! - `script`: a contract's types, the names of its entries, and its code.
//! - `entries`: the part of a parameter at a way through `or` alone.
//! - `printable`: whether a script is read again as it is printed: its numbers, pushed values and
//!   names of entries; `brackets` and `value_brackets`: how deep the brackets of its text go.
//! - `lawfulness`: what stands in a script is what the program can hold.
//! - `why`: the causes for which an operation fails.
//!
//! What is said of all instructions is said once, of a line of the table: a word, the name of an
//! entry and operands determine the instruction. Every public call equals its definition in
//! `specs/`, and only copies take memory. Recursion goes as deep as bodies are nested, and never
//! as far as a code is long.
#![tactic(auto)]

mod brackets;
mod copying;
mod entries;
mod instr;
mod lawfulness;
mod laws;
mod operands;
mod printable;
mod sameness;
mod script;
mod table;
#[cfg(test)]
mod tests;
mod type_fault;
mod typed;
mod typing_laws;
mod value_brackets;
mod weighing;
mod why;

pub use brackets::brackets_within;
pub use copying::copy_code;
pub use entries::type_at;
pub use instr::{Code, Instr};
pub use lawfulness::script_is_lawful;
pub use laws::{
    a_code_weighs_at_most_ten_times_its_count, a_wrapped_param_has_the_type_of_the_whole,
    an_instruction_weighs_and_counts_its_bodies, codes_one_after_another_add_up,
    instructions_that_are_written_alike_are_equal,
};
pub use operands::{Level, Line, Part, Slot, Slots, lines_of};
pub use printable::{are_entries_of, is_count, is_printable, is_pushed};
pub use sameness::same_code;
pub use script::{Script, Side};
pub use table::{Form, Operand, Operands, cost, form_of};
pub use type_fault::TypeKind;
pub use typed::Typed;
pub use typing_laws::{
    a_code_has_one_outcome, a_script_has_one_fault, a_script_is_typed_or_has_a_fault,
    a_typed_instruction_finds_its_operands, a_typed_script_has_no_fault,
    a_typed_script_is_read_again, a_typed_script_is_short, an_instruction_leaves_one_stack,
    operands_are_found_or_not, the_counter_is_typed, what_follows_a_code_begins_where_it_ends,
};
pub use weighing::{count, weight};
pub use why::Why;
