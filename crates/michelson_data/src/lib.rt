//! Instructions on data, each by its line of the table.
//!
//! An instruction takes its operands from the top of a stack, whose top is its last item, and puts
//! its results there. What it makes of them is said by the rules of running: a line for each kind
//! of operands. A number that leaves the range of its type, a shift by more than 256 and a result
//! of more than 4,096 leaves end it; then the operands are gone, and what stood below them stays.
//! Want of memory leaves the stack as it was.
//!
//! - `laws`: what is true of quotients and remainders.
//! - `op`, `fault`: the instructions, and how one ends. Begin here.
//! - `dispatch`: `apply`, by what an instruction takes; `operands` says what that is.
//! - `stack`: instructions that make one value of one or two operands, a line for each.
//! - `ranges`: numbers and amounts in their ranges; `numbers`, `quotients`, `bits`, `against_zero`:
//!   what is made of them.
//! - `rows`: strings, bytes and lengths; `pairs`; `keys`, `changes`: lists, sets and maps.
//!
//! Scalars are made without memory. Nothing here knows types: where the table has no line for the
//! operands, which no typed code meets, the answer is want of memory.
#![tactic(auto)]

mod against_zero;
mod bits;
mod changes;
mod dispatch;
mod fault;
mod keys;
mod laws;
mod numbers;
mod op;
mod operands;
mod pairs;
mod quotients;
mod ranges;
mod rows;
mod stack;
#[cfg(test)]
mod tests;

pub use dispatch::apply;
pub use fault::DataEnd;
pub use laws::quotient_and_remainder_make_up_the_number;
pub use op::DataOp;
