//! Bytes to programs.

ghost use Rattle.std.specs.Prelude.{IfErr, IfOk, Ok};
ghost use Rattle.micheline_text.specs.Told.{AnswersUnlessFull};
ghost use Rattle.ligo_syntax.specs.declared.program.Program.{Program};
ghost use Rattle.ligo_syntax.specs.Faults.{IsTextOf};
ghost use Rattle.ligo_syntax.specs.Verdict.{verdict, told_fault, IsRefusalOf};

use crate::fault::SyntaxRefusal;
use crate::program::Program;
use crate::program_reader::read_text;
use ligo_tokens::bytes_are_laid_out_in_one_way;
use std::alloc::Global;

/// The program that bytes write.
pub fn parse(alloc: Global, b: &[u8]) -> Result<Program, SyntaxRefusal>
    // What is read is a text of the grammar, and its tree.
    ensures found { IfOk result (λ p. IsTextOf b.now p) }
    // What is a text of the grammar is read, unless memory runs out.
    ensures only { (p : Program) →
        IsTextOf b.now p → AnswersUnlessFull told_fault (λ x. x) result (Ok p) }
    // A fault is at the first token with which no text goes on, or with which none fits; and of its kind
    // something can stand there.
    ensures fault { IfErr result (λ e. IsRefusalOf b.now e) }
    // Which of the kinds that can is told.
    ensures verdict { AnswersUnlessFull told_fault (λ x. x) result (verdict b.now) }
{
    // Offsets are told in four bytes.
    if b.len() > 0xffff_ffff {
        return Err(SyntaxRefusal::NoMemory);
    }
    bytes_are_laid_out_in_one_way();
    read_text(alloc, b)
}
