//! What is true of the definitions.
ghost use Rattle.block_cli.specs.Numbers.{NumbersAreDecimals, NumbersHaveOneSpelling};
ghost use Rattle.block_cli.specs.Meaning.{AnswersWriteAllOrNothing, ContentsHaveAnAnswer};
ghost use Rattle.block_cli.specs.Checking.{HaveAFinding, HaveOneFinding};
ghost use Rattle.block_cli.specs.Verdict.{AcceptedBlocksLeaveLedgers, AcceptedBytesAreTrueBlocks, HaveAVerdict, HaveOneVerdict};

use michelson_code::{
    a_script_has_one_fault, a_script_is_typed_or_has_a_fault, a_typed_script_has_no_fault,
};
use michelson_reader::{a_text_spells_one_script, bytes_are_a_script_or_have_one_fault};
use plain_ledger::ledgers_have_one_spelling;
use plain_transfers::supply_is_kept;
use transfer_blocks::blocks_have_one_spelling;

/// A number is spelt as a word in one way: `0`, or digits of which the first isn't 0.
pub fn numbers_have_one_spelling()
    ensures one { NumbersHaveOneSpelling }
    ensures decimal { NumbersAreDecimals }
{}

/// An answer writes each file of its command, or none.
pub fn answers_write_all_or_nothing()
    ensures { AnswersWriteAllOrNothing }
{}

/// A state and bytes have one verdict.
pub fn verdict_is_one()
    ensures { HaveOneVerdict }
{}

/// A state and bytes have a verdict.
pub fn verdict_is_there()
    ensures { HaveAVerdict }
{
    blocks_have_one_spelling();
}

/// Any bytes are found to be a script that may run, one that isn't typed, or none, and in one way.
pub fn texts_have_one_finding()
    ensures there { HaveAFinding }
    ensures one { HaveOneFinding }
{
    bytes_are_a_script_or_have_one_fault();
    a_text_spells_one_script();
    a_script_is_typed_or_has_a_fault();
    a_typed_script_has_no_fault();
    a_script_has_one_fault();
}

/// Every command has an answer to the contents of all its files.
pub fn contents_have_an_answer()
    ensures { ContentsHaveAnAnswer }
{
    blocks_have_one_spelling();
    texts_have_one_finding();
}

/// Bytes are accepted exactly where they spell a block that is published as it is run.
pub fn accepted_bytes_are_true_blocks()
    ensures { AcceptedBytesAreTrueBlocks }
{
    blocks_have_one_spelling();
}

/// An accepted block leaves a ledger with the old supply, which is read again from its file.
pub fn accepted_blocks_leave_ledgers()
    ensures { AcceptedBlocksLeaveLedgers }
{
    blocks_have_one_spelling();
    ledgers_have_one_spelling();
    supply_is_kept();
}
