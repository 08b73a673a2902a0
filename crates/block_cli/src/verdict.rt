//! The verdict on a block.
ghost use Rattle.std.specs.Prelude.{◌≡◌, ◌↔◌, IfOk, IsTrue};
ghost use Rattle.transfer_blocks.specs.Block.{IsBlock};
ghost use Rattle.join_schedule.specs.Joins.{AreJoins};
ghost use Rattle.block_cli.specs.Verdict.{IsOrdered, IsVerdict, IsVerdictOn, StandsOn};
ghost use Rattle.block_cli.specs.Judging.{AddsFew, OrdersOr, ConflictOr, verdict_in};

use crate::next::Next;
use crate::refusal::Refusal;
use crate::replay::replay;
use byte_fields::At;
use cell_names::FormatFault;
use join_schedule::{bad_join, first_unordered};
use plain_digest::digest;
use plain_ledger::State;
use std::alloc::{AllocError, Global};
use transfer_blocks::{Block, read_block};

/// What a block is worth on a state.
#[derive(Drop)]
pub enum Verdict {
    /// It is refused.
    Refused(Refusal),
    /// It is true, and this is the next state.
    Accepted(Next),
}

/// Whether a block stands on a state.
fn is_on(alloc: Global, state: &State, block: &Block) -> Result<bool, AllocError>
    ensures { IfOk result (λ b. IsTrue b ↔ StandsOn state.now block.now) }
{
    let digest = digest(alloc, state)?;
    let head = state.head();
    Ok(
        block.parent == digest
            && u64::from(block.head.level) == u64::from(head.level) + 1
            && head.now <= block.head.now,
    )
}

/// The first conflict that the joins leave without an order.
fn conflict_in(alloc: Global, block: &Block) -> Result<Option<Refusal>, AllocError>
    requires lawful { IsBlock block.now }
    requires joins { AreJoins block.now.joins }
    ensures { IfOk result (ConflictOr block.now) }
{
    match first_unordered(alloc, &block.joins, block.footprints.as_slice())? {
        Some((earlier, later, cell)) => Ok(Some(Refusal::Unordered(earlier, later, cell))),
        None => Ok(None),
    }
}

/// Why a block has no place on a state, or its operations no order.
fn disorder(alloc: Global, state: &State, block: &Block) -> Result<Option<Refusal>, AllocError>
    requires { IsBlock block.now }
    ensures { IfOk result (OrdersOr state.now block.now) }
{
    if !is_on(alloc, state, block)? {
        return Ok(Some(Refusal::WrongParent));
    }
    match bad_join(&block.joins) {
        Some(operation) => Ok(Some(Refusal::BadJoin(operation))),
        None => conflict_in(alloc, block),
    }
}

/// The verdict on a block whose operations are ordered.
#[tactic(auto, using(crate::proofs::Sizes::few_more))]
fn verdict_on_run(alloc: Global, state: State, block: &Block) -> Result<Verdict, AllocError>
    requires lawful { IsBlock block.now }
    requires ordered { IsOrdered state block.now }
    ensures verdict { IfOk result (λ v. IsVerdictOn state block.now (verdict_in v)) }
    ensures few { IfOk result (λ v. AddsFew state (verdict_in v)) }
{
    match replay(alloc, state, block)? {
        Err(why) => Ok(Verdict::Refused(why)),
        Ok(after) => {
            let next = Next::new(alloc, after)?;
            if next.digest == block.state {
                Ok(Verdict::Accepted(next))
            } else {
                Ok(Verdict::Refused(Refusal::StateDiffers))
            }
        }
    }
}

/// The verdict on a block.
fn verdict_on(alloc: Global, state: State, block: &Block) -> Result<Verdict, AllocError>
    requires { IsBlock block.now }
    ensures verdict { IfOk result (λ v. IsVerdictOn state block.now (verdict_in v)) }
    ensures few { IfOk result (λ v. AddsFew state (verdict_in v)) }
{
    match disorder(alloc, &state, block)? {
        Some(why) => Ok(Verdict::Refused(why)),
        None => verdict_on_run(alloc, state, block),
    }
}

/// The verdict on the bytes of a block. The state is let go once the next one stands.
pub fn verdict_of(alloc: Global, state: State, bytes: &[u8]) -> Result<Verdict, AllocError>
    ensures verdict { IfOk result (λ v. IsVerdict state bytes.now (verdict_in v)) }
    ensures few { IfOk result (λ v. AddsFew state (verdict_in v)) }
{
    match read_block(alloc, bytes) {
        Err(FormatFault::NoMemory) => Err(AllocError),
        Err(FormatFault::At(At(place))) => Ok(Verdict::Refused(Refusal::Malformed(place))),
        Err(FormatFault::NotYet(place)) => Ok(Verdict::Refused(Refusal::NotYet(place))),
        Ok(block) => verdict_on(alloc, state, &block),
    }
}
