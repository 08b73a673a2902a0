//! Running the operations of a block again, against what it publishes of them.
ghost use Rattle.std.specs.Prelude.{◌≡◌, ◌↔◌, IfOk, IsTrue};
ghost use Rattle.transfer_blocks.specs.Block.{IsBlock};
ghost use Rattle.block_cli.specs.Judging.{Replays};

use crate::refusal::Refusal;
use cell_names::Footprint;
use plain_ledger::State;
use plain_transfers::Overlay;
use std::alloc::{AllocError, Global};
use transfer_blocks::{Block, Receipt};

/// Whether an operation touched what is published.
fn same_footprint(touched: &Footprint, published: &Footprint) -> bool
    ensures { IsTrue result ↔ (touched.now ≡ published.now) }
{
    touched.same(published)
}

/// Whether an operation ended as is published.
fn same_receipt(ended: Receipt, published: Receipt) -> bool
    ensures { IsTrue result ↔ (ended ≡ published) }
{
    ended == published
}

/// The state after the operations of a block, or the first of which something else is published
/// than it leaves. The state that the block stands on is let go.
pub fn replay(
    alloc: Global,
    state: State,
    block: &Block,
) -> Result<Result<State, Refusal>, AllocError>
    requires { IsBlock block.now }
    ensures { IfOk result (Replays state block.now) }
{
    let mut balances = Overlay::new(alloc, &state);
    for i in 0..block.ops.len() {
        let (receipt, footprint) = balances.run(alloc, &block.ops[i])?;
        if !same_footprint(&footprint, &block.footprints[i]) {
            return Ok(Err(Refusal::FootprintDiffers(i as u32)));
        }
        if !same_receipt(receipt, block.receipts[i]) {
            return Ok(Err(Refusal::ReceiptDiffers(i as u32)));
        }
    }
    Ok(Ok(balances.finish(alloc, block.head)?))
}
