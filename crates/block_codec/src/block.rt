//! A block in memory.

use cell_names::{Footprint, Head};
use join_schedule::Joins;
use op_rules::{Op, Receipt};
use std::marker::Model;

/// What a block says of its operations: which they are, and of each the operations that it is
/// joined to, the cells that it touched, and how it ended. It stands on the state whose digest is
/// `parent`, and leads to the state whose digest is `state`.
#[derive(Drop)]
pub struct Block {
    /// The digest of the state that the block stands on.
    pub parent: [u8; 32],
    /// The level and `now` of the state after the block.
    pub head: Head,
    /// At most 512 operations, in published order.
    pub ops: Vec<Op>,
    /// For each operation the numbers of earlier ones that it comes after.
    pub joins: Joins,
    /// For each operation the cells that it touched.
    pub footprints: Vec<Footprint>,
    /// For each operation how it ended.
    pub receipts: Vec<Receipt>,
    /// The digest of the state after the block.
    pub state: [u8; 32],
}

impl Model for Block {
    ghost use Rattle.std.specs.Coded.{codes};
    ghost use Rattle.value_core.specs.contracts.val.Val as val;
    ghost use Rattle.block_codec.specs.Block.{BlockView};

    ghost Value = { BlockView };

    ghost coded = { Prim.hlevel (codes, val.the_row.coded) };

    ghost view = { λ b. record {
      parent = b.parent;
      level = b.head.level;
      now = b.head.now;
      ops = b.ops.items;
      joins = b.joins;
      footprints = b.footprints.items;
      receipts = b.receipts.items;
      state = b.state;
    } };
}
