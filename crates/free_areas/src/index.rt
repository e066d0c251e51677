//! Changes the index of free blocks one block at a time.

ghost use Rattle.std.specs.Prelude.{◌≡◌, ◌≢◌, ◌⊎◌, ◌↔◌, ℕ, ◌+◌, ◌*◌, ◌/◌, ◌^◌, ◌<◌, ◌≤◌, Some, None, OnOk, IfSome, IfNone};
ghost use Rattle.buddy_blocks.specs.declared.block.Block.{Block as AnyBlock};
ghost use Rattle.buddy_blocks.specs.BlockList.{ListsBlock};
ghost use Rattle.buddy_blocks.specs.Buddies.{buddy_of};
ghost use Rattle.free_areas.specs.Areas.{first_block_of_row, AreLargestInSameZone, AddsBuddies, RemovesBuddies};

use bm_base::Memory;
use buddy_blocks::{Block, BlockRow, MAX_FRAMES, MAX_ORDER};
use std::collections::BTreeSet;

/// Returns the first block of a row (consecutive blocks of one order, node and zone).
pub fn first_block_of_row(row: &BlockRow) -> Block
    ensures { result ≡ first_block_of_row row.now }
{
    Block {
        node: row.node,
        zone: row.zone,
        order: row.order,
        first: row.first,
    }
}

/// Adds a block to the set.
///
/// # Errors
///
/// - `Memory`: the program ran out of memory.
pub fn insert_block(blocks: &mut BTreeSet<Block>, block: Block) -> Result<(), Memory>
    ensures { OnOk result ((b : AnyBlock) → ListsBlock blocks.new.keys b
        ↔ ((b ≡ block) ⊎ ListsBlock blocks.old.keys b)) }
{
    blocks.insert(block)?;
    Ok(())
}

/// Removes a block from the set. A set without the block is unchanged.
fn remove_block(blocks: &mut BTreeSet<Block>, block: &Block)
    ensures { (b : AnyBlock) → ListsBlock blocks.new.keys b
        ↔ ((b ≢ block.now) × ListsBlock blocks.old.keys b) }
{
    let _ = blocks.remove(block);
}

/// Removes `block` from the set. Adds `after`, the block right after it, if both are of the
/// largest order, on one node and in one zone. The set may lack such a block as long as it has the
/// block before.
///
/// # Errors
///
/// - `Memory`: the program ran out of memory.
pub fn remove_and_add_next(
    blocks: &mut BTreeSet<Block>,
    block: &Block,
    after: Option<Block>,
) -> Result<(), Memory>
    ensures sound { OnOk result ((b : AnyBlock) → ListsBlock blocks.new.keys b →
        ((b ≢ block.now) × ListsBlock blocks.old.keys b)
        ⊎ ((after ≡ Some b) × AreLargestInSameZone block.now b)) }
    ensures kept { OnOk result ((b : AnyBlock) → b ≢ block.now → ListsBlock blocks.old.keys b
        → ListsBlock blocks.new.keys b) }
    ensures after { OnOk result ((b : AnyBlock) → after ≡ Some b → AreLargestInSameZone
        block.now b
        → ListsBlock blocks.new.keys b) }
{
    remove_block(blocks, block);
    match next_block_of_row(block, after) {
        Some(next) => insert_block(blocks, next),
        None => Ok(()),
    }
}

/// Inserts the free halves that are left of `block` after the aligned set of `2^order` frames that
/// has `frame` was taken from it (`expand`): one buddy of each order from `order` to below the
/// order of `block`. They are on the block's node and in its zone.
///
/// # Errors
///
/// - `Memory`: the program ran out of memory.
pub fn insert_buddies(
    blocks: &mut BTreeSet<Block>,
    block: &Block,
    order: u32,
    frame: u64,
) -> Result<(), Memory>
    requires small { block.now.order ≤ 10 }
    requires low { frame < MAX_FRAMES }
    ensures { OnOk result
        (AddsBuddies block.now order block.now.order frame blocks.old.keys blocks.new.keys) }
{
    for at in order..block.order {
        insert_block(blocks, buddy_of(block, at, frame))?;
    }
    Ok(())
}

/// Removes the halves that were merged with the aligned set of `2^order` frames that has `frame` to
/// give `block` (`__free_one_page`): one buddy of each order from `order` to below the order of
/// `block`. Ignores a buddy that the set lacks.
pub fn remove_buddies(blocks: &mut BTreeSet<Block>, block: &Block, order: u32, frame: u64)
    requires small { block.now.order ≤ 10 }
    requires low { frame < MAX_FRAMES }
    ensures { RemovesBuddies block.now order block.now.order frame blocks.old.keys blocks.new.keys }
{
    for at in order..block.order {
        remove_block(blocks, &buddy_of(block, at, frame));
    }
}

/// Returns `after`, the block right after `block`, if both are of the largest order, on one node
/// and in one zone. Otherwise returns `None`. The index may lack such an `after` only while it has
/// `block`, so a caller that removes `block` must add it.
fn next_block_of_row(block: &Block, after: Option<Block>) -> Option<Block>
    ensures some { IfSome result (λ next. (after ≡ Some next) × AreLargestInSameZone block.now
        next) }
    ensures none { IfNone result ((next : AnyBlock) → after ≡ Some next
        → AreLargestInSameZone block.now next → ⊥) }
{
    after.filter(|next| {
        block.order == MAX_ORDER
            && next.order == MAX_ORDER
            && next.node == block.node
            && next.zone == block.zone
    })
}

/// Returns the buddy (`__find_buddy_pfn`) of the aligned set of `2^order` frames that has `frame`,
/// as a block with the node and the zone of `block`.
fn buddy_of(block: &Block, order: u32, frame: u64) -> Block
    requires small { order < 10 }
    requires low { frame < MAX_FRAMES }
    ensures { result ≡ buddy_of block.now order frame }
{
    let size = frames_per_block(order);
    let half = frame / size;
    let other = if half % 2 == 0 { half + 1 } else { half - 1 };
    Block {
        order,
        first: other * size,
        ..*block
    }
}

/// Returns the number of frames in a block of this order, which is at most 10.
fn frames_per_block(order: u32) -> u64
    requires { order ≤ 10 }
    ensures value { result ≡ 2 ^ order }
    ensures some { 0 < result }
    ensures few { result ≤ 1024 }
{
    1 << order
}
