//! Keeps the index of free blocks up to date. If there is no memory for a change, the index is
//! dropped.

ghost use Rattle.std.specs.Prelude.{◌≡◌, ℕ, ◌+◌, ◌^◌, ◌<◌, ◌≤◌, Some, IfSome};
ghost use Rattle.buddy_blocks.specs.Frames.{Frames, IsBlock, IsInBlock};
ghost use Rattle.buddy_blocks.specs.BlockList.{block_of};
ghost use Rattle.buddy_blocks.specs.Buddies.{RemovesFrameSet};
ghost use Rattle.free_areas.specs.Areas.{IndexesFreeBlocks};

use buddy_blocks::{Block, MAX_FRAMES};
use free_areas::Areas;

/// Returns the index after the first `2^order` frames of `block` were allocated, or `None` if
/// there is no memory for it. `after` must be the block that begins where `block` ends, or `None`
/// if the frame there isn't free.
pub fn index_after_alloc(
    areas: Areas,
    block: &Block,
    after: Option<Block>,
    order: u32,
) -> Option<Areas>
    requires small { block.now.order ≤ 10 }
    requires low { block.now.first < MAX_FRAMES }
    ensures { IfSome result (λ rest. (f g : Frames) → IndexesFreeBlocks f areas
        → RemovesFrameSet f g order block.now.first → IsBlock f block.now →
        order ≤ block.now.order → after ≡ block_of f (block.now.first + 2 ^ block.now.order)
        → IndexesFreeBlocks g rest) }
{
    let mut areas = areas;
    match areas.split_block(block, after, order, block.first) {
        Ok(()) => Some(areas),
        Err(_) => None,
    }
}

/// Returns the index after the `2^order` frames from `frame` on were freed; `block` must be the
/// block that has them now. Returns `None` if there was no index or `block` is `None`, or if there
/// is no memory for the index.
pub fn index_after_free(
    areas: Option<Areas>,
    block: Option<Block>,
    order: u32,
    frame: u64,
) -> Option<Areas>
    requires small { IfSome block (λ block. block.order ≤ 10) }
    requires low { frame < MAX_FRAMES }
    ensures { IfSome result (λ all. (f g : Frames)
        → IfSome areas (λ areas. IndexesFreeBlocks g areas) → RemovesFrameSet f g order frame →
        IfSome block (λ block. IsBlock f block × IsInBlock block frame × (order ≤ block.order))
        → IndexesFreeBlocks f all) }
{
    let mut areas = areas?;
    let block = block?;
    match areas.merge_block(&block, order, frame) {
        Ok(()) => Some(areas),
        Err(_) => None,
    }
}
