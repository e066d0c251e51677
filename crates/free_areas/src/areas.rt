//! The index of free blocks, for the callers of this crate.

ghost use Rattle.std.specs.Prelude.{◌≡◌, ℕ, ◌+◌, ◌^◌, ◌<◌, ◌≤◌, OnOk, IfOk, MatchOption};
ghost use Rattle.address_runs.specs.Runs.{AreRuns, value_at};
ghost use Rattle.address_runs.specs.Edits.{IsEmptyFrom};
ghost use Rattle.buddy_blocks.specs.Frames.{Frames, IsBlock, IsInBlock};
ghost use Rattle.buddy_blocks.specs.BlockList.{block_of};
ghost use Rattle.buddy_blocks.specs.PickedBlock.{IsPicked, NoneServes};
ghost use Rattle.buddy_blocks.specs.Buddies.{RemovesFrameSet};
ghost use Rattle.free_areas.specs.Areas.{IndexesFreeBlocks};

use crate::index::{
    first_block_of_row, insert_block, insert_buddies, remove_and_add_next, remove_buddies,
};
use bm_base::{Memory, Zone};
use buddy_blocks::{Block, FrameRun, MAX_FRAMES, MAX_ORDER, block_rows};
use std::alloc::Global;
use std::collections::BTreeSet;
use std::marker::Model;

/// An index of the blocks of free frames, in the order of the page allocator's lists: by node,
/// zone, order and first frame. Contracts see the list of its blocks.
#[derive(Debug, Drop)]
pub struct Areas {
    blocks: BTreeSet<Block>,
}

impl Model for Areas {
    ghost use Rattle.std.specs.Prelude.{List};
    ghost use Rattle.buddy_blocks.specs.declared.block.Block.{Block as AnyBlock};

    ghost Value = { List AnyBlock };

    ghost view = { λ a. a.blocks.keys };
}

impl Areas {
    /// Returns an index of the blocks of the free frames in `runs`. It has about twenty blocks for
    /// each run. The runs must be ascending and not empty, and two runs that touch must be of
    /// different nodes. All frames must be below `MAX_FRAMES`.
    ///
    /// # Errors
    ///
    /// - `Memory`: the program ran out of memory.
    pub fn index_free_runs(alloc: Global, runs: &[FrameRun]) -> Result<Areas, Memory>
        requires runs { AreRuns runs.now }
        requires low { IsEmptyFrom MAX_FRAMES (value_at runs.now) }
        ensures { IfOk result (λ areas. IndexesFreeBlocks (value_at runs.now) areas) }
    {
        let rows = block_rows(alloc, runs)?;
        let mut blocks = BTreeSet::new(alloc);
        for row in &rows {
            insert_block(&mut blocks, first_block_of_row(row))?;
        }
        Ok(Areas { blocks })
    }

    /// Returns the block from which a request for `2^order` frames of the node and the zone is
    /// served (`__rmqueue_smallest`), or `None` if no block is large enough. The block has the
    /// smallest sufficient order, and is the lowest of that order in the zone. The call takes one
    /// look-up. `order` must be at most 10.
    pub fn find_picked_block(&self, node: u32, zone: Zone, order: u32) -> Option<Block>
        requires { order ≤ 10 }
        ensures { (f : Frames) → IndexesFreeBlocks f self.now →
            MatchOption result (NoneServes f node zone order) (λ block.
            IsPicked f node zone order block) }
    {
        let from = Block {
            node,
            zone,
            order,
            first: 0,
        };
        let until = Block {
            node,
            zone,
            order: MAX_ORDER + 1,
            first: 0,
        };
        self.blocks.range(from..until).next().copied()
    }

    /// Updates the index after the aligned set of `2^order` frames that has `frame` was taken from
    /// `block` (`expand`). The free halves that are left replace `block` in the index: one buddy of
    /// each order from `order` to below the order of `block`. `after` must be the block that
    /// begins where `block` ends, or `None` if there is none.
    ///
    /// # Errors
    ///
    /// - `Memory`: the program ran out of memory. The index is invalid then.
    pub fn split_block(
        &mut self,
        block: &Block,
        after: Option<Block>,
        order: u32,
        frame: u64,
    ) -> Result<(), Memory>
        requires small { block.now.order ≤ 10 }
        requires low { frame < MAX_FRAMES }
        ensures { OnOk result ((f g : Frames) → IndexesFreeBlocks f self.old
            → RemovesFrameSet f g order frame → IsBlock f block.now →
            IsInBlock block.now frame → order ≤ block.now.order
            → after ≡ block_of f (block.now.first + 2 ^ block.now.order) →
            IndexesFreeBlocks g self.new) }
    {
        remove_and_add_next(&mut self.blocks, block, after)?;
        insert_buddies(&mut self.blocks, block, order, frame)
    }

    /// Updates the index after the aligned set of `2^order` frames that has `frame` was freed
    /// (`__free_one_page`). `block` must be the block that has these frames now. In the index it
    /// replaces the buddies from which it was merged.
    ///
    /// # Errors
    ///
    /// - `Memory`: the program ran out of memory. The index is invalid then.
    pub fn merge_block(&mut self, block: &Block, order: u32, frame: u64) -> Result<(), Memory>
        requires small { block.now.order ≤ 10 }
        requires low { frame < MAX_FRAMES }
        ensures { OnOk result ((f g : Frames) → IndexesFreeBlocks g self.old
            → RemovesFrameSet f g order frame → IsBlock f block.now →
            IsInBlock block.now frame → order ≤ block.now.order → IndexesFreeBlocks f self.new) }
    {
        remove_buddies(&mut self.blocks, block, order, frame);
        insert_block(&mut self.blocks, *block)
    }
}
