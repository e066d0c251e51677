//! The free frames, and the blocks that the page allocator's lists hold. A `Buddy` keeps the runs
//! of free frames, and for how many more runs its list has room. A caller of `free_frames`
//! therefore knows beforehand whether that call can run out of memory.
//!
//! The index of the blocks (`free_areas`) is a cache that contracts don't see. The first `take`
//! makes the index, and `take` and `put_back` keep it up to date. Any other call that frees frames
//! drops it. It is also dropped if this program runs out of memory for it. No result depends on
//! the index.

ghost use Rattle.std.specs.Prelude.{◌≡◌, ℕ, ◌+◌, ◌-◌, ◌%◌, ◌^◌, ◌<◌, ◌≤◌, max, is_some, Some, None, IsSome, [], IsOk, OnOk, OnErr, IfOk, IfErr, vec_len, vec_capacity};
ghost use Rattle.address_runs.specs.Runs.{IsRunsOf};
ghost use Rattle.address_runs.specs.Edits.{replace_in_range, IsEmptyFrom};
ghost use Rattle.buddy_blocks.specs.BlockList.{block_of, blocks_of, count_blocks};
ghost use Rattle.buddy_blocks.specs.Rows.{blocks_of_rows, AreCanonicalRows};
ghost use Rattle.buddy_blocks.specs.Frames.{IsInSet};
ghost use Rattle.buddy_blocks.specs.PickedBlock.{picked_first_frame};
ghost use Rattle.buddy_blocks.specs.Buddies.{without_set, with_set};
ghost use Rattle.free_areas.specs.Areas.{IndexesFreeBlocks};
ghost use Rattle.buddy_handover.specs.BuddyView.{node_of_free_frame};

use crate::cache::{index_after_alloc, index_after_free};
use crate::runs::{insert_frames, remove_frames, set_around};
use bm_base::{Memory, Range, Zone};
use buddy_blocks::{Block, BlockRow, FrameRun, MAX_FRAMES, MAX_ORDER};
use free_areas::Areas;
use std::alloc::Global;
use std::marker::Model;

/// The reason why [`crate::Buddy::take`] fails.
#[derive(Clone, Copy, Debug, PartialEq, Eq)]
pub enum Take {
    /// The node has no block of the order or a greater one in the zone.
    NoBlock,
    /// This program is out of memory. This error is returned only if the node has a block of the
    /// order or a greater one in the zone.
    Memory,
}

impl From<Memory> for Take {
    ghost use Rattle.std.specs.Prelude.{◌≡◌};
    ghost use Rattle.buddy_handover.specs.declared.buddy.Take.TheVariants as takes;

    ghost from_gives = { λ _ refusal. refusal ≡ takes.Memory };

    fn from(_memory: Memory) -> Take {
        Take::Memory
    }
}

/// The greatest number of runs that one call adds to the list of runs.
const MAX_NEW_ENTRIES: u64 = 2;

/// The free frames, each with its node. Contracts see the runs of free frames in ascending order,
/// and `spare`: for how many more runs the list has room.
#[derive(Debug, Drop)]
pub struct Buddy {
    runs: Vec<FrameRun>,
    spare: u64,
    areas: Option<Areas>,
}

impl Model for Buddy {
    ghost use Rattle.std.specs.Prelude.{◌+◌, ◌≤◌, vec_len, vec_capacity, IfSome};
    ghost use Rattle.address_runs.specs.Runs.{AreRuns, value_at};
    ghost use Rattle.address_runs.specs.Edits.{IsEmptyFrom};
    ghost use Rattle.buddy_blocks.specs.declared.run.TheConstants.{MAX_FRAMES};
    ghost use Rattle.free_areas.specs.Areas.{IndexesFreeBlocks};
    ghost use Rattle.buddy_handover.specs.BuddyView.{BuddyView};

    ghost Value = { BuddyView };

    ghost view = { λ b. record { runs = b.runs.items; spare = b.spare } };

    ghost invariant = { λ b.
        (vec_len b.runs + b.spare ≤ vec_capacity b.runs) × AreRuns b.runs.items
        × IsEmptyFrom MAX_FRAMES (value_at b.runs.items)
        × IfSome b.areas (λ areas. IndexesFreeBlocks (value_at b.runs.items) areas) };
}

impl Buddy {
    /// Returns a list without free frames.
    pub fn new(alloc: Global) -> Buddy
        ensures { result ≡ record { runs = []; spare = 0 } }
    {
        Buddy {
            runs: Vec::new(alloc),
            spare: 0,
            areas: None,
        }
    }

    /// Returns a copy with the same frames and nodes.
    ///
    /// # Errors
    ///
    /// Out of memory.
    pub fn copy(&self) -> Result<Buddy, Memory>
        ensures { IfOk result (λ buddy. buddy.runs ≡ self.now.runs) }
    {
        Ok(Buddy {
            runs: self.runs.clone()?,
            spare: 0,
            areas: None,
        })
    }

    /// Law: no frame at or above [`MAX_FRAMES`] is free.
    pub fn free_frames_are_below_limit(&self)
        ensures { IsEmptyFrom MAX_FRAMES (node_of_free_frame self.now) }
    {
        let _ = &self.runs; // the invariant says so
    }

    /// Makes room in the list of runs for `n` more runs, unless it has room for that many already.
    ///
    /// # Errors
    ///
    /// Out of memory, only if there was room for fewer than `n`. Nothing has changed then.
    pub fn ready(&mut self, n: u64) -> Result<(), Memory>
        ensures runs { self.new.runs ≡ self.old.runs }
        ensures enough { OnOk result (n ≤ self.new.spare) }
        ensures exact { OnOk result (self.new.spare ≡ max self.old.spare n) }
        ensures err { OnErr result (self.new ≡ self.old) }
        ensures memory { OnErr result (self.old.spare < n) }
    {
        if n <= self.spare {
            return Ok(());
        }
        self.runs.reserve(n as usize)?;
        self.spare = n;
        Ok(())
    }

    /// Frees `count` frames from `first` on, for node `node` (`__free_pages_core`). Each frame must
    /// lie below [`MAX_FRAMES`], and none may be free already. The call uses up room for two runs
    /// (`spare`), and makes room first if there is less.
    ///
    /// # Errors
    ///
    /// Out of memory, never if `spare` was 32 or more. Nothing has changed then.
    pub fn free_frames(&mut self, first: u64, count: u64, node: u32) -> Result<(), Memory>
        requires low { first + count ≤ MAX_FRAMES }
        requires held { (x : ℕ) → first ≤ x → x < first + count → node_of_free_frame self.old x ≡
            None }
        ensures runs { OnOk result
            (IsRunsOf (replace_in_range (record { base = first; size = count }) node
            (node_of_free_frame self.old)) self.new.runs) }
        ensures enough { 32 ≤ self.old.spare → IsOk result }
        ensures spare { OnOk result (self.new.spare ≡ max self.old.spare 2 - 2) }
        ensures err { OnErr result (self.new ≡ self.old) }
    {
        self.mark_free(first, count, node)
    }

    /// Frees `count` frames from `first` on, for node `node`, whether they were free before or not.
    /// The call uses up room for two runs (`spare`), and makes room first if there is less.
    ///
    /// # Errors
    ///
    /// Out of memory, only if there was room for fewer than two more runs. Nothing has changed
    /// then.
    pub(crate) fn mark_free(&mut self, first: u64, count: u64, node: u32) -> Result<(), Memory>
        requires low { first + count ≤ MAX_FRAMES }
        ensures runs { OnOk result
            (IsRunsOf (replace_in_range (record { base = first; size = count }) node
            (node_of_free_frame self.old)) self.new.runs) }
        ensures memory { OnErr result (self.old.spare < 2) }
        ensures spare { OnOk result (self.new.spare ≡ max self.old.spare 2 - 2) }
        ensures err { OnErr result (self.new ≡ self.old) }
    {
        self.ready(MAX_NEW_ENTRIES)?;
        let frames = Range {
            base: first,
            size: count,
        };
        self.areas = None;
        insert_frames(&mut self.runs, &frames, node);
        self.spare -= MAX_NEW_ENTRIES;
        Ok(())
    }

    /// Allocates `2^order` frames of the node and the zone, and returns the number of the first
    /// (`__rmqueue_smallest`). They are the first frames of the lowest block of the smallest
    /// sufficient order.
    ///
    /// # Errors
    ///
    /// - `NoBlock`: no block of `order` or a greater order exists on the node and in the zone.
    /// - `Memory`: this program is out of memory; such a block exists.
    ///
    /// After either error nothing has changed.
    pub fn take(&mut self, node: u32, zone: Zone, order: u32) -> Result<u64, Take>
        requires { order ≤ 10 }
        ensures first { IfOk result (λ first.
            picked_first_frame (node_of_free_frame self.old) node zone order ≡ Some first) }
        ensures runs { IfOk result (λ first.
            IsRunsOf (without_set order first (node_of_free_frame self.old)) self.new.runs) }
        ensures none { IfErr result (λ refusal. refusal ≡ Take.NoBlock
            → picked_first_frame (node_of_free_frame self.old) node zone order ≡ None) }
        ensures memory { IfErr result (λ refusal. refusal ≡ Take.Memory
            → IsSome (picked_first_frame (node_of_free_frame self.old) node zone order)) }
        ensures err { OnErr result (self.new ≡ self.old) }
    {
        let Ok(areas) = self.take_or_make_index() else {
            return Err(if self.has_block(node, zone, order) {
                Take::Memory
            } else {
                Take::NoBlock
            });
        };
        let Some(block) = areas.find_picked_block(node, zone, order) else {
            self.areas = Some(areas);
            return Err(Take::NoBlock);
        };
        self.ready(MAX_NEW_ENTRIES)?;
        let after = self.block_of(set_around(block.order, block.first).end());
        let rest = index_after_alloc(areas, &block, after, order);
        remove_frames(&mut self.runs, &set_around(order, block.first));
        self.spare -= MAX_NEW_ENTRIES;
        self.areas = rest;
        Ok(block.first)
    }

    /// Tests whether the node has a block of `order` or a greater order in the zone. The call
    /// allocates nothing. It is slow, because it looks at all runs for each order. It is meant for
    /// callers that ran out of memory and must still say whether there was such a block.
    pub fn has_block(&self, node: u32, zone: Zone, order: u32) -> bool
        requires { order ≤ 10 }
        ensures { result ≡ is_some (picked_first_frame (node_of_free_frame self.now) node zone
            order) }
    {
        for at in order..MAX_ORDER + 1 {
            if self.count(node, zone, at) > 0 {
                return true;
            }
        }
        false
    }

    /// Frees `2^order` frames from `first` on, for node `node` (`__free_one_page`). They are merged
    /// with free buddies, as far as possible. `first` must be a multiple of `2^order`. Each frame
    /// must lie below [`MAX_FRAMES`], and none may be free already.
    ///
    /// # Errors
    ///
    /// Out of memory. Nothing has changed then.
    pub fn put_back(&mut self, first: u64, order: u32, node: u32) -> Result<(), Memory>
        requires small { order ≤ 10 }
        requires aligned { first % 2 ^ order ≡ 0 }
        requires low { first + 2 ^ order ≤ MAX_FRAMES }
        requires held { (x : ℕ) → IsInSet order first x → node_of_free_frame self.old x ≡ None }
        ensures runs { OnOk result
            (IsRunsOf (with_set order first node (node_of_free_frame self.old)) self.new.runs) }
        ensures err { OnErr result (self.new ≡ self.old) }
    {
        self.ready(MAX_NEW_ENTRIES)?;
        let areas = self.areas.take();
        insert_frames(&mut self.runs, &set_around(order, first), node);
        self.spare -= MAX_NEW_ENTRIES;
        let block = buddy_blocks::block_of(&self.runs, first);
        self.areas = index_after_free(areas, block, order, first);
        Ok(())
    }

    /// Takes the index of the blocks out of the cache and returns it. If the cache is empty, makes
    /// the index from the free frames.
    ///
    /// # Errors
    ///
    /// Out of memory for the index. The free frames are unchanged.
    fn take_or_make_index(&mut self) -> Result<Areas, Memory>
        ensures areas { IfOk result (λ areas. IndexesFreeBlocks (node_of_free_frame self.old)
            areas) }
        ensures stays { self.new ≡ self.old }
    {
        match self.areas.take() {
            Some(areas) => Ok(areas),
            None => Areas::index_free_runs(*self.runs.allocator(), &self.runs),
        }
    }

    /// Returns all blocks of the free frames, in ascending order of their first frames. All free
    /// frames lie below [`MAX_FRAMES`].
    ///
    /// # Errors
    ///
    /// Out of memory.
    pub fn blocks(&self) -> Result<Vec<Block>, Memory>
        ensures list { IfOk result (λ blocks. blocks.items ≡ blocks_of (node_of_free_frame
            self.now)) }
        ensures low { IsEmptyFrom MAX_FRAMES (node_of_free_frame self.now) }
    {
        buddy_blocks::blocks_of(*self.runs.allocator(), &self.runs)
    }

    /// Returns all blocks of the free frames, in ascending order, as rows of consecutive blocks of
    /// one order, node and zone. There are about twenty rows for each run of free frames, however
    /// long the run is. No row is empty, and no two rows of the greatest order could be joined.
    ///
    /// # Errors
    ///
    /// Out of memory.
    pub fn block_rows(&self) -> Result<Vec<BlockRow>, Memory>
        ensures blocks { IfOk result (λ rows.
            blocks_of_rows rows.items ≡ blocks_of (node_of_free_frame self.now)) }
        ensures longest { IfOk result (λ rows. AreCanonicalRows rows.items) }
    {
        buddy_blocks::block_rows(*self.runs.allocator(), &self.runs)
    }

    /// Returns the number of blocks of the node, the zone and the order (`nr_free` of `struct
    /// free_area`). Allocates nothing.
    pub fn count(&self, node: u32, zone: Zone, order: u32) -> u64
        ensures { result ≡ count_blocks (node_of_free_frame self.now) node zone order }
    {
        buddy_blocks::count_blocks(&self.runs, node, zone, order)
    }

    /// Returns the block that has the frame, or `None` if the frame isn't free. Allocates nothing.
    pub fn block_of(&self, frame: u64) -> Option<Block>
        ensures { result ≡ block_of (node_of_free_frame self.now) frame }
    {
        buddy_blocks::block_of(&self.runs, frame)
    }
}
