//! The end of the early boot: memory that isn't reserved becomes free (`memblock_free_all`).
//!
//! Both tables are read in one pass. For each memory record, the reserved records that overlap its
//! frames are read. Reading begins at the reserved record at which it stopped for the memory
//! record before.

ghost use Rattle.std.specs.Prelude.{◌≡◌, ℕ, ◌+◌, ◌*◌, ◌^◌, ◌<◌, ◌≤◌, IfOk};
ghost use Rattle.address_runs.specs.Runs.{value_at};
ghost use Rattle.memblock_ranges.specs.Tables.{records_of_head};
ghost use Rattle.memblock_frames.specs.Frames.{free_node_in, OverlapOnlyBelow};
ghost use Rattle.memblock_frames.specs.HeadRecords.{HasRecords, AreWholeFrames};
ghost use Rattle.buddy_handover.specs.BuddyView.{node_of_free_frame};
ghost use Rattle.buddy_handover.specs.Handover.{free_unclaimed_frames};

use crate::buddy::Buddy;
use bm_base::{FRAME_SIZE, Memory};
use buddy_blocks::MAX_FRAMES;
use memblock_frames::{frames_of_record, next_claimed_frames};
use memblock_ranges::{Head, Heads};
use phys_store::Store;
use std::alloc::Global;

/// Reads both tables from their bytes and returns the free frames: all frames that are memory and
/// have no reserved byte, each with the node of its memory record. The memory records must be
/// whole frames below [`MAX_FRAMES`]. A frame of a record without a node isn't free.
///
/// # Errors
///
/// Out of memory.
pub fn hand_over(alloc: Global, store: &Store, heads: &Heads) -> Result<Buddy, Memory>
    requires memory { HasRecords store.now heads.now.memory (FRAME_SIZE * MAX_FRAMES) }
    requires whole { AreWholeFrames (records_of_head store.now heads.now.memory) }
    requires reserved { HasRecords store.now heads.now.reserved (2 ^ 64) }
    ensures { IfOk result (λ buddy. (frame : ℕ) → node_of_free_frame buddy frame ≡
        free_node_in (value_at (records_of_head store.now heads.now.memory))
        (value_at (records_of_head store.now heads.now.reserved)) frame) }
{
    let mut buddy = Buddy::new(alloc);
    let mut next = 0;
    for i in 0..heads.memory.count {
        let frames = frames_of_record(store, &heads.memory, i);
        if let Some(node) = frames.node {
            next = free_unclaimed(
                &mut buddy,
                store,
                &heads.reserved,
                next,
                frames.first,
                frames.end,
                node,
            )?;
        }
    }
    Ok(buddy)
}

/// Frees, for node `node`, the frames from `first` to below `end` in which no byte is reserved.
/// Reads the reserved records from `index` on. Returns the index of the reserved record from which
/// the next call can read on.
///
/// # Errors
///
/// Out of memory.
fn free_unclaimed(
    buddy: &mut Buddy,
    store: &Store,
    reserved: &Head,
    index: u64,
    first: u64,
    end: u64,
    node: u32,
) -> Result<u64, Memory>
    requires table { HasRecords store.now reserved.now (2 ^ 64) }
    requires index { index ≤ reserved.now.count }
    requires passed { OverlapOnlyBelow (records_of_head store.now reserved.now) index first }
    requires order { first ≤ end }
    requires low { end ≤ MAX_FRAMES }
    ensures free { IfOk result (λ next. (x : ℕ) →
        node_of_free_frame buddy.new x ≡ free_unclaimed_frames first end node
        (value_at (records_of_head store.now reserved.now)) (node_of_free_frame buddy.old) x) }
    ensures index { IfOk result (λ next. next ≤ reserved.now.count) }
    ensures passed { IfOk result (λ next.
        OverlapOnlyBelow (records_of_head store.now reserved.now) next end) }
{
    let mut next = index;
    let mut at = first;
    while at < end {
        let claim = next_claimed_frames(store, reserved, next, at);
        next = claim.index;
        buddy.mark_free(at, claim.first.min(end) - at, node)?;
        at = claim.end.min(end);
    }
    Ok(next)
}
