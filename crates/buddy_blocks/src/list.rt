//! Lists the blocks of runs of free frames, in ascending order, one by one or row by row, and
//! finds the block that has a frame.

ghost use Rattle.std.specs.Prelude.{◌≡◌, ◌-◌, ◌≤◌, ◌++◌, OnOk, IfOk};
ghost use Rattle.address_runs.specs.Runs.{AreRuns, value_at};
ghost use Rattle.address_runs.specs.Edits.{IsEmptyFrom};
ghost use Rattle.buddy_blocks.specs.Frames.{Frames};
ghost use Rattle.buddy_blocks.specs.BlockList.{block_of, blocks_from, blocks_of};
ghost use Rattle.buddy_blocks.specs.Rows.{blocks_of_rows, AreCanonicalRows};
ghost use Rattle.buddy_blocks.specs.Sets.{IsWholeNodeRun, LastRowFulfils, LastFrameIsFree};

use crate::block::{Block, BlockRow};
use crate::count::count_equal_blocks;
use crate::run::{FrameRun, MAX_FRAMES};
use crate::set::set_within;
use bm_base::{Memory, zone_of};
use run_edits::first_ending_above;
use std::alloc::Global;

/// Returns all blocks of the free frames, in ascending order. The runs must be ascending and not
/// empty, and two runs that touch must be of different nodes. All frames must be below
/// [`MAX_FRAMES`].
///
/// # Errors
///
/// - `Memory`: the program ran out of memory.
pub fn blocks_of(alloc: Global, runs: &[FrameRun]) -> Result<Vec<Block>, Memory>
    requires runs { AreRuns runs.now }
    requires low { IsEmptyFrom MAX_FRAMES (value_at runs.now) }
    ensures { IfOk result (λ blocks. blocks.items ≡ blocks_of (value_at runs.now)) }
{
    let mut blocks = Vec::new(alloc);
    for run in runs {
        push_blocks(&mut blocks, run.first, run.first + run.count, run.node)?;
    }
    Ok(blocks)
}

/// Appends the blocks of one run, from frame `first` to below `end`. At each step it takes the
/// largest aligned set that begins there and fits (`__free_pages_memory`).
///
/// # Errors
///
/// - `Memory`: the program ran out of memory.
fn push_blocks(blocks: &mut Vec<Block>, first: u64, end: u64, node: u32) -> Result<(), Memory>
    requires { first ≤ end }
    ensures { OnOk result ((f : Frames) → IsWholeNodeRun f first end node →
        blocks.new.items ≡ blocks.old.items ++ blocks_from f first (end - first)) }
{
    let mut at = first;
    while at < end {
        let set = set_within(first, end, at);
        blocks.push(Block {
            order: set.order,
            first: at,
            node,
            zone: zone_of(at),
        })?;
        at += set.size;
    }
    Ok(())
}

/// Returns all blocks of the free frames, in ascending order, as rows of equal consecutive blocks.
/// A run has one row of blocks of the largest order for each zone, and one row for each other
/// block, of which there are about twenty. No row is empty, and no two rows of the largest order
/// could be joined. The runs must be ascending and not empty, and two runs that touch must be of
/// different nodes. All frames must be below [`MAX_FRAMES`].
///
/// # Errors
///
/// - `Memory`: the program ran out of memory.
pub fn block_rows(alloc: Global, runs: &[FrameRun]) -> Result<Vec<BlockRow>, Memory>
    requires runs { AreRuns runs.now }
    requires low { IsEmptyFrom MAX_FRAMES (value_at runs.now) }
    ensures blocks { IfOk result (λ rows.
        blocks_of_rows rows.items ≡ blocks_of (value_at runs.now)) }
    ensures longest { IfOk result (λ rows. AreCanonicalRows rows.items) }
{
    let mut rows = Vec::new(alloc);
    for run in runs {
        push_rows(&mut rows, run.first, run.first + run.count, run.node)?;
    }
    Ok(rows)
}

/// Appends the blocks of one run, row by row, from frame `first` to below `end`. No row becomes
/// empty, and no two rows of the largest order can be joined afterwards (`AreCanonicalRows`). For
/// this, the list must have been so before, and the last frame of its last row must be free.
///
/// # Errors
///
/// - `Memory`: the program ran out of memory.
fn push_rows(rows: &mut Vec<BlockRow>, first: u64, end: u64, node: u32) -> Result<(), Memory>
    requires { first ≤ end }
    ensures blocks { OnOk result ((f : Frames) → IsWholeNodeRun f first end node →
        blocks_of_rows rows.new.items ≡ blocks_of_rows rows.old.items
        ++ blocks_from f first (end - first)) }
    ensures longest { OnOk result ((f : Frames) → IsWholeNodeRun f first end node
        → LastRowFulfils (LastFrameIsFree f) rows.old.items →
        AreCanonicalRows rows.old.items → LastRowFulfils (LastFrameIsFree f) rows.new.items
        × AreCanonicalRows rows.new.items) }
{
    let mut at = first;
    while at < end {
        let set = set_within(first, end, at);
        let count = count_equal_blocks(at, end, set);
        let zone = zone_of(at);
        rows.push(BlockRow {
            order: set.order,
            first: at,
            count,
            node,
            zone,
        })?;
        at += count * set.size;
    }
    Ok(())
}

/// Returns the block that contains this frame, or `None` if the frame isn't free. It searches the
/// run of the frame once, and then tries the orders from 10 down until one fits. It allocates
/// nothing.
pub fn block_of(runs: &Vec<FrameRun>, frame: u64) -> Option<Block>
    requires { AreRuns runs.now.items }
    ensures { result ≡ block_of (value_at runs.now.items) frame }
{
    let i = first_ending_above(runs, frame) as usize;
    if i >= runs.len() {
        return None;
    }
    let run = runs[i];
    if frame < run.first {
        return None;
    }
    let set = set_within(run.first, run.first + run.count, frame);
    let first = frame - frame % set.size;
    Some(Block {
        order: set.order,
        first,
        node: run.node,
        zone: zone_of(first),
    })
}
