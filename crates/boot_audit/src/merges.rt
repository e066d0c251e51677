//! Finds the first block that could merge with its buddy. A block's *parent* is the block together
//! with its buddy: the aligned set of twice as many frames that contains it. A block could merge
//! if its order is below 10 and blocks of its node and zone cover the whole parent.
//!
//! The blocks ascend and are disjoint. A *run* consists of blocks of one node and zone without a
//! gap between them. For each block the loop knows the first frame of the run that ends with this
//! block, and so whether the parent's frames below the block are covered. For the frames above the
//! block it reads the next blocks up to the parent's end.

ghost use Rattle.std.specs.Prelude.{◌≡◌, ◌+◌, ◌^◌, ◌<◌, length, map};
ghost use Rattle.audit_lines.specs.Lines.{AscendApart};
ghost use Rattle.boot_audit.specs.Frames.{are_of_one_zone, could_merge, frames_of_block};
ghost use Rattle.boot_audit.specs.Verdicts.{first_line_passing};
ghost use Rattle.boot_audit.specs.Walk.{is_covered_up_to, is_next_in_run, could_merge_after_run, run_start};
ghost use Rattle.bm_base.specs.Range.{end_of};

use crate::blocks::{end_frame, first_frame, same_zone};
use audit_lines::BlockLine;

/// Returns the number of the first line, counted from 1, whose block could merge with its buddy:
/// its order is below 10, and blocks of its node and zone cover both the block and its buddy.
/// Returns `None` if there is no such line. The blocks must ascend and be disjoint, and there must
/// be fewer than 2^32.
pub fn first_mergeable(blocks: &[BlockLine]) -> Option<u32>
    requires order { AscendApart (map frames_of_block blocks.now) }
    requires few { length blocks.now < 2 ^ 32 }
    ensures { result ≡ first_line_passing (could_merge blocks.now) 1 blocks.now }
{
    let mut last = None;
    let mut from = 0;
    for (index, block) in blocks.iter().enumerate() {
        from = run_start(last, from, block);
        if could_merge_after_run(from, block, blocks.split_at(index + 1).1) {
            return Some(index as u32 + 1);
        }
        last = Some(*block);
    }
    None
}

/// Returns the number of the first frame of the run that ends with `block`. A run consists of
/// blocks of one node and zone without a gap between them. `last` is the block on the line before,
/// if there is one, and `from` is the first frame of the run that ends with `last`.
fn run_start(last: Option<BlockLine>, from: u64, block: &BlockLine) -> u64
    ensures { result ≡ run_start last from block.now }
{
    match last {
        Some(before) if is_next_in_run(&before, block) => from,
        _ => first_frame(block),
    }
}

/// Tests whether `block` begins where `before` ends, and has the same node and zone.
fn is_next_in_run(before: &BlockLine, block: &BlockLine) -> bool
    ensures { result ≡ is_next_in_run before.now block.now }
{
    end_frame(before) == first_frame(block) && are_of_one_zone(before, block)
}

/// Tests whether the blocks have the same node and zone.
fn are_of_one_zone(first: &BlockLine, second: &BlockLine) -> bool
    ensures { result ≡ are_of_one_zone first.now second.now }
{
    first.node == second.node && same_zone(first.zone, second.zone)
}

/// Tests whether the block could merge with its buddy. `from` is the first frame of the run
/// (blocks of one node and zone without a gap) that ends with the block, and `others` are the
/// blocks on the lines after it.
fn could_merge_after_run(from: u64, block: &BlockLine, others: &[BlockLine]) -> bool
    ensures { result ≡ could_merge_after_run from block.now others.now }
{
    if block.order >= 10 {
        return false;
    }
    let size: u64 = 1 << (block.order + 1);
    let first = first_frame(block);
    let parent = first - first % size;
    from <= parent && is_covered_up_to(block, parent + size, others)
}

/// Tests whether the blocks `others` cover all frames from the end of `block` up to but not
/// including frame `until`. Only blocks of the node and zone of `block` count.
fn is_covered_up_to(block: &BlockLine, until: u64, others: &[BlockLine]) -> bool
    ensures { result
        ≡ is_covered_up_to block.now (end_of (frames_of_block block.now)) until others.now }
{
    let mut at = end_frame(block);
    for other in others {
        if until <= at {
            return true;
        }
        if first_frame(other) != at || !are_of_one_zone(block, other) {
            return false;
        }
        at = end_frame(other);
    }
    until <= at
}
