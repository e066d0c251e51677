//! Changes the runs of free frames when frames become free or are allocated.
//!
//! A range of frames is inserted in a sorted list of runs, or cut from it, by one edit
//! (`run_edits`). Runs that touch and have one node become one run. The functions work on any
//! sorted list of runs; `Buddy` uses them.

ghost use Rattle.std.specs.Prelude.{◌≡◌, ◌+◌, ◌^◌, ◌<◌, ◌≤◌, vec_len, vec_capacity};
ghost use Rattle.address_runs.specs.Runs.{AreRuns, IsRunsOf, value_at};
ghost use Rattle.address_runs.specs.Edits.{replace_in_range, uncover_range, IsEmptyFrom};
ghost use Rattle.buddy_blocks.specs.BlockList.{set_around};

use bm_base::Range;
use buddy_blocks::{FrameRun, MAX_FRAMES};
use run_edits::{Replace, Uncover, edit_without_cover};

/// Makes the frames of the range free, on node `node`, whether they were free before or not. An
/// empty range changes nothing. The list must have room for two more runs. The call allocates
/// nothing, and looks only at runs that overlap or touch the range.
pub fn insert_frames(runs: &mut Vec<FrameRun>, frames: &Range, node: u32)
    requires low { frames.now.base + frames.now.size ≤ MAX_FRAMES }
    requires runs { AreRuns runs.old.items }
    requires within { IsEmptyFrom MAX_FRAMES (value_at runs.old.items) }
    requires room { vec_len runs.old + 2 ≤ vec_capacity runs.old }
    ensures runs { IsRunsOf
        (replace_in_range frames.now node (value_at runs.old.items)) runs.new.items }
    ensures within { IsEmptyFrom MAX_FRAMES (value_at runs.new.items) }
    ensures len { vec_len runs.new ≤ vec_len runs.old + 2 }
    ensures capacity { vec_capacity runs.old ≤ vec_capacity runs.new }
{
    if frames.size == 0 {
        return;
    }
    edit_without_cover(runs, frames, Replace(node));
}

/// Removes the frames of the range from the free frames. The range must not be empty, and the list
/// must have room for two more runs. The call allocates nothing, and looks only at runs that
/// overlap or touch the range.
pub fn remove_frames(runs: &mut Vec<FrameRun>, frames: &Range)
    requires some { 0 < frames.now.size }
    requires runs { AreRuns runs.old.items }
    requires within { IsEmptyFrom MAX_FRAMES (value_at runs.old.items) }
    requires room { vec_len runs.old + 2 ≤ vec_capacity runs.old }
    ensures runs { IsRunsOf (uncover_range frames.now (value_at runs.old.items)) runs.new.items }
    ensures within { IsEmptyFrom MAX_FRAMES (value_at runs.new.items) }
    ensures len { vec_len runs.new ≤ vec_len runs.old + 2 }
    ensures capacity { vec_capacity runs.old ≤ vec_capacity runs.new }
{
    edit_without_cover(runs, frames, Uncover);
}

/// Returns the aligned set of `2^order` frames that has `frame`, as a range of frames.
pub fn set_around(order: u32, frame: u64) -> Range
    requires small { order ≤ 10 }
    requires low { frame < MAX_FRAMES }
    ensures frames { result ≡ set_around order frame }
    ensures some { 0 < result.size }
{
    let size = 1 << order;
    Range {
        base: frame - frame % size,
        size,
    }
}
