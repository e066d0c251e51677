//! Counts usable frames along the runs of a map. Runs of memory that touch form one stretch, and
//! the whole frames of each stretch are counted. One pass over the runs is enough, however many
//! frames they have.

ghost use Rattle.std.specs.Prelude.{◌≡◌, ℕ, ◌+◌, ◌-◌, ◌*◌, ◌^◌, ◌<◌, ◌≤◌};
ghost use Rattle.address_runs.specs.Ascend.{Ascend};
ghost use Rattle.address_runs.specs.Runs.{value_at};
ghost use Rattle.e820_model.specs.Usable.{count_whole_frames, is_memory, types_below, usable_frames};

use bm_base::FRAME_SIZE;
use e820_model::{E820_TYPE_RAM, E820_TYPE_RESERVED_KERN, Run};

/// Tests whether this type (`enum e820_type`) is memory: RAM, or memory that the kernel itself
/// uses.
pub fn is_memory(kind: u32) -> bool
    ensures { result ≡ is_memory (Some kind) }
{
    kind == E820_TYPE_RAM || kind == E820_TYPE_RESERVED_KERN
}

/// Returns the number of frames that begin at or above `from` and end at or below `until`.
fn count_whole_frames(from: u64, until: u64) -> u64
    ensures value { result ≡ count_whole_frames from until }
    ensures few { FRAME_SIZE * result ≤ until - from }
{
    let first = from.div_ceil(FRAME_SIZE);
    let end = until / FRAME_SIZE;
    end.saturating_sub(first)
}

/// Returns the number of usable frames of a map: frames of 4,096 bytes that lie wholly below
/// `limit` and in memory (`e820__memblock_setup`, `memblock_trim_memory`).
///
/// `limit` is the first address that the kernel can't use, in bytes; it may lie inside a frame.
/// `runs` must ascend; runs that touch may have the same type.
pub fn usable_frames(runs: &[Run], limit: u64) -> u64
    requires { Ascend runs.now }
    ensures { result ≡ usable_frames (types_below limit (value_at runs.now)) }
{
    let mut frames = 0;
    // the current stretch of memory: its first address, and the address after its last
    let mut from = 0;
    let mut until = 0;
    for run in runs {
        if is_memory(run.kind) {
            if run.range.base != until {
                frames += count_whole_frames(from, until.min(limit));
                from = run.range.base;
            }
            until = run.range.end();
        }
    }
    frames + count_whole_frames(from, until.min(limit))
}
