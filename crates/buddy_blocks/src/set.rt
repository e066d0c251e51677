//! Finds the largest aligned set of frames that has a given frame and fits into a run of free
//! frames. This set is the block of the frame. An aligned set of free frames on one node lies in
//! one run, and its frames are in one zone, since zones end at multiples of the largest block.

ghost use Rattle.std.specs.Prelude.{◌≡◌, ◌^◌, ◌<◌, ◌≤◌, ◌↔◌, IsTrue, ◌≢◌, ◌⊎◌, ℕ, ◌+◌, ◌%◌};
ghost use Rattle.buddy_blocks.specs.Sets.{SetFits, IsGreatestFittingOrder};
ghost use Rattle.bm_base.specs.Zones.{zone_of};

use crate::block::MAX_ORDER;
use bm_base::{MAX_DMA_FRAME, MAX_DMA32_FRAME};

/// The number of frames in a block of the largest order.
pub const MAX_BLOCK_FRAMES: u64 = 1 << MAX_ORDER;

/// An aligned set of `2^order` frames: the number of its first frame is a multiple of `2^order`.
/// The first frame isn't recorded here.
#[derive(Clone, Copy)]
pub struct AlignedSet {
    pub order: u32,
    /// The number of frames: `2^order`.
    pub size: u64,
}

/// Tests whether the aligned set of `size` frames that has this frame lies between `first` and
/// `end`; `end` is excluded.
fn set_lies_within(first: u64, end: u64, frame: u64, size: u64) -> bool
    requires some { 0 < size }
    requires below { frame < end }
    ensures { IsTrue result ↔ SetFits first end frame size }
{
    let base = frame - frame % size;
    first <= base && size <= end - base
}

/// Returns the largest aligned set that has this frame and lies between `first` and `end`; `end`
/// is excluded. Its order is at most [`MAX_ORDER`]. A set of one frame always fits.
pub fn set_within(first: u64, end: u64, frame: u64) -> AlignedSet
    requires above { first ≤ frame }
    requires below { frame < end }
    ensures small { result.order ≤ 10 }
    ensures size { result.size ≡ 2 ^ result.order }
    ensures fits { SetFits first end frame result.size }
    ensures greatest { IsGreatestFittingOrder first end frame result.order }
{
    let mut order = MAX_ORDER;
    let mut size = MAX_BLOCK_FRAMES;
    while !set_lies_within(first, end, frame, size) {
        order -= 1;
        size /= 2;
    }
    AlignedSet { order, size }
}

/// Returns the first frame after the zone of `frame`, or `end` if that is lower. `frame` must be
/// below `end`. Zones end at multiples of 1,024 frames, the size of the largest block.
pub fn zone_until(frame: u64, end: u64) -> u64
    requires { frame < end }
    ensures some { frame < result }
    ensures within { result ≤ end }
    ensures room { frame % 1024 ≡ 0 → frame + 1024 ≤ end → frame + 1024 ≤ result }
    ensures last { (result ≡ end) ⊎ (zone_of result ≢ zone_of frame) }
    ensures zone { (x : ℕ) → frame ≤ x → x < result → zone_of x ≡ zone_of frame }
{
    if frame < MAX_DMA_FRAME {
        return end.min(MAX_DMA_FRAME);
    }
    if frame < MAX_DMA32_FRAME {
        return end.min(MAX_DMA32_FRAME);
    }
    end
}
