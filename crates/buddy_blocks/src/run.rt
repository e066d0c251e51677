//! The record in which free frames are kept: consecutive frames and their node.

use address_runs::ValuedRange;
use bm_base::Range;
use std::marker::Model;

/// All frame numbers are below this limit, since addresses have at most 52 bits.
pub const MAX_FRAMES: u64 = 1 << 40;

/// Consecutive free frames of one node. In a canonical list each run is as long as possible.
#[derive(Clone, Copy, Debug, PartialEq, Eq)]
pub struct FrameRun {
    /// The number of the first frame.
    pub first: u64,
    /// The number of frames.
    pub count: u64,
    pub node: u32,
}

impl Model for FrameRun {
    ghost use Rattle.std.specs.Prelude.{ℕ, ◌+◌, ◌^◌, ◌<◌};
    ghost use Rattle.address_runs.specs.Runs.{RunOf};

    ghost Value = { RunOf ℕ };

    ghost view = { λ r. record { base = r.first; size = r.count; value = r.node } };

    ghost invariant = { λ r. r.first + r.count < 2 ^ 64 };

    ghost inverse = { λ r. record { first = r.base; count = r.size; node = r.value } };
}

/// A run of frames is used like a run of addresses, with frame numbers in place of addresses.
impl ValuedRange for FrameRun {
    type Value = u32;

    ghost run = { λ r. r };

    fn of(range: Range, node: u32) -> FrameRun {
        FrameRun {
            first: range.base,
            count: range.size,
            node,
        }
    }

    fn range(&self) -> Range {
        Range {
            base: self.first,
            size: self.count,
        }
    }

    fn value(&self) -> u32 {
        self.node
    }

    fn is_same(first: u32, second: u32) -> bool {
        first == second
    }
}
