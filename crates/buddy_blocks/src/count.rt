//! Counts the blocks of a node, a zone and an order, without listing them. Nearly all blocks of a
//! long run are of the largest order, and those are counted at once.

ghost use Rattle.std.specs.Prelude.{◌≡◌, ◌≢◌, ◌⊎◌, ◌↔◌, ℕ, IsTrue, ◌+◌, ◌-◌, ◌*◌, ◌%◌, ◌<◌, ◌≤◌, count_by};
ghost use Rattle.bm_base.specs.Zones.{zone_of};
ghost use Rattle.address_runs.specs.Runs.{AreRuns, value_at};
ghost use Rattle.address_runs.specs.Edits.{IsEmptyFrom};
ghost use Rattle.buddy_blocks.specs.Frames.{Frames};
ghost use Rattle.buddy_blocks.specs.BlockList.{blocks_from, is_block_of, count_blocks};
ghost use Rattle.buddy_blocks.specs.Sets.{IsWholeNodeRun};

use crate::block::MAX_ORDER;
use crate::run::{FrameRun, MAX_FRAMES};
use crate::set::{AlignedSet, MAX_BLOCK_FRAMES, set_within, zone_until};
use bm_base::{Zone, zone_of};

/// Returns the number of blocks on this node, in this zone and of this order. The call allocates
/// nothing. It takes about twenty steps for each run of the node. The runs must be ascending and
/// not empty, and two runs that touch must be of different nodes. All frames must be below
/// [`MAX_FRAMES`].
pub fn count_blocks(runs: &[FrameRun], node: u32, zone: Zone, order: u32) -> u64
    requires runs { AreRuns runs.now }
    requires low { IsEmptyFrom MAX_FRAMES (value_at runs.now) }
    ensures { result ≡ count_blocks (value_at runs.now) node zone order }
{
    let mut total = 0;
    for run in runs {
        if run.node == node {
            total += count_blocks_in_run(run.first, run.first + run.count, zone, order);
        }
    }
    total
}

/// Returns the number of blocks in this zone and of this order that lie in one run of free frames,
/// from frame `first` to below `end`.
fn count_blocks_in_run(first: u64, end: u64, zone: Zone, order: u32) -> u64
    requires { first ≤ end }
    ensures few { result ≤ end - first }
    ensures count { (f : Frames) (n : ℕ) → IsWholeNodeRun f first end n →
        result ≡ count_by (is_block_of n zone order) (blocks_from f first (end - first)) }
{
    let mut total = 0;
    let mut at = first;
    while at < end {
        let set = set_within(first, end, at);
        let blocks = count_equal_blocks(at, end, set);
        if has_order_and_zone(set, at, zone, order) {
            total += blocks;
        }
        at += blocks * set.size;
    }
    total
}

/// Tests whether the set has the order `order`, and frame `at`, where it begins, is in the zone
/// `zone`.
fn has_order_and_zone(set: AlignedSet, at: u64, zone: Zone, order: u32) -> bool
    ensures { IsTrue result ↔ (set.order ≡ order) × (zone_of at ≡ zone) }
{
    set.order == order && zone_of(at) == zone
}

/// Returns the number of consecutive blocks of the set's order from frame `at` on that lie in the
/// zone of `at` and below frame `end`. For the largest order these are as many as fit below the
/// end of the zone and below `end`. For any other order the number is 1.
pub fn count_equal_blocks(at: u64, end: u64, set: AlignedSet) -> u64
    requires small { set.order ≤ 10 }
    requires size { set.order ≡ 10 → set.size ≡ 1024 }
    requires start { set.order ≡ 10 → at % 1024 ≡ 0 }
    requires room { at + set.size ≤ end }
    ensures some { 0 < result }
    ensures single { (set.order ≡ 10) ⊎ (result ≡ 1) }
    ensures room { at + result * set.size ≤ end }
    ensures zone { (i : ℕ) → i < result → zone_of (at + i * set.size) ≡ zone_of at }
    ensures most { set.order ≡ 10 →
        (end < at + (result + 1) * set.size) ⊎ (zone_of (at + result * set.size) ≢ zone_of at) }
{
    if set.order < MAX_ORDER {
        return 1;
    }
    (zone_until(at, end) - at) / MAX_BLOCK_FRAMES
}
