//! Tests of a single line of the report `blocks`: the block's address is a multiple of its size,
//! and its frames are in the zone that the line names.

ghost use Rattle.std.specs.Prelude.{◌≡◌, ◌^◌, ◌<◌, length, not};
ghost use Rattle.boot_audit.specs.Frames.{frames_of_block, is_aligned, is_in_zone, same_zone};
ghost use Rattle.boot_audit.specs.Verdicts.{first_line_passing};
ghost use Rattle.bm_base.specs.Range.{end_of};

use audit_lines::BlockLine;
use bm_base::{FRAME_SIZE, Zone, zone_of};

/// Returns the number of the first line, counted from 1, whose block's address isn't a multiple of
/// the block's size in bytes. Returns `None` if there is no such line. There must be fewer than
/// 2^32 blocks.
pub fn first_misaligned(blocks: &[BlockLine]) -> Option<u32>
    requires { length blocks.now < 2 ^ 32 }
    ensures { result ≡ first_line_passing (λ b. not (is_aligned b)) 1 blocks.now }
{
    for (index, block) in blocks.iter().enumerate() {
        if !is_aligned(block) {
            return Some(index as u32 + 1);
        }
    }
    None
}

/// Returns the number of the first line, counted from 1, whose block has a frame outside the zone
/// that the line names. Returns `None` if there is no such line. There must be fewer than 2^32
/// blocks.
pub fn first_in_wrong_zone(blocks: &[BlockLine]) -> Option<u32>
    requires { length blocks.now < 2 ^ 32 }
    ensures { result ≡ first_line_passing (λ b. not (is_in_zone b)) 1 blocks.now }
{
    for (index, block) in blocks.iter().enumerate() {
        if !is_in_zone(block) {
            return Some(index as u32 + 1);
        }
    }
    None
}

fn is_aligned(block: &BlockLine) -> bool
    ensures { result ≡ is_aligned block.now }
{
    block.at % (FRAME_SIZE << block.order) == 0
}

/// Tests whether each frame of the block is in the zone that its line names. A zone is one range
/// of frames, so it is enough to test the first and the last frame.
fn is_in_zone(block: &BlockLine) -> bool
    ensures { result ≡ is_in_zone block.now }
{
    let first = first_frame(block);
    let last = end_frame(block) - 1;
    same_zone(zone_of(first), block.zone) && same_zone(zone_of(last), block.zone)
}

/// Tests whether the two zones are the same.
pub fn same_zone(first: Zone, second: Zone) -> bool
    ensures { result ≡ same_zone first second }
{
    match first {
        Zone::Dma => second == Zone::Dma,
        Zone::Dma32 => second == Zone::Dma32,
        Zone::Normal => second == Zone::Normal,
    }
}

/// Returns the number of the block's first frame: its address divided by 4096.
pub fn first_frame(block: &BlockLine) -> u64
    ensures value { result ≡ (frames_of_block block.now).base }
    ensures small { result < 2 ^ 52 }
{
    block.at / FRAME_SIZE
}

/// Returns the number of the frame after the block's last one.
pub fn end_frame(block: &BlockLine) -> u64
    ensures value { result ≡ end_of (frames_of_block block.now) }
    ensures after { (frames_of_block block.now).base < result }
    ensures small { result < 2 ^ 53 }
{
    block.at / FRAME_SIZE + (1 << block.order)
}
