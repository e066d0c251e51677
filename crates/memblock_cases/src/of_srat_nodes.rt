//! Cases of small machines: what `judge_srat` returns for their SRAT, and the reasons why a SRAT
//! isn't used.
ghost use Rattle.std.specs.Prelude.{◌^◌, ◌<◌, length};

use crate::domains::{block, table};
use crate::ranges::{MACHINE, between};
use address_runs::RunOf;
use srat_nodes::{NodeRange, SratNodes, Why, judge_srat};
use srat_reader::SratBlock;
use std::alloc::Global;
use std::test::Fail;

/// Returns the addresses from `from` to below `until` as a range of this node.
fn in_node(node: u32, from: u64, until: u64) -> NodeRange
    requires { from < until }
{
    let range = between(from, until);
    RunOf { range, value: node }
}

/// Returns what `judge_srat` says of an SRAT with these memory blocks, on a machine of 128 MiB
/// whose last 32 frames aren't memory.
fn judge_blocks(alloc: Global, blocks: &[SratBlock]) -> Result<SratNodes, Fail>
    requires { length blocks.now < 2 ^ 32 }
{
    let srat = table(alloc, &[], blocks)?;
    let [(low, low_end, _), (high, high_end, _)] = MACHINE;
    let memory = [between(low, low_end), between(high, high_end)];
    Ok(judge_srat(alloc, &memory, Some(&srat), false)?)
}

// Node 0 is on both sides of the hole below 4 GiB, and node 1 is above it. The domain that a
// processor names first is node 0.
#[test]
fn two_nodes_and_a_hole(rt: HostRuntime) -> Result<(), Fail> {
    let memory = [
        between(0x1000, 0x9f000),
        between(0x10_0000, 0xc000_0000),
        between(0x1_0000_0000, 0x2_4000_0000),
    ];
    let blocks = [
        block(2, 0x1_4000_0000, 0x2_4000_0000),
        block(5, 0, 0xa0000),
        block(5, 0x10_0000, 0xc000_0000),
        block(5, 0x1_0000_0000, 0x1_4000_0000),
        block(9, 0x4_0000_0000, 0x5_0000_0000),
    ];
    let srat = table(rt.alloc(), &[5, 5], &blocks)?;
    let found = judge_srat(rt.alloc(), &memory, Some(&srat), false)?;
    assert!(rt; found.why == Why::Used);
    assert!(rt; found.domains.as_slice() == [5, 2, 9].as_slice());
    let joined = [
        in_node(0, 0, 0x1_4000_0000),
        in_node(1, 0x1_4000_0000, 0x2_4000_0000),
    ];
    assert!(rt; found.joined.as_slice() == joined.as_slice());
    assert!(rt; found.rest.is_empty());
    Ok(())
}

// A block of node 1 is between two of node 0. The hull of node 0's blocks therefore isn't node 0's
// alone, and the memory around the block of node 1 has no node.
#[test]
fn another_node_in_between(rt: HostRuntime) -> Result<(), Fail> {
    let blocks = [
        block(0, 0, 0x300_0000),
        block(1, 0x310_0000, 0x320_0000),
        block(0, 0x320_0000, 0x800_0000),
    ];
    let found = judge_blocks(rt.alloc(), &blocks)?;
    assert!(rt; found.why == Why::NotCovered { frames: 256 });
    assert!(rt; found.joined.is_empty());
    let covered = [
        block(0, 0, 0x300_0000),
        block(1, 0x300_1000, 0x320_0000),
        block(0, 0x320_0000, 0x800_0000),
    ];
    let found = judge_blocks(rt.alloc(), &covered)?;
    assert!(rt; found.why == Why::Used);
    assert!(rt; found.rest.as_slice() == [in_node(0, 0x300_0000, 0x300_1000)].as_slice());
    assert!(rt; found.uncovered == 1);
    Ok(())
}

// The reasons why a SRAT isn't used on a machine of 128 MiB, each with its numbers.
#[test]
fn reasons(rt: HostRuntime) -> Result<(), Fail> {
    let cases = [
        (
            [block(0, 0, 0x400_0000), block(1, 0x300_0000, 0x800_0000)],
            Why::Overlap { i: 0, j: 1 },
            0,
        ),
        (
            [block(0, 0, 0x7ee_0000), block(0, 0, 0)],
            Why::NotCovered { frames: 256 },
            0,
        ),
        ([block(0, 0, 0x7ee_1000), block(0, 0, 0)], Why::Used, 255),
        (
            [
                block(0, 0x10_0000, 0x400_0000),
                block(1, 0x400_0000, 0x800_0000),
            ],
            Why::Used,
            158,
        ),
        (
            [block(0, 0, 0xfff), block(1, 0xa_0000, 0x10_0fff)],
            Why::NoBlocks,
            0,
        ),
        (
            [
                block(0, 0x800_0000, 0x900_0000),
                block(1, 0x7fd_ffff, 0x7fe_0fff),
            ],
            Why::NotCovered { frames: 32637 },
            0,
        ),
    ];
    for (blocks, why, uncovered) in &cases {
        let found = judge_blocks(rt.alloc(), blocks)?;
        assert!(rt; found.why == *why);
        assert!(rt; found.uncovered == *uncovered);
    }
    Ok(())
}
