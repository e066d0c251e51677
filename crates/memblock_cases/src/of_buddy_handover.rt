//! Tests of `buddy_handover`: handovers of whole machines, and frames that are freed in different
//! orders. All expected numbers come from outside this project.
ghost use Rattle.std.specs.Prelude.{◌≡◌, ◌+◌, ◌^◌, ◌<◌, ◌≤◌, None};

use crate::ranges::{IN_TURN, MACHINE};
use crate::tables::{cover, tables_of};
use bm_base::{FRAME_SIZE, Memory, Zone};
use buddy_handover::{Block, BlockRow, Buddy, MAX_FRAMES, hand_over};
use memblock_frames::{has_records, has_whole_frames};
use memblock_model::Which;
use memblock_ranges::Heads;
use phys_store::Store;
use std::alloc::Global;
use std::process::Abort;
use std::test::Fail;

// Hands the free frames of both tables over to the page allocator, or fails if the bytes at the
// heads of the tables aren't records.
fn hand_over_or_fail(alloc: Global, store: &Store, heads: &Heads) -> Result<Buddy, Fail> {
    if has_records(store, &heads.memory, FRAME_SIZE * MAX_FRAMES)
        && has_records(store, &heads.reserved, u64::MAX)
        && has_whole_frames(store, &heads.memory)
    {
        let buddy = hand_over(alloc, store, heads)?;
        return Ok(buddy);
    }
    Err("records".into())
}

// Returns the number of blocks of each order, on this node and in this zone.
fn counts(buddy: &Buddy, node: u32, zone: Zone) -> [u64; 11] {
    let mut counts = [0; 11];
    for order in 0..11 {
        counts[order] = buddy.count(node, zone, order as u32);
    }
    counts
}

// Frees the frames. Returns false if one of them is free already, or is above `MAX_FRAMES`.
fn free(buddy: &mut Buddy, first: u64, count: u64, node: u32) -> Result<bool, Memory> {
    if first > MAX_FRAMES || count > MAX_FRAMES - first {
        return Ok(false);
    }
    for frame in first..first + count {
        if buddy.block_of(frame).is_some() {
            return Ok(false);
        }
    }
    buddy.free_frames(first, count, node)?;
    Ok(true)
}

// A node, a zone, and the number of blocks of each order.
type Counts = (u32, Zone, [u64; 11]);

fn compare_counts(rt: &impl Abort, buddy: &Buddy, rows: &[Counts]) {
    for (node, zone, expected) in rows {
        assert!(rt;
            counts(buddy, *node, *zone) == *expected,
            "node {node}, {zone:?}"
        );
    }
}

fn compare_blocks(rt: &impl Abort, buddy: &Buddy, rows: &[(u64, Option<Block>)]) {
    for (frame, block) in rows {
        assert!(rt; buddy.block_of(*frame) == *block, "frame {frame:#x}");
    }
}

fn compare_ends(rt: &impl Abort, blocks: &[Block], many: usize, ends: [Block; 2]) {
    let [first, last] = ends;
    assert!(rt; blocks.len() == many);
    assert!(rt;
        blocks.first() == Some(&first) && blocks.last() == Some(&last),
        "{blocks:?}"
    );
}

// Compares the number of blocks, the first block and the last one with the expected values.
fn compare_list(
    rt: &impl Abort,
    buddy: &Buddy,
    many: usize,
    ends: [Block; 2],
) -> Result<(), Memory> {
    let blocks = buddy.blocks()?;
    compare_ends(rt, &blocks, many, ends);
    Ok(())
}

// The ranges of a virtual machine of 128 MiB that are reserved at the end of its boot.
const RESERVED: [(u64, u64); 5] = [
    (0, 0x100000),
    (0x1000000, 0x3000000),
    (0x7C00000, 0x7E00000),
    (0x7FAFFC0, 0x7FAFFE8),
    (0x7FB0000, 0x7FE0000),
];

// A virtual machine of 128 MiB, with its kernel at 16 MiB: the numbers of its `/proc/buddyinfo`,
// and blocks at both ends.
#[test]
fn a_virtual_machine_of_128_mib(rt: HostRuntime) -> Result<(), Fail> {
    let (store, heads) = tables_of(rt.alloc(), &MACHINE, &RESERVED)?.into_parts();
    let buddy = hand_over_or_fail(rt.alloc(), &store, &heads)?;
    let expected = [
        (0, Zone::Dma, [0, 0, 0, 0, 0, 0, 0, 0, 1, 1, 3]),
        (0, Zone::Dma32, [1, 1, 1, 1, 0, 1, 0, 1, 1, 0, 19]),
        (0, Zone::Normal, [0; 11]),
        (1, Zone::Dma32, [0; 11]),
    ];
    compare_counts(&rt, &buddy, &expected);
    let first = Block {
        order: 8,
        first: 0x100,
        node: 0,
        zone: Zone::Dma,
    };
    let last = Block {
        order: 0,
        first: 0x7FAE,
        node: 0,
        zone: Zone::Dma32,
    };
    compare_list(&rt, &buddy, 31, [first, last])?;
    let expected = [
        (0x1FF, Some(first)),
        (0x7FAE, Some(last)),
        (0x7FAF, None),
        (0, None),
    ];
    compare_blocks(&rt, &buddy, &expected);
    Ok(())
}

// The same machine with a node border inside a set of 1,024 frames, which are free on both sides
// of it.
//
//     0x4000000 ..node 0.. 0x4100000 ..node 1.. 0x4400000
#[test]
fn a_node_border_inside_a_set(rt: HostRuntime) -> Result<(), Fail> {
    let mut tables = tables_of(rt.alloc(), &IN_TURN, &RESERVED)?;
    assert!(rt; cover(&mut tables, Which::Reserved, 0x5FD5000, 0x2B000, 1024));
    let (store, heads) = tables.into_parts();
    let buddy = hand_over_or_fail(rt.alloc(), &store, &heads)?;
    let expected = [
        (0, Zone::Dma32, [1, 1, 1, 1, 0, 1, 0, 1, 2, 0, 11]),
        (1, Zone::Dma32, [1, 0, 1, 0, 1, 0, 1, 1, 2, 2, 6]),
    ];
    compare_counts(&rt, &buddy, &expected);
    let below = Block {
        order: 8,
        first: 0x4000,
        node: 0,
        zone: Zone::Dma32,
    };
    let above = Block {
        order: 8,
        first: 0x4100,
        node: 1,
        zone: Zone::Dma32,
    };
    compare_blocks(&rt, &buddy, &[(0x40FF, Some(below)), (0x4100, Some(above))]);
    Ok(())
}

// Frees the two halves of a block, in this order.
fn free_halves(
    rt: &impl Abort,
    buddy: &mut Buddy,
    first: u64,
    second: u64,
    whole: Block,
) -> Result<(), Memory>
    requires { first + 0x1FF < 2 ^ 64 }
{
    assert!(rt; free(buddy, first, 0x200, 5)?);
    assert!(rt; !free(buddy, first + 0x1FF, 1, 5)?);
    assert!(rt; buddy.block_of(second).is_none());
    assert!(rt; free(buddy, second, 0x200, 5)?);
    compare_blocks(rt, buddy, &[(first, Some(whole)), (second, Some(whole))]);
    compare_list(rt, buddy, 1, [whole, whole])
}

// Two adjacent ranges of free frames become one block, whichever is freed first. Room for 32
// entries is made before, so neither call allocates.
#[test]
fn ranges_that_meet(rt: HostRuntime) -> Result<(), Fail> {
    let whole = Block {
        order: 10,
        first: 0x2000,
        node: 5,
        zone: Zone::Dma32,
    };
    for (first, second) in [(0x2000, 0x2200), (0x2200, 0x2000)] {
        let mut buddy = Buddy::new(rt.alloc());
        buddy.ready(32)?;
        free_halves(&rt, &mut buddy, first, second, whole)?;
    }
    Ok(())
}

// Tests for each row, a frame and a zone, that the frame is a block of order 0 in this zone.
fn compare_zones(rt: &impl Abort, buddy: &Buddy, rows: &[(u64, Zone)]) {
    for (frame, zone) in rows {
        let block = buddy.block_of(*frame).map(|b| (b.order, b.zone));
        assert!(rt; block == Some((0, *zone)), "frame {frame:#x}");
    }
}

// The borders of zones: DMA ends at 16 MiB, DMA32 at 4 GiB.
#[test]
fn borders_of_zones(rt: HostRuntime) -> Result<(), Fail> {
    let mut buddy = Buddy::new(rt.alloc());
    assert!(rt; free(&mut buddy, 0xFFF, 2, 0)?);
    assert!(rt; free(&mut buddy, 0xFFFFF, 2, 0)?);
    let expected = [
        (0xFFF, Zone::Dma),
        (0x1000, Zone::Dma32),
        (0xFFFFF, Zone::Dma32),
        (0x100000, Zone::Normal),
    ];
    compare_zones(&rt, &buddy, &expected);
    Ok(())
}

// Frees the frame, on node 0. Returns false if it is free already.
fn give_back(buddy: &mut Buddy, frame: u64) -> Result<bool, Memory> {
    if frame >= MAX_FRAMES || buddy.block_of(frame).is_some() {
        return Ok(false);
    }
    buddy.put_back(frame, 0, 0)?;
    Ok(true)
}

// Returns a row of `count` consecutive blocks of node 0 in zone DMA.
fn row(order: u32, first: u64, count: u64) -> BlockRow {
    BlockRow {
        order,
        first,
        count,
        node: 0,
        zone: Zone::Dma,
    }
}

// A frame that is freed is merged with its free buddy, and so on upward. Consecutive blocks of
// order 10, the greatest, are one row.
#[test]
fn frames_that_come_back(rt: HostRuntime) -> Result<(), Fail> {
    let mut buddy = Buddy::new(rt.alloc());
    assert!(rt; free(&mut buddy, 0x400, 0x800, 0)?);
    let great = row(10, 0x400, 2);
    let cases: [(u64, &[BlockRow]); 4] = [
        (0x101, &[row(0, 0x101, 1), great]),
        (0x103, &[row(0, 0x101, 1), row(0, 0x103, 1), great]),
        (0x102, &[row(0, 0x101, 1), row(1, 0x102, 1), great]),
        (0x100, &[row(2, 0x100, 1), great]),
    ];
    for (frame, rows) in cases {
        assert!(rt; give_back(&mut buddy, frame)?);
        assert!(rt; buddy.block_rows()?.as_slice() == rows, "frame {frame:#x}");
    }
    Ok(())
}
