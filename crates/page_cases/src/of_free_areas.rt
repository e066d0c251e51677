//! An index of two free blocks: a frame is allocated from the first block and freed again. The
//! expected values were worked out by hand from the kernel's `expand` and `__free_one_page`.

use bm_base::{Memory, Zone};
use buddy_blocks::{Block, FrameRun};
use free_areas::Areas;
use std::alloc::Global;
use std::test::Fail;

// Returns the index of the free blocks from 1 MiB to 4 MiB, of node 0: a block of order 8 and a
// block of order 9.
fn three_mebibytes(alloc: Global) -> Result<Areas, Memory> {
    let run = FrameRun {
        first: 0x100,
        count: 0x300,
        node: 0,
    };
    Areas::index_free_runs(alloc, &[run])
}

// Returns, for a request of each order from 0 to 10, the order and the first frame of the free
// block from which it would be served, or `None` if no block is large enough.
fn served(areas: &Areas) -> [Option<(u32, u64)>; 11] {
    let mut served = [None; 11];
    for order in 0..11 {
        let block = areas.find_picked_block(0, Zone::Dma, order as u32);
        served[order] = block.map(|block| (block.order, block.first));
    }
    served
}

#[test]
fn a_frame_leaves_and_comes_back(rt: HostRuntime) -> Result<(), Fail> {
    let mut areas = three_mebibytes(rt.alloc())?;
    let low = Some((8, 0x100));
    let high = Some((9, 0x200));
    let whole = [low, low, low, low, low, low, low, low, low, high, None];
    assert!(rt; served(&areas) == whole);
    let first = Block {
        node: 0,
        zone: Zone::Dma,
        order: 8,
        first: 0x100,
    };
    let second = Block {
        order: 9,
        first: 0x200,
        ..first
    };
    areas.split_block(&first, Some(second), 0, 0x100)?;
    let buddies = [
        Some((0, 0x101)),
        Some((1, 0x102)),
        Some((2, 0x104)),
        Some((3, 0x108)),
        Some((4, 0x110)),
        Some((5, 0x120)),
        Some((6, 0x140)),
        Some((7, 0x180)),
        high,
        high,
        None,
    ];
    assert!(rt; served(&areas) == buddies);
    areas.merge_block(&first, 0, 0x100)?;
    assert!(rt; served(&areas) == whole);
    Ok(())
}
