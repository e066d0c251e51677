//! A block in the page allocator's free lists, and a row of equal consecutive blocks.

use bm_base::Zone;

/// The largest order of a block (`MAX_ORDER - 1` of Linux 6.1): 1,024 frames, 4 MiB.
pub const MAX_ORDER: u32 = 10;

/// A block of `2^order` free frames, all on one node and in one zone. The number of its first
/// frame is a multiple of `2^order`. Blocks are ordered by node, zone, order and first frame, as
/// the page allocator's lists are nested (`struct pglist_data`, `struct zone`, `struct
/// free_area`).
#[derive(Clone, Copy, Debug, PartialEq, Eq, PartialOrd, Ord)]
pub struct Block {
    pub node: u32,
    pub zone: Zone,
    /// The order, from 0 to [`MAX_ORDER`].
    pub order: u32,
    /// The number of the first frame.
    pub first: u64,
}

/// Consecutive blocks of the same order, node and zone. A large free range has only a few rows,
/// since nearly all of its blocks are of the largest order.
#[derive(Clone, Copy, Debug, PartialEq, Eq)]
pub struct BlockRow {
    /// The order of each block, from 0 to [`MAX_ORDER`].
    pub order: u32,
    /// The number of the first frame of the first block.
    pub first: u64,
    /// The number of blocks.
    pub count: u64,
    pub node: u32,
    pub zone: Zone,
}
