//! Computes the blocks of free frames: the content of the page allocator's free lists for a set of
//! free frames.
//!
//! The page allocator hands out blocks of 2^order frames, from order 0 to [`MAX_ORDER`]
//! (`struct free_area` of a zone). The number of a block's first frame is a multiple of 2^order.
//! The kernel cuts each free range greedily into blocks (`__free_pages_memory`), and merges a
//! block with its buddy as long as the buddy is free too (`__free_one_page`). The blocks that
//! result don't depend on the order of these steps, so they are defined without steps
//! (`specs/Frames.antt`). An aligned set of 2^order frames is *good* if all of them are free, on
//! one node and in one zone. The blocks are the good sets that are in no larger good set.
//!
//! The free frames are kept as runs ([`FrameRun`], `address_runs`): each run has as many
//! consecutive frames of one node as possible. Blocks are computed on request: 16 TiB of free
//! memory are one run, but four million blocks.
//!
//! - [`blocks_of`] lists all blocks, and [`block_rows`] lists them with equal consecutive blocks
//!   in one row.
//! - [`block_of`] finds the block that has a frame.
//! - [`count_blocks`] counts the blocks of a node, a zone and an order in a few steps for each
//!   run.
//!
//! `specs/BlockList.antt` defines the results, frame by frame. A law is an empty function whose
//! contract is a proven fact. [`listed_blocks_are_blocks`] and [`sets_lie_in_one_zone`] connect
//! these results with sets of frames. In contracts, a name means the definition in `specs/`.
//!
//! This crate also defines what the page allocator does with blocks: which block serves a request
//! (`specs/PickedBlock.antt`, [`picked_block_is_least`]), and how the blocks change when frames
//! are allocated and freed (`specs/Buddies.antt`, [`rest_of_block_is_buddies`]).
#![tactic(auto)]

mod block;
mod count;
mod laws;
mod list;
mod run;
mod set;

pub use block::{Block, BlockRow, MAX_ORDER};
pub use count::count_blocks;
pub use laws::{
    listed_blocks_are_blocks, picked_block_is_least, rest_of_block_is_buddies, sets_lie_in_one_zone,
};
pub use list::{block_of, block_rows, blocks_of};
pub use run::{FrameRun, MAX_FRAMES};
pub use set::zone_until;
