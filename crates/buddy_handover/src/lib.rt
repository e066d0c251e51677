//! Hands memory over to the page allocator: at the end of the early boot, each frame of memory in
//! which no byte is reserved becomes free (`memblock_free_all`).
//!
//! [`hand_over`] reads memblock's two tables from the bytes in which they lie, in one pass. It
//! frees each frame that is memory, has a node, and has no reserved byte. The result is a
//! [`Buddy`]: the free frames, each with its node. [`Buddy::blocks`], [`Buddy::block_rows`],
//! [`Buddy::count`] and [`Buddy::block_of`] return its blocks (`buddy_blocks`).
//!
//! After the handover [`Buddy::free_frames`] frees more frames, [`Buddy::take`] allocates
//! `2^order` frames, and [`Buddy::put_back`] frees `2^order` frames.
//!
//! The kernel's lists have one entry for each block. Here the free frames are one ascending list
//! of runs. A run is one entry, however long it is. A call adds at most two entries, and
//! [`Buddy::ready`] makes room for them beforehand. Blocks are computed on request. The first
//! [`Buddy::take`] makes an index of them (`free_areas`).
//!
//! The layer above may rest on these facts. Contracts see the runs (`specs/BuddyView.antt`);
//! `node_of_free_frame` gives the node of each free frame. After a handover this node is what both
//! tables say of the frame (`free_node_in` of `memblock_frames`).
//!
//! A law is an empty function whose contract is a proven fact. In contracts, a name means the
//! definition in `specs/`, here or in a crate below.
#![tactic(auto)]

mod buddy;
mod cache;
mod handover;
mod runs;

pub use buddy::{Buddy, Take};
pub use buddy_blocks::{Block, BlockRow, MAX_FRAMES, MAX_ORDER};
pub use handover::hand_over;
