//! Keeps the free blocks of the page allocator in an index, by node, zone, order and first frame.
//!
//! The kernel keeps a list of blocks for each order of each zone (`struct free_area`), so that it
//! can serve a request without searching memory. Here the free frames are kept as runs
//! (`buddy_blocks`), together with an index, [`Areas`]: an ordered set of blocks. The block for a
//! request is the first one from a certain key on ([`Areas::find_picked_block`]).
//! [`Areas::split_block`] updates the index when a set of frames is taken from a block (`expand`),
//! and [`Areas::merge_block`] when such a set is freed (`__free_one_page`). Both calls look only
//! at the blocks that change.
//!
//! If blocks of the largest order follow one another on one node and in one zone, the index needs
//! only the first of them. For 16 TiB in one piece it has one key, and not four million.
//!
//! `specs/Areas.antt` defines when a list of blocks is the index of a set of free frames. The
//! layer above may rest on that definition alone. In contracts, a name means the definition in
//! `specs/`, here or in `buddy_blocks`.
#![tactic(auto)]

mod areas;
mod index;

pub use areas::Areas;
