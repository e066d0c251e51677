//! States where each frame is after a boot that isn't stopped, without mentioning the boot's
//! stages.
//!
//! A usable frame is touched by a claim that the journal records with its owner, or it lies in
//! exactly one block of the buddy lists, and never both. No other frame lies in a block. Each block
//! is aligned, lies in one node and one zone, and is as large as possible.
//!
//! - `specs/RecordedClaims.antt`: the claims that are still in force at the end, and the frames
//!   they touch.
//! - `specs/Headline.antt`: the four facts, over the inputs of a boot and what it reports.
//! - `specs/ByMap.antt`: which frames are usable, judged by the map that a boot reports.
//! - `specs/FramePlacesAfterPages.antt`: the place of each frame that was handed over, after the
//!   page script.
//!
//! Usable frames are those of the finished map (`e820_model`). Owners are those of the journal
//! (`memblock_model`), and blocks are those of the free frames (`buddy_blocks`). The functions
//! here are laws over the definition of the boot (`boot_model`). A law is an empty function whose
//! contract is a proven fact. The laws hold for every boot whose result is that of the definition,
//! and the layer above cites the four facts for its own result. In contracts, a name means the
//! definition in `specs/`, here or in a crate below.
#![tactic(auto)]

mod laws;

pub use laws::{
    blocks_are_maximal, blocks_are_whole, handed_frames_stay_in_one_block_or_held,
    no_other_frame_is_in_a_block, usable_frames_are_ram_below_limit,
    usable_frames_are_touched_or_in_one_block,
};
