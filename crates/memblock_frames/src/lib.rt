//! Reads memblock's two tables by page frames, from the bytes in which the tables lie.
//!
//! At the end of the early boot, the bytes of memory and the two table heads contain both tables;
//! no other copy is needed or made. The page allocator and the zones read the tables record by
//! record, as frames (`for_each_free_mem_range`, `for_each_mem_pfn_range`). [`frames_of_record`]
//! returns the frames that overlap a record, and [`next_claimed_frames`] the next frames that
//! overlap some record.
//!
//! `specs/HeadRecords.antt` defines when the bytes at a head are an ascending list of records
//! (`HasRecords`). This is weaker than what memblock ensures: here records that touch may have the
//! same value. `specs/Frames.antt` defines what two tables say of a frame: its node, and whether
//! it is free.
//!
//! A law is an empty function whose contract is a proven fact. [`stored_records_give_table_frames`]
//! connects both definitions with the tables of `memblock_ranges`. In contracts, a name means the
//! definition in `specs/`.
#![tactic(auto)]

mod check;
mod claimed_frames;
mod frames;
mod laws;

pub use check::{has_records, has_whole_frames};
pub use claimed_frames::{ClaimedFrames, next_claimed_frames};
pub use frames::{RecordFrames, frames_of_record};
pub use laws::stored_records_give_table_frames;
