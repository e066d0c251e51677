//! Finds the sections of 128 MiB that have memory, and places the table of section roots and the
//! roots.
//!
//! The kernel keeps page structures one section at a time (`SECTION_SIZE_BITS`), and only for
//! sections that have memory. It marks these sections (`memory_present`), and allocates the table
//! of roots and each root that has such a section (`sparse_index_alloc`). `specs/Present.antt`
//! defines for each section whether it has memory, and its node. A root covers 256 sections
//! (`specs/Roots.antt`).
//!
//! [`present`] finds the sections in one pass over the records of the memory table, and doesn't
//! look at a section without memory. [`place_roots`] carries out the allocations that
//! `place_roots` of `specs/Roots.antt` defines.
//!
//! The layers above may rest on the laws of `src/laws.rt`. After the stage of nodes the records
//! are whole frames with nodes. The sections that are found are those of memory, in ascending
//! order. Their roots are in ascending order too, each with its first section. Placing roots
//! doesn't change memory. A law is an empty function whose contract is a proven fact. In
//! contracts, a name means the definition in `specs/`.
#![tactic(auto)]

mod laws;
mod places;
mod sections;

pub use laws::{
    place_roots_keeps_memory_and_limit, present_sections_are_memory, present_sections_ascend,
    records_are_runs_of_whole_frames, roots_ascend,
};
pub use places::{RootPlace, Roots, place_roots};
pub use sections::present;
