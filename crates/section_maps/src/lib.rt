//! Places the memory map (page structures) and the usage data of each section (`sparse_init_nid`).
//!
//! Consecutive sections of one node, in the list of sections with memory, form a group. A group
//! gets its usage data in one buffer, and the maps of its sections in one buffer on the node
//! itself (`sparse_buffer_init`). If no such buffer is free, the map of each section is placed
//! alone. `specs/Maps.antt` defines this as steps, and [`place_maps`] carries them out.
//! `specs/Stretches.antt` says what a group is: a maximal stretch of sections of one node, next to
//! each other in the list.
//!
//! The layers above may rest on the laws: placing maps doesn't change memory
//! ([`place_maps_keeps_memory_and_limit`]), and each group is a maximal stretch
//! ([`groups_are_maximal_stretches`]). A law is an empty function whose contract is a proven fact.
//! In contracts, a name means the definition in `specs/`.
#![tactic(auto)]

mod each;
mod group;
mod laws;
mod maps;
mod placed;
mod requests;

pub use laws::{groups_are_maximal_stretches, place_maps_keeps_memory_and_limit};
pub use maps::place_maps;
pub use placed::Placed;
