//! Runs the whole boot, stage by stage: from the inputs to the free frames and the data of the
//! reports (`setup_arch` up to `mem_init`).
//!
//! [`boot_with`] follows the definition `boot_with` in `specs/Boot.antt` of `boot_model`, and
//! [`boot`] calls it with `bootmem`'s own profile and without early claims. Each call here carries
//! out a stage of that definition or a part of a stage, as the call's contract says:
//!
//! - `src/map.rt`: The zero page's entries, the extension's entries, and the options' edits with
//!   the entries of the EFI map go into one table of claims. After each of the three, only the
//!   greatest type claimed for each address is kept (`e820__update_table`). Then the BIOS range is
//!   trimmed, and the finished map is accepted or stops the boot.
//! - `src/memory.rt`: The first claims are made, the map's runs become memory in whole frames,
//!   mirrored memory is marked, and the first MiB is claimed. Each step is one call of memblock.
//! - `src/later.rt`: Early claims, nodes, the crash area, the early script and the sections follow.
//!   Each of these stages is one call on memblock.
//! - `src/handover.rt`: memblock's bytes become the free frames of the page allocator. The page
//!   script runs on a copy of them.
//!
//! If a table of memblock must grow and finds no place, the boot stops, except in a line of a
//! script other than `sections`: such a line is refused, and the boot goes on.
//!
//! The layer above can rely on this: the result of [`boot`] is that of the definition, or the
//! program is out of memory. The law [`table_result_decides_map_stages`] says how the first stages
//! end, from what the e820 table returns for its map. A law is an empty function whose contract is
//! a proven fact. In contracts, a name means the definition in `specs/`, here or in a crate below.
#![tactic(auto)]

mod added;
mod handover;
mod later;
mod laws;
mod map;
mod memory;
mod stages;

pub use laws::table_result_decides_map_stages;
pub use stages::{boot, boot_with};
