//! Turns the firmware's memory map, whose entries may overlap, into runs of addresses that don't,
//! and decides whether the boot continues with the map's usable frames.
//!
//! The firmware's entries (`struct boot_e820_entry`) may overlap, touch or be empty, and come in
//! any order. The extension adds more entries, and options edit the map. A [`Table`] holds what
//! all of them claim: a *claim* is a range of addresses and a type. Each method follows one
//! function of the kernel, and its contract states the claims on every address afterwards:
//!
//! - [`Table::append`]: `__append_e820_table`
//! - [`Table::edit`]: `e820__range_add`, `e820__range_remove`, `e820__range_update`
//! - [`Table::settle`]: `e820__update_table`
//! - [`Table::trim_bios`]: `trim_bios_range`
//!
//! The layer above can rely on three facts. Each method's postcondition is one equation between
//! the claims before and after (`specs/Claims.antt` of `e820_model`), so a chain of calls gives
//! the claims of the finished map. [`Table::runs`] returns exactly the runs of that map, or their
//! number if there are too many. If a method runs out of memory, the table is unchanged.
//!
//! The claims are kept as an unordered list. An edit adds a claim, or cuts the claims that overlap
//! its range. Settling sorts the claims and overlays them (`overlay_all` of `address_runs`): it
//! looks at each claim once if they don't overlap, and takes n log n steps for n claims that
//! overlap little.
//!
//! A frame is 4,096 bytes. It is usable if each of its bytes is RAM or the kernel's own memory
//! (`E820_TYPE_RAM`, `E820_TYPE_RESERVED_KERN`), and lies below a limit that the caller passes.
//! The limit is the end of the memory that the kernel can address (`MAX_PHYSMEM_BITS`). These are
//! the frames that `e820__memblock_setup` and `memblock_trim_memory` keep.
//!
//! - [`usable_frames`] counts them in one pass over the runs of the map. Runs of memory that touch
//!   count as one stretch, so a frame that lies partly in a run of RAM and partly in one of the
//!   kernel's own memory also counts. The definition (`usable_frames` of `e820_model`) looks at
//!   each frame by itself, byte by byte.
//! - [`judge_frames`] returns why the boot stops at its map, if it does: there is no usable frame
//!   ([`MapStop::NoRam`]), or there are more than 2^32 of them ([`MapStop::TooMuchRam`]).
//!
//! The layer above can rely on both results for every limit. The count holds for runs in ascending
//! order (`Ascend` of `address_runs`), the decision for a canonical list of runs. Neither call
//! allocates memory. A map with too many runs is refused earlier, by [`Table::runs`].
//!
//! In contracts, a name means the definition in `specs/`, here or in a crate below.
#![tactic(auto)]

mod cuts;
mod frames;
mod settle;
mod stop;
mod table;

pub use e820_model::{E820_MAX_ENTRIES, Run};
pub use frames::{is_memory, usable_frames};
pub use stop::{MapStop, judge_frames};
pub use table::{MapFault, Table};
