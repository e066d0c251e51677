//! The firmware's memory map: entries, edits, claims, the map and usable frames.
//!
//! Firmware hands the kernel a table of entries (`struct boot_e820_entry`), each a range and a
//! type. They may overlap and come in any order. An extension may add entries, and options may
//! edit the table. One option adds the entries of UEFI's own map.
//!
//! The claims of an address are the types that the entries and the edits give it
//! (`specs/Claims.antt`). The address's type is its greatest claim. The map is a list of runs of
//! addresses, each of one type (`specs/Map.antt`). It has at most [`E820_MAX_ENTRIES`] runs. A
//! frame is usable if each of its bytes is memory (`specs/Usable.antt`).
//!
//! [`Entry`], [`Edit`] and [`Run`] are plain data. They are here because the definitions use
//! them. A law is an empty function whose contract is a proven fact.
#![tactic(auto)]

mod entry;
mod laws;
mod run;

pub use entry::{
    E820_MAX_ENTRIES, E820_TYPE_ACPI, E820_TYPE_NVS, E820_TYPE_PMEM, E820_TYPE_PRAM, E820_TYPE_RAM,
    E820_TYPE_RESERVED, E820_TYPE_RESERVED_KERN, E820_TYPE_SOFT_RESERVED, E820_TYPE_UNUSABLE, Edit,
    Entry,
};
pub use laws::{
    final_claims_are_single, greatest_is_greatest, map_is_runs, map_without_efi_entries,
    settling_keeps_types,
};
pub use run::Run;
