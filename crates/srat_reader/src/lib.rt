//! Reads the SRAT: which ranges of memory and which processors the firmware assigns to which
//! proximity domain.
//!
//! The "System Resource Affinity Table" of ACPI (section 5.2.16) has the header that all ACPI
//! tables have, then 12 reserved bytes, then entries from offset 48 on. Each entry begins with a
//! type (u8) and a length (u8). The following types are read, as the kernel reads them:
//!
//! - type 0, the local APIC of a processor, and its domain (`acpi_numa_processor_affinity_init`)
//! - type 1, a range of memory, and its domain (`acpi_numa_memory_affinity_init`)
//! - type 2, the local x2APIC of a processor, and its domain (`acpi_numa_x2apic_affinity_init`)
//!
//! Entries of other types and entries that aren't enabled are skipped.
//!
//! [`read_srat`] returns an [`Srat`], or the first fault of the bytes as a [`SratFault`]. It reads
//! the bytes twice: first for faults, without allocating, and then for the lists. It therefore
//! runs out of memory only on bytes without a fault. Each of the two lists has fewer than 2^32
//! members. The layer above decides what the domains mean: it numbers the nodes, and selects the
//! ranges that count.
//!
//! In contracts, a name means the definition in `specs/`: `Table.antt` has the whole table
//! (`srat_of`), `Entries.antt` one entry.
#![tactic(auto)]

mod entries;
mod table;

pub use table::{Srat, SratBlock, SratFault, read_srat};
