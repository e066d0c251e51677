//! Entries of the firmware's table, edits of the table, the greatest number of runs of a map, and
//! the types of memory.

use bm_base::Range;

/// One entry of the firmware's table (`struct boot_e820_entry` of the boot protocol).
#[derive(Clone, Copy, Debug, Default, PartialEq, Eq)]
pub struct Entry {
    /// The first address, in bytes.
    pub addr: u64,
    /// The number of bytes. An entry of size 0 has no effect.
    pub size: u64,
    /// The type (`enum e820_type`): 1 RAM, 2 reserved, 3 ACPI data, and so on. An entry of type 0
    /// has no effect.
    pub kind: u32,
}

/// An edit of the table by an option of the command line (`parse_memmap_one`). The claims of an
/// address are the types that entries and edits have given it. The types in an edit are above 0.
#[derive(Clone, Copy, Debug, PartialEq, Eq)]
pub enum Edit {
    /// Adds `kind` to the types that claim each address of the range (`e820__range_add`).
    Add { range: Range, kind: u32 },
    /// Removes `kind` from the types that claim each address of the range (`e820__range_remove`
    /// with a type).
    Remove { range: Range, kind: u32 },
    /// Removes all types that claim an address of the range (`e820__range_remove` without a type).
    RemoveAll { range: Range },
    /// Replaces `from` by `to` among the types that claim each address of the range; addresses that
    /// `from` doesn't claim stay as they are (`e820__range_update`).
    Change { range: Range, from: u32, to: u32 },
    /// Removes all types from all addresses (`memmap=exactmap`).
    Clear,
}

/// The greatest number of runs that a map may have (`E820_MAX_ENTRIES`: 128 + 3 * `MAX_NUMNODES`,
/// for 1,024 nodes).
pub const E820_MAX_ENTRIES: u64 = 3200;

/// The type of usable memory.
pub const E820_TYPE_RAM: u32 = 1;

/// The type of memory or addresses that must not be used.
pub const E820_TYPE_RESERVED: u32 = 2;

/// The type of memory with ACPI tables, which may be used once they have been read.
pub const E820_TYPE_ACPI: u32 = 3;

/// The type of ACPI non-volatile storage, which belongs to the firmware.
pub const E820_TYPE_NVS: u32 = 4;

/// The type of memory with errors.
pub const E820_TYPE_UNUSABLE: u32 = 5;

/// The type of persistent memory.
pub const E820_TYPE_PMEM: u32 = 7;

/// The older, non-standard type of persistent memory (`memmap=nn!ss`).
pub const E820_TYPE_PRAM: u32 = 12;

/// The type of memory that the kernel itself uses.
pub const E820_TYPE_RESERVED_KERN: u32 = 128;

/// The type of memory that firmware sets aside for a driver.
pub const E820_TYPE_SOFT_RESERVED: u32 = 0xEFFF_FFFF;
