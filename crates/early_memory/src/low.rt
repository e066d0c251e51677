//! Addresses at the bottom of memory for which a PC has its own uses. They are defined here,
//! since `specs/FirstItems.antt` uses them. The crates above use these constants too.

/// The end of the first 64 KiB, in bytes. Firmware may overwrite what is below
/// (`early_reserve_memory`).
pub const LOW_END: u64 = 0x1_0000;

/// The end of the first MiB, in bytes. The BIOS and ISA devices are below (`ISA_END_ADDRESS`).
pub const ISA_END_ADDRESS: u64 = 0x10_0000;
