//! Reads UEFI's memory map: the descriptors that the firmware passes on when its boot services
//! end.
//!
//! The boot loader makes the E820 table of the zero page from this map. With the option
//! `add_efi_memmap` the kernel adds the descriptors to that table once more (`do_add_efi_memmap`).
//! Descriptors also say which memory the machine mirrors, that is, keeps twice
//! (`efi_find_mirror`).
//!
//! [`read_efi`] returns an [`EfiMap`]: an entry for each descriptor, in their order, and the
//! mirrored ranges. Or it returns the first fault of the bytes, an [`EfiFault`].
//!
//! The file begins with two numbers of 32 bits: the size of a descriptor in bytes, and the version
//! of descriptors. `GetMemoryMap` returns both next to the map; this header is the project's own.
//! A descriptor has at least 40 bytes (48 on real machines). Only the first 40 are read.
//!
//! The layer above can rely on two facts. Each entry has an address plus size below 2^64. Each
//! mirrored range consists of whole frames, at least one.
//!
//! In contracts, a name means the definition in `specs/`: `Descriptors.antt` has one descriptor,
//! `Map.antt` the file.
#![tactic(auto)]

mod descriptor;
mod efi;

pub use e820_model::Entry;
pub use efi::{EfiFault, EfiMap, read_efi};
