//! Reads a descriptor, and converts it to the E820 entry and the mirrored range that the kernel
//! makes of it.

ghost use Rattle.std.specs.Prelude.{◌≡◌, ◌+◌, ◌*◌, ◌^◌, ◌<◌, ◌≤◌, length};
ghost use Rattle.efi_map.specs.Descriptors.{bytes_of_descriptor, descriptor_at, e820_type, entry_of_descriptor, has_attribute, is_free_kind, mirror_of_descriptor, free_memory_type};

use bm_base::{FRAME_SIZE, Range};
use byteorder::{ByteOrder, LittleEndian};
use e820_model::{
    E820_TYPE_ACPI, E820_TYPE_NVS, E820_TYPE_PMEM, E820_TYPE_RAM, E820_TYPE_RESERVED,
    E820_TYPE_SOFT_RESERVED, E820_TYPE_UNUSABLE, Entry,
};
use std::marker::Model;

/// The type of memory with code of the boot loader (`EfiLoaderCode`).
const EFI_LOADER_CODE: u32 = 1;
/// The type of memory with data of the boot loader (`EfiLoaderData`).
const EFI_LOADER_DATA: u32 = 2;
/// The type of memory with code of the firmware that is needed until its boot services end
/// (`EfiBootServicesCode`).
const EFI_BOOT_SERVICES_CODE: u32 = 3;
/// The type of memory with data of the firmware that is needed until its boot services end
/// (`EfiBootServicesData`).
const EFI_BOOT_SERVICES_DATA: u32 = 4;
/// The type of free memory (`EfiConventionalMemory`).
const EFI_CONVENTIONAL_MEMORY: u32 = 7;
/// The type of memory with errors (`EfiUnusableMemory`).
const EFI_UNUSABLE_MEMORY: u32 = 8;
/// The type of memory with ACPI tables, which can be reclaimed (`EfiACPIReclaimMemory`).
const EFI_ACPI_RECLAIM_MEMORY: u32 = 9;
/// The type of memory that the firmware's ACPI code keeps (`EfiACPIMemoryNVS`).
const EFI_ACPI_MEMORY_NVS: u32 = 10;
/// The type of memory that keeps its content without power (`EfiPersistentMemory`).
const EFI_PERSISTENT_MEMORY: u32 = 14;

/// The attribute of memory that supports write-back caching.
const EFI_MEMORY_WB: u64 = 0x8;
/// The attribute of memory that the machine mirrors.
const EFI_MEMORY_MORE_RELIABLE: u64 = 0x1_0000;
/// The attribute of memory that is meant for a specific purpose.
const EFI_MEMORY_SP: u64 = 0x4_0000;

/// A descriptor of memory (`EFI_MEMORY_DESCRIPTOR`; UEFI, section 7.2.3).
#[derive(Clone, Copy)]
pub struct Descriptor {
    /// The type of the memory (`EFI_MEMORY_TYPE`).
    pub kind: u32,
    /// The first address, in bytes.
    pub base: u64,
    /// The number of pages of 4,096 bytes.
    pub pages: u64,
    /// The attributes, one bit each.
    pub attributes: u64,
}

impl Model for Descriptor {
    ghost use Rattle.efi_map.specs.Descriptors.{Descriptor as AnyDescriptor};

    ghost Value = { AnyDescriptor };

    ghost view = { λ d.
        record { kind = d.kind; base = d.base; pages = d.pages; attributes = d.attributes } };

    ghost inverse = { λ d.
        record { kind = d.kind; base = d.base; pages = d.pages; attributes = d.attributes } };
}

/// Tests whether memory of this type is free once the firmware's boot services have ended: memory
/// of the boot loader, of the boot services, and conventional memory.
fn is_free_kind(kind: u32) -> bool
    ensures { result ≡ is_free_kind kind }
{
    matches!(
        kind,
        EFI_LOADER_CODE
            | EFI_LOADER_DATA
            | EFI_BOOT_SERVICES_CODE
            | EFI_BOOT_SERVICES_DATA
            | EFI_CONVENTIONAL_MEMORY
    )
}

/// Returns the descriptor that begins at byte `offset`. Of a descriptor the first 40 bytes are
/// read; numbers are little-endian.
#[tactic(auto, unfolding(crate::specs::Descriptors::descriptor_at))]
pub fn descriptor_at(bytes: &[u8], offset: usize) -> Descriptor
    requires { offset + 40 ≤ length bytes.now }
    ensures { result ≡ descriptor_at offset bytes.now }
{
    Descriptor {
        kind: LittleEndian::read_u32(&bytes[offset..]),
        base: LittleEndian::read_u64(&bytes[offset + 8..]),
        pages: LittleEndian::read_u64(&bytes[offset + 24..]),
        attributes: LittleEndian::read_u64(&bytes[offset + 32..]),
    }
}

impl Descriptor {
    ghost use Rattle.std.specs.Prelude.{SomeIff};

    /// Returns the range of the described memory, or `None` if its first address plus its size in
    /// bytes exceeds 2^64 - 1.
    pub fn range(self) -> Option<Range>
        ensures { SomeIff result (self.base + 4096 * self.pages < 2 ^ 64)
            (bytes_of_descriptor self) }
    {
        Range::new(self.base, self.pages.checked_mul(FRAME_SIZE)?)
    }

    /// Tests whether the bit `attribute` is set in the descriptor's attributes.
    fn has_attribute(self, attribute: u64) -> bool
        ensures { result ≡ has_attribute attribute self }
    {
        self.attributes & attribute != 0
    }

    /// Returns the E820 type that the kernel gives the described memory (`do_add_efi_memmap`).
    pub fn e820_type(self) -> u32
        ensures { result ≡ e820_type self }
    {
        match self.kind {
            kind if is_free_kind(kind) => self.free_memory_type(),
            EFI_UNUSABLE_MEMORY => E820_TYPE_UNUSABLE,
            EFI_ACPI_RECLAIM_MEMORY => E820_TYPE_ACPI,
            EFI_ACPI_MEMORY_NVS => E820_TYPE_NVS,
            EFI_PERSISTENT_MEMORY => E820_TYPE_PMEM,
            _ => E820_TYPE_RESERVED,
        }
    }

    /// Returns the E820 type of memory that is free once boot services have ended: soft reserved
    /// with `EFI_MEMORY_SP`, else RAM with `EFI_MEMORY_WB`, and reserved with neither.
    fn free_memory_type(self) -> u32
        ensures { result ≡ free_memory_type self }
    {
        if self.has_attribute(EFI_MEMORY_SP) {
            E820_TYPE_SOFT_RESERVED
        } else if self.has_attribute(EFI_MEMORY_WB) {
            E820_TYPE_RAM
        } else {
            E820_TYPE_RESERVED
        }
    }

    /// Returns the E820 entry that the kernel makes of the descriptor (`do_add_efi_memmap`). The
    /// first address plus the size in bytes must be below 2^64.
    pub fn entry(self) -> Entry
        requires { self.base + 4096 * self.pages < 2 ^ 64 }
        ensures { result ≡ entry_of_descriptor self }
    {
        Entry {
            addr: self.base,
            size: self.pages * FRAME_SIZE,
            kind: self.e820_type(),
        }
    }

    /// Returns the range of the whole frames of the described memory, if the machine mirrors it
    /// (`efi_find_mirror`). Returns `None` if the memory isn't mirrored or has no whole frame. The
    /// first address plus the size in bytes must be below 2^64.
    pub fn mirror_of_descriptor(self) -> Option<Range>
        requires { self.base + 4096 * self.pages < 2 ^ 64 }
        ensures { result ≡ mirror_of_descriptor self }
    {
        if !self.has_attribute(EFI_MEMORY_MORE_RELIABLE) {
            return None;
        }
        self.range()?.whole_frames()
    }
}
