//! A small EFI memory map: the values that are read, and each fault once. The proved examples of
//! `efi_map` have the types with their attributes.
ghost use Rattle.std.specs.Prelude.{◌≡◌, ◌+◌, ◌≤◌, length};

use bm_base::Range;
use byteorder::{ByteOrder, LittleEndian};
use efi_map::{EfiFault, Entry, read_efi};
use std::test::Fail;

/// Writes a descriptor: its type, address, pages and attributes.
fn put_descriptor(bytes: &mut [u8], at: usize, kind: u32, base: u64, pages: u64, attributes: u64)
    requires { at + 40 ≤ length bytes.old }
{
    LittleEndian::write_u32(&mut bytes[at..], kind);
    LittleEndian::write_u64(&mut bytes[at + 8..], base);
    LittleEndian::write_u64(&mut bytes[at + 24..], pages);
    LittleEndian::write_u64(&mut bytes[at + 32..], attributes);
}

/// Returns a map of this version with two descriptors of 48 bytes: ACPI tables, and `pages` pages
/// of free memory that is mirrored.
fn two_descriptors(version: u8, pages: u64) -> [u8; 104]
    ensures { length result ≡ 104 }
{
    let mut bytes = [0; 104];
    bytes[0] = 48;
    bytes[4] = version;
    put_descriptor(&mut bytes, 8, 9, 0x20_0000, 16, 0x8);
    put_descriptor(&mut bytes, 56, 7, 0x400_0000, pages, 0x1_0008);
    bytes
}

#[test]
fn descriptors_are_entries_and_mirrors(rt: HostRuntime) -> Result<(), Fail> {
    let efi = read_efi(rt.alloc(), &two_descriptors(1, 4096))?;
    let entries = [
        Entry {
            addr: 0x20_0000,
            size: 0x1_0000,
            kind: 3,
        },
        Entry {
            addr: 0x400_0000,
            size: 0x100_0000,
            kind: 1,
        },
    ];
    let mirrors = [Range {
        base: 0x400_0000,
        size: 0x100_0000,
    }];
    assert!(rt; efi.entries.as_slice() == entries.as_slice());
    assert!(rt; efi.mirrors.as_slice() == mirrors.as_slice());
    Ok(())
}

/// Each case has the number of bytes, the version, the pages of the second descriptor, and the
/// expected fault.
#[test]
fn the_first_fault_is_told(rt: HostRuntime) {
    let cases = [
        (7, 1, 1, EfiFault::Header),
        (104, 2, 1 << 52, EfiFault::Header),
        (103, 1, 1 << 52, EfiFault::Length),
        (104, 1, 1 << 52, EfiFault::TooFar { index: 1 }),
    ];
    for (count, version, pages, fault) in cases {
        let bytes = two_descriptors(version, pages);
        let said = read_efi(rt.alloc(), &bytes[..usize::min(count, 104)]).err();
        assert!(rt; said == Some(fault), "{count} bytes of version {version}");
    }
}
