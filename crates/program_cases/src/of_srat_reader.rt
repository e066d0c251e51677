//! Small SRATs: the values that are read, and the first entry with a fault. The proved examples of
//! `srat_reader` have the faults of the header.
ghost use Rattle.std.specs.Prelude.{ℕ, ◌+◌, ◌^◌, ◌≤◌, ◌<◌, length};

use bm_base::Range;
use byteorder::{ByteOrder, LittleEndian};
use srat_reader::{SratBlock, SratFault, read_srat};
use std::test::Fail;

/// Writes the header: the signature, the number of bytes, the revision, and the checksum.
fn seal(bytes: &mut [u8], revision: u8)
    requires whole { 48 ≤ length bytes.old }
    requires small { length bytes.old < 2 ^ 32 }
{
    LittleEndian::write_u32(bytes, u32::from_le_bytes(*b"SRAT"));
    let stated = bytes.len() as u32;
    LittleEndian::write_u32(&mut bytes[4..], stated);
    bytes[8] = revision;
    bytes[9] = 0;
    let mut total: u8 = 0;
    for byte in &*bytes {
        total = total.wrapping_add(*byte);
    }
    bytes[9] = 0u8.wrapping_sub(total);
}

/// Writes an entry of type 0: a processor by its local APIC.
fn put_apic(bytes: &mut [u8], at: usize, domain: [u8; 4], flags: u32)
    requires { at + 16 ≤ length bytes.old }
{
    bytes[at] = 0;
    bytes[at + 1] = 16;
    bytes[at + 2] = domain[0];
    LittleEndian::write_u32(&mut bytes[at + 4..], flags);
    bytes[at + 9] = domain[1];
    bytes[at + 10] = domain[2];
    bytes[at + 11] = domain[3];
}

/// Writes an entry of type 1: a range of memory.
fn put_memory(bytes: &mut [u8], at: usize, domain: u32, base: u64, size: u64, flags: u32)
    requires { at + 40 ≤ length bytes.old }
{
    bytes[at] = 1;
    bytes[at + 1] = 40;
    LittleEndian::write_u32(&mut bytes[at + 2..], domain);
    LittleEndian::write_u64(&mut bytes[at + 8..], base);
    LittleEndian::write_u64(&mut bytes[at + 16..], size);
    LittleEndian::write_u32(&mut bytes[at + 28..], flags);
}

/// Writes an entry of type 2: a processor by its local x2APIC.
fn put_x2apic(bytes: &mut [u8], at: usize, domain: u32, flags: u32)
    requires { at + 24 ≤ length bytes.old }
{
    bytes[at] = 2;
    bytes[at + 1] = 24;
    LittleEndian::write_u32(&mut bytes[at + 4..], domain);
    LittleEndian::write_u32(&mut bytes[at + 12..], flags);
}

/// Returns a table of the header (48 bytes) and these entries: an x2APIC (24), memory (40), type 9
/// (5), an APIC (16), memory of size 0 (40), a disabled APIC (16), and disabled memory that ends
/// too far (40).
fn every_kind() -> [u8; 229] {
    let mut bytes = [0; 229];
    put_x2apic(&mut bytes, 48, 0x0c0d, 1);
    put_memory(&mut bytes, 72, 0x0102_0304, 0x1_0000_0000, 0x4000_0000, 3);
    bytes[112] = 9;
    bytes[113] = 5;
    put_apic(&mut bytes, 117, [0x0b, 1, 2, 3], 1);
    put_memory(&mut bytes, 133, 7, 0xffff_ffff_ffff_ffff, 0, 1);
    put_apic(&mut bytes, 173, [0x2c, 0, 0, 0], 2);
    put_memory(&mut bytes, 189, 8, 0xffff_ffff_ffff_f000, 0x1000, 2);
    bytes
}

#[test]
fn entries_of_every_kind(rt: HostRuntime) -> Result<(), Fail> {
    let mut bytes = every_kind();
    let above = Range {
        base: 0x1_0000_0000,
        size: 0x4000_0000,
    };
    let empty = Range {
        base: u64::MAX,
        size: 0,
    };
    let cases = [
        (1, 0x0b, 0x04),
        (2, 0x0302_010b, 0x0102_0304),
        (3, 0x0302_010b, 0x0102_0304),
    ];
    for (revision, processor, memory) in cases {
        seal(&mut bytes, revision);
        let srat = read_srat(rt.alloc(), &bytes)?;
        assert!(rt;
            srat.cpus.as_slice() == [0x0c0d, processor].as_slice(),
            "revision {revision}"
        );
        let want = [
            SratBlock {
                domain: memory,
                range: above,
            },
            SratBlock {
                domain: 7,
                range: empty,
            },
        ];
        assert!(rt;
            srat.blocks.as_slice() == want.as_slice(),
            "revision {revision}"
        );
    }
    Ok(())
}

/// Each table has two ranges of memory, at offsets 48 and 88. Each case has the type, the length
/// and the size of the first range, the length of the second, and the expected fault.
#[test]
fn faults_of_entries(rt: HostRuntime) {
    let length_at = |offset: u32| Some(SratFault::EntryLength { offset });
    let far_at = |offset: u32| Some(SratFault::BlockTooFar { offset });
    let cases = [
        (1, 40, 0xfff, 40, None),
        (1, 40, 0x1000, 40, far_at(48)),
        (1, 40, 0x1000, 39, far_at(48)),
        (1, 40, 0xfff, 39, length_at(88)),
        (9, 40, 0x1000, 40, None),
        (9, 40, 0x1000, 41, length_at(88)),
        (1, 39, 0x1000, 40, length_at(48)),
        (0, 40, 0xfff, 40, length_at(48)),
        (2, 16, 0xfff, 40, length_at(48)),
        (9, 0, 0xfff, 40, length_at(48)),
        (9, 1, 0xfff, 40, length_at(48)),
        (9, 81, 0xfff, 40, length_at(48)),
        (9, 80, 0x1000, 39, None),
        (9, 79, 0x1000, 40, length_at(127)),
    ];
    for (kind, length, size, second, want) in &cases {
        let mut bytes = [0; 128];
        put_memory(&mut bytes, 48, 0, 0xffff_ffff_ffff_f000, *size, 1);
        put_memory(&mut bytes, 88, 1, 0, 0x1000, 1);
        bytes[48] = *kind;
        bytes[49] = *length;
        bytes[89] = *second;
        seal(&mut bytes, 3);
        assert!(rt;
            read_srat(rt.alloc(), &bytes).err() == *want,
            "kind {kind}, length {length}"
        );
    }
}
