//! A zero page, an extension and initrds, with faults that the proved examples of `e820_table`
//! don't have. The entries of made inputs come from an independent program.

ghost use Rattle.std.specs.Prelude.{ℕ, ◌+◌, ◌≤◌, length};

use crate::common::{RAM, page, put_entry};
use byteorder::{ByteOrder, LittleEndian};
use e820_table::{Entry, ExtFault, ZeroFault, made, read_ext, read_zero_page};
use std::test::Fail;

/// Writes a number of 4 bytes at the offset.
fn put_number(bytes: &mut [u8], offset: usize, number: u32)
    requires { offset + 4 ≤ length bytes.old }
{
    LittleEndian::write_u32(&mut bytes[offset..], number);
}

const LAST: Entry = Entry {
    addr: 0x1000,
    size: 0xffff_ffff_ffff_efff,
    kind: 2,
};

const FAR: Entry = Entry {
    addr: 0x1000,
    size: 0xffff_ffff_ffff_f000,
    kind: 2,
};

#[test]
fn zero_pages(rt: HostRuntime) -> Result<(), Fail> {
    let read = read_zero_page(&page(2, RAM, LAST))?;
    assert!(rt; read.entries.as_slice() == [RAM, LAST].as_slice());
    let fault = read_zero_page(&page(2, FAR, FAR)).err();
    assert!(rt; fault == Some(ZeroFault::EntryTooFar { index: 0 }));
    let fault = read_zero_page(&page(0, RAM, LAST)).err();
    assert!(rt; fault == Some(ZeroFault::TooFew));
    Ok(())
}

/// Returns a zero page of two entries, of which `second` is the second, with this loader and
/// initrd. `address` and `size` have the upper and the lower half of the initrd's address and size.
fn page_with_initrd(second: Entry, loader: u8, address: [u32; 2], size: [u32; 2]) -> [u8; 4096] {
    let mut bytes = page(2, RAM, second);
    bytes[0x210] = loader;
    put_number(&mut bytes, 0x0c0, address[0]);
    put_number(&mut bytes, 0x218, address[1]);
    put_number(&mut bytes, 0x0c4, size[0]);
    put_number(&mut bytes, 0x21c, size[1]);
    bytes
}

#[test]
fn initrds(rt: HostRuntime) -> Result<(), Fail> {
    let top = [0xffff_ffff, 0xffff_e000];
    let cases = [
        (
            1,
            [1, 0x801],
            [1, 0x7ff],
            Some((0x1_0000_0801, 0x1_0000_07ff)),
        ),
        (1, top, [0, 0x1000], Some((0xffff_ffff_ffff_e000, 0x1000))),
    ];
    for (loader, address, size, want) in &cases {
        let read = read_zero_page(&page_with_initrd(LAST, *loader, *address, *size))?;
        let initrd = read.initrd.map(|range| (range.base, range.size));
        assert!(rt; initrd == *want);
    }
    let far = [
        (LAST, [0xffff_ffff, 0xffff_ffff], ZeroFault::InitrdTooFar),
        (FAR, [0, 0x1001], ZeroFault::EntryTooFar { index: 1 }),
    ];
    for (second, size, want) in &far {
        let bytes = page_with_initrd(*second, 1, top, *size);
        assert!(rt; read_zero_page(&bytes).err() == Some(*want));
    }
    Ok(())
}

#[test]
fn extensions(rt: HostRuntime) -> Result<(), Fail> {
    let mut bytes = [0; 56];
    bytes[8] = 1;
    bytes[12] = 40;
    put_entry(&mut bytes, 16, RAM);
    put_entry(&mut bytes, 36, LAST);
    let read = read_ext(rt.alloc(), &bytes)?;
    assert!(rt; read.as_slice() == [RAM, LAST].as_slice());
    bytes[12] = 39;
    assert!(rt; read_ext(rt.alloc(), &bytes).err() == Some(ExtFault::ExtLength));
    Ok(())
}

#[test]
fn made_inputs(rt: HostRuntime) -> Result<(), Fail> {
    // Each case has the number of entries, the last entry of the zero page, the number of entries
    // in the extension, and the extension's last entry.
    let cases = [
        (3, (135_266_304, 16_384, 2), 0, None),
        (128, (139_169_792, 4096, 1), 0, None),
        (
            129,
            (140_214_272, 12_288, 1),
            1,
            Some((140_226_560, 12_288, 2)),
        ),
        (
            130,
            (139_661_312, 16_384, 1),
            2,
            Some((139_722_752, 12_288, 1)),
        ),
        (
            3000,
            (139_825_152, 4096, 1),
            2872,
            Some((239_824_896, 32_768, 1)),
        ),
    ];
    for (n, page, after, last) in &cases {
        let input = made(rt.alloc(), *n)?;
        let seen = |entry: &Entry| (entry.addr, entry.size, entry.kind);
        let told = (
            input.zero.entries.as_slice().last().map(seen),
            input.ext.len(),
            input.ext.as_slice().last().map(seen),
        );
        assert!(rt; told == (Some(*page), *after, *last), "{n}");
    }
    Ok(())
}
