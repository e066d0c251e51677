//! Values that the cases of several crates share: entries and runs of a map, a zero page, a file
//! in memory and a boot.

ghost use Rattle.std.specs.Prelude.{◌≡◌, ◌+◌, ◌^◌, ◌<◌, ◌≤◌, length, IfOk, string_bytes};
ghost use Rattle.e820_model.specs.Claims.{EntriesFit, HaveTypes};
ghost use Rattle.debugfs_reports.specs.TableHeads.{HeadsHaveRecords};

use bm_base::{Range, Width};
use bm_io::MemFile;
use boot_model::{Booted, Inputs, Stop};
use boot_options::{Options, read_options};
use boot_stages::boot;
use byteorder::{ByteOrder, LittleEndian};
use e820_model::{Entry, Run};
use std::alloc::Global;
use std::test::Fail;

pub const RAM: Entry = Entry {
    addr: 0x100000,
    size: 0x7f00000,
    kind: 1,
};

/// The kernel's image, 32 MiB from 16 MiB on.
pub const KERNEL: Range = Range {
    base: 0x100_0000,
    size: 0x200_0000,
};

/// The first page as the boot's map has it: reserved (type 2), whatever the firmware says
/// (`trim_bios_range`).
pub const FIRST_PAGE: Run = Run {
    range: Range {
        base: 0,
        size: 0x1000,
    },
    kind: 2,
};

/// The RAM between the first page and 640 KiB.
pub const FIRST_640K: Run = Run {
    range: Range {
        base: 0x1000,
        size: 0x9_F000,
    },
    kind: 1,
};

/// An SRAT of revision 1 without entries.
pub const SMALLEST_SRAT: [u8; 48] = [
    b'S', b'R', b'A', b'T', 48, 0, 0, 0, 1, 0x95, // signature, length, revision, checksum
    0, 0, 0, 0, 0, 0, 0, 0, 0, 0, 0, 0, 0, 0, 0, 0, 0, 0, 0, 0, 0, 0, 0, 0, 0, 0, 0, 0, 0, 0, 0, 0,
    0, 0, 0, 0, 0, 0,
];

pub fn entry(addr: u64, size: u64, kind: u32) -> Entry
    ensures { result ≡ record { addr = addr; size = size; kind = kind } }
{
    Entry { addr, size, kind }
}

/// Returns two entries: 128 MiB of RAM from address 0 on, and 1 MiB of reserved memory inside it
/// at 2 MiB.
pub fn nested() -> [Entry; 2]
    ensures { EntriesFit result }
{
    [entry(0, 0x800_0000, 1), entry(0x20_0000, 0x10_0000, 2)]
}

/// Returns the entries of a virtual machine of 128 MiB.
pub fn machine() -> [Entry; 6]
    ensures { EntriesFit result }
{
    [
        entry(0, 0x9_FC00, 1),
        entry(0x9_FC00, 0x400, 2),
        entry(0xF_0000, 0x1_0000, 2),
        entry(0x10_0000, 0x7EE_0000, 1),
        entry(0x7FE_0000, 0x2_0000, 2),
        entry(0xFFFC_0000, 0x4_0000, 2),
    ]
}

pub fn run(base: u64, size: u64, kind: u32) -> Run
    requires { base + size < 2 ^ 64 }
    ensures { result ≡ record { base = base; size = size; value = kind } }
{
    Run {
        range: Range { base, size },
        kind,
    }
}

/// Writes an entry of a zero page at the offset.
pub fn put_entry(bytes: &mut [u8], offset: usize, entry: Entry)
    requires { offset + 20 ≤ length bytes.old }
{
    LittleEndian::write_u64(&mut bytes[offset..], entry.addr);
    LittleEndian::write_u64(&mut bytes[offset + 8..], entry.size);
    LittleEndian::write_u32(&mut bytes[offset + 16..], entry.kind);
}

/// Returns a zero page that states `count` entries. Its first two entries are `first` and `second`.
pub fn page(count: u8, first: Entry, second: Entry) -> [u8; 4096] {
    let mut bytes = [0; 4096];
    bytes[0x1e8] = count;
    put_entry(&mut bytes, 0x2d0, first);
    put_entry(&mut bytes, 0x2e4, second);
    bytes
}

/// Returns a file with this name and these bytes.
pub fn file(alloc: Global, name: &str, bytes: &[u8]) -> Result<MemFile, Fail>
    ensures { IfOk result (λ file. string_bytes file.name ≡ name.now) }
{
    Ok(MemFile {
        name: String::from_str(alloc, name)?,
        bytes: Vec::from_slice(alloc, bytes)?,
    })
}

/// Replaces the E820 entries of the inputs' extension by these.
pub fn put_entries(inputs: &mut Inputs, entries: Vec<Entry>)
    requires { EntriesFit entries.items }
{
    inputs.ext = entries;
}

fn put_options(inputs: &mut Inputs, options: Options)
    requires { HaveTypes options.edits.items }
{
    inputs.options = options;
}

/// Boots with these entries, passed as an extension, and with this command line of the kernel.
pub fn booted(alloc: Global, entries: &[Entry], line: &[u8]) -> Result<Result<Booted, Stop>, Fail>
    requires { EntriesFit entries.now }
    ensures { IfOk result (λ answer. IfOk answer (λ booted. HeadsHaveRecords booted)) }
{
    let mut inputs = Inputs::without_files(alloc, Width::Bits46, KERNEL);
    put_entries(&mut inputs, Vec::from_slice(alloc, entries)?);
    put_options(&mut inputs, read_options(alloc, line)?);
    Ok(boot(alloc, inputs))
}
