//! Crash areas of two machines, command line by command line. The expected values are from an
//! implementation of the same rules in another language.

ghost use Rattle.std.specs.Prelude.{◌+◌, ◌^◌, ◌<◌};

use crate::machines::{has_begun, machine};
use crate::ranges::{Part, bytes};
use boot_options::read_options;
use crash_kernel::{Crash, CrashRule, reserve, reserve_by_rule};
use memblock_model::{Item, Owner};
use std::alloc::Global;
use std::process::Abort;
use std::test::Fail;

/// The memory of a machine with 512 MiB, without what firmware keeps.
const SMALL: [Part; 2] = [(0x1000, 0x9F000, 0), (0x100000, 0x1FFE_0000, 0)];

/// The memory of a machine with two nodes: 2 GiB below 4 GiB, and 6 GiB above.
const LARGE: [Part; 4] = [
    (0x1000, 0x9F000, 0),
    (0x100000, 0x7FFD_F000, 0),
    (0x1_0000_0000, 0x1_8000_0000, 0),
    (0x1_8000_0000, 0x2_8000_0000, 1),
];

fn at(base: u64, size: u64) -> Crash
    requires { base + size < 2 ^ 64 }
{
    Crash::At {
        main: bytes(base, size),
        low: None,
    }
}

fn at_both(base: u64, size: u64, low: u64, low_size: u64) -> Crash
    requires main { base + size < 2 ^ 64 }
    requires low { low + low_size < 2 ^ 64 }
{
    Crash::At {
        main: bytes(base, size),
        low: Some(bytes(low, low_size)),
    }
}

// Returns the outcome for the command line by the rule of Linux 6.1, if `added` bytes became memory
// before they were trimmed to whole frames.
fn by_linux(alloc: Global, added: u64, line: &[u8]) -> Result<Crash, Fail>
    requires { added < 2 ^ 52 }
{
    let options = read_options(alloc, line)?;
    let mut memblock = machine(alloc, bytes(0x100_0000, 0x240_0000), &SMALL)?;
    if !has_begun(&memblock) {
        return Err("items".into());
    }
    let crash = reserve_by_rule(
        &mut memblock,
        CrashRule::RoundedTotal,
        added,
        &options.crash,
    )?;
    Ok(crash)
}

// Returns the outcome for the command line, and the last item of the journal.
fn reserved(alloc: Global, memory: &[Part], line: &[u8]) -> Result<(Crash, Option<Item>), Fail> {
    let options = read_options(alloc, line)?;
    let mut memblock = machine(alloc, bytes(0x100_0000, 0x240_0000), memory)?;
    if !has_begun(&memblock) {
        return Err("items".into());
    }
    let crash = reserve(&mut memblock, &options.crash)?;
    let last = memblock.journal().items().last().copied();
    Ok((crash, last))
}

/// Compares the outcomes with these rows. Each row is a command line and its outcome.
fn compare(
    rt: &impl Abort,
    alloc: Global,
    memory: &[Part],
    rows: &[(&[u8], Crash)],
) -> Result<(), Fail> {
    for (line, expected) in rows {
        let (crash, _) = reserved(alloc, memory, line)?;
        assert!(rt; crash == *expected, "{crash:?} at {line:?}");
    }
    Ok(())
}

#[test]
fn areas_below_4_gib(rt: HostRuntime) -> Result<(), Fail> {
    let cases = [
        (b"crashkernel=64M".as_slice(), at(0x1B00_0000, 0x400_0000)),
        (b"crashkernel=64M@32M".as_slice(), Crash::InUse),
        (
            b"crashkernel=64M@256M".as_slice(),
            at(0x1000_0000, 0x400_0000),
        ),
        (
            b"crashkernel=64M@257M".as_slice(),
            at(0x1010_0000, 0x400_0000),
        ),
        (b"crashkernel=64M@0x10080000".as_slice(), Crash::InUse),
        (b"crashkernel=448M".as_slice(), Crash::NoArea),
        (b"crashkernel=448M@64M".as_slice(), Crash::InUse),
        (
            b"crashkernel=447M@64M".as_slice(),
            at(0x400_0000, 0x1BF0_0000),
        ),
        (
            b"crashkernel=64M,high".as_slice(),
            at(0x1B00_0000, 0x400_0000),
        ),
        (b"crashkernel=0".as_slice(), Crash::Nothing),
        (b"crashkernel=1M,low".as_slice(), Crash::Nothing),
        (b"crashkernel=16M@16777200T".as_slice(), Crash::InUse),
    ];
    compare(&rt, rt.alloc(), &SMALL, &cases)
}

// In the form `crashkernel=RANGE:SIZE,..` the total memory chooses the size. The machine has
// 0x1FF7E000 bytes of memory, which isn't rounded here.
#[test]
fn ranges_of_the_total(rt: HostRuntime) -> Result<(), Fail> {
    let cases = [
        (
            b"crashkernel=0-512M:16M,512M-:32M".as_slice(),
            at(0x1E00_0000, 0x100_0000),
        ),
        (
            b"crashkernel=0-0x1ff7f000:16M,0x1ff7f000-:32M".as_slice(),
            at(0x1E00_0000, 0x100_0000),
        ),
        (
            b"crashkernel=0-0x1ff7e000:16M,0x1ff7e000-:32M".as_slice(),
            at(0x1D00_0000, 0x200_0000),
        ),
        (
            b"crashkernel=0-511M:16M crashkernel=48M,high".as_slice(),
            at(0x1C00_0000, 0x300_0000),
        ),
        (
            b"crashkernel=0 crashkernel=8M,high".as_slice(),
            at(0x1F00_0000, 0x80_0000),
        ),
    ];
    compare(&rt, rt.alloc(), &SMALL, &cases)
}

// Linux rounds total memory up to a multiple of 128 MiB: 0x1FF7E000 bytes are 512 MiB, and one byte
// more than 512 MiB is 640 MiB. A size of the total or more refuses the plain form, and the high
// form is tried.
#[test]
fn ranges_of_the_rounded_total(rt: HostRuntime) -> Result<(), Fail> {
    let cases = [
        (
            0x1FF7_E000,
            b"crashkernel=0-512M:16M,512M-:32M".as_slice(),
            at(0x1D00_0000, 0x200_0000),
        ),
        (
            0x1800_0000,
            b"crashkernel=0-385M:16M,385M-:32M".as_slice(),
            at(0x1E00_0000, 0x100_0000),
        ),
        (
            0x1800_0001,
            b"crashkernel=0-385M:16M,385M-:32M".as_slice(),
            at(0x1D00_0000, 0x200_0000),
        ),
        (
            0x2000_0001,
            b"crashkernel=0-640M:16M,640M-:32M".as_slice(),
            at(0x1D00_0000, 0x200_0000),
        ),
        (
            0x1FF7_E000,
            b"crashkernel=0-1M:512M,1M-:32M crashkernel=48M,high".as_slice(),
            at(0x1C00_0000, 0x300_0000),
        ),
        (
            0x1FF7_E000,
            b"crashkernel=0-1M:511M,1M-:32M crashkernel=48M,high".as_slice(),
            at(0x1D00_0000, 0x200_0000),
        ),
        (
            0x1FF7_E000,
            b"crashkernel=1M-:32M,2M-:512M".as_slice(),
            at(0x1D00_0000, 0x200_0000),
        ),
        (
            0x1FF7_E000,
            b"crashkernel=1G-:512M,1M-:32M".as_slice(),
            Crash::Nothing,
        ),
        (0x1FF7_E000, b"crashkernel=512M".as_slice(), Crash::NoArea),
    ];
    for (added, line, expected) in cases {
        let crash = by_linux(rt.alloc(), added, line)?;
        assert!(rt; crash == expected, "{crash:?} at {line:?}");
    }
    Ok(())
}

#[test]
fn areas_above_4_gib(rt: HostRuntime) -> Result<(), Fail> {
    let cases = [
        (b"crashkernel=64M".as_slice(), at(0x7B00_0000, 0x400_0000)),
        (
            b"crashkernel=512M,high".as_slice(),
            at_both(0x2_6000_0000, 0x2000_0000, 0x6F00_0000, 0x1000_0000),
        ),
        (
            b"crashkernel=512M,high crashkernel=64M,low".as_slice(),
            at_both(0x2_6000_0000, 0x2000_0000, 0x7B00_0000, 0x400_0000),
        ),
        (
            b"crashkernel=512M,high crashkernel=0,low".as_slice(),
            at(0x2_6000_0000, 0x2000_0000),
        ),
        (
            b"crashkernel=3G".as_slice(),
            at_both(0x1_C000_0000, 0xC000_0000, 0x6F00_0000, 0x1000_0000),
        ),
        (b"crashkernel=5G".as_slice(), Crash::NoArea),
        (
            b"crashkernel=64M@4G".as_slice(),
            at_both(0x1_0000_0000, 0x400_0000, 0x6F00_0000, 0x1000_0000),
        ),
        (b"crashkernel=64M@6112M".as_slice(), Crash::InUse),
        (
            b"crashkernel=64M@6080M".as_slice(),
            at_both(0x1_7C00_0000, 0x400_0000, 0x6F00_0000, 0x1000_0000),
        ),
    ];
    compare(&rt, rt.alloc(), &LARGE, &cases)
}

// The low part of a crash area, below 4 GiB, is claimed after the area itself. If it doesn't fit,
// the area is freed again.
#[test]
fn low_parts(rt: HostRuntime) -> Result<(), Fail> {
    let line = b"crashkernel=512M,high".as_slice();
    let (_, last) = reserved(rt.alloc(), &LARGE, line)?;
    let claim = Item::Claim {
        range: bytes(0x6F00_0000, 0x1000_0000),
        owner: Owner::CrashLow,
    };
    assert!(rt; last == Some(claim));
    let line = b"crashkernel=512M,high crashkernel=2G,low".as_slice();
    let (crash, last) = reserved(rt.alloc(), &LARGE, line)?;
    let free = Item::Free {
        range: bytes(0x2_6000_0000, 0x2000_0000),
    };
    assert!(rt; crash == Crash::LowFailed && last == Some(free));
    Ok(())
}
