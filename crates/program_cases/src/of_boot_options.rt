//! Command lines of the kernel, as files contain them. Each test is a table of worked examples. The
//! proved examples of `boot_options` have single map options, single values of `crashkernel=`, and
//! the extreme sizes and types.

use bm_base::Range;
use boot_options::{CrashRange, OptionFault, Options, read_options};
use e820_model::Edit;
use std::alloc::Global;
use std::test::Fail;

const MIB: u64 = 1 << 20;

/// Returns the number of edits that a line has, whether it turns the SRAT off, and whether it adds
/// the EFI map.
fn read_count(alloc: Global, line: &[u8]) -> Result<(usize, bool, bool), OptionFault> {
    let options = read_options(alloc, line)?;
    Ok((options.edits.len(), options.numa_off, options.add_efi))
}

#[test]
fn lines_of_words(rt: HostRuntime) {
    let cases = [
        (b"".as_slice(), Ok((0, false, false))),
        (b"mem=1M\n\n".as_slice(), Ok((1, false, false))),
        (b"numa=off mem=1G numa=off".as_slice(), Ok((1, true, false))),
        (b"add_efi_memmap mem=1M".as_slice(), Ok((1, false, true))),
        (
            b"numa=off add_efi_memmap=off".as_slice(),
            Ok((0, true, true)),
        ),
        (
            b"add_efi_memmap1 -- add_efi_memmap".as_slice(),
            Ok((0, false, false)),
        ),
        (
            b"memory=x Mem=x mem.x=0 =".as_slice(),
            Ok((0, false, false)),
        ),
        (b"mem=1M \"--\" mem=0".as_slice(), Ok((1, false, false))),
        (b"mem=1M\0 mem=0".as_slice(), Ok((1, false, false))),
        (
            b"a\tmem=1M\x0Bmem=2M\x0Cmem=3M\rmem=4M".as_slice(),
            Ok((4, false, false)),
        ),
        (b"a\xA0mem=0".as_slice(), Ok((0, false, false))),
        (b"\"mem=\"1M\"\"".as_slice(), Ok((1, false, false))),
        (b"me\"m=0\"".as_slice(), Ok((0, false, false))),
        (b"a=\"b mem=0 c\" numa=off".as_slice(), Ok((0, true, false))),
        (
            b"crashkernel=1M,low crashkernels=x".as_slice(),
            Ok((0, false, false)),
        ),
        (
            b"memmap=exactmap memmap=640K@0 memmap=127M@1M".as_slice(),
            Ok((3, false, false)),
        ),
        (
            b"memmap=exactmap,1M!0,1M%2M-0+1".as_slice(),
            Ok((3, false, false)),
        ),
        (
            b"BOOT_IMAGE=/boot/vmlinuz-6.1.0-28-amd64 root=UUID=2f1f9c7e-93a5-4c1e-8a35 ro \
              console=tty0 console=ttyS0,115200n8 dyndbg=\"file e820.c +p\" memmap=4G!12G \
              mem=64G quiet\n"
                .as_slice(),
            Ok((2, false, false)),
        ),
    ];
    for (line, want) in &cases {
        assert!(rt; read_count(rt.alloc(), line) == *want, "at {line:?}");
    }
}

#[test]
fn faults_of_lines(rt: HostRuntime) {
    let cases = [
        (b"mem=0 \"\"\"".as_slice(), OptionFault::OpenQuote),
        (
            b"mem=1M --x mem=0".as_slice(),
            OptionFault::BadMem { word: 3 },
        ),
        (
            b"mem=1M\xA0numa=off".as_slice(),
            OptionFault::BadMem { word: 1 },
        ),
        (
            b"a mem=0 memmap= numa=x".as_slice(),
            OptionFault::BadMem { word: 2 },
        ),
        (
            b"quiet memmap=1M@2M, mem=0".as_slice(),
            OptionFault::BadMemmap { word: 2 },
        ),
        (
            b"memmap=exactmap numa=x".as_slice(),
            OptionFault::BadNuma { word: 2 },
        ),
        (
            b"memmap=exactmap,1M@0,1M@2M a memmap=exactmap".as_slice(),
            OptionFault::UserMapInvalid { word: 3 },
        ),
        (
            b"memmap=exactmap,1M@0 -- memmap=1M@4M".as_slice(),
            OptionFault::UserMapInvalid { word: 1 },
        ),
    ];
    for (line, want) in &cases {
        assert!(rt; read_count(rt.alloc(), line) == Err(*want), "at {line:?}");
    }
    assert!(rt; read_count(rt.alloc(), &[b'a'; 2048]) == Err(OptionFault::TooLong));
}

#[test]
fn edits_in_the_order_of_the_line(rt: HostRuntime) -> Result<(), Fail> {
    let line = b"memmap=1K@0,1K%4K mem=1M numa=off memmap=exactmap,2@2,3$3".as_slice();
    let Options {
        edits,
        crash: _,
        numa_off,
        add_efi: _,
    } = read_options(rt.alloc(), line)?;
    let want = [
        Edit::Add {
            range: Range {
                base: 0,
                size: 1024,
            },
            kind: 1,
        },
        Edit::RemoveAll {
            range: Range {
                base: 4096,
                size: 1024,
            },
        },
        Edit::Remove {
            range: Range {
                base: MIB,
                size: u64::MAX - MIB,
            },
            kind: 1,
        },
        Edit::Clear,
        Edit::Add {
            range: Range { base: 2, size: 2 },
            kind: 1,
        },
        Edit::Add {
            range: Range { base: 3, size: 3 },
            kind: 2,
        },
    ];
    assert!(rt; edits.as_slice() == want.as_slice());
    assert!(rt; numa_off);
    Ok(())
}

/// The requested crash area: for `crashkernel=RANGE:SIZE,..` the number of ranges, the last range
/// and the base; then the sizes of `crashkernel=SIZE,high` and of `crashkernel=SIZE,low`.
type Area = (Option<(usize, CrashRange, u64)>, Option<u64>, Option<u64>);

fn read_area(alloc: Global, line: &[u8]) -> Result<Area, Fail> {
    let crash = read_options(alloc, line)?.crash;
    let plain = match &crash.plain {
        Some(plain) => match plain.ranges.as_slice().last() {
            Some(range) => Some((plain.ranges.len(), *range, plain.base)),
            None => None,
        },
        None => None,
    };
    Ok((plain, crash.high, crash.low))
}

#[test]
fn crash_areas(rt: HostRuntime) -> Result<(), Fail> {
    let whole = |size| CrashRange {
        start: 0,
        end: None,
        size,
    };
    let cases = [
        (b"quiet".as_slice(), (None, None, None)),
        (
            b"crashkernel=64M crashkernel=0".as_slice(),
            (Some((1, whole(0), 0)), None, None),
        ),
        (
            b"crashkernel=8-:1,1-0x10:010@1G".as_slice(),
            (
                Some((
                    2,
                    CrashRange {
                        start: 1,
                        end: Some(16),
                        size: 8,
                    },
                    1024 * MIB,
                )),
                None,
                None,
            ),
        ),
        (
            b"crashkernel=0,low crashkernel=1M crashkernel=1,high crashkernel=2,high -- \
                crashkernel=3,low"
                .as_slice(),
            (Some((1, whole(MIB), 0)), Some(2), Some(0)),
        ),
    ];
    for (line, want) in &cases {
        assert!(rt; read_area(rt.alloc(), line)? == *want, "at {line:?}");
    }
    Ok(())
}
