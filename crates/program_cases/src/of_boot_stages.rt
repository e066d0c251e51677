//! The boot on maps that overlap, are edited, or stop it, and what happens to memory. The expected
//! runs come from outside the program.

ghost use Rattle.std.specs.List.{All};
ghost use Rattle.e820_model.specs.Claims.{EntriesFit};
ghost use Rattle.boot_model.specs.Mirrors.{IsMirror};

use crate::common::{
    FIRST_640K, FIRST_PAGE, KERNEL, booted, entry, machine, nested, put_entries, run,
};
use bm_base::{Range, Width};
use boot_model::{Inputs, Stop};
use boot_stages::boot;
use e820_model::Run;
use e820_table::Entry;
use report_memory::put_journal;
use std::alloc::Global;
use std::process::Abort;
use std::test::Fail;

fn expect(
    rt: &impl Abort,
    alloc: Global,
    entries: &[Entry],
    line: &[u8],
    want: Result<&[Run], Stop>,
) -> Result<(), Fail>
    requires { EntriesFit entries.now }
{
    match booted(alloc, entries, line)? {
        Ok(booted) => assert!(rt; want == Ok(booted.map.as_slice())),
        Err(stop) => assert!(rt; want == Err(stop)),
    }
    Ok(())
}

#[test]
fn maps_and_stops(rt: HostRuntime) -> Result<(), Fail> {
    let alloc = rt.alloc();
    // edits act on a settled table: removing the reserved range uncovers no RAM
    expect(
        &rt,
        alloc,
        &nested(),
        b"memmap=1M%0x200000-2",
        Ok(&[
            FIRST_PAGE,
            FIRST_640K,
            run(0x10_0000, 0x10_0000, 1),
            run(0x30_0000, 0x7D0_0000, 1),
        ]),
    )?;
    let whole = [FIRST_PAGE, FIRST_640K, run(0x10_0000, 0x7F0_0000, 1)];
    expect(&rt, alloc, &nested(), b"memmap=1M%0x200000-2+1", Ok(&whole))?;
    // the virtual machine: its own map, RAM up to 64 MiB, and a map from the command line
    let own = [
        FIRST_PAGE,
        run(0x1000, 0x9_EC00, 1),
        run(0x9_FC00, 0x400, 2),
        run(0xF_0000, 0x1_0000, 2),
        run(0x10_0000, 0x7EE_0000, 1),
        run(0x7FE_0000, 0x2_0000, 2),
        run(0xFFFC_0000, 0x4_0000, 2),
    ];
    expect(&rt, alloc, &machine(), b"", Ok(&own))?;
    let cut = [
        own[0],
        own[1],
        own[2],
        own[3],
        run(0x10_0000, 0x3F0_0000, 1),
        own[5],
        own[6],
    ];
    expect(&rt, alloc, &machine(), b"mem=0x4000000 -- mem=0", Ok(&cut))?;
    let exact = b"memmap=exactmap memmap=640K@0 memmap=127M@1M";
    expect(&rt, alloc, &machine(), exact, Ok(&whole))?;
    // maps that stop the boot
    let reserved = [entry(0, 0x1000, 2), entry(0x10_0000, 0x1000, 2)];
    expect(&rt, alloc, &reserved, b"", Err(Stop::NoRam))?;
    let vast = [entry(0, 0xA_0000, 1), entry(0x10_0000, 0x1000_0000_0000, 1)];
    let too_much = Stop::TooMuchRam {
        frames: 4_294_967_455,
    };
    expect(&rt, alloc, &vast, b"", Err(too_much))
}

// The journal of the virtual machine's boot. It begins with the first claims. The first of the two
// runs of RAM ends within a frame, and the limit is the end of the second run. All memory is on
// node 0. The last items are the claims for the data of this node, for the roots, and for the one
// section.
const JOURNAL: &str = "1: claim kernel 0x0000000001000000..0x0000000002ffffff\n\
                       2: claim low-64k 0x0000000000000000..0x000000000000ffff\n\
                       3: limit 0x0000000000100000\n\
                       4: mem 0x0000000000001000..0x000000000009fbff\n\
                       5: mem 0x0000000000100000..0x0000000007fdffff\n\
                       6: trim\n\
                       7: limit 0x0000000007fe0000\n\
                       8: claim low-1m 0x0000000000000000..0x00000000000fffff\n\
                       9: node 0 0x0000000000000000..0x0000000007fdffff\n\
                       10: claim node-data 0 0x0000000007fb5000..0x0000000007fdffff\n\
                       11: claim roots 0x0000000007fb1000..0x0000000007fb4fff\n\
                       12: claim root 0 0x0000000007fb0000..0x0000000007fb0fff\n\
                       13: claim usage 0 0x0000000007faffc0..0x0000000007faffe7\n\
                       14: claim map 0 0x0000000007c00000..0x0000000007dfffff\n";

// The journal of a boot with 16 MiB of mirrored memory: all places are found in that memory.
const MIRRORED: &str = "1: claim kernel 0x0000000001000000..0x0000000002ffffff\n\
                        2: claim low-64k 0x0000000000000000..0x000000000000ffff\n\
                        3: limit 0x0000000000100000\n\
                        4: mem 0x0000000000001000..0x000000000009fbff\n\
                        5: mem 0x0000000000100000..0x0000000007fdffff\n\
                        6: trim\n\
                        7: mirror 0x0000000004000000..0x0000000004ffffff\n\
                        8: limit 0x0000000007fe0000\n\
                        9: claim low-1m 0x0000000000000000..0x00000000000fffff\n\
                        10: node 0 0x0000000000000000..0x0000000007fdffff\n\
                        11: claim node-data 0 0x0000000004fd5000..0x0000000004ffffff\n\
                        12: claim roots 0x0000000004fd1000..0x0000000004fd4fff\n\
                        13: claim root 0 0x0000000004fd0000..0x0000000004fd0fff\n\
                        14: claim usage 0 0x0000000004fcffc0..0x0000000004fcffe7\n\
                        15: claim map 0 0x0000000004c00000..0x0000000004dfffff\n";

// The journal of a boot in which searches go from the lowest address up: places are found just
// above the first MiB, and the map of the section is above the kernel's image.
const UPWARD: &str = "1: claim kernel 0x0000000001000000..0x0000000002ffffff\n\
                      2: claim low-64k 0x0000000000000000..0x000000000000ffff\n\
                      3: limit 0x0000000000100000\n\
                      4: upward on\n\
                      5: mem 0x0000000000001000..0x000000000009fbff\n\
                      6: mem 0x0000000000100000..0x0000000007fdffff\n\
                      7: trim\n\
                      8: limit 0x0000000007fe0000\n\
                      9: claim low-1m 0x0000000000000000..0x00000000000fffff\n\
                      10: node 0 0x0000000000000000..0x0000000007fdffff\n\
                      11: claim node-data 0 0x0000000000100000..0x000000000012afff\n\
                      12: claim roots 0x000000000012b000..0x000000000012efff\n\
                      13: claim root 0 0x000000000012f000..0x000000000012ffff\n\
                      14: claim usage 0 0x0000000000130000..0x0000000000130027\n\
                      15: claim map 0 0x0000000003000000..0x00000000031fffff\n";

// The journal of a boot with another 128 MiB at 64 TiB and addresses of 52 bits: the table of
// roots takes 1 MiB.
const WIDE: &str = "1: claim kernel 0x0000000001000000..0x0000000002ffffff\n\
                    2: claim low-64k 0x0000000000000000..0x000000000000ffff\n\
                    3: limit 0x0000000000100000\n\
                    4: mem 0x0000000000001000..0x000000000009fbff\n\
                    5: mem 0x0000000000100000..0x0000000007fdffff\n\
                    6: mem 0x0000400000000000..0x0000400007ffffff\n\
                    7: trim\n\
                    8: limit 0x0000400008000000\n\
                    9: claim low-1m 0x0000000000000000..0x00000000000fffff\n\
                    10: node 0 0x0000000000000000..0x0000400007ffffff\n\
                    11: claim node-data 0 0x0000400007fd5000..0x0000400007ffffff\n\
                    12: claim roots 0x0000400007ed5000..0x0000400007fd4fff\n\
                    13: claim root 0 0x0000400007ed4000..0x0000400007ed4fff\n\
                    14: claim root 2048 0x0000400007ed3000..0x0000400007ed3fff\n\
                    15: claim usage 0 0x0000400007ed2f80..0x0000400007ed2fcf\n\
                    16: claim map 0 0x0000400007a00000..0x0000400007dfffff\n";

// Returns the virtual machine's entries, with another 128 MiB at 64 TiB.
fn wide_machine() -> [Entry; 7]
    ensures { EntriesFit result }
{
    [
        entry(0, 0x9_FC00, 1),
        entry(0x9_FC00, 0x400, 2),
        entry(0xF_0000, 0x1_0000, 2),
        entry(0x10_0000, 0x7EE_0000, 1),
        entry(0x7FE_0000, 0x2_0000, 2),
        entry(0xFFFC_0000, 0x4_0000, 2),
        entry(0x4000_0000_0000, 0x800_0000, 1),
    ]
}

fn put_mirrors(inputs: &mut Inputs, mirrors: Vec<Range>)
    requires { All IsMirror mirrors.items }
{
    inputs.mirrors = mirrors;
}

// Boots with these inputs and entries, and compares the journal.
fn expect_journal(
    rt: &impl Abort,
    alloc: Global,
    mut inputs: Inputs,
    entries: &[Entry],
    journal: &str,
) -> Result<(), Fail>
    requires { EntriesFit entries.now }
{
    put_entries(&mut inputs, Vec::from_slice(alloc, entries)?);
    let Ok(booted) = boot(alloc, inputs) else {
        return Err("the boot stops".into());
    };
    let mut text = Vec::new(alloc);
    put_journal(&mut text, &booted.journal)?;
    assert!(rt; text.as_slice() == journal.as_bytes());
    Ok(())
}

#[test]
fn journals_of_a_virtual_machine(rt: HostRuntime) -> Result<(), Fail> {
    let alloc = rt.alloc();
    let narrow = Inputs::without_files(alloc, Width::Bits46, KERNEL);
    expect_journal(&rt, alloc, narrow, &machine(), JOURNAL)?;
    // with addresses of 46 bits, the memory at 64 TiB doesn't count
    let narrow = Inputs::without_files(alloc, Width::Bits46, KERNEL);
    expect_journal(&rt, alloc, narrow, &wide_machine(), JOURNAL)?;
    let wide = Inputs::without_files(alloc, Width::Bits52, KERNEL);
    expect_journal(&rt, alloc, wide, &wide_machine(), WIDE)
}

#[test]
fn mirrors_and_search_from_below(rt: HostRuntime) -> Result<(), Fail> {
    let alloc = rt.alloc();
    let mut inputs = Inputs::without_files(alloc, Width::Bits46, KERNEL);
    inputs.upward = true;
    expect_journal(&rt, alloc, inputs, &machine(), UPWARD)?;
    let mirror = Range {
        base: 0x400_0000,
        size: 0x100_0000,
    };
    let mirrors = vec![in alloc; mirror]?;
    let mut inputs = Inputs::without_files(alloc, Width::Bits46, KERNEL);
    put_mirrors(&mut inputs, mirrors);
    expect_journal(&rt, alloc, inputs, &machine(), MIRRORED)
}
