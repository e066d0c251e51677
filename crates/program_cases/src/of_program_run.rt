//! The program `bootmem` over files in memory: its reports, and what it does if a call fails. What
//! it writes for which input is proved, with examples (`proofs/`), and isn't repeated here.

ghost use Rattle.std.specs.Prelude.{IfOk};
ghost use Rattle.bm_io.specs.MemFiles.{file_views, HaveOwnNames};

use crate::common::{RAM, SMALLEST_SRAT, entry, file, page, put_entry};
use bm_io::{Fetch, Files, MemFile, MemFiles, MemSink};
use e820_model::Entry;
use program_run::run;
use std::alloc::Global;
use std::process::Abort;
use std::test::Fail;

const RESERVED: Entry = Entry {
    addr: 0x7fe0000,
    size: 0x20000,
    kind: 2,
};

const MAP: &str = "0x0000000000100000..0x0000000007fdffff 1 usable\n\
    0x0000000007fe0000..0x0000000007ffffff 2 reserved\n";

/// The summary of the made input of two entries.
const SUMMARY: &str = "runs 3\nusable 32927\nfree 23503\n\
    memory records 2 room 128\nreserved records 5 room 128\nblocks 30\n";

/// An extension of one entry: RAM over `RESERVED` and 4096 bytes after it.
const EXTENSION: [u8; 36] = [
    0, 0, 0, 0, 0, 0, 0, 0, 1, 0, 0, 0, 20, 0, 0, 0, // next, type, length
    0, 0, 0xFE, 7, 0, 0, 0, 0, 0, 0x10, 2, 0, 0, 0, 0, 0, 1, 0, 0, 0, // address, size, type
];

/// How a run ended: the status, the output and the error output.
#[derive(Drop)]
struct Ended {
    status: u8,
    out: MemSink,
    err: MemSink,
}

impl Ended {
    /// Tests whether the run ended with this status, this text on the output and this line on the
    /// error output.
    fn is(&self, status: u8, text: &str, line: &str) -> bool {
        self.status == status
            && self.out.written_bytes() == text.as_bytes()
            && self.err.written_bytes() == line.as_bytes()
    }
}

/// Returns three files: the zero page `zp`, the extension `ext`, and the kernel's command line
/// `cmd` with the bytes `line`.
fn files_of(alloc: Global, line: &[u8]) -> Result<Vec<MemFile>, Fail>
    ensures { IfOk result (λ files. HaveOwnNames (file_views files.items)) }
{
    let zp = file(alloc, "zp", &page(2, RAM, RESERVED))?;
    let ext = file(alloc, "ext", &EXTENSION)?;
    let cmd = file(alloc, "cmd", line)?;
    Ok(vec![in alloc; zp, ext, cmd]?)
}

/// Runs `bootmem` with these words and this command line of the kernel. `failing` has the numbers
/// of the calls that fail: of fetches, of writes to the output, and of writes to the error output.
fn run_on(alloc: Global, words: &[&str], line: &[u8], failing: [&[u64]; 3]) -> Result<Ended, Fail> {
    let [fetches, puts, lines] = failing;
    let mut files = MemFiles::new(files_of(alloc, line)?, Vec::from_slice(alloc, fetches)?);
    run_over(alloc, words, &mut files, puts, lines)
}

/// Runs `bootmem` with these words and files. `puts` and `lines` have the numbers of the writes
/// that fail, to the output and to the error output.
fn run_over(
    alloc: Global,
    words: &[&str],
    files: &mut MemFiles,
    puts: &[u64],
    lines: &[u64],
) -> Result<Ended, Fail> {
    let mut owned = Vec::new(alloc);
    for word in words {
        owned.push(String::from_str(alloc, word)?)?;
    }
    let mut out = MemSink::new(Vec::from_slice(alloc, puts)?);
    let mut err = MemSink::new(Vec::from_slice(alloc, lines)?);
    let status = run(alloc, &owned, files, &mut out, &mut err);
    Ok(Ended { status, out, err })
}

/// The words of the command line; the numbers of the fetches, of the writes to the output and of
/// the writes to the error output that fail; and the expected status, output and error output.
type Row<'a> = (&'a [&'a str], [&'a [u64]; 3], u8, &'a str, &'a str);

/// Runs `bootmem` for each row, with this command line of the kernel, and compares how the run
/// ended.
fn compare(rt: &impl Abort, alloc: Global, line: &[u8], rows: &[Row<'_>]) -> Result<(), Fail> {
    for (words, failing, status, text, error) in rows {
        let ended = run_on(alloc, words, line, *failing)?;
        assert!(rt; ended.is(*status, text, error), "{words:?} {failing:?}");
    }
    Ok(())
}

/// No call fails.
const NONE: [&[u64]; 3] = [&[], &[], &[]];

#[test]
fn words_and_what_fails(rt: HostRuntime) -> Result<(), Fail> {
    let half = "0x0000000000100000..0x0000000007fdffff 1 usable\n0";
    let map: &[&str] = &["--report", "map", "zp"];
    let other: &[&str] = &["--report", "map", "other"];
    let rows: [Row<'_>; 10] = [
        (map, NONE, 0, MAP, ""),
        (other, NONE, 3, "", "bootmem: cannot read other\n"),
        (map, [&[1], &[], &[]], 3, "", "bootmem: cannot read zp\n"),
        (map, [&[2], &[], &[]], 0, MAP, ""),
        (map, [&[], &[1], &[]], 4, half, "bootmem: cannot write\n"),
        // the report is written at once, so there is no second write
        (map, [&[], &[2], &[]], 0, MAP, ""),
        (map, [&[], &[1], &[1]], 4, half, "boo"),
        (other, [&[], &[], &[1]], 3, "", "boo"),
        (&["--report", "map", "-zp"], NONE, 2, "", "bootmem: usage\n"),
        (&["map", "--report", "zp"], [&[], &[], &[1]], 2, "", "boo"),
    ];
    compare(&rt, rt.alloc(), b"", &rows)
}

// For a made input no file is fetched.
#[test]
fn made_inputs(rt: HostRuntime) -> Result<(), Fail> {
    let rows: [Row<'_>; 1] = [(&["--make", "2", "--report=summary"], NONE, 0, SUMMARY, "")];
    compare(&rt, rt.alloc(), b"", &rows)
}

/// Runs `bootmem` with these words for each command line of the kernel, and compares the status,
/// output and error output.
fn compare_lines(
    rt: &impl Abort,
    alloc: Global,
    words: &[&str],
    rows: &[(&str, u8, &str, &str)],
) -> Result<(), Fail> {
    for (line, status, text, error) in rows {
        let ended = run_on(alloc, words, line.as_bytes(), NONE)?;
        assert!(rt; ended.is(*status, text, error), "{line}");
    }
    Ok(())
}

#[test]
fn extension_and_command_line(rt: HostRuntime) -> Result<(), Fail> {
    let longer = "0x0000000000100000..0x0000000007fdffff 1 usable\n\
                  0x0000000007fe0000..0x0000000007ffffff 2 reserved\n\
                  0x0000000008000000..0x0000000008000fff 1 usable\n";
    let shorter = "0x0000000000100000..0x0000000003ffffff 1 usable\n\
                   0x0000000007fe0000..0x0000000007ffffff 2 reserved\n";
    let rows = [
        ("", 0, longer, ""),
        ("mem=0x4000000 -- mem=0", 0, shorter, ""),
        ("x memmap=1M@", 5, "", "bootmem: cmdline: word 2: memmap\n"),
        (
            "crashkernel=64M-32M:8M",
            5,
            "",
            "bootmem: cmdline: word 1: crashkernel\n",
        ),
        ("crashkernel=64M crashkernel=0", 0, longer, ""),
        (
            "memmap=exactmap memmap=4K$8K memmap=4K$16K",
            6,
            "",
            "bootmem: stopped: no usable frame\n",
        ),
    ];
    let words = [
        "--cmdline",
        "cmd",
        "--report",
        "map",
        "--e820ext",
        "ext",
        "zp",
    ];
    compare_lines(&rt, rt.alloc(), &words, &rows)
}

// All texts are made before the first is written. Each text that isn't empty is one write.
#[test]
fn lists_of_reports(rt: HostRuntime) -> Result<(), Fail> {
    let both = "== options\nnuma off\n\
                == map\n\
                0x0000000000100000..0x0000000007fdffff 1 usable\n\
                0x0000000007fe0000..0x0000000007ffffff 2 reserved\n";
    let half = "== options\nnuma off\n\
                == map\n\
                0x0000000000100000..0x0000000007fdffff 1 usab";
    let list: &[&str] = &[
        "--kernel=16M,32M",
        "--report",
        "options,map",
        "--cmdline",
        "cmd",
        "zp",
    ];
    let unwritten = "bootmem: cannot write\n";
    let usage = "bootmem: usage\n";
    let rows: [Row<'_>; 6] = [
        (list, NONE, 0, both, ""),
        (list, [&[], &[1], &[]], 4, "== options", unwritten),
        (list, [&[], &[2], &[]], 4, half, unwritten),
        (list, [&[], &[3], &[]], 0, both, ""),
        // a name that isn't a report's, and an image that ends too high
        (&["--report", "options,maps", "zp"], NONE, 2, "", usage),
        (
            &["--kernel=16M,64T", "--report", "map", "zp"],
            NONE,
            2,
            "",
            usage,
        ),
    ];
    compare(&rt, rt.alloc(), b"numa=off", &rows)?;
    // a report without lines writes nothing
    let empty: [Row<'_>; 1] = [(&["--report", "options", "zp"], [&[], &[1], &[]], 0, "", "")];
    compare(&rt, rt.alloc(), b"", &empty)
}

/// The report `map` with its title line, for a machine with 16 GiB above 4 GiB.
const GREAT_MAP: &str = "== map\n\
    0x0000000000100000..0x0000000007fdffff 1 usable\n\
    0x0000000007fe0000..0x0000000007ffffff 2 reserved\n\
    0x0000000100000000..0x00000004ffffffff 1 usable\n";

// The report `blocks` of a machine with 16 GiB has thousands of lines, but is one write. The second
// write is the second report, and there is no third.
#[test]
fn one_put_per_report(rt: HostRuntime) -> Result<(), Fail> {
    let words = ["--cmdline", "cmd", "--report", "blocks,map", "zp"];
    let run = |put: u64| run_on(rt.alloc(), &words, b"memmap=16G@4G", [&[], &[put], &[]]);
    let (first, second, third) = (run(1)?, run(2)?, run(3)?);
    assert!(rt; first.status == 4 && second.status == 4 && third.status == 0);
    let whole = third.out.written_bytes();
    assert!(rt; whole.starts_with(b"== blocks\n") && whole.ends_with(GREAT_MAP.as_bytes()));
    let blocks = whole.len().saturating_sub(GREAT_MAP.len());
    assert!(rt; blocks > 4000 * 47);
    assert!(rt; first.out.written_bytes().len() == blocks / 2);
    assert!(rt; whole.starts_with(first.out.written_bytes()));
    let half = GREAT_MAP.len() / 2;
    assert!(rt; second.out.written_bytes().len() == blocks.saturating_add(half));
    assert!(rt; whole.starts_with(second.out.written_bytes()));
    Ok(())
}

/// Returns the zero page of a virtual machine of 128 MiB.
fn machine() -> [u8; 4096] {
    let mut bytes = page(6, entry(0, 0x9_FC00, 1), entry(0x9_FC00, 0x400, 2));
    put_entry(&mut bytes, 0x2f8, entry(0xF_0000, 0x1_0000, 2));
    put_entry(&mut bytes, 0x30c, entry(0x10_0000, 0x7EE_0000, 1));
    put_entry(&mut bytes, 0x320, RESERVED);
    put_entry(&mut bytes, 0x334, entry(0xFFFC_0000, 0x4_0000, 2));
    bytes
}

/// The report `map` of this machine.
const MACHINE_MAP: &str = "0x0000000000000000..0x0000000000000fff 2 reserved\n\
    0x0000000000001000..0x000000000009fbff 1 usable\n\
    0x000000000009fc00..0x000000000009ffff 2 reserved\n\
    0x00000000000f0000..0x00000000000fffff 2 reserved\n\
    0x0000000000100000..0x0000000007fdffff 1 usable\n\
    0x0000000007fe0000..0x0000000007ffffff 2 reserved\n\
    0x00000000fffc0000..0x00000000ffffffff 2 reserved\n";

/// The bytes of the files `zp`, `ext` and `cl`.
#[derive(Clone, Copy)]
struct Held<'a> {
    zp: &'a [u8],
    ext: &'a [u8],
    cl: &'a [u8],
}

/// A malformed zero page, an extension without entries, and an empty command line.
const HELD: Held<'static> = Held {
    zp: b"",
    ext: &[0, 0, 0, 0, 0, 0, 0, 0, 1, 0, 0, 0, 0, 0, 0, 0],
    cl: b"",
};

/// Returns these files, an SRAT `sr` without entries, and an empty script `sc`.
fn five_files(alloc: Global, held: &Held<'_>) -> Result<Vec<MemFile>, Fail>
    ensures { IfOk result (λ files. HaveOwnNames (file_views files.items)) }
{
    let zp = file(alloc, "zp", held.zp)?;
    let ext = file(alloc, "ext", held.ext)?;
    let cl = file(alloc, "cl", held.cl)?;
    let sr = file(alloc, "sr", &SMALLEST_SRAT)?;
    let sc = file(alloc, "sc", b"")?;
    Ok(vec![in alloc; zp, ext, cl, sr, sc]?)
}

/// Tests whether one more fetch fails. The file is there, so the fetch fails only if its number is
/// planned to fail.
fn fails(files: &mut MemFiles, alloc: Global) -> bool {
    files.fetch(alloc, "zp", 4096).err() == Some(Fetch::Failed)
}

/// Runs `bootmem` over five files for each row and compares how the run ends. Afterwards the next
/// fetch must fail too: its number is the last one in the row's list of fetches that fail. The run
/// therefore made one fetch fewer than that number.
fn compare_fetches(
    rt: &impl Abort,
    alloc: Global,
    held: &Held<'_>,
    rows: &[Row<'_>],
) -> Result<(), Fail> {
    for (words, failing, status, text, error) in rows {
        let [fetches, puts, lines] = *failing;
        let mut files = MemFiles::new(five_files(alloc, held)?, Vec::from_slice(alloc, fetches)?);
        let ended = run_over(alloc, words, &mut files, puts, lines)?;
        assert!(rt; ended.is(*status, text, error), "{words:?} {failing:?}");
        assert!(rt; fails(&mut files, alloc), "after {words:?} {failing:?}");
    }
    Ok(())
}

/// The words of a run that reads all five files.
const FIVE: &[&str] = &[
    "--e820ext",
    "ext",
    "--cmdline",
    "cl",
    "--srat",
    "sr",
    "--script",
    "sc",
    "--report",
    "map,buddyinfo",
    "zp",
];

/// The two reports of this run.
const BOTH: &str = "== map\n\
    0x0000000000000000..0x0000000000000fff 2 reserved\n\
    0x0000000000001000..0x000000000009fbff 1 usable\n\
    0x000000000009fc00..0x000000000009ffff 2 reserved\n\
    0x00000000000f0000..0x00000000000fffff 2 reserved\n\
    0x0000000000100000..0x0000000007fdffff 1 usable\n\
    0x0000000007fe0000..0x0000000007ffffff 2 reserved\n\
    0x00000000fffc0000..0x00000000ffffffff 2 reserved\n\
    == buddyinfo\n\
    Node 0, zone      DMA      0      0      0      0      0      0      0      0      1      1      3 \n\
    Node 0, zone    DMA32      1      1      1      1      0      1      0      1      1      0     19 \n";

/// The first 176 of the 353 bytes of the first report.
const HALF_A_MAP: &str = "== map\n\
    0x0000000000000000..0x0000000000000fff 2 reserved\n\
    0x0000000000001000..0x000000000009fbff 1 usable\n\
    0x000000000009fc00..0x000000000009ffff 2 reserved\n\
    0x00000000000f0000..0";

/// The first report, and the first 106 of the 213 bytes of the second.
const MAP_AND_HALF: &str = "== map\n\
    0x0000000000000000..0x0000000000000fff 2 reserved\n\
    0x0000000000001000..0x000000000009fbff 1 usable\n\
    0x000000000009fc00..0x000000000009ffff 2 reserved\n\
    0x00000000000f0000..0x00000000000fffff 2 reserved\n\
    0x0000000000100000..0x0000000007fdffff 1 usable\n\
    0x0000000007fe0000..0x0000000007ffffff 2 reserved\n\
    0x00000000fffc0000..0x00000000ffffffff 2 reserved\n\
    == buddyinfo\n\
    Node 0, zone      DMA      0      0      0      0      0      0      0      0      1      1  ";

#[test]
fn each_call_that_fails(rt: HostRuntime) -> Result<(), Fail> {
    let unwritten = "bootmem: cannot write\n";
    let rows: [Row<'_>; 9] = [
        (FIVE, [&[6], &[], &[]], 0, BOTH, ""),
        (
            FIVE,
            [&[1, 2], &[], &[]],
            3,
            "",
            "bootmem: cannot read zp\n",
        ),
        (
            FIVE,
            [&[2, 3], &[], &[]],
            3,
            "",
            "bootmem: cannot read ext\n",
        ),
        (
            FIVE,
            [&[3, 4], &[], &[]],
            3,
            "",
            "bootmem: cannot read cl\n",
        ),
        (
            FIVE,
            [&[4, 5], &[], &[]],
            3,
            "",
            "bootmem: cannot read sr\n",
        ),
        (
            FIVE,
            [&[5, 6], &[], &[]],
            3,
            "",
            "bootmem: cannot read sc\n",
        ),
        (FIVE, [&[6], &[1], &[]], 4, HALF_A_MAP, unwritten),
        (FIVE, [&[6], &[2], &[]], 4, MAP_AND_HALF, unwritten),
        (&[], [&[1], &[], &[1]], 2, "", "boo"),
    ];
    let zp = machine();
    compare_fetches(&rt, rt.alloc(), &Held { zp: &zp, ..HELD }, &rows)
}

// A zero page of 4095 bytes and an extension of 15 bytes. After a file with a fault no file is
// fetched.
#[test]
fn malformed_files(rt: HostRuntime) -> Result<(), Fail> {
    let short = Held {
        zp: &[0; 4095],
        ..HELD
    };
    let line = "bootmem: zeropage: wrong length\n";
    let rows: [Row<'_>; 1] = [(FIVE, [&[2], &[], &[]], 5, "", line)];
    compare_fetches(&rt, rt.alloc(), &short, &rows)?;
    let zp = machine();
    let short = Held {
        zp: &zp,
        ext: &[0; 15],
        ..HELD
    };
    let line = "bootmem: e820ext: header\n";
    let rows: [Row<'_>; 1] = [(FIVE, [&[3], &[], &[]], 5, "", line)];
    compare_fetches(&rt, rt.alloc(), &short, &rows)
}

// A run fetches no file that the words don't name, however it ends.
#[test]
fn files_that_no_word_names(rt: HostRuntime) -> Result<(), Fail> {
    let rows: [Row<'_>; 5] = [
        (
            &["--report", "map", "zp"],
            [&[2], &[], &[]],
            0,
            MACHINE_MAP,
            "",
        ),
        (
            &["--make", "2", "--report=summary"],
            [&[1], &[], &[]],
            0,
            SUMMARY,
            "",
        ),
        (
            &["--report", "nope", "zp"],
            [&[1], &[], &[]],
            2,
            "",
            "bootmem: usage\n",
        ),
        (
            &["--report", "map", "other"],
            [&[2], &[], &[]],
            3,
            "",
            "bootmem: cannot read other\n",
        ),
        // an extension without a zero page
        (
            &["--report", "map", "ext"],
            [&[2], &[], &[]],
            5,
            "",
            "bootmem: zeropage: wrong length\n",
        ),
    ];
    let zp = machine();
    let held = Held { zp: &zp, ..HELD };
    compare_fetches(&rt, rt.alloc(), &held, &rows)?;
    let words: &[&str] = &["--cmdline", "cl", "--report", "map", "zp"];
    let faulty = Held {
        cl: b"numa=on",
        ..held
    };
    let line = "bootmem: cmdline: word 1: numa\n";
    let rows: [Row<'_>; 1] = [(words, [&[3], &[], &[]], 5, "", line)];
    compare_fetches(&rt, rt.alloc(), &faulty, &rows)?;
    let stopped = Held {
        cl: b"memmap=exactmap memmap=4K$8K memmap=4K$16K",
        ..held
    };
    let line = "bootmem: stopped: no usable frame\n";
    let rows: [Row<'_>; 1] = [(words, [&[3], &[], &[]], 6, "", line)];
    compare_fetches(&rt, rt.alloc(), &stopped, &rows)
}
