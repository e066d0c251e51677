//! The program `bootmem61` over files in memory: what it has beside `bootmem`. These are the early
//! claims, their file and their report, the rules for the crash area and for zones, and the name in
//! error lines. Texts of boots whose tables grow come from an independent model of the boot.

ghost use Rattle.std.specs.Prelude.{IfOk};
ghost use Rattle.bm_io.specs.MemFiles.{file_views, HaveOwnNames};

use crate::common::{RAM, entry, file, page};
use bm_io::{MemFile, MemFiles, MemSink};
use program_run::{run, run61};
use std::alloc::Global;
use std::process::Abort;
use std::test::Fail;

/// Which program runs.
#[derive(Clone, Copy, Debug)]
enum Program {
    Bootmem,
    Bootmem61,
}

/// The bytes of the kernel's command line `cl`, of the script `sc` and of the early claims `cm`.
#[derive(Clone, Copy)]
struct Held<'a> {
    line: &'a [u8],
    script: &'a [u8],
    claims: &'a [u8],
}

/// Three empty files.
const EMPTY: Held<'static> = Held {
    line: b"",
    script: b"",
    claims: b"",
};

/// Returns these files, and a zero page `zp` with RAM from 1 MiB to 128 MiB, of which the last 128
/// KiB are reserved.
fn files_of(alloc: Global, held: &Held<'_>) -> Result<Vec<MemFile>, Fail>
    ensures { IfOk result (λ files. HaveOwnNames (file_views files.items)) }
{
    let zp = file(alloc, "zp", &page(2, RAM, entry(0x7fe0000, 0x20000, 2)))?;
    let line = file(alloc, "cl", held.line)?;
    let script = file(alloc, "sc", held.script)?;
    let claims = file(alloc, "cm", held.claims)?;
    Ok(vec![in alloc; zp, line, script, claims]?)
}

/// The program, its words, the numbers of the fetches and of the writes to the output that fail,
/// and the expected status, output and error output.
type Row<'a> = (Program, &'a [&'a str], [&'a [u64]; 2], u8, &'a str, &'a str);

/// How a run ended: the status, the output and the error output.
#[derive(Drop)]
struct Ended {
    status: u8,
    out: MemSink,
    err: MemSink,
}

/// Runs the program with these words over these files. `failing` has the numbers of the fetches and
/// of the writes to the output that fail.
fn run_on(
    alloc: Global,
    held: &Held<'_>,
    program: Program,
    words: &[&str],
    failing: [&[u64]; 2],
) -> Result<Ended, Fail> {
    let [fetches, puts] = failing;
    let mut owned = Vec::new(alloc);
    for word in words {
        owned.push(String::from_str(alloc, word)?)?;
    }
    let mut files = MemFiles::new(files_of(alloc, held)?, Vec::from_slice(alloc, fetches)?);
    let mut out = MemSink::new(Vec::from_slice(alloc, puts)?);
    let mut err = MemSink::new(Vec::new(alloc));
    let status = match program {
        Program::Bootmem => run(alloc, &owned, &mut files, &mut out, &mut err),
        Program::Bootmem61 => run61(alloc, &owned, &mut files, &mut out, &mut err),
    };
    Ok(Ended { status, out, err })
}

/// Runs the program of each row over these files, and compares how it ends.
fn compare(rt: &impl Abort, alloc: Global, held: &Held<'_>, rows: &[Row<'_>]) -> Result<(), Fail> {
    for (program, words, failing, status, text, line) in rows {
        let ended = run_on(alloc, held, *program, words, *failing)?;
        assert!(rt; ended.status == *status, "{program:?} {words:?}");
        assert!(rt;
            ended.out.written_bytes() == text.as_bytes(),
            "{program:?} {words:?}"
        );
        assert!(rt;
            ended.err.written_bytes() == line.as_bytes(),
            "{program:?} {words:?}"
        );
    }
    Ok(())
}

/// No call fails.
const NONE: [&[u64]; 2] = [&[], &[]];

// Each report has the line numbers of its own file. The last three claims are refused: the ID has
// a range, the ID has none, and no place fits. The script frees the range of the first claim, and
// claims it again. It doesn't know the refused ID.
#[test]
fn claims_and_script(rt: HostRuntime) -> Result<(), Fail> {
    let held = Held {
        claims: b"alloc 1 64K 4K max 16M\nreserve 2 0x4000000 1M\n\nalloc 1 4K 4K\nfree 9\n\
                  alloc 3 2G 4K\n",
        script: b"free 1\n\n\nalloc 1 64K 4K max 16M\nfree 3\nfree 2\n",
        ..EMPTY
    };
    let words: &[&str] = &[
        "--claims",
        "cm",
        "--script=sc",
        "--report",
        "claims,script",
        "zp",
    ];
    let text = "== claims\n\
                1: at 0x0000000000ff0000\n\
                2: done\n\
                4: taken\n\
                5: unknown\n\
                6: no gap\n\
                == script\n\
                1: done\n\
                4: at 0x0000000000ff0000\n\
                5: unknown\n\
                6: done\n";
    let alone: &[&str] = &["--claims=cm", "--report=claims", "zp"];
    let claims = "1: at 0x0000000000ff0000\n2: done\n4: taken\n5: unknown\n6: no gap\n";
    let without: &[&str] = &["--script=sc", "--report=claims,script", "zp"];
    let unknown = "== claims\n\
                   == script\n\
                   1: unknown\n\
                   4: at 0x0000000000ff0000\n\
                   5: unknown\n\
                   6: unknown\n";
    let rows: [Row<'_>; 3] = [
        (Program::Bootmem61, words, NONE, 0, text, ""),
        (Program::Bootmem61, alone, NONE, 0, claims, ""),
        (Program::Bootmem61, without, NONE, 0, unknown, ""),
    ];
    compare(&rt, rt.alloc(), &held, &rows)
}

// The RAM is a little less than 128 MiB. The kernel's rule rounds it up to 128 MiB, so
// `crashkernel=128M-:16M` reserves an area in `bootmem61`, and none in `bootmem`.
#[test]
fn crash_rule(rt: HostRuntime) -> Result<(), Fail> {
    let held = Held {
        line: b"crashkernel=128M-:16M",
        ..EMPTY
    };
    let words: &[&str] = &["--cmdline=cl", "--report=crash", "zp"];
    let area = "crash at 0x0000000006000000..0x0000000006ffffff\n";
    let rows: [Row<'_>; 2] = [
        (Program::Bootmem61, words, NONE, 0, area, ""),
        (Program::Bootmem, words, NONE, 0, "crash none\n", ""),
    ];
    compare(&rt, rt.alloc(), &held, &rows)
}

// The node has memory below 16 MiB and from 4 GiB on, but none in between. The kernel shows zone
// DMA32 in `/proc/zoneinfo`, but not in `/proc/buddyinfo`. The page script takes the one free block
// of order 7.
#[test]
fn zone_without_memory(rt: HostRuntime) -> Result<(), Fail> {
    let held = Held {
        line: b"memmap=exactmap memmap=15M@1M memmap=128M@4G",
        script: b"pages 1 7 0 Normal\n",
        ..EMPTY
    };
    let zones: &[&str] = &["--kernel=1M,4M", "--cmdline=cl", "--report=zones", "zp"];
    let by_hull = "Node 0, zone DMA start 256 end 4096 present 3840 free 2816\n\
        Node 0, zone DMA32 start 4096 end 1048576 present 0 free 0\n\
        Node 0, zone Normal start 1048576 end 1081344 present 32768 free 31695\n";
    let own = "Node 0, zone DMA start 256 end 4096 present 3840 free 2816\n\
        Node 0, zone Normal start 1048576 end 1081344 present 32768 free 31695\n";
    let blocks: &[&str] = &["--kernel=1M,4M", "--cmdline=cl", "--report=buddyinfo", "zp"];
    let free = "Node 0, zone      DMA      0      0      0      0      0      0      0      0      \
        1      1      2 \n\
        Node 0, zone   Normal      1      1      1      1      0      0      1      1      \
        1      1     30 \n";
    let pages: &[&str] = &[
        "--kernel=1M,4M",
        "--cmdline=cl",
        "--pages=sc",
        "--report=pagesinfo",
        "zp",
    ];
    let left = "Node 0, zone      DMA      0      0      0      0      0      0      0      0      \
        1      1      2 \n\
        Node 0, zone   Normal      1      1      1      1      0      0      1      0      \
        1      1     30 \n";
    let rows: [Row<'_>; 6] = [
        (Program::Bootmem61, zones, NONE, 0, by_hull, ""),
        (Program::Bootmem61, blocks, NONE, 0, free, ""),
        (Program::Bootmem61, pages, NONE, 0, left, ""),
        (Program::Bootmem, zones, NONE, 0, own, ""),
        (Program::Bootmem, blocks, NONE, 0, free, ""),
        (Program::Bootmem, pages, NONE, 0, left, ""),
    ];
    compare(&rt, rt.alloc(), &held, &rows)
}

// `bootmem61` accepts the option `--claims` and the report `claims`; `bootmem` refuses both.
#[test]
fn two_grammars(rt: HostRuntime) -> Result<(), Fail> {
    let option: &[&str] = &["--claims", "cm", "--report=options", "zp"];
    let report: &[&str] = &["--report", "claims", "zp"];
    let twice: &[&str] = &["--claims=cm", "--claims=cm", "zp"];
    let unnamed: &[&str] = &["--report", "options,maps", "zp"];
    let own = "bootmem: usage\n";
    let usage = "bootmem61: usage\n";
    let rows: [Row<'_>; 7] = [
        (Program::Bootmem61, option, NONE, 0, "", ""),
        (Program::Bootmem, option, NONE, 2, "", own),
        (Program::Bootmem61, report, NONE, 0, "", ""),
        (Program::Bootmem, report, NONE, 2, "", own),
        (Program::Bootmem61, twice, NONE, 2, "", usage),
        (Program::Bootmem61, unnamed, NONE, 2, "", usage),
        (Program::Bootmem61, &[], NONE, 2, "", usage),
    ];
    compare(&rt, rt.alloc(), &EMPTY, &rows)
}

// The early claims are fetched after the script and before the page script.
#[test]
fn each_call_that_fails(rt: HostRuntime) -> Result<(), Fail> {
    let words: &[&str] = &[
        "--pages=cl",
        "--claims=cm",
        "--script=sc",
        "--report=claims",
        "zp",
    ];
    let held = Held {
        claims: b"reserve 2 0x4000000 1M\n",
        ..EMPTY
    };
    let zp = "bootmem61: cannot read zp\n";
    let script = "bootmem61: cannot read sc\n";
    let claims = "bootmem61: cannot read cm\n";
    let pages = "bootmem61: cannot read cl\n";
    let missing: &[&str] = &["--claims", "no", "zp"];
    let unread = "bootmem61: cannot read no\n";
    let unwritten = "bootmem61: cannot write\n";
    let rows: [Row<'_>; 7] = [
        (Program::Bootmem61, words, [&[1], &[]], 3, "", zp),
        (Program::Bootmem61, words, [&[2], &[]], 3, "", script),
        (Program::Bootmem61, words, [&[3], &[]], 3, "", claims),
        (Program::Bootmem61, words, [&[4], &[]], 3, "", pages),
        (Program::Bootmem61, words, [&[5], &[]], 0, "1: done\n", ""),
        (Program::Bootmem61, missing, NONE, 3, "", unread),
        (Program::Bootmem61, words, [&[], &[1]], 4, "1: d", unwritten),
    ];
    compare(&rt, rt.alloc(), &held, &rows)
}

/// Runs `bootmem61` with the command line, the script and the early claims of each row. Compares
/// the status and the error output; nothing is written to the output.
fn compare_faults(
    rt: &impl Abort,
    alloc: Global,
    rows: &[(Held<'_>, u8, &str)],
) -> Result<(), Fail> {
    let words: &[&str] = &[
        "--claims=cm",
        "--script=sc",
        "--cmdline=cl",
        "--report=options",
        "zp",
    ];
    for (held, status, line) in rows {
        let row: [Row<'_>; 1] = [(Program::Bootmem61, words, NONE, *status, "", *line)];
        compare(rt, alloc, held, &row)?;
    }
    Ok(())
}

/// Returns early claims with these bytes, and two empty files.
fn claims(claims: &[u8]) -> Held<'_> {
    Held { claims, ..EMPTY }
}

#[test]
fn faults_and_stops(rt: HostRuntime) -> Result<(), Fail> {
    let both = Held {
        script: b"sections\nsections\n",
        ..claims(b"sections\n")
    };
    let stopped = Held {
        line: b"memmap=exactmap memmap=4K$8K memmap=4K$16K",
        ..EMPTY
    };
    let rows: [(Held<'_>, u8, &str); 5] = [
        (
            claims(b"free 1\nsections\n"),
            5,
            "bootmem61: claims: line 2: form\n",
        ),
        (
            claims(b"# one\nreserve 1 0x4000000 0\n"),
            5,
            "bootmem61: claims: line 2: zero size\n",
        ),
        (both, 5, "bootmem61: script: line 2: second sections\n"),
        (stopped, 6, "bootmem61: stopped: no usable frame\n"),
        (EMPTY, 0, ""),
    ];
    compare_faults(&rt, rt.alloc(), &rows)
}

/// Returns early claims of `many` single bytes, 8 KiB apart, and then of a line that frees the
/// seventh.
fn claims_of_bytes(alloc: Global, many: u32) -> Result<String, Fail> {
    let mut text = String::new(alloc);
    for id in 1..=many {
        let line = format!(in alloc; "reserve {id} {} 1\n", 0x400_0000 + u64::from(id) * 8192)?;
        text.push_str(line.as_str())?;
    }
    text.push_str("free 7\n")?;
    Ok(text)
}

/// Runs `bootmem61` with `many` claimed bytes, and with a script that frees the eighth and finds
/// a place for the ID of the seventh. Compares the reports `script`, `tables` and `buddyinfo`, and
/// the last lines of the journal.
fn compare_growth(
    rt: &impl Abort,
    alloc: Global,
    many: u32,
    text: &str,
    journal: &str,
) -> Result<(), Fail> {
    let claims = claims_of_bytes(alloc, many)?;
    let held = Held {
        script: b"free 8\nalloc 7 8K 4K\nfree 7\n",
        claims: claims.as_bytes(),
        ..EMPTY
    };
    let words: &[&str] = &[
        "--claims=cm",
        "--script=sc",
        "--report=script,tables,buddyinfo",
        "zp",
    ];
    let rows: [Row<'_>; 1] = [(Program::Bootmem61, words, NONE, 0, text, "")];
    compare(rt, alloc, &held, &rows)?;
    let words: &[&str] = &["--claims=cm", "--script=sc", "--report=journal", "zp"];
    let ended = run_on(alloc, &held, Program::Bootmem61, words, NONE)?;
    assert!(rt; ended.status == 0, "{many} claims");
    assert!(rt;
        ended.out.written_bytes().ends_with(journal.as_bytes()),
        "{many} claims"
    );
    Ok(())
}

// The reserved table has room for 128 records. The first MiB and the kernel take two of them.
#[test]
fn claims_make_a_table_grow(rt: HostRuntime) -> Result<(), Fail> {
    let text = "== script\n\
                1: done\n\
                2: at 0x0000000007fb1000\n\
                3: done\n\
                == tables\n\
                memory place 0x0000000002ffe000 room 128 records 1\n\
                reserved place 0x0000000007fde000 room 256 records 131\n\
                == buddyinfo\n\
                Node 0, zone      DMA      0      0      0      0      0      0      0      0      \
                1      1      3 \n\
                Node 0, zone    DMA32    127      4      2      2      1      2      1      2      \
                1      1     18 \n";
    let journal = "133: claim script 126 0x00000000040fc000..0x00000000040fc000\n\
                   134: grown reserved 0x0000000007fde000 room 256\n\
                   135: claim table-reserved 0x0000000007fde000..0x0000000007fdffff\n\
                   136: claim script 127 0x00000000040fe000..0x00000000040fe000\n\
                   137: claim script 128 0x0000000004100000..0x0000000004100000\n\
                   138: free 0x000000000400e000..0x000000000400e000\n\
                   139: node 0 0x0000000000000000..0x0000000007fdffff\n\
                   140: claim node-data 0 0x0000000007fb3000..0x0000000007fddfff\n\
                   141: free 0x0000000004010000..0x0000000004010000\n\
                   142: claim script 7 0x0000000007fb1000..0x0000000007fb2fff\n\
                   143: free 0x0000000007fb1000..0x0000000007fb2fff\n\
                   144: claim roots 0x0000000007faf000..0x0000000007fb2fff\n\
                   145: claim root 0 0x0000000007fae000..0x0000000007faefff\n\
                   146: claim usage 0 0x0000000007fadfc0..0x0000000007fadfe7\n\
                   147: claim map 0 0x0000000007c00000..0x0000000007dfffff\n";
    compare_growth(&rt, rt.alloc(), 128, text, journal)
}

// The table grows a second time, and frees its last place. The script's line gets that place.
#[test]
fn claims_make_a_table_grow_twice(rt: HostRuntime) -> Result<(), Fail> {
    let text = "== script\n\
                1: done\n\
                2: at 0x0000000007fde000\n\
                3: done\n\
                == tables\n\
                memory place 0x0000000002ffe000 room 128 records 1\n\
                reserved place 0x0000000007fdb000 room 512 records 259\n\
                == buddyinfo\n\
                Node 0, zone      DMA      0      0      0      0      0      0      0      0      \
                1      1      3 \n\
                Node 0, zone    DMA32    253      3      1      1      0      1      0      1      \
                1      1     18 \n";
    let journal = "262: claim script 253 0x00000000041fa000..0x00000000041fa000\n\
                   263: grown reserved 0x0000000007fdb000 room 512\n\
                   264: claim table-reserved 0x0000000007fdb000..0x0000000007fddfff\n\
                   265: free 0x0000000007fde000..0x0000000007fdffff\n\
                   266: claim script 254 0x00000000041fc000..0x00000000041fc000\n\
                   267: claim script 255 0x00000000041fe000..0x00000000041fe000\n\
                   268: free 0x000000000400e000..0x000000000400e000\n\
                   269: node 0 0x0000000000000000..0x0000000007fdffff\n\
                   270: claim node-data 0 0x0000000007fb0000..0x0000000007fdafff\n\
                   271: free 0x0000000004010000..0x0000000004010000\n\
                   272: claim script 7 0x0000000007fde000..0x0000000007fdffff\n\
                   273: free 0x0000000007fde000..0x0000000007fdffff\n\
                   274: claim roots 0x0000000007fac000..0x0000000007faffff\n\
                   275: claim root 0 0x0000000007fdf000..0x0000000007fdffff\n\
                   276: claim usage 0 0x0000000007fdefc0..0x0000000007fdefe7\n\
                   277: claim map 0 0x0000000007c00000..0x0000000007dfffff\n";
    compare_growth(&rt, rt.alloc(), 255, text, journal)
}
