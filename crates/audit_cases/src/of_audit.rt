//! The function `audit`, which is the whole of `bootaudit`, over files in memory. These are the
//! reports of a virtual machine of 128 MiB, as they are, with one line changed, and with calls
//! that fail.

ghost use Rattle.std.specs.Prelude.{◌≡◌, IfOk, string_bytes};
ghost use Rattle.bm_io.specs.MemFiles.{file_views, HaveOwnNames};

use bm_io::{MemFile, MemFiles, MemSink};
use boot_audit::audit;
use std::alloc::Global;
use std::process::Abort;
use std::test::Fail;

/// The lines of the report `map` of a virtual machine of 128 MiB.
const MAP: [&str; 7] = [
    "0x0000000000000000..0x0000000000000fff 2 reserved\n",
    "0x0000000000001000..0x000000000009fbff 1 usable\n",
    "0x000000000009fc00..0x000000000009ffff 2 reserved\n",
    "0x00000000000f0000..0x00000000000fffff 2 reserved\n",
    "0x0000000000100000..0x0000000007fdffff 1 usable\n",
    "0x0000000007fe0000..0x0000000007ffffff 2 reserved\n",
    "0x00000000fffc0000..0x00000000ffffffff 2 reserved\n",
];

/// The lines of the report `owners` of the same machine: the reserved ranges with their owners.
const OWNERS: [&str; 7] = [
    "   0: 0x0000000000000000..0x00000000000fffff low-1m\n",
    "   1: 0x0000000001000000..0x0000000002ffffff kernel\n",
    "   2: 0x0000000007c00000..0x0000000007dfffff map 0\n",
    "   3: 0x0000000007faffc0..0x0000000007faffe7 usage 0\n",
    "   4: 0x0000000007fb0000..0x0000000007fb0fff root 0\n",
    "   5: 0x0000000007fb1000..0x0000000007fb4fff roots\n",
    "   6: 0x0000000007fb5000..0x0000000007fdffff node-data 0\n",
];

/// The lines of the report `blocks` of a virtual machine of 128 MiB: all free blocks.
const BLOCKS: [&str; 31] = [
    "node 0 zone DMA order 8 0x0000000000100000\n",
    "node 0 zone DMA order 9 0x0000000000200000\n",
    "node 0 zone DMA order 10 0x0000000000400000\n",
    "node 0 zone DMA order 10 0x0000000000800000\n",
    "node 0 zone DMA order 10 0x0000000000c00000\n",
    "node 0 zone DMA32 order 10 0x0000000003000000\n",
    "node 0 zone DMA32 order 10 0x0000000003400000\n",
    "node 0 zone DMA32 order 10 0x0000000003800000\n",
    "node 0 zone DMA32 order 10 0x0000000003c00000\n",
    "node 0 zone DMA32 order 10 0x0000000004000000\n",
    "node 0 zone DMA32 order 10 0x0000000004400000\n",
    "node 0 zone DMA32 order 10 0x0000000004800000\n",
    "node 0 zone DMA32 order 10 0x0000000004c00000\n",
    "node 0 zone DMA32 order 10 0x0000000005000000\n",
    "node 0 zone DMA32 order 10 0x0000000005400000\n",
    "node 0 zone DMA32 order 10 0x0000000005800000\n",
    "node 0 zone DMA32 order 10 0x0000000005c00000\n",
    "node 0 zone DMA32 order 10 0x0000000006000000\n",
    "node 0 zone DMA32 order 10 0x0000000006400000\n",
    "node 0 zone DMA32 order 10 0x0000000006800000\n",
    "node 0 zone DMA32 order 10 0x0000000006c00000\n",
    "node 0 zone DMA32 order 10 0x0000000007000000\n",
    "node 0 zone DMA32 order 10 0x0000000007400000\n",
    "node 0 zone DMA32 order 10 0x0000000007800000\n",
    "node 0 zone DMA32 order 8 0x0000000007e00000\n",
    "node 0 zone DMA32 order 7 0x0000000007f00000\n",
    "node 0 zone DMA32 order 5 0x0000000007f80000\n",
    "node 0 zone DMA32 order 3 0x0000000007fa0000\n",
    "node 0 zone DMA32 order 2 0x0000000007fa8000\n",
    "node 0 zone DMA32 order 1 0x0000000007fac000\n",
    "node 0 zone DMA32 order 0 0x0000000007fae000\n",
];

/// How an audit ended: its exit status, and what it wrote to the output and to the error output.
#[derive(Drop)]
struct Ended {
    status: u8,
    out: MemSink,
    err: MemSink,
}

impl Ended {
    /// Tests whether the audit ended with this status, this text on the output and this line on the
    /// error output.
    fn is(&self, status: u8, text: &str, line: &str) -> bool {
        self.status == status
            && self.out.written_bytes() == text.as_bytes()
            && self.err.written_bytes() == line.as_bytes()
    }
}

/// A changed line: the report's name, the line's number from 1, and its new text.
type Change<'a> = (&'a str, usize, &'a str);

/// The change that changes no line.
const SAME: Change<'static> = ("", 0, "");

/// Returns a file with the name `name` and these lines. If the change is for the report of that
/// name, the line with its number has the new text.
fn file(alloc: Global, name: &str, lines: &[&str], change: Change<'_>) -> Result<MemFile, Fail>
    ensures { IfOk result (λ file. string_bytes file.name ≡ name.now) }
{
    let mut bytes = Vec::new(alloc);
    for (index, line) in lines.iter().enumerate() {
        let text = if change.0 == name && change.1 == index + 1 {
            change.2
        } else {
            *line
        };
        bytes.extend_from_slice(text.as_bytes())?;
    }
    Ok(MemFile {
        name: String::from_str(alloc, name)?,
        bytes,
    })
}

/// Returns the files `map`, `owners` and `blocks` with the machine's three reports, after the
/// change.
fn files_of(alloc: Global, change: Change<'_>) -> Result<Vec<MemFile>, Fail>
    ensures { IfOk result (λ files. HaveOwnNames (file_views files.items)) }
{
    let map = file(alloc, "map", &MAP, change)?;
    let owners = file(alloc, "owners", &OWNERS, change)?;
    let blocks = file(alloc, "blocks", &BLOCKS, change)?;
    Ok(vec![in alloc; map, owners, blocks]?)
}

/// Runs `audit` with these words of the command line, over the machine's three reports after the
/// change. `failing` has three lists: the numbers, from 1, of the fetches that fail, of the writes
/// to the output, and of the writes to the error output.
fn audit_on(
    alloc: Global,
    words: &[&str],
    change: Change<'_>,
    failing: [&[u64]; 3],
) -> Result<Ended, Fail> {
    let mut owned = Vec::new(alloc);
    for word in words {
        owned.push(String::from_str(alloc, word)?)?;
    }
    let [fetches, puts, lines] = failing;
    let mut files = MemFiles::new(files_of(alloc, change)?, Vec::from_slice(alloc, fetches)?);
    let mut out = MemSink::new(Vec::from_slice(alloc, puts)?);
    let mut err = MemSink::new(Vec::from_slice(alloc, lines)?);
    let status = audit(alloc, &owned, &mut files, &mut out, &mut err);
    Ok(Ended { status, out, err })
}

/// The words of a command line that names the three reports.
const NAMED: [&str; 3] = ["map", "owners", "blocks"];

/// The lists of failing calls if no call fails.
const NONE: [&[u64]; 3] = [&[], &[], &[]];

/// The words of the command line; the numbers of the fetches, of the writes to the output and of
/// the writes to the error output that fail; and the expected status, output and error output.
type Row<'a> = (&'a [&'a str], [&'a [u64]; 3], u8, &'a str, &'a str);

/// Runs an audit over the unchanged reports for each row, and compares how it ended.
fn compare(rt: &impl Abort, alloc: Global, rows: &[Row<'_>]) -> Result<(), Fail> {
    for (words, failing, status, text, error) in rows {
        let ended = audit_on(alloc, words, SAME, *failing)?;
        assert!(rt; ended.is(*status, text, error), "{words:?} {failing:?}");
    }
    Ok(())
}

#[test]
fn words(rt: HostRuntime) -> Result<(), Fail> {
    let usage = "bootaudit: usage\n";
    let rows: [Row<'_>; 10] = [
        (&NAMED, NONE, 0, "sound\n", ""),
        (
            &["--la57", "map", "owners", "blocks"],
            NONE,
            0,
            "sound\n",
            "",
        ),
        (&[], NONE, 2, "", usage),
        (&["map", "owners"], NONE, 2, "", usage),
        (&["map", "owners", "blocks", "map"], NONE, 2, "", usage),
        (&["map", "owners", "blocks", "--la57"], NONE, 2, "", usage),
        (&["--la57", "owners", "blocks"], NONE, 2, "", usage),
        (&["map", "-owners", "blocks"], NONE, 2, "", usage),
        (
            &["other", "owners", "blocks"],
            NONE,
            3,
            "",
            "bootaudit: cannot read other\n",
        ),
        (
            &["map", "map", "blocks"],
            NONE,
            5,
            "",
            "bootaudit: owners: line 1: form\n",
        ),
    ];
    compare(&rt, rt.alloc(), &rows)
}

#[test]
fn what_fails(rt: HostRuntime) -> Result<(), Fail> {
    let rows: [Row<'_>; 9] = [
        (
            &NAMED,
            [&[1], &[], &[]],
            3,
            "",
            "bootaudit: cannot read map\n",
        ),
        (
            &NAMED,
            [&[2], &[], &[]],
            3,
            "",
            "bootaudit: cannot read owners\n",
        ),
        (
            &NAMED,
            [&[3], &[], &[]],
            3,
            "",
            "bootaudit: cannot read blocks\n",
        ),
        (&NAMED, [&[4], &[], &[]], 0, "sound\n", ""),
        (
            &NAMED,
            [&[], &[1], &[]],
            4,
            "sou",
            "bootaudit: cannot write\n",
        ),
        // the verdict is written by one put, so the second put, which would fail, never happens
        (&NAMED, [&[], &[2], &[]], 0, "sound\n", ""),
        (&NAMED, [&[], &[1], &[1]], 4, "sou", "boot"),
        (
            &NAMED,
            [&[2], &[], &[3]],
            3,
            "",
            "bootaudit: cannot read own",
        ),
        (&["map"], [&[], &[], &[1]], 2, "", "boot"),
    ];
    compare(&rt, rt.alloc(), &rows)
}

/// Runs an audit for each changed line and compares its status, output and error output.
fn compare_changes(
    rt: &impl Abort,
    alloc: Global,
    rows: &[(Change<'_>, u8, &str, &str)],
) -> Result<(), Fail> {
    for (change, status, text, error) in rows {
        let ended = audit_on(alloc, &NAMED, *change, NONE)?;
        assert!(rt; ended.is(*status, text, error), "{change:?}");
    }
    Ok(())
}

#[test]
fn verdicts(rt: HostRuntime) -> Result<(), Fail> {
    // the block of order 9 at 2 MiB, cut into two blocks of order 8: in `halves` both are of node
    // 0, in `of_two` the second is of node 1
    let halves =
        "node 0 zone DMA order 8 0x0000000000200000\nnode 0 zone DMA order 8 0x0000000000300000\n";
    let of_two =
        "node 0 zone DMA order 8 0x0000000000200000\nnode 1 zone DMA order 8 0x0000000000300000\n";
    let rows = [
        (SAME, 0, "sound\n", ""),
        (
            ("blocks", 31, ""),
            8,
            "not sound: frame 0x0000000007fae000 lost\n",
            "",
        ),
        (
            ("blocks", 2, halves),
            8,
            "not sound: block at line 2 not maximal\n",
            "",
        ),
        (("blocks", 2, of_two), 0, "sound\n", ""),
        (
            (
                "blocks",
                31,
                "node 0 zone DMA32 order 0 0x0000000007fae001\n",
            ),
            8,
            "not sound: block at line 31 misaligned\n",
            "",
        ),
        (
            (
                "blocks",
                5,
                "node 0 zone DMA32 order 10 0x0000000000c00000\n",
            ),
            8,
            "not sound: block at line 5 in wrong zone\n",
            "",
        ),
        (
            (
                "owners",
                1,
                "   0: 0x0000000000000000..0x0000000000100000 low-1m\n",
            ),
            8,
            "not sound: frame 0x0000000000100000 not free\n",
            "",
        ),
        (
            (
                "owners",
                3,
                "   2: 0x0000000007c00000..0x0000000007dfefff map 0\n",
            ),
            8,
            "not sound: frame 0x0000000007dff000 lost\n",
            "",
        ),
        (
            (
                "map",
                5,
                "0x0000000000100001..0x0000000007fdffff 1 usable\n",
            ),
            8,
            "not sound: frame 0x0000000000100000 not free\n",
            "",
        ),
        (
            (
                "map",
                5,
                "0x0000000000100000..0x0000000007fdffff 128 usable kernel\n",
            ),
            0,
            "sound\n",
            "",
        ),
    ];
    compare_changes(&rt, rt.alloc(), &rows)
}

#[test]
fn faults(rt: HostRuntime) -> Result<(), Fail> {
    let twice =
        "node 0 zone DMA order 9 0x0000000000200000\nnode 0 zone DMA order 9 0x0000000000200000\n";
    let rows = [
        (
            ("blocks", 2, twice),
            5,
            "",
            "bootaudit: blocks: line 3: order\n",
        ),
        (
            ("blocks", 31, "x"),
            5,
            "",
            "bootaudit: blocks: line 31: form\n",
        ),
        (
            (
                "owners",
                2,
                "   0: 0x0000000001000000..0x0000000002ffffff kernel\n",
            ),
            5,
            "",
            "bootaudit: owners: line 2: form\n",
        ),
        (
            (
                "owners",
                2,
                "   1: 0x00000000000fffff..0x0000000002ffffff kernel\n",
            ),
            5,
            "",
            "bootaudit: owners: line 2: order\n",
        ),
        (
            (
                "map",
                1,
                "0x0000000000000000..0x0000000000001000 2 reserved\n",
            ),
            5,
            "",
            "bootaudit: map: line 2: order\n",
        ),
        // the last line lacks its newline
        (
            (
                "map",
                7,
                "0x00000000fffc0000..0x00000000ffffffff 2 reserved",
            ),
            5,
            "",
            "bootaudit: map: line 7: form\n",
        ),
    ];
    compare_changes(&rt, rt.alloc(), &rows)
}
