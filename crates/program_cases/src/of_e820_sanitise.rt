//! The table of claims on small maps that are edited, and on one map with too many runs. The
//! expected runs come from outside the program.

ghost use Rattle.e820_model.specs.Claims.{EntriesFit, HasTypes};

use crate::common::{FIRST_640K, FIRST_PAGE, entry, nested, run};
use bm_base::Range;
use e820_model::{Edit, Entry};
use e820_sanitise::{MapFault, Run, Table};
use std::alloc::Global;
use std::process::Abort;

fn settled(rt: &impl Abort, alloc: Global, entries: &[Entry]) -> Table
    requires { EntriesFit entries.now }
{
    let mut table = Table::new(alloc);
    assert!(rt; table.append(entries) == Ok(()));
    assert!(rt; table.settle() == Ok(()));
    table
}

/// Edits the table, and compares its map and the types at the first addresses of the runs.
fn expect_after(rt: &impl Abort, table: &mut Table, edit: &Edit, runs: &[Run])
    requires { HasTypes edit.now }
{
    assert!(rt; table.edit(edit) == Ok(()));
    expect(rt, table, runs);
}

fn expect(rt: &impl Abort, table: &Table, runs: &[Run]) {
    let found = table.runs().expect(rt, "a map");
    assert!(rt; found.as_slice() == runs);
    for run in runs {
        let base = run.range.base;
        assert!(rt; table.type_at(base) == run.kind, "{base:#x}");
        let end = run.range.end();
        assert!(rt; table.type_at(end) != run.kind, "{end:#x}");
    }
}

// ACPI data wins over the RAM around it, although it is given first, since its type is greater
#[test]
fn greatest_type_wins(rt: HostRuntime) {
    let entries = [entry(0x10_0000, 0x8_0000, 3), entry(0, 0x20_0000, 1)];
    let table = settled(&rt, rt.alloc(), &entries);
    let runs = [
        run(0, 0x10_0000, 1),
        run(0x10_0000, 0x8_0000, 3),
        run(0x18_0000, 0x8_0000, 1),
    ];
    expect(&rt, &table, &runs);
}

#[test]
fn edits_in_their_order(rt: HostRuntime) {
    let page = Range {
        base: 0,
        size: 0x1000,
    };
    let mut table = settled(&rt, rt.alloc(), &[entry(0, 0x1000, 2)]);
    // a page of type 2 stays type 2 if type 1 is added to it, and has type 4 after its type is
    // changed to 4
    expect_after(
        &rt,
        &mut table,
        &Edit::Add {
            range: page,
            kind: 1,
        },
        &[run(0, 0x1000, 2)],
    );
    expect_after(
        &rt,
        &mut table,
        &Edit::Change {
            range: page,
            from: 1,
            to: 4,
        },
        &[run(0, 0x1000, 4)],
    );
    expect_after(
        &rt,
        &mut table,
        &Edit::Remove {
            range: page,
            kind: 4,
        },
        &[run(0, 0x1000, 2)],
    );
    expect_after(&rt, &mut table, &Edit::Clear, &[]);
    // settling drops the claims that lose, so removing a part of the winner leaves a hole
    let mut table = settled(&rt, rt.alloc(), &nested());
    let hole = Range {
        base: 0x20_0000,
        size: 0x10_0000,
    };
    let runs = [run(0, 0x20_0000, 1), run(0x30_0000, 0x7D0_0000, 1)];
    expect_after(
        &rt,
        &mut table,
        &Edit::Remove {
            range: hole,
            kind: 2,
        },
        &runs,
    );
    let ends = Range {
        base: 0x1000,
        size: 0x7FF_E000,
    };
    let runs = [run(0, 0x1000, 1), run(0x7FF_F000, 0x1000, 1)];
    expect_after(&rt, &mut table, &Edit::RemoveAll { range: ends }, &runs);
}

#[test]
fn bios_areas_are_trimmed(rt: HostRuntime) {
    let mut table = settled(
        &rt,
        rt.alloc(),
        &[entry(0, 0x20_0000, 1), entry(0xF_0000, 0x1_0000, 2)],
    );
    assert!(rt; table.trim_bios() == Ok(()));
    let runs = [
        FIRST_PAGE,
        FIRST_640K,
        run(0xF_0000, 0x1_0000, 2),
        run(0x10_0000, 0x10_0000, 1),
    ];
    expect(&rt, &table, &runs);
}

#[test]
fn entries_come_in_after_edits(rt: HostRuntime) {
    let mut table = settled(
        &rt,
        rt.alloc(),
        &[
            entry(0x10_0000, 0x7EE_0000, 1),
            entry(0x7FE_0000, 0x2_0000, 2),
        ],
    );
    // `mem=64M`, and then an EFI map with ACPI data in RAM, memory that can't be cached, and RAM
    // that `mem=` had removed
    let above = Range {
        base: 0x400_0000,
        size: u64::MAX - 0x400_0000,
    };
    assert!(rt;
        table.edit(&Edit::Remove {
            range: above,
            kind: 1
        }) == Ok(())
    );
    let added = [
        entry(0x20_0000, 0x1_0000, 3),
        entry(0x30_0000, 0x1000, 2),
        entry(0x500_0000, 0x1000, 1),
    ];
    assert!(rt; table.append(&added) == Ok(()));
    assert!(rt; table.settle() == Ok(()));
    let runs = [
        run(0x10_0000, 0x10_0000, 1),
        run(0x20_0000, 0x1_0000, 3),
        run(0x21_0000, 0xF_0000, 1),
        run(0x30_0000, 0x1000, 2),
        run(0x30_1000, 0x3CF_F000, 1),
        run(0x500_0000, 0x1000, 1),
        run(0x7FE_0000, 0x2_0000, 2),
    ];
    expect(&rt, &table, &runs);
}

#[test]
fn nested_entries_are_too_many_runs(rt: HostRuntime) {
    let mut table = Table::new(rt.alloc());
    for depth in 0..3200u32 {
        let addr = u64::from(depth) * 0x1000;
        let nested = entry(addr, 0x200_0000 - 2 * addr, depth + 1);
        assert!(rt; table.append(&[nested]) == Ok(()));
    }
    assert!(rt; table.runs() == Err(MapFault::MapFull { runs: 6399 }));
}
