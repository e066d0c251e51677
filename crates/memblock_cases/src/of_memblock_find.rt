//! Tests of `memblock_find`: searches, and runs of unclaimed memory, in the tables after the boot
//! of a virtual machine.

use crate::ranges::MACHINE;
use crate::tables::{cover, mirror, tables_of};
use memblock_find::{FreeRange, FreeRuns, Mode, Query, find, next_free, prev_free};
use memblock_model::Which;
use memblock_ranges::Tables;
use std::process::Abort;
use std::test::Fail;

// The result of a search: the address found, or that there is none. `NoSearch` means that the
// search wasn't made, since its size is 0 or its alignment isn't below 2^64.
#[derive(Clone, Copy, Debug, PartialEq, Eq)]
enum Answer {
    At(u64),
    Nothing,
    NoSearch,
}

// A search from the highest address down, in any memory.
const DOWN: Mode = Mode {
    mirror: false,
    up: false,
};

// A search from the lowest address up, in any memory.
const UP: Mode = Mode {
    mirror: false,
    up: true,
};

// A search: the two ends of its window, its size, the exponent of its alignment (a power of two),
// and its node.
type Search = (u64, u64, u64, u32, Option<u32>);

fn search(tables: &Tables, mode: Mode, wanted: Search) -> Answer {
    let (lo, hi, size, power, node) = wanted;
    if size == 0 || power >= 64 {
        return Answer::NoSearch;
    }
    let query = Query {
        lo,
        hi,
        size,
        align: 1 << power,
        node,
    };
    match find(tables, &query, mode) {
        Some(at) => Answer::At(at),
        None => Answer::Nothing,
    }
}

// Tests whether `run` is this range of this node and isn't mirrored. Size 0 means that `run` must
// be `None`.
fn is_expected_run(run: Option<FreeRange>, base: u64, size: u64, node: u32) -> bool {
    match run {
        Some(run) => {
            run.range.base == base && run.range.size == size && run.node == node && !run.mirror
        }
        None => size == 0,
    }
}

// Searches node 0 once for each row, compares the place that is found with the expected one, and
// claims it. A row is a size, the exponent of the alignment, and the expected address.
fn claim_each(rt: &impl Abort, tables: &mut Tables, rows: &[(u64, u32, u64)]) {
    for (size, power, at) in rows {
        let answer = search(tables, DOWN, (0, 0x7FE0000, *size, *power, Some(0)));
        assert!(rt; answer == Answer::At(*at));
        assert!(rt; cover(tables, Which::Reserved, *at, *size, 1024));
    }
}

// For each row, compares the run that `next_free` returns for an address. A row is the address,
// and the base, size and node of the expected run. Size 0 means that no run is expected.
fn compare_next(rt: &impl Abort, tables: &Tables, rows: &[(u64, u64, u64, u32)]) {
    for (from, base, size, node) in rows {
        let run = next_free(tables, *from);
        assert!(rt; is_expected_run(run, *base, *size, *node), "from {from:#x}");
    }
}

// For each row, compares the run that `prev_free` returns for an address. A row is the address,
// and the base, size and node of the expected run, which is cut to end at the address. Size 0
// means that no run is expected.
fn compare_prev(rt: &impl Abort, tables: &Tables, rows: &[(u64, u64, u64, u32)]) {
    for (until, base, size, node) in rows {
        let run = prev_free(tables, *until);
        assert!(rt;
            is_expected_run(run, *base, *size, *node),
            "until {until:#x}"
        );
    }
}

// Compares all runs from an address on with these rows, in one pass.
fn compare_pass(rt: &impl Abort, tables: &Tables, from: u64, rows: &[(u64, u64, u32)]) {
    let mut runs = FreeRuns::from(tables, from);
    for (base, size, node) in rows {
        assert!(rt; is_expected_run(runs.next_run(), *base, *size, *node));
    }
    assert!(rt; runs.next_run().is_none());
    assert!(rt; runs.next_run().is_none());
}

// A virtual machine of 128 MiB: the places of the node data, the section roots, the sections of
// node 0, the usage map and the memory map. Each is the best place after those before it are
// claimed.
#[test]
fn a_virtual_machine_of_128_mib(rt: HostRuntime) -> Result<(), Fail> {
    let reserved = [(0, 0x100000), (0x1000000, 0x3000000)];
    let mut tables = tables_of(rt.alloc(), &MACHINE, &reserved)?;
    let places = [
        (0x2B000, 6, 0x7FB5000),
        (0x4000, 6, 0x7FB1000),
        (0x1000, 6, 0x7FB0000),
        (0x28, 6, 0x7FAFFC0),
        (0x200000, 21, 0x7C00000),
    ];
    claim_each(&rt, &mut tables, &places);

    // The remaining runs, from below and from above, and cut in the middle.
    let from_below = [
        (0, 0x100000, 0xF00000, 0),
        (0x1000000, 0x3000000, 0x4C00000, 0),
        (0x7C00000, 0x7E00000, 0x1AFFC0, 0),
        (0x7FAFFC0, 0x7FAFFE8, 0x18, 0),
        (0x7FAFFF0, 0x7FAFFF0, 0x10, 0),
        (0x7FB0000, 0, 0, 0),
    ];
    compare_next(&rt, &tables, &from_below);
    let from_above = [
        (u64::MAX, 0x7FAFFE8, 0x18, 0),
        (0x3000001, 0x3000000, 1, 0),
        (0x3000000, 0x100000, 0xF00000, 0),
        (0x100000, 0, 0, 0),
    ];
    compare_prev(&rt, &tables, &from_above);
    let pass = [
        (0x200000, 0xE00000, 0),
        (0x3000000, 0x4C00000, 0),
        (0x7E00000, 0x1AFFC0, 0),
        (0x7FAFFE8, 0x18, 0),
    ];
    compare_pass(&rt, &tables, 0x200000, &pass);
    Ok(())
}

// A search and its result.
type Row = (u64, u64, u64, u32, Option<u32>, Answer);

fn compare(rt: &impl Abort, tables: &Tables, mode: Mode, rows: &[Row]) {
    for (lo, hi, size, power, node, answer) in rows {
        assert!(rt; search(tables, mode, (*lo, *hi, *size, *power, *node)) == *answer);
    }
}

// An exact fit, and a search for one byte more, from 0x3000000 on.
#[test]
fn an_exact_fit(rt: HostRuntime) -> Result<(), Fail> {
    let reserved = [
        (0, 0x100000),
        (0x1000000, 0x3000000),
        (0x7FB5000, 0x7FE0000),
    ];
    let tables = tables_of(rt.alloc(), &MACHINE, &reserved)?;
    let end = 0x7FE0000;
    let rows = [
        (0x3000000, end, 0x4FB5001, 12, None, Answer::Nothing),
        (0, end, 0x4FB5000, 12, None, Answer::At(0x3000000)),
        (0x100001, end, 0x1, 27, None, Answer::Nothing),
        (0, end, 0, 12, None, Answer::NoSearch),
    ];
    compare(&rt, &tables, DOWN, &rows);
    Ok(())
}

// The unclaimed memory of each node:
//
//     node 0   0x3000000 .. 0x4000000, 0x6000000 .. 0x7FB5000
//     node 1   0x4000000 .. 0x5FD5000
#[test]
fn a_node_border(rt: HostRuntime) -> Result<(), Fail> {
    let memory = [
        (0x1000, 0x9F000, 0),
        (0x100000, 0x4000000, 0),
        (0x4000000, 0x6000000, 1),
        (0x6000000, 0x7FE0000, 0),
    ];
    let reserved = [
        (0, 0x100000),
        (0x1000000, 0x3000000),
        (0x5FD5000, 0x6000000),
        (0x7FB5000, 0x7FE0000),
    ];
    let tables = tables_of(rt.alloc(), &memory, &reserved)?;
    let end = 0x7FE0000;
    let rows = [
        (0, end, 0x2000000, 12, None, Answer::Nothing),
        (0, end, 0x1FD5000, 12, None, Answer::At(0x4000000)),
        (0, end, 0x1000, 12, Some(0), Answer::At(0x7FB4000)),
        (0, end, 0x1000, 12, Some(1), Answer::At(0x5FD4000)),
        (0, end, 0x1000, 12, Some(2), Answer::Nothing),
        (0, end, 0x1000, 12, Some(1024), Answer::Nothing),
    ];
    compare(&rt, &tables, DOWN, &rows);
    let from_below = [
        (0x3FFFFFF, 0x3FFFFFF, 1, 0),
        (0x4000000, 0x4000000, 0x1FD5000, 1),
    ];
    compare_next(&rt, &tables, &from_below);
    compare_prev(&rt, &tables, &[(0x6000001, 0x6000000, 1, 0)]);
    Ok(())
}

// The unclaimed memory of each node:
//
//     node 0    0x100000 .. 0x200000, 0x400000 .. 0x4F0000, 0x4F8000 .. 0x500000
//     node 1    0x200000 .. 0x300000, 0x500000 .. 0x580000, 0x581000 .. 0x600000,
//               0x802000 .. 0x900000
//     node 2    0x600000 .. 0x6FF000
//     no node   0x701000 .. 0x800000
#[test]
fn nodes_in_turn(rt: HostRuntime) -> Result<(), Fail> {
    let memory = [
        (0x100000, 0x200000, 0),
        (0x200000, 0x300000, 1),
        (0x400000, 0x500000, 0),
        (0x500000, 0x600000, 1),
        (0x600000, 0x700000, 2),
        (0x700000, 0x800000, 1024),
        (0x800000, 0x900000, 1),
    ];
    let reserved = [
        (0x4F0000, 0x4F8000),
        (0x580000, 0x581000),
        (0x6FF000, 0x701000),
        (0x800000, 0x802000),
    ];
    let tables = tables_of(rt.alloc(), &memory, &reserved)?;
    let end = u64::MAX;
    let rows = [
        (0, end, 0x1000, 12, Some(0), Answer::At(0x4FF000)),
        (0, end, 0x9000, 12, Some(0), Answer::At(0x4E7000)),
        (0, end, 0x100000, 12, Some(0), Answer::At(0x100000)),
        (0, end, 0x100001, 12, Some(0), Answer::Nothing),
        (0, end, 0xFE000, 12, Some(1), Answer::At(0x802000)),
        (0, end, 0xFF000, 12, Some(1), Answer::At(0x201000)),
        (0, end, 0x1000, 12, Some(2), Answer::At(0x6FE000)),
        (0, end, 0xFF001, 12, Some(2), Answer::Nothing),
        (0, end, 0x1000, 12, Some(3), Answer::Nothing),
        (0, end, 0xFF000, 12, None, Answer::At(0x701000)),
    ];
    compare(&rt, &tables, DOWN, &rows);
    Ok(())
}

// No search returns an address in the first frame (0x0..0xfff), and a search window may end at
// address 2^64 - 1.
#[test]
fn the_first_frame(rt: HostRuntime) -> Result<(), Fail> {
    let memory = [
        (0, 0x3000, 1024),
        (0xFFFFFFFFFFFFE000, 0xFFFFFFFFFFFFF000, 1024),
    ];
    let tables = tables_of(rt.alloc(), &memory, &[])?;
    let last = 0xFFFFFFFFFFFFE000;
    let rows = [
        (0, u64::MAX, 0x1000, 12, None, Answer::At(last)),
        (0, last, 0x1000, 12, None, Answer::At(0x2000)),
        (0, last, 0x2000, 12, None, Answer::At(0x1000)),
        (0, last, 0x2001, 0, None, Answer::Nothing),
        (0, 0x1000, 1, 0, None, Answer::Nothing),
    ];
    compare(&rt, &tables, DOWN, &rows);
    compare_prev(&rt, &tables, &[(last, 0, 0x3000, 1024)]);
    let from_below = [(0x3000, last, 0x1000, 1024), (u64::MAX, 0, 0, 0)];
    compare_next(&rt, &tables, &from_below);
    Ok(())
}

// The virtual machine of 128 MiB, with the memory from 0x4000000 to below 0x5000000 mirrored.
#[test]
fn mirrored_memory_and_from_below(rt: HostRuntime) -> Result<(), Fail> {
    let reserved = [(0, 0x100000), (0x1000000, 0x3000000)];
    let mut tables = tables_of(rt.alloc(), &MACHINE, &reserved)?;
    assert!(rt; mirror(&mut tables, 0x4000000, 0x1000000));
    let end = 0x7FE0000;
    let down = [
        (0, end, 0x2B000, 6, Some(0), Answer::At(0x4FD5000)),
        (0, 0x4800000, 0x200000, 21, None, Answer::At(0x4600000)),
        (0, end, 0x1000001, 0, None, Answer::Nothing),
        (0, end, 0x1000, 12, Some(1), Answer::Nothing),
        (0x5000000, end, 1, 0, None, Answer::Nothing),
    ];
    let mirrored = Mode {
        mirror: true,
        up: false,
    };
    compare(&rt, &tables, mirrored, &down);
    let up = [
        (0, end, 0x2B000, 6, Some(0), Answer::At(0x100000)),
        (0, end, 0x1000000, 21, None, Answer::At(0x3000000)),
        (0, end, 0x1000001, 21, None, Answer::At(0x5000000)),
        (0x3F00001, end, 0x100000, 20, None, Answer::At(0x4000000)),
        (0x7FDFFFF, u64::MAX, 1, 0, None, Answer::At(0x7FDFFFF)),
        (0x7FDFFFF, u64::MAX, 2, 0, None, Answer::Nothing),
        (0, 0x100FFF, 0x1000, 12, None, Answer::Nothing),
        (0, end, 0x1000, 63, None, Answer::Nothing),
    ];
    compare(&rt, &tables, UP, &up);
    let mirrored_up = [
        (0, end, 0x1000, 12, None, Answer::At(0x4000000)),
        (0x4000001, end, 0x200000, 21, None, Answer::At(0x4200000)),
        (0, end, 0x1000001, 0, None, Answer::Nothing),
    ];
    let mode = Mode { mirror: true, ..UP };
    compare(&rt, &tables, mode, &mirrored_up);
    let run = next_free(&tables, 0x3FFFFFF);
    assert!(rt; is_expected_run(run, 0x3FFFFFF, 1, 0));
    let told = match next_free(&tables, 0x4000000) {
        Some(run) => run.mirror && run.range.size == 0x1000000,
        None => false,
    };
    assert!(rt; told);
    Ok(())
}

// No search from the lowest address up returns an address in the first frame (0x0..0xfff).
#[test]
fn from_below_over_the_first_frame(rt: HostRuntime) -> Result<(), Fail> {
    let tables = tables_of(rt.alloc(), &[(0, 0x3000, 1024)], &[(0x2000, 0x2800)])?;
    let rows = [
        (0, 0x3000, 1, 0, None, Answer::At(0x1000)),
        (0, 0x3000, 0x1000, 12, None, Answer::At(0x1000)),
        (0x1001, 0x3000, 0x800, 11, None, Answer::At(0x1800)),
        (0x1801, 0x3000, 0x800, 11, None, Answer::At(0x2800)),
        (0x1801, 0x2FFF, 0x800, 11, None, Answer::Nothing),
    ];
    compare(&rt, &tables, UP, &rows);
    Ok(())
}
