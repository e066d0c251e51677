//! Tests of `sparse_sections`: the sections and roots of a machine of two nodes. The expected
//! addresses are the greatest that fit, and were worked out by hand.
ghost use Rattle.std.specs.Prelude.{◌≡◌, ◌+◌, ◌%◌, ◌^◌, ◌<◌, ◌≤◌, IsTrue};
ghost use Rattle.std.specs.List.{All};
ghost use Rattle.sparse_sections.specs.Present.{IsWholeFramesWithNode};

use crate::machines::{has_begun, limit, machine};
use crate::ranges::{KERNEL, Part};
use bm_base::{FRAME_SIZE, Width};
use memblock_grow::Memblock;
use memblock_model::Which;
use memblock_ranges::{Region, Tables};
use sparse_sections::{RootPlace, Roots, place_roots, present};
use stage_steps::Section;
use std::alloc::Global;
use std::process::Abort;
use std::test::Fail;

// The memory: sections 0 and 1, then section 2 and a frame of section 3, and section 256.
const MEMORY: [Part; 3] = [
    (0, 0x1000_0000, 0),
    (0x1000_0000, 0x1800_1000, 1),
    (0x8_0000_0000, 0x8_0800_0000, 1),
];

fn is_whole(region: &Region) -> bool
    ensures base { IsTrue result → region.now.base % 4096 ≡ 0 }
    ensures size { IsTrue result → region.now.size % 4096 ≡ 0 }
    ensures node { IsTrue result → region.now.node < 1024 }
    ensures reach { IsTrue result → region.now.base + region.now.size ≤ 2 ^ 52 }
{
    region.base % FRAME_SIZE == 0
        && region.size % FRAME_SIZE == 0
        && region.node < 1024
        && region.size <= 0x10_0000_0000_0000
        && region.base <= 0x10_0000_0000_0000 - region.size
}

// Tests whether all records of memory are whole frames with a node, as `present` requires.
fn are_whole(tables: &Tables) -> bool
    ensures { IsTrue result → All IsWholeFramesWithNode tables.now.memory.records }
{
    let records = tables.records(Which::Memory);
    for i in 0..records.count() {
        if !is_whole(&records.get(i)) {
            return false;
        }
    }
    true
}

// Compares the sections with these rows. Each row is a section's number and its node.
fn compare_sections(rt: &impl Abort, sections: &[Section], rows: &[(u32, u32)]) {
    assert!(rt; sections.len() == rows.len());
    for (section, (number, node)) in sections.iter().zip(rows) {
        assert!(rt;
            section.number == *number && section.node == *node,
            "{section:?}"
        );
    }
}

// Returns the sections of the machine.
fn sections_of(alloc: Global, memblock: &Memblock) -> Result<Vec<Section>, Fail> {
    if !are_whole(memblock.tables()) {
        return Err("a record isn't whole".into());
    }
    Ok(present(alloc, memblock.tables())?)
}

// Places the roots of these sections and returns them. Fails the test if memblock has no items yet.
fn place_roots_or_fail(
    alloc: Global,
    memblock: &mut Memblock,
    sections: &[Section],
    width: Width,
) -> Result<Roots, Fail> {
    if !has_begun(memblock) {
        return Err("nothing has happened".into());
    }
    Ok(place_roots(alloc, memblock, sections, width)?)
}

fn compare_roots(rt: &impl Abort, roots: &Roots, table: u64, places: &[RootPlace]) {
    assert!(rt; roots.table == table);
    assert!(rt; roots.roots.as_slice() == places);
}

// The table of roots has 16 KiB or 1 MiB at the end of memory. Root 1 is a page below it, and root
// 0 a page at the end of node 0.
const WIDTHS: [(Width, u64, u64); 2] = [
    (Width::Bits46, 0x8_07FF_C000, 0x8_07FF_B000),
    (Width::Bits52, 0x8_07F0_0000, 0x8_07EF_F000),
];

fn check_width(rt: &impl Abort, alloc: Global, row: (Width, u64, u64)) -> Result<(), Fail> {
    let (width, table, second) = row;
    let mut memblock = machine(alloc, KERNEL, &MEMORY)?;
    limit(&mut memblock, 0x8_0800_0000)?;
    let sections = sections_of(alloc, &memblock)?;
    compare_sections(rt, &sections, &[(0, 0), (1, 0), (2, 1), (3, 1), (256, 1)]);
    let roots = place_roots_or_fail(alloc, &mut memblock, &sections, width)?;
    let places = [
        RootPlace {
            number: 0,
            place: 0xFFF_F000,
        },
        RootPlace {
            number: 1,
            place: second,
        },
    ];
    compare_roots(rt, &roots, table, &places);
    Ok(())
}

#[test]
fn sections_and_roots(rt: HostRuntime) -> Result<(), Fail> {
    let alloc = rt.alloc();
    for row in WIDTHS {
        check_width(&rt, alloc, row)?;
    }
    Ok(())
}
