//! Tests of `memblock_ranges`: the tables after the boot of a machine, compared record by record
//! and byte by byte.

use crate::ranges::{KERNEL, bytes};
use crate::tables::{FIRST_RECORD, cover, mirror};
use bm_base::{Memory, Range};
use memblock_model::Which;
use memblock_ranges::{Head, Heads, Region, Tables, node_of_field, region_at};
use phys_store::Store;
use std::process::Abort;
use std::test::Fail;

// An edit of a table, with its range and its node.
#[derive(Clone, Copy)]
enum Step {
    Add(u64, u64, u32),
    Reserve(u64, u64),
    Free(u64, u64),
    Node(u64, u64, u32),
    Mirror(u64, u64),
    Trim,
}

// Carries out the edit. Returns false if its requirements don't hold.
fn act(tables: &mut Tables, step: Step) -> bool {
    match step {
        Step::Add(base, size, node) => cover(tables, Which::Memory, base, size, node),
        Step::Reserve(base, size) => cover(tables, Which::Reserved, base, size, 1024),
        Step::Free(base, size) => free(tables, base, size),
        Step::Node(base, size, node) => set_node(tables, base, size, node),
        Step::Mirror(base, size) => mirror(tables, base, size),
        Step::Trim => {
            tables.trim();
            true
        }
    }
}

fn free(tables: &mut Tables, base: u64, size: u64) -> bool {
    let Some(range) = Range::new(base, size) else {
        return false;
    };
    let head = tables.head(Which::Reserved);
    if head.room - head.count < 2 {
        return false;
    }
    tables.remove(Which::Reserved, range);
    true
}

fn set_node(tables: &mut Tables, base: u64, size: u64, node: u32) -> bool {
    let Some(range) = Range::new(base, size) else {
        return false;
    };
    let head = tables.head(Which::Memory);
    if node >= 1024 || head.room - head.count < 2 {
        return false;
    }
    tables.set_node(range, node);
    true
}

// Tests whether the table's records are these, without flags: base, size, node.
fn has(tables: &Tables, which: Which, records: &[(u64, u64, u32)]) -> bool {
    if tables.head(which).count != records.len() as u64 {
        return false;
    }
    for i in 0..tables.head(which).count {
        let (base, size, node) = records[i as usize];
        let expected = Region {
            base,
            size,
            flags: 0,
            node,
        };
        if tables.region(which, i) != expected || tables.records(which).get(i) != expected {
            return false;
        }
    }
    true
}

// Tests whether the memory table's records are these: base, size, flags, node.
fn has_marked(tables: &Tables, records: &[(u64, u64, u32, u32)]) -> bool {
    let list = tables.records(Which::Memory);
    if list.count() != records.len() as u64 {
        return false;
    }
    for i in 0..list.count() {
        let (base, size, flags, node) = records[i as usize];
        let expected = Region {
            base,
            size,
            flags,
            node,
        };
        let label = list.label(i);
        if list.get(i) != expected
            || label.node() != node_of_field(node)
            || label.flags() != flags
        {
            return false;
        }
    }
    true
}

fn act_all(rt: &impl Abort, tables: &mut Tables, steps: &[Step]) {
    for step in steps {
        assert!(rt; act(tables, *step));
    }
}

// Compares bytes with each row: an address, and the 24 bytes that must be there.
fn compare_bytes(rt: &impl Abort, tables: &Tables, rows: &[(u64, [u8; 24])]) {
    for (at, expected) in rows {
        assert!(rt; *at <= u64::MAX - 24);
        let mut bytes = [9; 24];
        tables.read(*at, &mut bytes);
        assert!(rt; bytes == *expected, "at {at:#x}");
    }
}

// A virtual machine of 128 MiB, up to the node data. The kernel's image is 0x1000000..0x2ffffff.
#[test]
fn a_virtual_machine_of_128_mib(rt: HostRuntime) -> Result<(), Fail> {
    let mut tables = Tables::new(rt.alloc(), KERNEL)?;
    let steps = [
        Step::Reserve(0x1000000, 0x2000000),
        Step::Reserve(0, 0x10000),
        Step::Add(0x1000, 0x9EC00, 1024),
        Step::Add(0x100000, 0x7EE0000, 1024),
        Step::Trim,
        Step::Reserve(0, 0x100000),
        Step::Node(0, 0x7FE0000, 0),
        Step::Reserve(0x7FB5000, 0x2B000),
        Step::Reserve(0x7FB1000, 0x4000),
        Step::Reserve(0x7FB0000, 0x1000),
        Step::Reserve(0x7FAFFC0, 0x28),
        Step::Reserve(0x7C00000, 0x200000),
    ];
    act_all(&rt, &mut tables, &steps);
    let memory = [(0x1000, 0x9E000, 0), (0x100000, 0x7EE0000, 0)];
    let reserved = [
        (0, 0x100000, 1024),
        (0x1000000, 0x2000000, 1024),
        (0x7C00000, 0x200000, 1024),
        (0x7FAFFC0, 0x28, 1024),
        (0x7FB0000, 0x30000, 1024),
    ];
    assert!(rt; has(&tables, Which::Memory, &memory));
    assert!(rt; has(&tables, Which::Reserved, &reserved));

    // The memory table begins two frames before the image's end, with its first record; after its
    // two records it is all zeros. The last row has the end of the reserved table's last record,
    // and zeros after it.
    let across = [
        0, 0, 0, 0, 0, 0, 3, 0, 0, 0, 0, 0, 0, 0, 0, 0, 0, 4, 0, 0, 0, 0, 0, 0,
    ];
    let rows = [
        (0x2FFE000, FIRST_RECORD),
        (0x2FFE030, [0; 24]),
        (0x2FFF064, across),
    ];
    compare_bytes(&rt, &tables, &rows);
    Ok(())
}

// Records of two nodes that touch, gaps between records, a frame that two nodes share, and the
// last address.
//
//     0x1000     0x2000     0x3000     0x4000     0x5000    0x9000     0xA000
//     |0000000000|1111111111|.....................|          |..........|
#[test]
fn nodes_gaps_and_the_last_address(rt: HostRuntime) -> Result<(), Fail> {
    let mut tables = Tables::new(rt.alloc(), KERNEL)?;
    nodes_that_touch(&rt, &mut tables);
    a_frame_of_two_nodes(&rt, &mut tables);
    claims_and_gaps(&rt, &mut tables);
    Ok(())
}

fn nodes_that_touch(rt: &impl Abort, tables: &mut Tables) {
    let steps = [
        Step::Add(0x1000, 0x1000, 0),
        Step::Add(0x2000, 0x1000, 1),
        Step::Add(0x1000, 0x4000, 1024),
        Step::Add(0x9000, 0x1000, 1024),
    ];
    act_all(rt, tables, &steps);
    let records = [
        (0x1000, 0x1000, 0),
        (0x2000, 0x1000, 1),
        (0x3000, 0x2000, 1024),
        (0x9000, 0x1000, 1024),
    ];
    assert!(rt; has(tables, Which::Memory, &records));
    assert!(rt; tables.pieces(Which::Memory, bytes(0, 0xB000)) == 3);
    assert!(rt; tables.pieces(Which::Memory, bytes(0x1000, 0x4000)) == 0);
    assert!(rt; tables.pieces(Which::Reserved, bytes(0x1000, 0x4000)) == 1);
}

fn a_frame_of_two_nodes(rt: &impl Abort, tables: &mut Tables) {
    assert!(rt; act(tables, Step::Node(0x1800, 0x8000, 1)));
    let records = [
        (0x1000, 0x800, 0),
        (0x1800, 0x3800, 1),
        (0x9000, 0x800, 1),
        (0x9800, 0x800, 1024),
    ];
    assert!(rt; has(tables, Which::Memory, &records));

    let last = u64::MAX - 0x1000;
    assert!(rt; act(tables, Step::Add(last, 0x1000, 7)));
    let with_last = [
        (0x1000, 0x800, 0),
        (0x1800, 0x3800, 1),
        (0x9000, 0x800, 1),
        (0x9800, 0x800, 1024),
        (last, 0x1000, 7),
    ];
    assert!(rt; has(tables, Which::Memory, &with_last));
    assert!(rt; act(tables, Step::Trim));
    assert!(rt; has(tables, Which::Memory, &[(0x2000, 0x3000, 1)]));
}

fn claims_and_gaps(rt: &impl Abort, tables: &mut Tables) {
    let steps = [
        Step::Reserve(0x1000, 0x1000),
        Step::Reserve(0x3000, 0x1000),
        Step::Reserve(0x2000, 0x1000),
        Step::Reserve(u64::MAX - 1, 1),
        Step::Free(0x1800, 0x1000),
        Step::Free(0, 0),
    ];
    act_all(rt, tables, &steps);
    let reserved = [
        (0x1000, 0x800, 1024),
        (0x2800, 0x1800, 1024),
        (u64::MAX - 1, 1, 1024),
    ];
    assert!(rt; has(tables, Which::Reserved, &reserved));
    assert!(rt; has(tables, Which::Memory, &[(0x2000, 0x3000, 1)]));
}

// Mirrored memory from the middle of node 0 to the middle of node 1. Then all of it gets node 2,
// and what is added after it isn't mirrored.
//
//     0x1000     0x1800     0x2000     0x2800     0x4000     0x5000
//     |0000000000|0 mirrored|1 mirrored|1111111111|..........|
#[test]
fn mirrored_memory(rt: HostRuntime) -> Result<(), Fail> {
    let mut tables = Tables::new(rt.alloc(), KERNEL)?;
    let steps = [
        Step::Add(0x1000, 0x1000, 0),
        Step::Add(0x2000, 0x2000, 1),
        Step::Mirror(0x1800, 0x1000),
        Step::Mirror(0x1C00, 0),
    ];
    act_all(&rt, &mut tables, &steps);
    let halves = [
        (0x1000, 0x800, 0, 0),
        (0x1800, 0x800, 2, 0),
        (0x2000, 0x800, 2, 1),
        (0x2800, 0x1800, 0, 1),
    ];
    assert!(rt; has_marked(&tables, &halves));
    let second = [
        0, 0x18, 0, 0, 0, 0, 0, 0, 0, 8, 0, 0, 0, 0, 0, 0, 2, 0, 0, 0, 0, 0, 0, 0,
    ];
    compare_bytes(&rt, &tables, &[(0x2FFE018, second)]);

    let later = [Step::Node(0x1000, 0x3000, 2), Step::Add(0, 0x5000, 2)];
    act_all(&rt, &mut tables, &later);
    let joined = [
        (0, 0x1800, 0, 2),
        (0x1800, 0x1000, 2, 2),
        (0x2800, 0x2800, 0, 2),
    ];
    assert!(rt; has_marked(&tables, &joined));
    act_all(&rt, &mut tables, &[Step::Trim]);
    let whole = [(0, 0x1000, 0, 2), (0x3000, 0x2000, 0, 2)];
    assert!(rt; has_marked(&tables, &whole));
    Ok(())
}

// Moves the table to the place, with twice the room. Returns false if the new bytes would overlap
// a table.
fn moved(tables: &mut Tables, which: Which, place: u64) -> Result<bool, Memory> {
    let head = tables.head(which);
    let Some(size) = head.room.checked_mul(48) else {
        return Ok(false);
    };
    let Some(range) = Range::new(place, size) else {
        return Ok(false);
    };
    tables.prepare(range)?;
    if tables.overlaps_table(range) {
        return Ok(false);
    }
    tables.relocate(which, place);
    Ok(true)
}

#[test]
fn a_table_moves_and_leaves_zeros(rt: HostRuntime) -> Result<(), Fail> {
    let mut tables = Tables::new(rt.alloc(), KERNEL)?;
    let steps = [
        Step::Reserve(0x1000000, 0x2000000),
        Step::Add(0x1000, 0x9E000, 0),
    ];
    act_all(&rt, &mut tables, &steps);
    move_reserved(&rt, &mut tables)?;
    read_across(&rt, &mut tables)?;
    let (store, heads) = tables.into_parts();
    compare_records(&rt, &store, &heads);
    Ok(())
}

fn move_reserved(rt: &impl Abort, tables: &mut Tables) -> Result<(), Memory> {
    assert!(rt; tables.overlaps_table(bytes(0x2FFFBFF, 1)));
    assert!(rt; !tables.overlaps_table(bytes(0x2FFFC00, 0x400)));
    assert!(rt; !moved(tables, Which::Reserved, 0x2FFEBFF)?);
    assert!(rt; moved(tables, Which::Reserved, 0x100000)?);
    assert!(rt; tables.head(Which::Reserved) == MOVED);
    let reserved = [(0x1000000, 0x2000000, 1024)];
    assert!(rt; has(tables, Which::Reserved, &reserved));
    assert!(rt; has(tables, Which::Memory, &[(0x1000, 0x9E000, 0)]));
    compare_bytes(rt, tables, &[(0x2FFF000, [0; 24])]);
    Ok(())
}

// The old place of the table may be written now. A read crosses the end of the memory table's
// bytes, after which there are other bytes.
fn read_across(rt: &impl Abort, tables: &mut Tables) -> Result<(), Memory> {
    let freed = bytes(0x2FFF000, 0x10);
    assert!(rt; !tables.overlaps_table(freed));
    tables.prepare(bytes(0x2FFEC00, 8))?;
    let after = bytes(0x2FFEC00, 8);
    if !tables.overlaps_table(after) {
        tables.fill(after, 7);
    }
    let mut across = [9; 12];
    tables.read(0x2FFEBFC, &mut across);
    assert!(rt; across == [0, 0, 0, 0, 7, 7, 7, 7, 7, 7, 7, 7]);
    Ok(())
}

/// The reserved table's head after it has moved.
const MOVED: Head = Head {
    place: 0x100000,
    room: 256,
    count: 1,
};

// Compares records that are read only from the bytes and the heads: these hold everything about
// the tables.
fn compare_records(rt: &impl Abort, store: &Store, heads: &Heads) {
    let first = Region {
        base: 0x1000000,
        size: 0x2000000,
        flags: 0,
        node: 1024,
    };
    let built_in = Head {
        place: 0x2FFE000,
        room: 128,
        count: 1,
    };
    assert!(rt; heads.memory == built_in);
    assert!(rt; heads.reserved == MOVED);
    assert!(rt; region_at(store, &heads.reserved, 0) == first);
    assert!(rt; region_at(store, &heads.memory, 0).size == 0x9E000);
    assert!(rt; region_at(store, &heads.memory, 1).size == 0);
}
