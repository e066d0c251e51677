//! Builds the two tables of a machine, range by range.

use crate::ranges::{KERNEL, Part};
use bm_base::Range;
use memblock_model::Which;
use memblock_ranges::Tables;
use std::alloc::Global;
use std::test::Fail;

/// The bytes of the first record of a machine's memory table: 0x1000..0x9efff of node 0.
pub const FIRST_RECORD: [u8; 24] = [
    0, 0x10, 0, 0, 0, 0, 0, 0, 0, 0xE0, 9, 0, 0, 0, 0, 0, 0, 0, 0, 0, 0, 0, 0, 0,
];

/// Adds the range of `size` bytes from address `base` on to the table, with this node (1,024 for
/// no node). Returns false if the requirements of `insert` don't hold.
pub fn cover(tables: &mut Tables, which: Which, base: u64, size: u64, node: u32) -> bool {
    let Some(range) = Range::new(base, size) else {
        return false;
    };
    let head = tables.head(which);
    let pieces = tables.pieces(which, range);
    let allowed = match which {
        Which::Memory => node <= 1024,
        Which::Reserved => node == 1024,
    };
    if size == 0 || !allowed || pieces > head.room - head.count {
        return false;
    }
    tables.insert(which, range, node);
    true
}

/// Marks the memory of the range as mirrored. Returns false if the requirements of `set_mirror`
/// don't hold.
pub fn mirror(tables: &mut Tables, base: u64, size: u64) -> bool {
    let Some(range) = Range::new(base, size) else {
        return false;
    };
    let head = tables.head(Which::Memory);
    if head.room - head.count < 2 {
        return false;
    }
    tables.set_mirror(range);
    true
}

// Adds the addresses of the part to the table, with its node. Returns false if the requirements of
// `insert` don't hold.
fn cover_part(tables: &mut Tables, which: Which, part: Part) -> bool {
    let (from, until, node) = part;
    from < until && cover(tables, which, from, until - from, node)
}

/// Returns tables with this memory and these reserved ranges; a reserved range is its first
/// address and the address past its last one.
pub fn tables_of(alloc: Global, memory: &[Part], reserved: &[(u64, u64)]) -> Result<Tables, Fail> {
    let mut tables = Tables::new(alloc, KERNEL)?;
    for part in memory {
        if !cover_part(&mut tables, Which::Memory, *part) {
            return Err("memory".into());
        }
    }
    for (from, until) in reserved {
        if !cover_part(&mut tables, Which::Reserved, (*from, *until, 1024)) {
            return Err("reserved".into());
        }
    }
    Ok(tables)
}
