//! One table grows while the other does. The memory table has found a new place. To claim that
//! place, or to free the old one, the reserved table needs a record and has to grow too. The
//! expected journal items and table heads are from an implementation of the same rules in another
//! language.
ghost use Rattle.std.specs.Prelude.{◌+◌, ◌^◌, ◌<◌};

use super::{Step, add_apart, carry_out, claim_apart};
use crate::machines::memblock_with_kernel;
use crate::ranges::{KERNEL, bytes};
use boot_journal::{Item, Owner, Which};
use memblock_grow::{Memblock, Refusal};
use memblock_ranges::Head;
use std::alloc::Global;
use std::test::Fail;

// Returns a machine in which allocations end at 1 MiB. Below that is the memory of the step, with
// the first 64 KiB claimed. There are two records of memory and two of claims, and those of
// `frames` more claims.
fn low_machine(alloc: Global, low: Step, frames: u32) -> Result<Memblock, Refusal> {
    let mut memblock = memblock_with_kernel(alloc, KERNEL)?;
    carry_out(&mut memblock, &[Step::Claim(0, 0x10000)])?;
    claim_apart(&mut memblock, 0x8002000, frames)?;
    let memory = [Step::Limit(0x100000), low, Step::Add(0x100000, 0x7F00000)];
    carry_out(&mut memblock, &memory)?;
    Ok(memblock)
}

// Tests whether the journal has `count` items, of which `last` are the last ones.
fn has_written(memblock: &Memblock, count: usize, last: &[Item]) -> bool {
    let items = memblock.journal().items();
    items.len() == count && items.ends_with(last)
}

fn lies_at(memblock: &Memblock, which: Which, place: u64, room: u64, count: u64) -> bool {
    memblock.tables().head(which) == Head { place, room, count }
}

fn grown(which: Which, place: u64, room: u64) -> Item {
    Item::Grown { which, place, room }
}

fn claimed(base: u64, size: u64, which: Which) -> Item
    requires { base + size < 2 ^ 64 }
{
    Item::Claim {
        range: bytes(base, size),
        owner: Owner::Table(which),
    }
}

fn added(base: u64) -> Item
    requires { base + 0x1000 < 2 ^ 64 }
{
    Item::Mem {
        range: bytes(base, 0x1000),
    }
}

// Both tables are full. The claim of the memory table's place needs a record, so the reserved
// table moves first.
//
//     0x9C000             0x9E000           0xA0000
//     |reserved, 256 .....|memory, 256 .....|
#[test]
fn a_claim_makes_the_other_table_grow(rt: HostRuntime) -> Result<(), Fail> {
    let mut memblock = low_machine(rt.alloc(), Step::Add(0, 0xA0000), 126)?;
    add_apart(&mut memblock, 0x10002000, 126)?;
    assert!(rt; has_written(&memblock, 257, &[]));
    add_apart(&mut memblock, 0x100FE000, 1)?;
    let last = [
        grown(Which::Reserved, 0x9C000, 256),
        claimed(0x9C000, 0x2000, Which::Reserved),
        claimed(0x9E000, 0x2000, Which::Memory),
        grown(Which::Memory, 0x9E000, 256),
        added(0x100FE000),
    ];
    assert!(rt; has_written(&memblock, 262, &last));
    assert!(rt; lies_at(&memblock, Which::Memory, 0x9E000, 256, 129));
    assert!(rt; lies_at(&memblock, Which::Reserved, 0x9C000, 256, 129));
    Ok(())
}

// Both tables are full, but only two frames below 1 MiB are free: there is a place for the memory
// table, and none for the reserved table. The call is refused and writes no journal item.
#[test]
fn a_claim_is_refused_for_the_other_table(rt: HostRuntime) -> Result<(), Fail> {
    let mut memblock = low_machine(rt.alloc(), Step::Add(0x11000, 0x2000), 126)?;
    add_apart(&mut memblock, 0x10002000, 126)?;
    let refused = add_apart(&mut memblock, 0x100FE000, 1);
    let refusal = Refusal::NoGapForTable {
        which: Which::Reserved,
        room: 128,
    };
    assert!(rt; refused == Err(refusal));
    assert!(rt; has_written(&memblock, 257, &[added(0x100FC000)]));
    assert!(rt; lies_at(&memblock, Which::Memory, 0x2FFE000, 128, 128));
    assert!(rt; lies_at(&memblock, Which::Reserved, 0x2FFF000, 128, 128));
    Ok(())
}

// The memory table moves for the second time. Freeing its first place may need two records, and
// there is room for one, so the reserved table moves before it.
//
//     0x99000             0x9B000           0x9E000         0xA0000
//     |reserved, 256 .....|memory, 512 .....|left ..........|
#[test]
fn a_release_makes_the_other_table_grow(rt: HostRuntime) -> Result<(), Fail> {
    let mut memblock = low_machine(rt.alloc(), Step::Add(0, 0xA0000), 124)?;
    add_apart(&mut memblock, 0x10002000, 254)?;
    assert!(rt; lies_at(&memblock, Which::Memory, 0x9E000, 256, 256));
    assert!(rt; lies_at(&memblock, Which::Reserved, 0x2FFF000, 128, 127));
    add_apart(&mut memblock, 0x101FE000, 1)?;
    let last = [
        claimed(0x9B000, 0x3000, Which::Memory),
        grown(Which::Memory, 0x9B000, 512),
        grown(Which::Reserved, 0x99000, 256),
        claimed(0x99000, 0x2000, Which::Reserved),
        Item::Free {
            range: bytes(0x9E000, 0x2000),
        },
        added(0x101FE000),
    ];
    assert!(rt; has_written(&memblock, 391, &last));
    assert!(rt; lies_at(&memblock, Which::Memory, 0x9B000, 512, 257));
    assert!(rt; lies_at(&memblock, Which::Reserved, 0x99000, 256, 127));
    Ok(())
}

// The memory table moves for the second time, and only five frames below 1 MiB are usable, so the
// reserved table finds no place. The old place of the memory table stays claimed, and the page is
// added.
//
//     0x11000           0x14000         0x16000
//     |memory, 512 .....|left ..........|
#[test]
fn a_release_is_refused_for_the_other_table(rt: HostRuntime) -> Result<(), Fail> {
    let mut memblock = low_machine(rt.alloc(), Step::Add(0x11000, 0x5000), 124)?;
    add_apart(&mut memblock, 0x10002000, 254)?;
    assert!(rt; lies_at(&memblock, Which::Memory, 0x14000, 256, 256));
    add_apart(&mut memblock, 0x101FE000, 1)?;
    let last = [
        claimed(0x11000, 0x3000, Which::Memory),
        grown(Which::Memory, 0x11000, 512),
        added(0x101FE000),
    ];
    assert!(rt; has_written(&memblock, 388, &last));
    assert!(rt; memblock.journal().owner_at(0x15FFF) == Some(Owner::Table(Which::Memory)));
    assert!(rt; lies_at(&memblock, Which::Memory, 0x11000, 512, 257));
    assert!(rt; lies_at(&memblock, Which::Reserved, 0x2FFF000, 128, 127));
    Ok(())
}
