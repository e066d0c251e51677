//! A memblock through the early part of a boot: the items of the journal, the places of the
//! tables, and the bytes that are read back. The expected values are from an implementation of the
//! same rules in another language.
ghost use Rattle.std.specs.Prelude.{◌≡◌, ◌^◌, ◌<◌, ◌≤◌};
ghost use Rattle.growth_model.specs.Tables.{HasFirstItem};

use crate::machines::{has_begun, memblock_with_kernel};
use crate::ranges::KERNEL;
use crate::tables::FIRST_RECORD;
use bm_base::Range;
use boot_journal::{Journal, Owner, Tag, Which};
use memblock_find::Query;
use memblock_grow::{Memblock, Refusal, Request};
use memblock_ranges::Head;
use std::alloc::Global;
use std::process::Abort;
use std::test::Fail;

mod nested;

// A call of a memblock, with its arguments.
#[derive(Clone, Copy)]
enum Step {
    Add(u64, u64),
    Claim(u64, u64),
    Free(u64, u64),
    Node(u64, u64, u32),
    Mirror(u64, u64),
    Trim,
    Limit(u64),
    Upward(bool),
}

// Carries out the call. Returns false if its requirements don't hold.
fn act(memblock: &mut Memblock, step: Step) -> Result<bool, Refusal> {
    if !has_begun(memblock) {
        return Ok(false);
    }
    match step {
        Step::Add(base, size) => add(memblock, base, size),
        Step::Claim(base, size) => claim(memblock, base, size),
        Step::Free(base, size) => free(memblock, base, size),
        Step::Node(base, size, node) => set_node(memblock, base, size, node),
        Step::Mirror(base, size) => set_mirror(memblock, base, size),
        Step::Trim => {
            memblock.trim()?;
            Ok(true)
        }
        Step::Limit(at) => {
            memblock.set_limit(at)?;
            Ok(true)
        }
        Step::Upward(on) => {
            memblock.set_upward(on)?;
            Ok(true)
        }
    }
}

// Carries out the steps in turn. Returns the error `NoGap` if the requirements of a step don't
// hold.
fn carry_out(memblock: &mut Memblock, steps: &[Step]) -> Result<(), Refusal> {
    for step in steps {
        if !act(memblock, *step)? {
            return Err(Refusal::NoGap);
        }
    }
    Ok(())
}

// Claims `count` frames from an address on, with a gap after each, so that each has its own
// record.
fn claim_apart(memblock: &mut Memblock, first: u64, count: u32) -> Result<(), Refusal>
    requires { first < 2 ^ 63 }
{
    for i in 0..u64::from(count) {
        carry_out(memblock, &[Step::Claim(first + 0x2000 * i, 0x1000)])?;
    }
    Ok(())
}

// Adds `count` frames of memory from an address on, with a gap after each, so that each has its
// own record.
fn add_apart(memblock: &mut Memblock, first: u64, count: u32) -> Result<(), Refusal>
    requires { first < 2 ^ 63 }
{
    for i in 0..u64::from(count) {
        carry_out(memblock, &[Step::Add(first + 0x2000 * i, 0x1000)])?;
    }
    Ok(())
}

fn add(memblock: &mut Memblock, base: u64, size: u64) -> Result<bool, Refusal>
    requires { HasFirstItem memblock.old.journal.items }
{
    let Some(range) = Range::new(base, size) else {
        return Ok(false);
    };
    if size == 0 {
        return Ok(false);
    }
    memblock.add_memory(range)?;
    Ok(true)
}

fn claim(memblock: &mut Memblock, base: u64, size: u64) -> Result<bool, Refusal>
    requires { HasFirstItem memblock.old.journal.items }
{
    let Some(range) = Range::new(base, size) else {
        return Ok(false);
    };
    if size == 0 {
        return Ok(false);
    }
    memblock.claim(range, Owner::Soft)?;
    Ok(true)
}

fn free(memblock: &mut Memblock, base: u64, size: u64) -> Result<bool, Refusal>
    requires { HasFirstItem memblock.old.journal.items }
{
    let Some(range) = Range::new(base, size) else {
        return Ok(false);
    };
    if size == 0 || memblock.touches_table(range) {
        return Ok(false);
    }
    memblock.free(range)?;
    Ok(true)
}

fn set_node(memblock: &mut Memblock, base: u64, size: u64, node: u32) -> Result<bool, Refusal>
    requires { HasFirstItem memblock.old.journal.items }
{
    let Some(range) = Range::new(base, size) else {
        return Ok(false);
    };
    if size == 0 || node >= 1024 {
        return Ok(false);
    }
    memblock.set_node(range, node)?;
    Ok(true)
}

fn set_mirror(memblock: &mut Memblock, base: u64, size: u64) -> Result<bool, Refusal>
    requires { HasFirstItem memblock.old.journal.items }
{
    let Some(range) = Range::new(base, size) else {
        return Ok(false);
    };
    if size == 0 {
        return Ok(false);
    }
    memblock.set_mirror(range)?;
    Ok(true)
}

fn fill(memblock: &mut Memblock, base: u64, size: u64, byte: u8) -> Result<bool, Refusal> {
    let Some(range) = Range::new(base, size) else {
        return Ok(false);
    };
    if memblock.touches_table(range) {
        return Ok(false);
    }
    memblock.fill(range, byte)?;
    Ok(true)
}

fn best(memblock: &Memblock, query: &Query) -> Option<u64>
    requires some { 1 ≤ query.now.size }
    requires aligned { query.now.align ≡ 2 ^ 12 }
{
    memblock.find(query)
}

// Returns a request for `size` bytes, aligned to a frame, in a window. The window is given by its
// lowest address and its end.
fn request(size: u64, window: (u64, Option<u64>), node: Option<u32>) -> Request
    ensures size { result.size ≡ size }
    ensures align { result.align ≡ 2 ^ 12 }
{
    let (min, max) = window;
    Request {
        size,
        align: 0x1000,
        min,
        max,
        node,
        exact: false,
    }
}

// Allocates what the request asks for.
fn answer(memblock: &mut Memblock, request: &Request) -> Result<u64, Refusal>
    requires begun { HasFirstItem memblock.old.journal.items }
    requires some { 1 ≤ request.now.size }
    requires aligned { request.now.align ≡ 2 ^ 12 }
{
    memblock.alloc(request, Owner::Soft)
}

// Allocates `size` bytes. Returns `None` if nothing is claimed yet, or the size is 0.
fn alloc(
    memblock: &mut Memblock,
    size: u64,
    window: (u64, Option<u64>),
    node: Option<u32>,
) -> Option<Result<u64, Refusal>> {
    if size == 0 || !has_begun(memblock) {
        return None;
    }
    Some(answer(memblock, &request(size, window, node)))
}

// Tests whether the journal has this number of items, and the reserved table this number of
// records.
fn has_counts(memblock: &Memblock, items: usize, claims: u64) -> bool {
    memblock.journal().items().len() == items
        && memblock.tables().head(Which::Reserved).count == claims
}

// Returns a virtual machine of 128 MiB whose memory has its nodes. The kernel's image is
// 0x1000000..0x2ffffff.
fn machine(alloc: Global) -> Result<Memblock, Refusal> {
    let mut memblock = memblock_with_kernel(alloc, KERNEL)?;
    let steps = [
        Step::Claim(0, 0x10000),
        Step::Add(0x1000, 0x9EC00),
        Step::Add(0x100000, 0x7EE0000),
        Step::Trim,
        Step::Limit(0x7FE0000),
        Step::Node(0, 0x7FE0000, 0),
    ];
    carry_out(&mut memblock, &steps)?;
    Ok(memblock)
}

#[test]
fn allocations_come_from_the_top(rt: HostRuntime) -> Result<(), Fail> {
    let mut memblock = machine(rt.alloc())?;
    assert!(rt; has_counts(&memblock, 7, 2));
    let query = Query {
        lo: 0,
        hi: 0x7FE0000,
        size: 0x2000,
        align: 0x1000,
        node: None,
    };
    assert!(rt; best(&memblock, &query) == Some(0x7FDE000));
    memblock.ready(8)?;
    let cases = [
        (0x2B000, (0, None), None, Ok(0x7FB5000)),
        (0x4000, (0, None), Some(0), Ok(0x7FB1000)),
        (0x8000000, (0, None), None, Err(Refusal::NoGap)),
        (0x1000, (0x100000, Some(0x200000)), Some(1), Ok(0x1FF000)),
    ];
    for (size, window, node, want) in cases {
        assert!(rt;
            alloc(&mut memblock, size, window, node) == Some(want),
            "{size}"
        );
    }
    assert!(rt; act(&mut memblock, Step::Free(0x7FB5000, 0x1000))?);
    assert!(rt; has_counts(&memblock, 11, 5));
    Ok(())
}

// Allocates five ranges: from the top, from below, and from the top again. Two of them are too
// large for the mirrored memory, and get memory that isn't mirrored.
fn place_both_ways(rt: &impl Abort, memblock: &mut Memblock) -> Result<(), Refusal> {
    let cases = [
        (false, 0x1000, 0x4FFF000),
        (false, 0x2000000, 0x5FE0000),
        (true, 0x1000, 0x4000000),
        (true, 0x1000000, 0x3000000),
        (false, 0x1000, 0x4FFE000),
    ];
    for (upward, size, want) in cases {
        carry_out(memblock, &[Step::Upward(upward)])?;
        assert!(rt;
            alloc(memblock, size, (0, None), None) == Some(Ok(want)),
            "{size} {upward}"
        );
    }
    Ok(())
}

#[test]
fn mirrored_memory_goes_first(rt: HostRuntime) -> Result<(), Fail> {
    let mut memblock = machine(rt.alloc())?;
    carry_out(&mut memblock, &[Step::Mirror(0x4000000, 0x1000000)])?;
    let mirrored = Tag::Memory {
        node: Some(0),
        mirror: true,
    };
    assert!(rt;
        memblock.journal().has_mirrors() && memblock.journal().tag_at(0x4FFFFFF) == mirrored
    );
    place_both_ways(&rt, &mut memblock)?;
    Ok(())
}

// Tests whether memory has these bytes, at most 24, from the address on.
fn reads(memblock: &Memblock, base: u64, bytes: &[u8]) -> bool {
    if base.checked_add(24).is_none() {
        return false;
    }
    let mut read = [0; 24];
    let Some(read) = read.get_mut(..bytes.len()) else {
        return false;
    };
    memblock.peek(base, read);
    *read == *bytes
}

// A boot up to its nodes: the memory table begins with the memory below 640 KiB, and is all zeros
// after its second record.
#[test]
fn first_record_after_the_nodes(rt: HostRuntime) -> Result<(), Fail> {
    let mut memblock = memblock_with_kernel(rt.alloc(), KERNEL)?;
    let steps = [
        Step::Claim(0, 0x10000),
        Step::Limit(0x100000),
        Step::Add(0x1000, 0x9EC00),
        Step::Add(0x100000, 0x7EE0000),
        Step::Trim,
        Step::Limit(0x7FE0000),
        Step::Claim(0, 0x100000),
        Step::Node(0, 0x7FE0000, 0),
    ];
    carry_out(&mut memblock, &steps)?;
    assert!(rt; reads(&memblock, 0x2FFE000, &FIRST_RECORD));
    assert!(rt; reads(&memblock, 0x2FFE030, &[0; 24]));
    Ok(())
}

// Tests whether each table owns a byte of the place that it moved to.
fn owns_places(journal: &Journal) -> bool {
    journal.owner_at(0x7FDBFFF) == Some(Owner::Table(Which::Reserved))
        && journal.owner_at(0x7FDE000) == Some(Owner::Table(Which::Memory))
}

// Both tables move, the reserved one twice. The place that the memory table moves to was filled
// before, and so was a place outside memory.
#[test]
fn tables_move(rt: HostRuntime) -> Result<(), Fail> {
    let mut memblock = machine(rt.alloc())?;
    assert!(rt; fill(&mut memblock, 0x7FDE000, 0x2000, 0xA5)?);
    assert!(rt; fill(&mut memblock, 0x200000000, 2, 0xA5)?);
    claim_apart(&mut memblock, 0x200000, 300)?;
    add_apart(&mut memblock, 0x100000000, 200)?;
    assert!(rt; has_counts(&memblock, 514, 303));
    assert!(rt; owns_places(memblock.journal()));
    let cases = [
        // The bytes at the first place of the memory table are zeros. Its new place has the first
        // record and, after the last record, zeros.
        (0x2FFE000, [0; 24].as_slice()),
        (0x7FDE000, FIRST_RECORD.as_slice()),
        (0x7FDE000 + 24 * 202, [0; 24].as_slice()),
        // Right after the table's new bytes, those of the earlier fill are unchanged.
        (0x7FDF7FE, [0, 0, 0xA5, 0xA5].as_slice()),
        (0x1FFFFFFFF, [0, 0xA5, 0xA5, 0].as_slice()),
    ];
    for (base, bytes) in cases {
        assert!(rt; reads(&memblock, base, bytes), "{base}");
    }
    // The place that the memory table left may be filled, and the new bytes of a table may not.
    assert!(rt; fill(&mut memblock, 0x2FFE000, 24, 0x5A)?);
    assert!(rt; reads(&memblock, 0x2FFE000, &[0x5A; 24]));
    assert!(rt; fill(&mut memblock, 0x300000, 0x10, 0x5A)?);
    assert!(rt; !fill(&mut memblock, 0x7FDB000, 1, 0x5A)?);
    assert!(rt; reads(&memblock, 0x2FFFFF, &[0, 0x5A, 0x5A, 0x5A]));
    assert!(rt; reads(&memblock, 0x30000E, &[0x5A, 0x5A, 0, 0]));
    let (_store, heads, _journal) = memblock.into_parts();
    let memory = Head {
        place: 0x7FDE000,
        room: 256,
        count: 202,
    };
    let reserved = Head {
        place: 0x7FDB000,
        room: 512,
        count: 303,
    };
    assert!(rt; heads.memory == memory && heads.reserved == reserved);
    Ok(())
}
