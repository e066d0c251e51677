//! The types that `include/bootmem.h` declares for the results of a boot, and for buffers of them.

ghost use Rattle.std.specs.Prelude.{◌≡◌, ◌+◌, ◌*◌, ◌^◌, ◌<◌, IfOk, None, map};
ghost use Rattle.phys_store.specs.Bytes.{byte_of};
ghost use Rattle.bootmem_c.specs.Values.{CopiesValues, crash_outcome_value, block_value, node_value, crash_parts_value, region_value, regions_at, run_value, span_value, crash_state_value, zone_number};

use bm_base::{Memory, Range, Zone};
use buddy_handover::Block;
use crash_kernel::Crash;
use e820_model::Run;
use memblock_ranges::{Head, Region, region_at};
use numa_nodes::Nodes;
use phys_store::Store;
use std::alloc::Global;
use zone_spans::Span;

/// A run of the memory map: a range whose addresses all have the same type.
#[repr(C)]
#[derive(Clone, Copy)]
pub struct MapRun {
    /// The first address.
    pub base: u64,
    /// The number of bytes.
    pub size: u64,
    /// The type (`enum e820_type`).
    pub kind: u32,
}

/// Runs of the memory map, for the caller. `room` is the caller's buffer. The call fills it, and
/// sets `count` to the number of all runs, even if they don't all fit.
#[repr(C)]
#[derive(Drop)]
pub struct MapRuns<'a> {
    pub room: &'a mut [MapRun],
    pub count: usize,
}

/// The area that is reserved for a crash kernel (`base`, `size`), and its low part, a second area
/// below 4 GiB (`low_base`, `low_size`). Sizes are in bytes. Base and size are both 0 if there is
/// no such area.
#[repr(C)]
#[derive(Clone, Copy)]
pub struct CrashArea {
    pub base: u64,
    pub size: u64,
    pub low_base: u64,
    pub low_size: u64,
    /// Why there is or isn't an area: one of the numbers `BOOTMEM_CRASH_..` in `bootmem.h`. 1
    /// means that the area is reserved.
    pub state: u32,
}

/// A free block of the page allocator: 2^`order` frames of one node and zone.
#[repr(C)]
#[derive(Clone, Copy)]
pub struct FreeBlock {
    /// The number of its first frame.
    pub first: u64,
    /// The order, 0 to 10.
    pub order: u32,
    pub node: u32,
    /// The number of the zone (`enum zone_type`): 0, 1 or 2.
    pub zone: u32,
}

/// Free blocks, for the caller. `room` is the caller's buffer. The call fills it, and sets `count`
/// to the number of all free blocks, even if they don't all fit.
#[repr(C)]
#[derive(Drop)]
pub struct FreeBlocks<'a> {
    pub room: &'a mut [FreeBlock],
    pub count: usize,
}

/// The range of frames that a node spans in a zone. With the profile of `bootmem` it goes from the
/// node's lowest memory frame in the zone to its highest; with that of `bootmem61` it is the part
/// of the zone between the node's lowest and highest memory frame.
#[repr(C)]
#[derive(Clone, Copy)]
pub struct ZoneSpan {
    /// The number of the first frame.
    pub start: u64,
    /// The number of the frame after the last one.
    pub end: u64,
    /// The number of frames in the range that are memory of this node (`present_pages`).
    pub present: u64,
    pub node: u32,
    /// The number of the zone (`enum zone_type`): 0, 1 or 2.
    pub zone: u32,
}

/// Ranges of frames that nodes span in zones, for the caller. `room` is the caller's buffer. The
/// call fills it, and sets `count` to the number of all ranges, even if they don't all fit.
#[repr(C)]
#[derive(Drop)]
pub struct ZoneSpans<'a> {
    pub room: &'a mut [ZoneSpan],
    pub count: usize,
}

/// A node that has memory, and its proximity domain in the SRAT.
#[repr(C)]
#[derive(Clone, Copy)]
pub struct MemoryNode {
    pub node: u32,
    /// The node's proximity domain, or 0 if the SRAT isn't used.
    pub domain: u32,
    /// 1 if the SRAT is used, else 0.
    pub has_domain: u32,
}

/// Nodes, for the caller. `room` is the caller's buffer. The call fills it, and sets `count` to the
/// number of all nodes that have memory, even if they don't all fit.
#[repr(C)]
#[derive(Drop)]
pub struct MemoryNodes<'a> {
    pub room: &'a mut [MemoryNode],
    pub count: usize,
}

/// A record of memblock's memory table (`struct memblock_region`): a range of whole frames on one
/// node.
#[repr(C)]
#[derive(Clone, Copy)]
pub struct MemoryRange {
    /// The first address.
    pub base: u64,
    /// The number of bytes.
    pub size: u64,
    /// 2 for mirrored memory (`MEMBLOCK_MIRROR`), else 0.
    pub flags: u32,
    pub node: u32,
}

/// Records of memory, for the caller. `room` is the caller's buffer. The call fills it, and sets
/// `count` to the number of all records, even if they don't all fit.
#[repr(C)]
#[derive(Drop)]
pub struct MemoryRanges<'a> {
    pub room: &'a mut [MemoryRange],
    pub count: usize,
}

impl MapRun {
    fn from_map_run(run: &Run) -> MapRun
        ensures { result ≡ run_value run.now }
    {
        MapRun {
            base: run.range.base,
            size: run.range.size,
            kind: run.kind,
        }
    }
}

impl CrashArea {
    /// Returns the value for a boot without a crash area: all addresses and sizes are 0. `state`
    /// says why there is no area (`BOOTMEM_CRASH_..` in C).
    pub fn none(state: u32) -> CrashArea
        ensures { result ≡ crash_parts_value state None None }
    {
        CrashArea {
            base: 0,
            size: 0,
            low_base: 0,
            low_size: 0,
            state,
        }
    }

    pub fn crash_area_value(crash: &Crash) -> CrashArea
        ensures { result ≡ crash_outcome_value crash.now }
    {
        let Crash::At { main, low } = crash else {
            return CrashArea::none(crash_state(crash));
        };
        let low = low.unwrap_or(Range { base: 0, size: 0 });
        CrashArea {
            base: main.base,
            size: main.size,
            low_base: low.base,
            low_size: low.size,
            state: crash_state(crash),
        }
    }
}

/// Returns the number that says why there is or isn't a crash area (`BOOTMEM_CRASH_..` in C).
fn crash_state(crash: &Crash) -> u32
    ensures { result ≡ crash_state_value crash.now }
{
    match crash {
        Crash::Nothing => 0,
        Crash::At { .. } => 1,
        Crash::NoArea => 2,
        Crash::InUse => 3,
        Crash::LowFailed => 4,
    }
}

/// Returns the zone's number in `enum zone_type`: DMA 0, DMA32 1, Normal 2.
fn zone_number(zone: Zone) -> u32
    ensures { result ≡ zone_number zone }
{
    match zone {
        Zone::Dma => 0,
        Zone::Dma32 => 1,
        Zone::Normal => 2,
    }
}

impl FreeBlock {
    fn from_block(block: &Block) -> FreeBlock
        ensures { result ≡ block_value block.now }
    {
        FreeBlock {
            first: block.first,
            order: block.order,
            node: block.node,
            zone: zone_number(block.zone),
        }
    }
}

impl ZoneSpan {
    fn of(span: &Span) -> ZoneSpan
        ensures { result ≡ span_value span.now }
    {
        ZoneSpan {
            start: span.start,
            end: span.end,
            present: span.present,
            node: span.node,
            zone: zone_number(span.zone),
        }
    }
}

impl MemoryNode {
    /// Returns the value for C of node number `node`. `domains` has the proximity domain of each
    /// node; it is empty if the SRAT isn't used.
    fn of(domains: &[u32], node: u32) -> MemoryNode
        ensures { result ≡ node_value domains.now node }
    {
        match domains.get(node as usize) {
            Some(domain) => MemoryNode {
                node,
                domain: *domain,
                has_domain: 1,
            },
            None => MemoryNode {
                node,
                domain: 0,
                has_domain: 0,
            },
        }
    }
}

impl MemoryRange {
    fn of(region: &Region) -> MemoryRange
        ensures { result ≡ region_value region.now }
    {
        MemoryRange {
            base: region.base,
            size: region.size,
            flags: region.flags,
            node: region.node,
        }
    }
}

/// Returns the records of one of memblock's tables as values for C. `head` says where in `store`
/// the table's bytes begin and how many records of 24 bytes it has; they must end below 2^64.
/// Fails only if out of memory.
pub fn memory_values(alloc: Global, store: &Store, head: &Head) -> Result<Vec<MemoryRange>, Memory>
    requires { head.now.place + 24 * head.now.count < 2 ^ 64 }
    ensures { IfOk result (λ values.
        values.items ≡ regions_at (byte_of store.now) head.now.place head.now.count) }
{
    let mut values = Vec::new(alloc);
    for index in 0..head.count {
        values.push(MemoryRange::of(&region_at(store, head, index)))?;
    }
    Ok(values)
}

/// Converts `spans`, the frames that each node spans in each zone, to values for C, in the same
/// order. Fails only if out of memory.
pub fn zone_values(alloc: Global, spans: &[Span]) -> Result<Vec<ZoneSpan>, Memory>
    ensures { IfOk result (λ values. values.items ≡ map span_value spans.now) }
{
    Ok(spans.iter().map(ZoneSpan::of).collect(alloc)?)
}

/// Converts the nodes that have memory to values for C, in the order of `nodes`. Fails only if out
/// of memory.
pub fn node_values(alloc: Global, nodes: &Nodes) -> Result<Vec<MemoryNode>, Memory>
    ensures { IfOk result (λ values. values.items
        ≡ map (node_value nodes.now.domains.items) nodes.now.with_memory.items) }
{
    let domains = nodes.domains.as_slice();
    Ok(
        nodes
            .with_memory
            .iter()
            .map(|node| MemoryNode::of(domains, *node))
            .collect(alloc)?,
    )
}

/// Converts the runs of the memory map to values for C, in the same order. Fails only if out of
/// memory.
pub fn map_values(alloc: Global, runs: &[Run]) -> Result<Vec<MapRun>, Memory>
    ensures { IfOk result (λ values. values.items ≡ map run_value runs.now) }
{
    Ok(runs.iter().map(MapRun::from_map_run).collect(alloc)?)
}

/// Converts the free blocks to values for C, in the same order. Fails only if out of memory.
pub fn block_values(alloc: Global, blocks: &[Block]) -> Result<Vec<FreeBlock>, Memory>
    ensures { IfOk result (λ values. values.items ≡ map block_value blocks.now) }
{
    Ok(blocks.iter().map(FreeBlock::from_block).collect(alloc)?)
}

/// Copies the first of the values to the beginning of the buffer `room`, as many as fit, and
/// returns the number of all values. The rest of the buffer is unchanged.
pub fn copy_values<T: Copy>(values: &[T], room: &mut [T]) -> usize
    ensures { CopiesValues values.now room.old room.new result }
{
    let taken = values.len().min(room.len());
    room[..taken].copy_from_slice(&values[..taken]);
    values.len()
}
