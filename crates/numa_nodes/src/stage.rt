//! Gives memory its nodes, and then allocates the data of each node. Both are one stage: the data
//! of a node should lie on the node, so it can be allocated only after memory has its nodes, and
//! only for nodes that have memory.

ghost use Rattle.std.specs.Prelude.{◌≡◌, ◌^◌, ◌<◌, length, IfOk};
ghost use Rattle.std.specs.Option.{ForSome, option_map, option_copied};
ghost use Rattle.memblock_model.specs.Items.{limit_of};
ghost use Rattle.srat_reader.specs.Table.{srat_view};
ghost use Rattle.growth_model.specs.Tables.{HasFirstItem};
ghost use Rattle.stage_steps.specs.Causes.{error_of_stage_cause};
ghost use Rattle.stage_steps.specs.Steps.{EndsAsStage, fold_steps, view_of_result};
ghost use Rattle.memblock_grow.specs.Continues.{ContinuesMemblock};
ghost use Rattle.srat_nodes.specs.SratNodesView.{srat_nodes_view};
ghost use Rattle.numa_nodes.specs.Assignment.{assign_nodes, assign_found_nodes, place_node_data, set_block_node, node_data_request, nodes_view, node_ranges};
ghost use Rattle.numa_nodes.specs.Steps.{CanGetNodes, KeepsContinuesMemblock};

use crate::memory::{limit_of, memory_ranges, nodes_with_memory};
use bm_base::{Memory, Range};
use boot_journal::{Owner, Which};
use growth_model::Request;
use memblock_grow::Memblock;
use srat_nodes::{NodeRange, SratNodes, Why, judge_srat};
use srat_reader::Srat;
use stage_steps::{StageStop, What, place_or_stop, set_node_or_stop};
use std::alloc::Global;

/// The nodes of a boot, and how they were found.
#[derive(Debug, Drop)]
pub struct Nodes {
    /// Whether the firmware's table of domains is used and, if not, why.
    pub why: Why,
    /// The proximity domain of each node, by the number of the node, if the table is used; else
    /// empty.
    pub domains: Vec<u32>,
    /// The number of frames of memory that no block (range of the table) covers and that got the
    /// lowest node; 0 if the table isn't used.
    pub uncovered: u64,
    /// The nodes that have memory, in ascending order.
    pub with_memory: Vec<u32>,
}

/// The size in bytes of a node's data (`pg_data_t` of x86-64, in whole pages).
const NODE_DATA_SIZE: u64 = 0x2B000;

/// The size of a cache line in bytes (`SMP_CACHE_BYTES`).
const CACHE_LINE: u64 = 64;

/// Gives each byte of memory its node, and places the data of each node that has memory
/// (`initmem_init`). `srat` is the firmware's table of domains, if there is one. It isn't used if
/// it doesn't fit the machine's memory, or if `off` is set (`numa=off`). If no table is used, all
/// addresses below the limit of allocations get node 0. That limit must be set.
///
/// # Errors
///
/// Steps that were completed before the error stay in effect.
///
/// - `NoPlace` if no place fits the data of a node.
/// - `NoTablePlace` if a table of memblock has to grow and no place is found for it.
/// - `Memory` if this program is out of memory.
pub fn assign(
    alloc: Global,
    memblock: &mut Memblock,
    srat: Option<&Srat>,
    off: bool,
) -> Result<Nodes, StageStop>
    requires begun { HasFirstItem memblock.old.journal.items }
    requires limit { 0 < limit_of memblock.old.journal.items }
    requires few { ForSome srat (λ table. length table.now.blocks.items < 2 ^ 32) }
    ensures ends { EndsAsStage (assign_nodes (option_map srat_view (option_copied srat.entry)) off)
        error_of_stage_cause (view_of_result nodes_view result)
        memblock.old.journal.items memblock.new.journal.items }
    ensures goes_on { ContinuesMemblock memblock.old memblock.new }
{
    let memory = memory_ranges(alloc, &memblock.tables().records(Which::Memory))?;
    let found = judge_srat(alloc, &memory, srat, off)?;
    assign_found_nodes(alloc, memblock, found)
}

/// Gives each byte of memory its node, and places the data of each node that has memory. `found`
/// says whether the firmware's table of domains is used and, if it is, has the ranges of each node.
///
/// # Errors
///
/// Steps that were completed before the error stay in effect.
///
/// - `NoPlace` if no place fits the data of a node.
/// - `NoTablePlace` if a table of memblock has to grow and no place is found for it.
/// - `Memory` if this program is out of memory.
fn assign_found_nodes(
    alloc: Global,
    memblock: &mut Memblock,
    found: SratNodes,
) -> Result<Nodes, StageStop>
    requires begun { HasFirstItem memblock.old.journal.items }
    requires ranges { CanGetNodes
        (node_ranges (limit_of memblock.old.journal.items) (srat_nodes_view found)) }
    ensures ends { EndsAsStage (assign_found_nodes (srat_nodes_view found)) error_of_stage_cause
        (view_of_result nodes_view result)
        memblock.old.journal.items memblock.new.journal.items }
    ensures goes_on { KeepsContinuesMemblock memblock.old memblock.new }
{
    let limit = limit_of(memblock.journal().items());
    let ranges = node_ranges(alloc, limit, &found)?;
    set_block_nodes(memblock, &ranges)?;
    let with_memory = nodes_with_memory(alloc, &memblock.tables().records(Which::Memory))?;
    place_each_node_data(memblock, &with_memory)?;
    let SratNodes {
        why,
        domains,
        joined: _,
        rest: _,
        uncovered,
    } = found;
    Ok(Nodes {
        why,
        domains,
        uncovered,
        with_memory,
    })
}

/// Returns the ranges that get a node, each with its node. If the table of domains is used, these
/// are the runs of addresses of one node, and then the runs of memory that no block of the table
/// covers. Else there is one range: all addresses below `limit`, with node 0 (`dummy_numa_init`).
///
/// # Errors
///
/// `Memory` if this program is out of memory.
fn node_ranges(alloc: Global, limit: u64, found: &SratNodes) -> Result<Vec<NodeRange>, Memory>
    ensures { IfOk result (λ ranges. ranges.items ≡ node_ranges limit (srat_nodes_view found.now)) }
{
    let mut ranges = Vec::new(alloc);
    match found.why {
        Why::Used => {
            ranges.extend_from_slice(&found.joined)?;
            ranges.extend_from_slice(&found.rest)?;
        }
        _ => ranges.push(NodeRange {
            range: Range {
                base: 0,
                size: limit,
            },
            value: 0,
        })?,
    }
    Ok(ranges)
}

/// Sets the node of the memory in each range (`memblock_set_node`).
///
/// # Errors
///
/// - `NoTablePlace` if a table of memblock has to grow and no place is found for it.
/// - `Memory` if this program is out of memory.
fn set_block_nodes(memblock: &mut Memblock, ranges: &[NodeRange]) -> Result<(), StageStop>
    requires begun { HasFirstItem memblock.old.journal.items }
    requires ranges { CanGetNodes ranges.now }
    ensures ends { EndsAsStage (fold_steps set_block_node tt ranges.now) error_of_stage_cause result
        memblock.old.journal.items memblock.new.journal.items }
    ensures goes_on { KeepsContinuesMemblock memblock.old memblock.new }
{
    for run in ranges {
        set_node_or_stop(memblock, run.range, run.value)?;
    }
    Ok(())
}

/// Allocates the data of each node in `nodes` (`alloc_node_data`).
///
/// # Errors
///
/// - `NoPlace` if no place fits the data of a node.
/// - `NoTablePlace` if a table of memblock has to grow and no place is found for it.
/// - `Memory` if this program is out of memory.
fn place_each_node_data(memblock: &mut Memblock, nodes: &[u32]) -> Result<(), StageStop>
    requires begun { HasFirstItem memblock.old.journal.items }
    ensures ends { EndsAsStage (fold_steps place_node_data tt nodes.now) error_of_stage_cause result
        memblock.old.journal.items memblock.new.journal.items }
    ensures goes_on { KeepsContinuesMemblock memblock.old memblock.new }
{
    for node in nodes {
        let request = node_data_request(*node);
        place_or_stop(
            memblock,
            What::NodeData(*node),
            &request,
            Owner::NodeData(*node),
        )?;
    }
    Ok(())
}

/// Returns the request for the data of a node, its `pg_data_t` (`alloc_node_data`). The size is
/// that of the data in whole pages. The address is aligned to a cache line, on the node itself if
/// there is room.
fn node_data_request(node: u32) -> Request
    ensures { result ≡ node_data_request node }
{
    Request {
        size: NODE_DATA_SIZE,
        align: CACHE_LINE,
        min: 0,
        max: None,
        node: Some(node),
        exact: false,
    }
}
