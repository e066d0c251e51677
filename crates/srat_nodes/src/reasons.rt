//! Decides whether the SRAT is used. Tests the reasons not to use it in the order of [`Why`].

ghost use Rattle.std.specs.Prelude.{◌≡◌, ℕ, ◌^◌, ◌<◌, ◌≤◌, IfOk, IsFalse, IsSome, OnErr, length};
ghost use Rattle.std.specs.Option.{ForSome, option_map, option_copied};
ghost use Rattle.address_runs.specs.Overlay.{HaveAddresses};
ghost use Rattle.srat_reader.specs.Table.{srat_view};
ghost use Rattle.srat_nodes.specs.SratNodesView.{lowest_node, srat_nodes_view, judge_srat, judge_kept_blocks, judge_srat_table, unused_srat};
ghost use Rattle.srat_nodes.specs.Kept.{is_in_any_range, numa_blocks_of, NoMemoryIsEmpty};
ghost use Rattle.srat_nodes.specs.Steps.{EndInSpace};

use crate::domains::named_domains;
use crate::hulls::{fill_gaps, overlay_blocks};
use crate::kept::{
    KeptBlock, NodeRange, count_with_addresses, first_overlap, is_any_kept, keep_blocks,
};
use crate::memory::memory_runs;
use crate::rest::{count_frames, uncovered_runs};
use bm_base::{MAX_NODES, Memory, Range};
use srat_reader::{Srat, SratBlock};
use std::alloc::Global;

/// The largest number of memory blocks of a table that is used, empty ones not counted
/// (`NR_NODE_MEMBLKS`).
pub const MAX_BLOCKS: usize = 2048;

/// The SRAT isn't used if this many frames of memory, or more, have no node
/// (`numa_meminfo_cover_memory`). 256 frames are 1 MiB.
pub const UNCOVERED_FRAMES: u64 = 256;

/// The reason why the SRAT is or isn't used. If several reasons not to use it hold, the one that is
/// listed first here is returned.
#[derive(Clone, Copy, Debug, PartialEq, Eq)]
pub enum Why {
    /// The table is used: none of the reasons listed below holds.
    Used,
    /// The option `numa=off` was given.
    Off,
    /// There is no SRAT.
    Absent,
    /// No enabled block contains a byte of memory after its ends have been rounded down to frames.
    NoBlocks,
    /// The enabled entries name more than [`MAX_NODES`] (1,024) domains.
    TooManyDomains,
    /// The table has more than [`MAX_BLOCKS`] (2,048) enabled blocks whose size isn't 0, before any
    /// rounding.
    TooManyBlocks,
    /// Two blocks with memory and of different nodes share an address. `i` and `j` are their
    /// indices among the enabled blocks, counted from 0. Of several pairs it is the one with the
    /// least `i`, and of these the one with the least `j`.
    Overlap { i: u32, j: u32 },
    /// At least [`UNCOVERED_FRAMES`] (256) frames of memory have no node; `frames` is their number.
    NotCovered { frames: u64 },
}

/// The decision whether the SRAT is used, and the nodes by it. If the table isn't used, the lists
/// are empty and `uncovered` is 0.
#[derive(Debug, Drop)]
pub struct SratNodes {
    /// The reason why the SRAT is or isn't used.
    pub why: Why,
    /// The proximity domain of each node; the index in the list is the node.
    pub domains: Vec<u32>,
    /// The runs of addresses to which the blocks give a node, in ascending order. They also cover
    /// the gap between two blocks of a node that have no block of another node between them.
    pub joined: Vec<NodeRange>,
    /// The runs of memory to which the blocks give no node, in ascending order. All of them get the
    /// lowest node that has a block.
    pub rest: Vec<NodeRange>,
    /// The number of frames of 4,096 bytes in `rest`.
    pub uncovered: u64,
}

/// Decides whether the SRAT is used, and if so, returns which memory belongs to which node.
/// `memory` has the ranges of memory, in any order, none of them empty. `srat` is `None` if there
/// is no table. A table must have fewer than 2^32 blocks. `off` says whether the option `numa=off`
/// was given.
///
/// # Errors
///
/// - `Memory`: the program ran out of memory. This happens only if there is a table and `off` is
///   false.
pub fn judge_srat(
    alloc: Global,
    memory: &[Range],
    srat: Option<&Srat>,
    off: bool,
) -> Result<SratNodes, Memory>
    requires memory { NoMemoryIsEmpty memory.now }
    requires few { ForSome srat (λ table. length table.now.blocks.items < 2 ^ 32) }
    ensures value { IfOk result (λ found. srat_nodes_view found ≡
        judge_srat (is_in_any_range memory.now) off
        (option_map srat_view (option_copied srat.entry))) }
    ensures memory { OnErr result (IsFalse off × IsSome srat.entry) }
{
    if off {
        return Ok(unused_srat(alloc, Why::Off));
    }
    match srat {
        None => Ok(unused_srat(alloc, Why::Absent)),
        Some(table) => judge_srat_table(alloc, memory, &table.cpus, &table.blocks),
    }
}

/// Decides whether an SRAT is used, if `numa=off` wasn't given. Tests the reasons of [`Why`] from
/// `NoBlocks` on, in their order.
///
/// # Errors
///
/// - `Memory`: the program ran out of memory.
fn judge_srat_table(
    alloc: Global,
    memory: &[Range],
    processors: &[u32],
    blocks: &[SratBlock],
) -> Result<SratNodes, Memory>
    requires memory { NoMemoryIsEmpty memory.now }
    requires few { length blocks.now < 2 ^ 32 }
    ensures { IfOk result (λ found. srat_nodes_view found ≡
        judge_srat_table (is_in_any_range memory.now)
        (record { processors = processors.now; blocks = blocks.now })) }
{
    let runs = memory_runs(alloc, memory)?;
    if !is_any_kept(&runs, blocks) {
        return Ok(unused_srat(alloc, Why::NoBlocks));
    }
    let domains = named_domains(alloc, processors, blocks)?;
    if domains.len() > MAX_NODES as usize {
        return Ok(unused_srat(alloc, Why::TooManyDomains));
    }
    if count_with_addresses(blocks) > MAX_BLOCKS {
        return Ok(unused_srat(alloc, Why::TooManyBlocks));
    }
    let kept = keep_blocks(alloc, &runs, &domains, blocks)?;
    judge_kept_blocks(alloc, memory, domains, &kept)
}

/// Decides whether the SRAT is used, by the two reasons that depend on the kept blocks, those with
/// memory: blocks of different nodes overlap, or too much memory has no node. `domains` has the
/// domain of each node. No kept block may be empty.
///
/// # Errors
///
/// - `Memory`: the program ran out of memory.
fn judge_kept_blocks(
    alloc: Global,
    memory: &[Range],
    domains: Vec<u32>,
    kept: &[KeptBlock],
) -> Result<SratNodes, Memory>
    requires memory { NoMemoryIsEmpty memory.now }
    requires some { HaveAddresses (numa_blocks_of kept.now) }
    requires space { EndInSpace (numa_blocks_of kept.now) }
    ensures { IfOk result (λ found. srat_nodes_view found
        ≡ judge_kept_blocks (is_in_any_range memory.now) domains.items kept.now) }
{
    let laid = overlay_blocks(alloc, kept)?;
    if let Some((i, j)) = first_overlap(kept, &laid) {
        return Ok(unused_srat(alloc, Why::Overlap { i, j }));
    }
    let joined = fill_gaps(alloc, &laid)?;
    let rest = uncovered_runs(alloc, memory, &joined, lowest_node(kept))?;
    let uncovered = count_frames(&rest);
    if uncovered >= UNCOVERED_FRAMES {
        return Ok(unused_srat(alloc, Why::NotCovered { frames: uncovered }));
    }
    Ok(SratNodes {
        why: Why::Used,
        domains,
        joined,
        rest,
        uncovered,
    })
}

/// Returns the result for an SRAT that isn't used for the reason `why`: all lists are empty, and
/// `uncovered` is 0.
fn unused_srat(alloc: Global, why: Why) -> SratNodes
    ensures { srat_nodes_view result ≡ unused_srat why }
{
    SratNodes {
        why,
        domains: Vec::new(alloc),
        joined: Vec::new(alloc),
        rest: Vec::new(alloc),
        uncovered: 0,
    }
}

/// Returns the lowest node of the kept blocks, or 0 if there are none.
fn lowest_node(kept: &[KeptBlock]) -> u32
    ensures { result ≡ lowest_node (numa_blocks_of kept.now) }
{
    let [first, others @ ..] = kept else {
        return 0;
    };
    let mut lowest = first.block.value;
    for other in others {
        lowest = lowest.min(other.block.value);
    }
    lowest
}
