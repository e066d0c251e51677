//! Selects the blocks of the SRAT that are kept: those that contain a byte of memory after both
//! ends have been rounded down to frames (`numa_cleanup_meminfo` cuts blocks to memory and removes
//! empty ones). Also finds blocks of different nodes that overlap.

ghost use Rattle.std.specs.Prelude.{◌≡◌, ◌↔◌, ℕ, ◌+◌, ◌++◌, ◌^◌, ◌<◌, ◌≤◌, None, IsTrue, OnOk, IfOk, length, option_map, find};
ghost use Rattle.address_runs.specs.Runs.{AreRuns, IsRunsOf, run_end, value_at};
ghost use Rattle.srat_nodes.specs.Kept.{numa_blocks_of, round_ends_down, keep_block, block_in_frames, keep_blocks, is_any_kept, count_with_addresses, nodes_overlap, first_overlap};
ghost use Rattle.srat_nodes.specs.Steps.{EndInSpace, is_in_runs};
ghost use Rattle.srat_nodes.specs.NodeAt.{block_meets};

use crate::domains::node_of_domain;
use crate::memory::meets_memory;
use address_runs::RunOf;
use bm_base::{FRAME_SIZE, Memory, Range, round_down};
use run_edits::has_value_throughout;
use srat_reader::SratBlock;
use std::alloc::Global;

/// A range of addresses and its node. Nodes are numbered from 0.
pub type NodeRange = RunOf<u32>;

/// Tests whether the two ranges share an address.
pub fn runs_overlap(first: &NodeRange, second: &NodeRange) -> bool
    ensures { result ≡ block_meets first.now.base (run_end first.now) second.now }
{
    let from = first.range.base.max(second.range.base);
    let to = first.range.end().min(second.range.end());
    from < to
}

/// A block of the SRAT that is kept, since it contains a byte of memory after its ends have been
/// rounded down to frames.
#[derive(Clone, Copy, Debug, PartialEq, Eq)]
pub struct KeptBlock {
    /// The index of the block among all enabled memory blocks of the table, kept or not, counted
    /// from 0.
    pub number: u32,
    /// The range of the block, with both ends rounded down to frames, and its node.
    pub block: NodeRange,
}

/// Returns the range with its base and its end rounded down to multiples of 4,096.
fn round_ends_down(range: &Range) -> Range
    ensures { result ≡ round_ends_down range.now }
{
    let base = round_down(range.base, FRAME_SIZE);
    let end = round_down(range.end(), FRAME_SIZE);
    Range {
        base,
        size: end - base,
    }
}

/// Tests whether any block of the table contains a byte of memory after its ends have been rounded
/// down to frames. `memory` has the runs of memory.
pub fn is_any_kept(memory: &Vec<RunOf<bool>>, blocks: &[SratBlock]) -> bool
    requires { AreRuns memory.now.items }
    ensures { result ≡ is_any_kept (is_in_runs memory.now.items) blocks.now }
{
    for block in blocks {
        if meets_memory(memory, &round_ends_down(&block.range)) {
            return true;
        }
    }
    false
}

/// Returns the number of blocks of the table whose size isn't 0, before any rounding.
pub fn count_with_addresses(blocks: &[SratBlock]) -> usize
    ensures { result ≡ count_with_addresses blocks.now }
{
    blocks.iter().filter(|block| block.range.size > 0).count()
}

/// Returns the blocks that contain a byte of memory after their ends have been rounded down to
/// frames, in the order of the table. `memory` has the runs of memory, and `domains` the domain of
/// each node. There must be fewer than 2^32 blocks.
///
/// # Errors
///
/// - `Memory`: the program ran out of memory.
pub fn keep_blocks(
    alloc: Global,
    memory: &Vec<RunOf<bool>>,
    domains: &[u32],
    blocks: &[SratBlock],
) -> Result<Vec<KeptBlock>, Memory>
    requires memory { AreRuns memory.now.items }
    requires nodes { length domains.now ≤ 1024 }
    requires few { length blocks.now < 2 ^ 32 }
    ensures value { IfOk result (λ kept.
        kept.items ≡ keep_blocks (is_in_runs memory.now.items) domains.now blocks.now) }
    ensures space { IfOk result (λ kept. EndInSpace (numa_blocks_of kept.items)) }
{
    let mut kept = Vec::new(alloc);
    for (index, block) in blocks.iter().enumerate() {
        let block = block_in_frames(domains, block);
        keep_block(&mut kept, memory, index as u32, block)?;
    }
    Ok(kept)
}

/// Appends the block, with its number, to `kept` if it contains a byte of memory.
///
/// # Errors
///
/// - `Memory`: the program ran out of memory.
fn keep_block(
    kept: &mut Vec<KeptBlock>,
    memory: &Vec<RunOf<bool>>,
    number: u32,
    block: NodeRange,
) -> Result<(), Memory>
    requires { AreRuns memory.now.items }
    ensures { OnOk result
        (kept.new.items ≡ kept.old.items ++ keep_block (is_in_runs memory.now.items) number block) }
{
    if meets_memory(memory, &block.range) {
        kept.push(KeptBlock { number, block })?;
    }
    Ok(())
}

/// Returns the range of the block with both ends rounded down to frames, and the node of the
/// block's domain. `domains` has the domain of each node.
fn block_in_frames(domains: &[u32], block: &SratBlock) -> NodeRange
    requires { length domains.now ≤ 1024 }
    ensures value { result ≡ block_in_frames domains.now block.now }
    ensures space { run_end result < 2 ^ 64 }
{
    RunOf {
        range: round_ends_down(&block.range),
        value: node_of_domain(domains, block.domain),
    }
}

/// Returns the numbers of two kept blocks of different nodes that share an address, or `None` if
/// there are no such blocks. Of several pairs it returns the one with the least first number, and
/// of these the one with the least second number. `laid` has the runs of the overlaid blocks, by
/// which one look-up for each block finds out whether any two overlap.
pub fn first_overlap(kept: &[KeptBlock], laid: &Vec<NodeRange>) -> Option<(u32, u32)>
    requires { IsRunsOf (value_at (numa_blocks_of kept.now)) laid.now.items }
    ensures { result ≡ first_overlap kept.now }
{
    if are_apart(kept, laid) {
        return None;
    }
    first_pair(kept)
}

/// Tests whether no two blocks of different nodes share an address. This is so exactly if each
/// address of each block has that block's node in `laid`, the runs of the overlaid blocks. One
/// look-up for each block is therefore enough.
fn are_apart(kept: &[KeptBlock], laid: &Vec<NodeRange>) -> bool
    requires { IsRunsOf (value_at (numa_blocks_of kept.now)) laid.now.items }
    ensures { IsTrue result ↔ (first_overlap kept.now ≡ None) }
{
    for one in kept {
        if !has_value_throughout(laid, &one.block.range, one.block.value) {
            return false;
        }
    }
    true
}

/// Returns the numbers of two kept blocks of different nodes that share an address, or `None` if
/// there are no such blocks. Of several pairs it returns the one with the least first number, and
/// of these the one with the least second number. Compares each pair of blocks.
fn first_pair(kept: &[KeptBlock]) -> Option<(u32, u32)>
    ensures { result ≡ first_overlap kept.now }
{
    let mut rest = kept;
    while let [block, others @ ..] = rest {
        if let Some(number) = overlapping(block, others) {
            return Some((block.number, number));
        }
        rest = others;
    }
    None
}

/// Returns the number of the first member of `others` that has another node than `block` and shares
/// an address with it, or `None` if there is no such member.
fn overlapping(block: &KeptBlock, others: &[KeptBlock]) -> Option<u32>
    ensures { result ≡ option_map (λ other. other.number) (find
        (nodes_overlap block.now) others.now) }
{
    for other in others {
        if nodes_overlap(block, other) {
            return Some(other.number);
        }
    }
    None
}

/// Tests whether two blocks have different nodes and share an address.
fn nodes_overlap(block: &KeptBlock, other: &KeptBlock) -> bool
    ensures { result ≡ nodes_overlap block.now other.now }
{
    block.block.value != other.block.value && runs_overlap(&block.block, &other.block)
}
