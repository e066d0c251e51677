//! Joins the blocks of each node. Two blocks of a node are joined, also across a gap, if no address
//! from the start of the lower to the end of the upper is in a block of another node
//! (`numa_cleanup_meminfo`). If no two blocks of different nodes overlap, overlaying the blocks
//! gives runs, and comparing neighbouring runs is enough.

ghost use Rattle.std.specs.Prelude.{◌≡◌, ℕ, ◌+◌, ◌-◌, ◌<◌, ◌≤◌, OnOk, IfOk, reverse};
ghost use Rattle.address_runs.specs.Overlay.{HaveAddresses};
ghost use Rattle.address_runs.specs.Runs.{AreRuns, IsRunsOf, run_end, value_at};
ghost use Rattle.srat_nodes.specs.Kept.{numa_blocks_of};
ghost use Rattle.srat_nodes.specs.Steps.{fill_gaps, prepend_joined};

use crate::kept::{KeptBlock, NodeRange};
use address_runs::{RunOf, overlay_all};
use bm_base::{Memory, Range};
use std::alloc::Global;

/// Returns the runs of the blocks, in ascending order: maximal ranges of addresses that lie in
/// blocks of one node. An address in several blocks gets the node of the first one. No block may be
/// empty.
///
/// # Errors
///
/// - `Memory`: the program ran out of memory.
pub fn overlay_blocks(alloc: Global, kept: &[KeptBlock]) -> Result<Vec<NodeRange>, Memory>
    requires { HaveAddresses (numa_blocks_of kept.now) }
    ensures { IfOk result (λ laid. IsRunsOf (value_at (numa_blocks_of kept.now)) laid.items) }
{
    let blocks = numa_blocks_of(alloc, kept)?;
    overlay_all(alloc, &blocks)
}

/// Returns the range and the node of each block, without the block's number in the table.
///
/// # Errors
///
/// - `Memory`: the program ran out of memory.
fn numa_blocks_of(alloc: Global, kept: &[KeptBlock]) -> Result<Vec<NodeRange>, Memory>
    ensures { IfOk result (λ blocks. blocks.items ≡ numa_blocks_of kept.now) }
{
    let mut blocks = Vec::new(alloc);
    for one in kept {
        blocks.push(one.block)?;
    }
    Ok(blocks)
}

/// Joins neighbouring runs of one node to a single run, which then covers the gap between them too.
/// If `runs` is the result of `overlay_blocks`, and no two blocks of different nodes overlap, the
/// joined runs give each address its node (`node_at`).
///
/// # Errors
///
/// - `Memory`: the program ran out of memory.
pub fn fill_gaps(alloc: Global, runs: &[NodeRange]) -> Result<Vec<NodeRange>, Memory>
    requires { AreRuns runs.now }
    ensures { IfOk result (λ joined. joined.items ≡ fill_gaps runs.now) }
{
    let mut joined = Vec::new(alloc);
    let mut rest = runs;
    while let [others @ .., run] = rest {
        prepend_joined(&mut joined, *run)?;
        rest = others;
    }
    joined.reverse();
    Ok(joined)
}

/// Adds a run that lies below the runs in `joined`. If the next run above has the same node, the
/// two become one run, which covers the gap between them too. `joined` is in descending order, so
/// the next run above is its last member.
///
/// # Errors
///
/// - `Memory`: the program ran out of memory.
fn prepend_joined(joined: &mut Vec<NodeRange>, run: NodeRange) -> Result<(), Memory>
    ensures { OnOk result
        (joined.new.items ≡ reverse (prepend_joined run (reverse joined.old.items))) }
{
    let Some(next) = joined.pop() else {
        joined.push(run)?;
        return Ok(());
    };
    if next.value == run.value {
        joined.push(spanning_run(&run, &next))?;
    } else {
        joined.push(next)?;
        joined.push(run)?;
    }
    Ok(())
}

/// Returns the run from the start of `run` to the end of `next`, with the node of `run`. `next`
/// must lie above `run` and have the same node.
fn spanning_run(run: &NodeRange, next: &NodeRange) -> NodeRange
    ensures { result ≡ record {
      base = run.now.base;
      size = run_end next.now - run.now.base;
      value
          = run.now.value;
    } }
{
    let base = run.range.base;
    let size = next.range.end().saturating_sub(base);
    RunOf {
        range: Range { base, size },
        value: run.value,
    }
}
