//! Finds the memory to which the blocks give no node, and counts its frames. The kernel instead
//! subtracts the frames with a node from those of its map (`numa_meminfo_cover_memory`).

ghost use Rattle.std.specs.Prelude.{◌≡◌, ℕ, ◌+◌, ◌-◌, ◌^◌, ◌<◌, ◌≤◌, ◌++◌, [], ◌∷◌, if◌then◌else◌, OnOk, IfOk, map};
ghost use Rattle.address_runs.specs.Runs.{AreRuns, IsRunsOf, run_end, value_at};
ghost use Rattle.srat_nodes.specs.SratNodesView.{node_if_uncovered, count_frames_with_node};
ghost use Rattle.srat_nodes.specs.Kept.{is_in_any_range, NoMemoryIsEmpty};
ghost use Rattle.srat_nodes.specs.Steps.{run_without_node, run_with_node, uncovered_runs_with_node, run_of_node, count_frames_below, EndInSpace};

use crate::kept::NodeRange;
use crate::memory::push_uncovered_memory;
use address_runs::{RunOf, overlay_all};
use bm_base::{FRAME_SIZE, Memory, Range};
use std::alloc::Global;

/// Returns the addresses that are in `memory` but in no run of `joined`, as runs in ascending
/// order, each with the value `node`. No range of `memory` may be empty.
///
/// # Errors
///
/// - `Memory`: the program ran out of memory.
pub fn uncovered_runs(
    alloc: Global,
    memory: &[Range],
    joined: &[NodeRange],
    node: u32,
) -> Result<Vec<NodeRange>, Memory>
    requires memory { NoMemoryIsEmpty memory.now }
    requires joined { AreRuns joined.now }
    ensures runs { IfOk result (λ rest. IsRunsOf
        (node_if_uncovered (is_in_any_range memory.now) (value_at joined.now) node) rest.items) }
    ensures space { IfOk result (λ rest. EndInSpace rest.items) }
{
    let told = mark_covered(alloc, memory, joined)?;
    let covered = overlay_all(alloc, &told)?;
    uncovered_runs_with_node(alloc, &covered, node)
}

/// Returns the runs of `joined`, which have a node, each with the value `true`; and after them the
/// ranges of `memory`, each with the value `false`. In an overlay of this list, the first run that
/// contains an address decides.
///
/// # Errors
///
/// - `Memory`: the program ran out of memory.
fn mark_covered(
    alloc: Global,
    memory: &[Range],
    joined: &[NodeRange],
) -> Result<Vec<RunOf<bool>>, Memory>
    ensures { IfOk result (λ told.
        told.items ≡ map run_with_node joined.now ++ map run_without_node memory.now) }
{
    let mut told = Vec::new(alloc);
    mark_with_nodes(&mut told, joined)?;
    push_uncovered_memory(&mut told, memory)?;
    Ok(told)
}

/// Appends the range of each run of `joined` to the list `told`, with the value `true`, which means
/// that it has a node.
///
/// # Errors
///
/// - `Memory`: the program ran out of memory.
fn mark_with_nodes(told: &mut Vec<RunOf<bool>>, joined: &[NodeRange]) -> Result<(), Memory>
    ensures { OnOk result (told.new.items ≡ told.old.items ++ map run_with_node joined.now) }
{
    for run in joined {
        told.push(RunOf {
            range: run.range,
            value: true,
        })?;
    }
    Ok(())
}

/// Returns the runs of `covered` with the value `false`, which have no node; each gets the value
/// `node`.
///
/// # Errors
///
/// - `Memory`: the program ran out of memory.
fn uncovered_runs_with_node(
    alloc: Global,
    covered: &[RunOf<bool>],
    node: u32,
) -> Result<Vec<NodeRange>, Memory>
    ensures value { IfOk result (λ rest. rest.items ≡ uncovered_runs_with_node node covered.now) }
    ensures space { IfOk result (λ rest. EndInSpace rest.items) }
{
    let mut rest = Vec::new(alloc);
    for run in covered {
        push_run_if_uncovered(&mut rest, run, node)?;
    }
    Ok(rest)
}

/// Appends the range of the run with the value `node`, unless the run's value is `true`, which
/// means that it already has a node.
///
/// # Errors
///
/// - `Memory`: the program ran out of memory.
fn push_run_if_uncovered(
    rest: &mut Vec<NodeRange>,
    run: &RunOf<bool>,
    node: u32,
) -> Result<(), Memory>
    ensures value { OnOk result (rest.new.items ≡
        (if run.now.value then rest.old.items else rest.old.items
        ++ run_of_node node run.now ∷ [])) }
    ensures space { run_end run.now < 2 ^ 64 }
{
    if !run.value {
        rest.push(RunOf {
            range: run.range,
            value: node,
        })?;
    }
    Ok(())
}

/// Returns the number of frames of 4,096 bytes whose first address lies in one of the runs.
pub fn count_frames(runs: &[NodeRange]) -> u64
    requires { AreRuns runs.now }
    ensures { result ≡ count_frames_with_node (value_at runs.now) }
{
    let mut frames = 0;
    let mut rest = runs;
    while let [run, others @ ..] = rest {
        frames += count_frames_of_run(run);
        rest = others;
    }
    frames
}

/// Returns the number of frames of 4,096 bytes whose first address lies in the run.
fn count_frames_of_run(run: &NodeRange) -> u64
    ensures value { result
        ≡ count_frames_below (run_end run.now) - count_frames_below run.now.base }
    ensures space { run_end run.now < 2 ^ 64 }
{
    let end = run.range.end();
    end.div_ceil(FRAME_SIZE) - run.range.base.div_ceil(FRAME_SIZE)
}
