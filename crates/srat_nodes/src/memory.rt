//! Memory as runs: maximal ranges of addresses that are memory, in ascending order. They are made
//! once, from ranges in any order. After that, one look-up finds out whether a range contains a
//! byte of memory.

ghost use Rattle.std.specs.Prelude.{◌≡◌, ℕ, ◌++◌, OnOk, IfOk, map};
ghost use Rattle.address_runs.specs.Runs.{AreRuns};
ghost use Rattle.srat_nodes.specs.Kept.{is_in_any_range, meets_memory, NoMemoryIsEmpty};
ghost use Rattle.srat_nodes.specs.Steps.{run_without_node, is_in_runs};

use address_runs::{RunOf, overlay_all};
use bm_base::{Memory, Range};
use run_edits::first_ending_above;
use std::alloc::Global;

/// Returns the runs of memory, maximal ranges of addresses that are in a range of `memory`, in
/// ascending order. Their value is `false`, which means that they have no node yet. No range may be
/// empty.
///
/// # Errors
///
/// - `Memory`: the program ran out of memory.
pub fn memory_runs(alloc: Global, memory: &[Range]) -> Result<Vec<RunOf<bool>>, Memory>
    requires { NoMemoryIsEmpty memory.now }
    ensures runs { IfOk result (λ runs. AreRuns runs.items) }
    ensures bytes { IfOk result (λ runs. (x : ℕ)
        → is_in_runs runs.items x ≡ is_in_any_range memory.now x) }
{
    let mut told = Vec::new(alloc);
    push_uncovered_memory(&mut told, memory)?;
    overlay_all(alloc, &told)
}

/// Appends each range of `memory` to the list `told`, with the value `false`, which means that it
/// has no node yet.
///
/// # Errors
///
/// - `Memory`: the program ran out of memory.
pub fn push_uncovered_memory(told: &mut Vec<RunOf<bool>>, memory: &[Range]) -> Result<(), Memory>
    ensures { OnOk result (told.new.items ≡ told.old.items ++ map run_without_node memory.now) }
{
    for part in memory {
        let range = Range {
            base: part.base,
            size: part.size,
        };
        told.push(RunOf {
            range,
            value: false,
        })?;
    }
    Ok(())
}

/// Tests whether some byte of the range is memory. `memory` has the runs of memory. Looks at one of
/// them: the first that ends above the start of the range.
pub fn meets_memory(memory: &Vec<RunOf<bool>>, range: &Range) -> bool
    requires { AreRuns memory.now.items }
    ensures { result ≡ meets_memory (is_in_runs memory.now.items) range.now }
{
    let first = first_ending_above(memory, range.base) as usize;
    if first >= memory.len() {
        return false;
    }
    let run = memory[first];
    run.range.overlaps(range)
}
