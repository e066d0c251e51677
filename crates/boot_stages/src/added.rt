//! Counts the bytes of the map that become memory.

ghost use Rattle.std.specs.Prelude.{◌≡◌, ◌^◌, ◌≤◌};
ghost use Rattle.address_runs.specs.Runs.{AreRuns};
ghost use Rattle.boot_model.specs.Added.{added_by_run, memory_bytes_of_map};

use e820_sanitise::{Run, is_memory};

/// Returns the number of bytes below `reach`, the limit of physical addresses, to which the map
/// gives the type RAM (1) or the kernel's own memory (128). The bytes of partial frames are
/// included (`memblock_phys_mem_size`).
pub fn memory_bytes_of_map(map: &[Run], reach: u64) -> u64
    requires runs { AreRuns map.now }
    requires reach { reach ≤ 2 ^ 52 }
    ensures sum { result ≡ memory_bytes_of_map reach map.now }
    ensures in_reach { result ≤ 2 ^ 52 }
{
    let mut added = 0;
    for run in map {
        added += added_by_run(run, reach);
    }
    added
}

/// If the run has the type RAM (1) or the kernel's own memory (128), returns the number of its
/// bytes below the address `reach`; else returns 0.
fn added_by_run(run: &Run, reach: u64) -> u64
    ensures { result ≡ added_by_run reach run.now }
{
    if is_memory(run.kind) {
        run.range.end().min(reach).saturating_sub(run.range.base)
    } else {
        0
    }
}
