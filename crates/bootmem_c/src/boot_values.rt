//! The exports that boot and return what the boot made as values: the memory map, the crash area,
//! memblock's memory, the nodes, the zones or the free blocks.
//!
//! `words` are the words of the command line of `bootmem` after the program's name, and `files`
//! are the files that they may name. Each export returns the exit status that `bootmem_run`
//! returns for the same words and files, unless one of the two calls runs out of memory. It
//! ignores which reports the words ask for.
//!
//! Each boot has `bootmem`'s own profile. `values_by_profile` has the same calls with a profile.
//! There is none for the map, since each profile gives the same map
//! ([`map_is_the_same_by_each_profile`](crate::profile::map_is_the_same_by_each_profile)).

ghost use Rattle.std.specs.Prelude.{◌≡◌, ◌≢◌, ◌⊎◌, [], None, IfOk, IfErr};
ghost use Rattle.bm_io.specs.MemFiles.{file_bytes};
ghost use Rattle.boot_model.specs.Boot.{BootedView};
ghost use Rattle.bootmem_c.specs.Boots.{HasOutcomeReason, IsBoot};
ghost use Rattle.bootmem_c.specs.Call.{read_lent_args, outcome_of, outcome_status};
ghost use Rattle.bootmem_c.specs.Lent.{lent_files, lent_words};
ghost use Rattle.bootmem_c.specs.Values.{CopiesValues, crash_outcome_value, block_values, map_values, memory_values, node_values, crash_parts_value, zone_values};

use crate::boots::boot_lent_files;
use crate::crossing::{Bytes, File};
use crate::profile::OWN;
use crate::values::{
    CrashArea, FreeBlocks, MapRun, MapRuns, MemoryNodes, MemoryRanges, ZoneSpans, copy_values,
    map_values,
};
use crate::values_by_profile::{
    bootmem_blocks_as, bootmem_crash_as, bootmem_memory_as, bootmem_nodes_as, bootmem_zones_as,
};
use program_run::NoReport;
use std::alloc::Global;

/// Boots with these words and files, and writes the runs of the boot's memory map to `out.room` in
/// ascending order, as many as fit. Sets `out.count` to the number of all runs. Returns 0, or the
/// status with which `bootmem` fails for these words and files: 2, 3, 5, 6, or 7 if out of memory.
/// After a failure `out.count` is 0 and the buffer is unchanged.
#[unsafe(no_mangle)]
pub extern "C" fn bootmem_map(
    alloc: Global,
    words: &[Bytes<'_>],
    files: &[File<'_>],
    out: &mut MapRuns<'_>,
) -> u8
    ensures status { (result ≡ outcome_status (outcome_of words.now files.now)) ⊎ (result ≡ 7) }
    ensures runs { result ≡ 0 → (booted : BootedView)
        × IsBoot (read_lent_args (lent_words words.now)) (file_bytes (lent_files files.now)) booted
        × CopiesValues (map_values booted) out.old.room.now out.new.room.now out.new.count }
    ensures none { result ≢ 0 → CopiesValues [] out.old.room.now out.new.room.now out.new.count }
{
    match boot_for_map(alloc, words, files) {
        Ok(runs) => {
            out.count = copy_values(&runs, out.room);
            0
        }
        Err(failure) => {
            out.count = 0;
            failure.status()
        }
    }
}

/// Boots with these words and files, and writes the crash area to `out`: the area itself, its low
/// part below 4 GiB, which an area at or above 4 GiB gets (`reserve_crashkernel_low`), and why
/// there is or isn't an area. Base and size are 0 for an area that isn't reserved. Returns 0, or
/// the status with which `bootmem` fails for these words and files: 2, 3, 5, 6, or 7 if out of
/// memory. After a failure every number in `out` is 0.
#[unsafe(no_mangle)]
pub extern "C" fn bootmem_crash(
    alloc: Global,
    words: &[Bytes<'_>],
    files: &[File<'_>],
    out: &mut CrashArea,
) -> u8
    ensures status { (result ≡ outcome_status (outcome_of words.now files.now)) ⊎ (result ≡ 7) }
    ensures area { result ≡ 0 → (booted : BootedView)
        × IsBoot (read_lent_args (lent_words words.now)) (file_bytes (lent_files files.now)) booted
        × (out.new ≡ crash_outcome_value booted.crash) }
    ensures none { result ≢ 0 → out.new ≡ crash_parts_value 0 None None }
{
    bootmem_crash_as(alloc, OWN, words, files, out)
}

/// Boots with these words and files, and writes the free blocks of the page allocator after the
/// handover to `out.room`, ascending by their first frames, as many as fit. Sets `out.count` to
/// the number of all blocks. Returns 0, or the status with which `bootmem` fails for these words
/// and files: 2, 3, 5, 6, or 7 if out of memory. After a failure `out.count` is 0 and the buffer
/// is unchanged.
#[unsafe(no_mangle)]
pub extern "C" fn bootmem_blocks(
    alloc: Global,
    words: &[Bytes<'_>],
    files: &[File<'_>],
    out: &mut FreeBlocks<'_>,
) -> u8
    ensures status { (result ≡ outcome_status (outcome_of words.now files.now)) ⊎ (result ≡ 7) }
    ensures blocks { result ≡ 0 → (booted : BootedView)
        × IsBoot (read_lent_args (lent_words words.now)) (file_bytes (lent_files files.now)) booted
        × CopiesValues (block_values booted) out.old.room.now out.new.room.now out.new.count }
    ensures none { result ≢ 0 → CopiesValues [] out.old.room.now out.new.room.now out.new.count }
{
    bootmem_blocks_as(alloc, OWN, words, files, out)
}

/// Boots with these words and files, and writes the range of frames that each node spans in each
/// zone to `out.room`, by node and then by zone, as many ranges as fit. Sets `out.count` to the
/// number of all ranges. Returns 0, or the status with which `bootmem` fails for these words and
/// files: 2, 3, 5, 6, or 7 if out of memory. After a failure `out.count` is 0 and the buffer is
/// unchanged.
#[unsafe(no_mangle)]
pub extern "C" fn bootmem_zones(
    alloc: Global,
    words: &[Bytes<'_>],
    files: &[File<'_>],
    out: &mut ZoneSpans<'_>,
) -> u8
    ensures status { (result ≡ outcome_status (outcome_of words.now files.now)) ⊎ (result ≡ 7) }
    ensures zones { result ≡ 0 → (booted : BootedView)
        × IsBoot (read_lent_args (lent_words words.now)) (file_bytes (lent_files files.now)) booted
        × CopiesValues (zone_values booted) out.old.room.now out.new.room.now out.new.count }
    ensures none { result ≢ 0 → CopiesValues [] out.old.room.now out.new.room.now out.new.count }
{
    bootmem_zones_as(alloc, OWN, words, files, out)
}

/// Boots with these words and files, and writes the records of memblock's memory table
/// (`memblock.memory`) to `out.room` in ascending order, as many as fit. Sets `out.count` to the
/// number of all records. Returns 0, or the status with which `bootmem` fails for these words and
/// files: 2, 3, 5, 6, or 7 if out of memory. After a failure `out.count` is 0 and the buffer is
/// unchanged.
#[unsafe(no_mangle)]
pub extern "C" fn bootmem_memory(
    alloc: Global,
    words: &[Bytes<'_>],
    files: &[File<'_>],
    out: &mut MemoryRanges<'_>,
) -> u8
    ensures status { (result ≡ outcome_status (outcome_of words.now files.now)) ⊎ (result ≡ 7) }
    ensures memory { result ≡ 0 → (booted : BootedView)
        × IsBoot (read_lent_args (lent_words words.now)) (file_bytes (lent_files files.now)) booted
        × CopiesValues (memory_values booted) out.old.room.now out.new.room.now out.new.count }
    ensures none { result ≢ 0 → CopiesValues [] out.old.room.now out.new.room.now out.new.count }
{
    bootmem_memory_as(alloc, OWN, words, files, out)
}

/// Boots with these words and files, and writes the nodes that have memory to `out.room` in
/// ascending order, as many as fit. Sets `out.count` to the number of all such nodes. Returns 0,
/// or the status with which `bootmem` fails for these words and files: 2, 3, 5, 6, or 7 if out of
/// memory. After a failure `out.count` is 0 and the buffer is unchanged.
#[unsafe(no_mangle)]
pub extern "C" fn bootmem_nodes(
    alloc: Global,
    words: &[Bytes<'_>],
    files: &[File<'_>],
    out: &mut MemoryNodes<'_>,
) -> u8
    ensures status { (result ≡ outcome_status (outcome_of words.now files.now)) ⊎ (result ≡ 7) }
    ensures nodes { result ≡ 0 → (booted : BootedView)
        × IsBoot (read_lent_args (lent_words words.now)) (file_bytes (lent_files files.now)) booted
        × CopiesValues (node_values booted) out.old.room.now out.new.room.now out.new.count }
    ensures none { result ≢ 0 → CopiesValues [] out.old.room.now out.new.room.now out.new.count }
{
    bootmem_nodes_as(alloc, OWN, words, files, out)
}

/// Boots with these words and files, and returns the runs of the boot's memory map.
///
/// # Errors
///
/// - A reason: the one for which `bootmem` has no result with these words and files.
/// - `Memory` if this program is out of memory.
fn boot_for_map(
    alloc: Global,
    words: &[Bytes<'_>],
    files: &[File<'_>],
) -> Result<Vec<MapRun>, NoReport>
    ensures runs { IfOk result (λ runs. (booted : BootedView)
        × IsBoot (read_lent_args (lent_words words.now)) (file_bytes (lent_files files.now)) booted
        × (runs.items ≡ map_values booted)) }
    ensures fails { IfErr result (λ failure. HasOutcomeReason failure (outcome_of words.now
        files.now)) }
{
    let booted = boot_lent_files(alloc, OWN, words, files)?;
    Ok(map_values(alloc, &booted.map)?)
}
