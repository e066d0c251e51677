//! The results of a boot as values, by a profile: the crash area, memory, the nodes, the zones and
//! the free blocks.
//!
//! Each export takes the number of a profile, and words and files as `bootmem_run_as` does. It
//! returns the exit status that `bootmem_run_as` returns for them, unless one of the two calls runs
//! out of memory. An export ignores which reports the words ask for.

ghost use Rattle.std.specs.Prelude.{◌≡◌, ◌≢◌, ◌⊎◌, [], None, Err, IfOk, IfErr, IsNone};
ghost use Rattle.boot_model.specs.Boot.{BootedView};
ghost use Rattle.bootmem_c.specs.Boots.{HasOutcomeReason, IsBootAs};
ghost use Rattle.bootmem_c.specs.Call.{outcome_as, outcome_status};
ghost use Rattle.bootmem_c.specs.Profiles.{profile_of_number};
ghost use Rattle.bootmem_c.specs.Values.{CopiesValues, crash_outcome_value, block_values, memory_values, node_values, crash_parts_value, zone_values};
ghost use Rattle.program_end.specs.declared.failure.NoResult.TheVariants as errors;
ghost use Rattle.program_end.specs.declared.failure.Reason.TheVariants as reasons;

use crate::boots::boot_lent_files;
use crate::crossing::{Bytes, File};
use crate::values::{
    CrashArea, FreeBlock, FreeBlocks, MemoryNode, MemoryNodes, MemoryRange, MemoryRanges, ZoneSpan,
    ZoneSpans, block_values, copy_values, memory_values, node_values, zone_values,
};
use program_run::NoReport;
use std::alloc::Global;

/// Boots by the profile of this number with these words and files, and writes the crash area to
/// `out`: the area itself, the second one below 4 GiB that an area at or above 4 GiB gets
/// (`reserve_crashkernel_low`), and why there is or isn't an area. Base and size are 0 for an area
/// that isn't reserved. Returns the exit status: that of the outcome, or 7 if out of memory; 2 if
/// there is no such profile. With a status other than 0, every number in `out` is 0.
#[unsafe(no_mangle)]
pub extern "C" fn bootmem_crash_as(
    alloc: Global,
    profile: u32,
    words: &[Bytes<'_>],
    files: &[File<'_>],
    out: &mut CrashArea,
) -> u8
    ensures status { (result ≡ outcome_status (outcome_as profile words.now files.now)) ⊎ (result
        ≡ 7) }
    ensures area { result ≡ 0 → (booted : BootedView)
        × IsBootAs profile words.now files.now booted
        × (out.new ≡ crash_outcome_value booted.crash) }
    ensures none { result ≢ 0 → out.new ≡ crash_parts_value 0 None None }
    ensures unknown { IsNone (profile_of_number profile) → result ≡ 2 }
{
    match boot_lent_files(alloc, profile, words, files) {
        Ok(booted) => {
            *out = CrashArea::crash_area_value(&booted.crash);
            0
        }
        Err(failure) => {
            *out = CrashArea::none(0);
            failure.status()
        }
    }
}

/// Boots by the profile of this number with these words and files. Writes the records of the memory
/// table to `out` in ascending order, as many as its buffer has room for, and sets `out.count` to
/// the number of all records. Returns the exit status: that of the outcome, or 7 if out of memory;
/// 2 if there is no such profile. With a status other than 0, `out.count` is 0 and the buffer is
/// unchanged.
#[unsafe(no_mangle)]
pub extern "C" fn bootmem_memory_as(
    alloc: Global,
    profile: u32,
    words: &[Bytes<'_>],
    files: &[File<'_>],
    out: &mut MemoryRanges<'_>,
) -> u8
    ensures status { (result ≡ outcome_status (outcome_as profile words.now files.now)) ⊎ (result
        ≡ 7) }
    ensures memory { result ≡ 0 → (booted : BootedView)
        × IsBootAs profile words.now files.now booted
        × CopiesValues (memory_values booted) out.old.room.now out.new.room.now out.new.count }
    ensures none { result ≢ 0 → CopiesValues [] out.old.room.now out.new.room.now out.new.count }
    ensures unknown { IsNone (profile_of_number profile) → result ≡ 2 }
{
    match boot_for_memory(alloc, profile, words, files) {
        Ok(ranges) => {
            out.count = copy_values(&ranges, out.room);
            0
        }
        Err(failure) => {
            out.count = 0;
            failure.status()
        }
    }
}

/// Boots by the profile of this number with these words and files. Writes the nodes that have
/// memory to `out` in ascending order, as many as its buffer has room for, and sets `out.count` to
/// the number of all such nodes. Returns the exit status: that of the outcome, or 7 if out of
/// memory; 2 if there is no such profile. With a status other than 0, `out.count` is 0 and the
/// buffer is unchanged.
#[unsafe(no_mangle)]
pub extern "C" fn bootmem_nodes_as(
    alloc: Global,
    profile: u32,
    words: &[Bytes<'_>],
    files: &[File<'_>],
    out: &mut MemoryNodes<'_>,
) -> u8
    ensures status { (result ≡ outcome_status (outcome_as profile words.now files.now)) ⊎ (result
        ≡ 7) }
    ensures nodes { result ≡ 0 → (booted : BootedView)
        × IsBootAs profile words.now files.now booted
        × CopiesValues (node_values booted) out.old.room.now out.new.room.now out.new.count }
    ensures none { result ≢ 0 → CopiesValues [] out.old.room.now out.new.room.now out.new.count }
    ensures unknown { IsNone (profile_of_number profile) → result ≡ 2 }
{
    match boot_for_nodes(alloc, profile, words, files) {
        Ok(nodes) => {
            out.count = copy_values(&nodes, out.room);
            0
        }
        Err(failure) => {
            out.count = 0;
            failure.status()
        }
    }
}

/// Boots by the profile of this number with these words and files. Writes the frames that each node
/// spans in each zone to `out`, by node and then by zone, as many as its buffer has room for, and
/// sets `out.count` to the number of all such spans. Returns the exit status: that of the outcome,
/// or 7 if out of memory; 2 if there is no such profile. With a status other than 0, `out.count` is
/// 0 and the buffer is unchanged.
#[unsafe(no_mangle)]
pub extern "C" fn bootmem_zones_as(
    alloc: Global,
    profile: u32,
    words: &[Bytes<'_>],
    files: &[File<'_>],
    out: &mut ZoneSpans<'_>,
) -> u8
    ensures status { (result ≡ outcome_status (outcome_as profile words.now files.now)) ⊎ (result
        ≡ 7) }
    ensures zones { result ≡ 0 → (booted : BootedView)
        × IsBootAs profile words.now files.now booted
        × CopiesValues (zone_values booted) out.old.room.now out.new.room.now out.new.count }
    ensures none { result ≢ 0 → CopiesValues [] out.old.room.now out.new.room.now out.new.count }
    ensures unknown { IsNone (profile_of_number profile) → result ≡ 2 }
{
    match boot_for_zones(alloc, profile, words, files) {
        Ok(zones) => {
            out.count = copy_values(&zones, out.room);
            0
        }
        Err(failure) => {
            out.count = 0;
            failure.status()
        }
    }
}

/// Boots by the profile of this number with these words and files. Writes the free blocks after the
/// handover to `out`, ascending by their first frames, as many as its buffer has room for, and sets
/// `out.count` to the number of all blocks. Returns the exit status: that of the outcome, or 7 if
/// out of memory; 2 if there is no such profile. With a status other than 0, `out.count` is 0 and
/// the buffer is unchanged.
#[unsafe(no_mangle)]
pub extern "C" fn bootmem_blocks_as(
    alloc: Global,
    profile: u32,
    words: &[Bytes<'_>],
    files: &[File<'_>],
    out: &mut FreeBlocks<'_>,
) -> u8
    ensures status { (result ≡ outcome_status (outcome_as profile words.now files.now)) ⊎ (result
        ≡ 7) }
    ensures blocks { result ≡ 0 → (booted : BootedView)
        × IsBootAs profile words.now files.now booted
        × CopiesValues (block_values booted) out.old.room.now out.new.room.now out.new.count }
    ensures none { result ≢ 0 → CopiesValues [] out.old.room.now out.new.room.now out.new.count }
    ensures unknown { IsNone (profile_of_number profile) → result ≡ 2 }
{
    match boot_for_blocks(alloc, profile, words, files) {
        Ok(blocks) => {
            out.count = copy_values(&blocks, out.room);
            0
        }
        Err(failure) => {
            out.count = 0;
            failure.status()
        }
    }
}

/// Returns the records of the memory table after the boot by the profile of this number. Errors are
/// those of [`boot_lent_files`].
fn boot_for_memory(
    alloc: Global,
    profile: u32,
    words: &[Bytes<'_>],
    files: &[File<'_>],
) -> Result<Vec<MemoryRange>, NoReport>
    ensures memory { IfOk result (λ ranges. (booted : BootedView)
        × IsBootAs profile words.now files.now booted
        × (ranges.items ≡ memory_values booted)) }
    ensures fails { IfErr result (λ failure. HasOutcomeReason failure (outcome_as profile words.now
        files.now)) }
    ensures unknown { IsNone (profile_of_number profile)
        → result ≡ Err (errors.Reason reasons.Usage) }
{
    let booted = boot_lent_files(alloc, profile, words, files)?;
    Ok(memory_values(alloc, &booted.store, &booted.heads.memory)?)
}

/// Returns the nodes with memory of the boot by the profile of this number. Errors are those of
/// [`boot_lent_files`].
fn boot_for_nodes(
    alloc: Global,
    profile: u32,
    words: &[Bytes<'_>],
    files: &[File<'_>],
) -> Result<Vec<MemoryNode>, NoReport>
    ensures nodes { IfOk result (λ nodes. (booted : BootedView)
        × IsBootAs profile words.now files.now booted
        × (nodes.items ≡ node_values booted)) }
    ensures fails { IfErr result (λ failure. HasOutcomeReason failure (outcome_as profile words.now
        files.now)) }
    ensures unknown { IsNone (profile_of_number profile)
        → result ≡ Err (errors.Reason reasons.Usage) }
{
    let booted = boot_lent_files(alloc, profile, words, files)?;
    Ok(node_values(alloc, &booted.nodes)?)
}

/// Returns the spans of the boot by the profile of this number. Errors are those of
/// [`boot_lent_files`].
fn boot_for_zones(
    alloc: Global,
    profile: u32,
    words: &[Bytes<'_>],
    files: &[File<'_>],
) -> Result<Vec<ZoneSpan>, NoReport>
    ensures zones { IfOk result (λ zones. (booted : BootedView)
        × IsBootAs profile words.now files.now booted
        × (zones.items ≡ zone_values booted)) }
    ensures fails { IfErr result (λ failure. HasOutcomeReason failure (outcome_as profile words.now
        files.now)) }
    ensures unknown { IsNone (profile_of_number profile)
        → result ≡ Err (errors.Reason reasons.Usage) }
{
    let booted = boot_lent_files(alloc, profile, words, files)?;
    Ok(zone_values(alloc, &booted.spans)?)
}

/// Returns the free blocks of the boot by the profile of this number. Errors are those of
/// [`boot_lent_files`].
fn boot_for_blocks(
    alloc: Global,
    profile: u32,
    words: &[Bytes<'_>],
    files: &[File<'_>],
) -> Result<Vec<FreeBlock>, NoReport>
    ensures blocks { IfOk result (λ blocks. (booted : BootedView)
        × IsBootAs profile words.now files.now booted
        × (blocks.items ≡ block_values booted)) }
    ensures fails { IfErr result (λ failure. HasOutcomeReason failure (outcome_as profile words.now
        files.now)) }
    ensures unknown { IsNone (profile_of_number profile)
        → result ≡ Err (errors.Reason reasons.Usage) }
{
    let booted = boot_lent_files(alloc, profile, words, files)?;
    let blocks = booted.buddy.blocks()?;
    Ok(block_values(alloc, &blocks)?)
}
