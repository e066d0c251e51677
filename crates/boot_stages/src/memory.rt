//! Makes memory from the map: makes the first claims, adds the runs that are memory, marks mirrored
//! memory, and claims the first MiB. The definition `early_items` lists the journal items (recorded
//! changes of memblock) for all of this. Each function here writes a part of that list, in its
//! order. memblock may grow its tables between two of these items.

ghost use Rattle.std.specs.Prelude.{◌≡◌, ◌-◌, ◌+◌, ◌<◌, [], min, map, IfSome, OnOk};
ghost use Rattle.std.specs.List.{All};
ghost use Rattle.address_runs.specs.Runs.{AreRuns};
ghost use Rattle.growth_model.specs.Tables.{HasFirstItem};
ghost use Rattle.stage_steps.specs.Causes.{refusal_for};
ghost use Rattle.stage_steps.specs.Steps.{EndsAsStage};
ghost use Rattle.memblock_grow.specs.Continues.{ContinuesMemblock};
ghost use Rattle.early_memory.specs.Memory.{end_of_last_run};
ghost use Rattle.early_memory.specs.FirstItems.{direction_items, early_claims, early_items, items_of_map, items_of_run, mirror_items, range_up_to};
ghost use Rattle.boot_model.specs.Boot.{early_inputs, all_mirrors};
ghost use Rattle.boot_model.specs.First.{items_with_growths};
ghost use Rattle.boot_model.specs.Mirrors.{IsMirror, frame_range_of};
ghost use Rattle.boot_model.specs.View.{inputs_view};
ghost use Rattle.boot_stages.specs.Parts.{items_before_memory, limit_items, items_for_memory_of_map};

use bm_base::Range;
use boot_journal::Owner;
use boot_model::Inputs;
use e820_model::E820_TYPE_SOFT_RESERVED;
use e820_sanitise::{Run, is_memory};
use early_memory::{ISA_END_ADDRESS, LOW_END};
use growth_model::Refusal;
use memblock_grow::{Memblock, no_items_no_change};
use memblock_model::Which;
use memblock_ranges::Tables;

/// Returns the range from address 0 up to `at`, which isn't included.
fn range_below_address(at: u64) -> Range
    ensures { result ≡ range_up_to at }
{
    Range { base: 0, size: at }
}

/// Claims the kernel's image, the first 64 KiB, and the initrd if there is one
/// (`early_reserve_memory`). These are the first calls on memblock, whose journal must be empty.
fn claim_early(memblock: &mut Memblock, kernel: Range, initrd: Option<Range>) -> Result<(), Refusal>
    requires first { memblock.old.journal.items ≡ [] }
    requires kernel { kernel ≡ memblock.old.kernel }
    requires image { 0 < kernel.size }
    requires initrd { IfSome initrd (λ range. 0 < range.size) }
    ensures ends { EndsAsStage (items_with_growths (early_claims kernel initrd)) refusal_for result
        memblock.old.journal.items memblock.new.journal.items }
    ensures begun { OnOk result (HasFirstItem memblock.new.journal.items) }
    ensures goes_on { ContinuesMemblock memblock.old memblock.new }
{
    memblock.claim(kernel, Owner::Kernel)?;
    memblock.claim(range_below_address(LOW_END), Owner::Low64K)?;
    match initrd {
        Some(range) => memblock.claim(range, Owner::Initrd),
        None => Ok(()),
    }
}

/// Claims the run (`memblock_reserve`) if firmware sets it aside for a driver
/// (`E820_TYPE_SOFT_RESERVED`). If the run is memory, adds the part of it that lies below `reach`,
/// the limit of physical addresses, unless that part is empty (`memblock_add`). Ignores all other
/// runs (`e820__memblock_setup`).
fn add_run(memblock: &mut Memblock, run: &Run, reach: u64) -> Result<(), Refusal>
    requires some { 0 < run.now.size }
    requires begun { HasFirstItem memblock.old.journal.items }
    ensures ends { EndsAsStage (items_with_growths (items_of_run reach run.now)) refusal_for result
        memblock.old.journal.items memblock.new.journal.items }
    ensures begun { HasFirstItem memblock.new.journal.items }
    ensures goes_on { ContinuesMemblock memblock.old memblock.new }
{
    no_items_no_change(memblock);
    let range = run.range;
    if run.kind == E820_TYPE_SOFT_RESERVED {
        return memblock.claim(range, Owner::Soft);
    }
    if !is_memory(run.kind) || range.base >= reach {
        return Ok(());
    }
    memblock.add_memory(below_limit(range, reach))
}

/// Returns the part of `range` that lies below `reach`. The range must begin below `reach`.
fn below_limit(range: Range, reach: u64) -> Range
    requires { range.base < reach }
    ensures { result
        ≡ record { base = range.base; size = min (range.base + range.size) reach - range.base } }
{
    if range.end() < reach {
        range
    } else {
        Range {
            base: range.base,
            size: reach - range.base,
        }
    }
}

/// Goes through the runs of the map in order (`e820__memblock_setup`). Claims a run that firmware
/// sets aside for a driver. Adds the part below `reach`, the limit of physical addresses, of a run
/// that is memory. Ignores all other runs.
fn add_map(memblock: &mut Memblock, map: &[Run], reach: u64) -> Result<(), Refusal>
    requires runs { AreRuns map.now }
    requires begun { HasFirstItem memblock.old.journal.items }
    ensures ends { EndsAsStage (items_with_growths (items_of_map reach map.now)) refusal_for result
        memblock.old.journal.items memblock.new.journal.items }
    ensures begun { HasFirstItem memblock.new.journal.items }
    ensures goes_on { ContinuesMemblock memblock.old memblock.new }
{
    no_items_no_change(memblock);
    for run in map {
        add_run(memblock, run, reach)?;
    }
    Ok(())
}

/// Returns the end of the last record in memblock's memory table: the address after its last byte.
/// Returns 0 if the table is empty (`memblock_end_of_DRAM`).
fn end_of_memory(tables: &Tables) -> u64
    ensures { result ≡ end_of_last_run tables.now.memory.records }
{
    let count = tables.head(Which::Memory).count;
    if count == 0 {
        return 0;
    }
    let last = tables.region(Which::Memory, count - 1);
    last.base + last.size
}

/// Makes memblock's searches go from the lowest address up if `upward` is true
/// (`memblock_set_bottom_up`). Changes nothing if `upward` is false.
fn set_search_direction(memblock: &mut Memblock, upward: bool) -> Result<(), Refusal>
    requires { HasFirstItem memblock.old.journal.items }
    ensures ends { EndsAsStage (items_with_growths (direction_items upward)) refusal_for result
        memblock.old.journal.items memblock.new.journal.items }
    ensures goes_on { ContinuesMemblock memblock.old memblock.new }
{
    no_items_no_change(memblock);
    if upward {
        memblock.set_upward(true)?;
    }
    Ok(())
}

/// Claims the kernel's image, the first 64 KiB, and the initrd if there is one. Then limits
/// allocations to the first MiB, until the map's memory is added, and sets the direction of
/// searches.
fn claim_before_memory(memblock: &mut Memblock, inputs: &Inputs) -> Result<(), Refusal>
    requires first { memblock.old.journal.items ≡ [] }
    requires kernel { inputs.now.kernel ≡ memblock.old.kernel }
    ensures ends { EndsAsStage (items_with_growths
        (items_before_memory (early_inputs (inputs_view inputs.now)))) refusal_for result
        memblock.old.journal.items memblock.new.journal.items }
    ensures begun { OnOk result (HasFirstItem memblock.new.journal.items) }
    ensures goes_on { ContinuesMemblock memblock.old memblock.new }
{
    claim_early(memblock, inputs.kernel, inputs.zero.initrd)?;
    memblock.set_limit(ISA_END_ADDRESS)?;
    set_search_direction(memblock, inputs.upward)
}

/// Marks the memory of each range as mirrored (`efi_find_mirror`). The ranges must be whole frames.
///
/// # Errors
///
/// The ranges before the one at which the call fails stay marked.
///
/// - `NoGapForTable`: memblock's table must grow and finds no place.
/// - `Memory`: the program ran out of memory.
fn add_mirrors(memblock: &mut Memblock, mirrors: &[Range]) -> Result<(), Refusal>
    requires whole { All IsMirror mirrors.now }
    requires begun { HasFirstItem memblock.old.journal.items }
    ensures ends { EndsAsStage
        (items_with_growths (mirror_items (map frame_range_of mirrors.now))) refusal_for result
        memblock.old.journal.items memblock.new.journal.items }
    ensures begun { HasFirstItem memblock.new.journal.items }
    ensures goes_on { ContinuesMemblock memblock.old memblock.new }
{
    no_items_no_change(memblock);
    for mirror in mirrors {
        memblock.set_mirror(*mirror)?;
    }
    Ok(())
}

/// Marks ranges as mirrored: first those of `--mirror` on the program's own command line, then
/// those of the EFI memory map (`efi_find_mirror`).
fn mirror_memory(memblock: &mut Memblock, inputs: &Inputs) -> Result<(), Refusal>
    requires { HasFirstItem memblock.old.journal.items }
    ensures ends { EndsAsStage (items_with_growths
        (mirror_items (all_mirrors (inputs_view inputs.now)))) refusal_for result
        memblock.old.journal.items memblock.new.journal.items }
    ensures begun { HasFirstItem memblock.new.journal.items }
    ensures goes_on { ContinuesMemblock memblock.old memblock.new }
{
    add_mirrors(memblock, &inputs.mirrors)?;
    match &inputs.efi {
        Some(efi) => add_mirrors(memblock, &efi.mirrors),
        None => Ok(()),
    }
}

/// Adds the memory of the map's runs to memblock, trims it to whole frames
/// (`e820__memblock_setup`), and marks the mirrored ranges.
///
/// # Errors
///
/// - `NoGapForTable`: memblock's table must grow and finds no place.
/// - `Memory`: the program ran out of memory.
fn add_memory_of_map(memblock: &mut Memblock, inputs: &Inputs, map: &[Run]) -> Result<(), Refusal>
    requires begun { HasFirstItem memblock.old.journal.items }
    requires runs { AreRuns map.now }
    ensures ends { EndsAsStage (items_with_growths
        (items_for_memory_of_map (early_inputs (inputs_view inputs.now)) map.now)) refusal_for
        result
        memblock.old.journal.items memblock.new.journal.items }
    ensures begun { OnOk result (HasFirstItem memblock.new.journal.items) }
    ensures goes_on { ContinuesMemblock memblock.old memblock.new }
{
    add_map(memblock, map, inputs.reach())?;
    memblock.trim()?;
    mirror_memory(memblock, inputs)
}

/// Limits allocations to addresses below `end`, the end of memory (`memblock_set_current_limit`),
/// and claims the first MiB (`reserve_real_mode`).
fn limit_and_claim_first_mib(memblock: &mut Memblock, end: u64) -> Result<(), Refusal>
    requires { HasFirstItem memblock.old.journal.items }
    ensures ends { EndsAsStage (items_with_growths (limit_items end)) refusal_for result
        memblock.old.journal.items memblock.new.journal.items }
    ensures begun { OnOk result (HasFirstItem memblock.new.journal.items) }
    ensures goes_on { ContinuesMemblock memblock.old memblock.new }
{
    memblock.set_limit(end)?;
    memblock.claim(range_below_address(ISA_END_ADDRESS), Owner::Low1M)
}

/// Makes memory from the map, below the limit of physical addresses, and makes the claims that come
/// before nodes are known. `memblock` must be new.
///
/// # Errors
///
/// - `NoGapForTable`: a table of memblock must grow and finds no place.
/// - `Memory`: the program ran out of memory.
pub fn make_memory(memblock: &mut Memblock, inputs: &Inputs, map: &[Run]) -> Result<(), Refusal>
    requires first { memblock.old.journal.items ≡ [] }
    requires kernel { inputs.now.kernel ≡ memblock.old.kernel }
    requires runs { AreRuns map.now }
    ensures ends { EndsAsStage (items_with_growths
        (early_items (early_inputs (inputs_view inputs.now)) map.now)) refusal_for result
        memblock.old.journal.items memblock.new.journal.items }
    ensures begun { OnOk result (HasFirstItem memblock.new.journal.items) }
    ensures goes_on { ContinuesMemblock memblock.old memblock.new }
{
    claim_before_memory(memblock, inputs)?;
    add_memory_of_map(memblock, inputs, map)?;
    let end = end_of_memory(memblock.tables());
    limit_and_claim_first_mib(memblock, end)
}
