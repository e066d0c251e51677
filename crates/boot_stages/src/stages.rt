//! The whole boot: calls the stages in their order. Each stage's contract is proved in its own
//! crate. The proof here shows that these calls together make the boot that `boot_model` defines.
//! So the facts that `conservation` proves about that boot hold for the result: for example, each
//! usable frame is claimed or in exactly one free block.

ghost use Rattle.std.specs.Prelude.{◌≡◌, ℕ, Ok, IfOk};
ghost use Rattle.address_runs.specs.Runs.{AreRuns};
ghost use Rattle.boot_model.specs.Boot.{BootSoFar, begin_with_map, boot, boot_with, judge_map, whole_boot, whole_boot_with};
ghost use Rattle.boot_model.specs.View.{booted_view, extra_view, inputs_view};
ghost use Rattle.conservation.specs.Headline.{AllTouchedOrInOneBlock, BlocksAreMaximal, BlocksAreWhole, NoOtherInABlock};
ghost use Rattle.conservation.specs.FramePlacesAfterPages.{AllInOneBlockOrHeld, NoOtherInABlockOrHeld};
ghost use Rattle.bm_base.specs.Answers.{Answers};
ghost use Rattle.bm_base.specs.ResultSteps.{map_error};
ghost use Rattle.boot_model.specs.Stop.{stop_of};
ghost use Rattle.memblock_model.specs.declared.owner.Which.TheVariants as which;
ghost use Rattle.phys_store.specs.Bytes.{byte_of};
ghost use Rattle.growth_model.specs.Bytes.{byte_from_history};
ghost use Rattle.boot_stages.specs.Boots.{IsFreeByStore, IsStoredTable};

use crate::handover::hand_over_memory;
use crate::later::run_stages;
use crate::map::{accept_table_result, added_entries, finished_table};
use boot_model::{Booted, Extra, Inputs, Profile, Stop};
use e820_sanitise::Run;
use memblock_grow::Memblock;
use std::alloc::Global;

/// Runs the boot (`setup_arch`) up to the handover (`mem_init`) and returns all that it made. The
/// boot takes these steps in order:
///
/// 1. The entries of the zero page and of the extension, the edits of the command line (such as
///    `memmap=`), and with `add_efi_memmap` the entries of the EFI map go into one e820 table. The
///    BIOS range is trimmed (`trim_bios_range`), and the map is accepted, or the boot stops.
/// 2. The map's memory becomes memblock's memory (`e820__memblock_setup`).
/// 3. Memory gets its nodes (`initmem_init`).
/// 4. The crash area is reserved (`reserve_crashkernel`).
/// 5. The early script runs. The sections are placed at its `sections` line, or after all lines if
///    it has none (`sparse_init`).
/// 6. The frames of memory in which no byte is claimed become free (`memblock_free_all`).
/// 7. Each node gets its order of zones (`build_zonelists`), and the page script runs on a copy of
///    the free frames.
///
/// A refused line of a script doesn't stop the boot: its outcome is reported, and the next line
/// runs.
///
/// # Errors
///
/// The boot stops at the first of these that occurs:
///
/// - `MapFull`: the map has more than 3,200 runs
/// - `NoRam`: no frame of the map is usable
/// - `TooMuchRam`: more than 2^32 frames are usable
/// - `NoTablePlace`: a table of memblock must grow and finds no place
/// - `NoPlace`: the boot finds no place for something that it can't do without
///
/// `Memory` may come instead of any of these, and instead of success: the program ran out of
/// memory.
pub fn boot(alloc: Global, inputs: Inputs) -> Result<Booted, Stop>
    ensures boots { Answers Stop.Memory booted_view result
        (map_error stop_of (whole_boot (inputs_view inputs))) }
    ensures bytes { IfOk result (λ booted. (made : BootSoFar) → boot (inputs_view inputs) ≡ Ok made
        →
        (x : ℕ) →
        byte_of booted.store x ≡ byte_from_history inputs.kernel made.items made.fills x) }
    ensures runs { IfOk result (λ booted. AreRuns booted.map.items) }
    ensures memory { IfOk result (λ booted.
        IsStoredTable which.Memory booted.journal.items booted.store booted.heads.memory) }
    ensures reserved { IfOk result (λ booted.
        IsStoredTable which.Reserved booted.journal.items booted.store booted.heads.reserved) }
    ensures spelled { IfOk result (λ booted. IsFreeByStore booted.store booted.heads booted.buddy) }
    ensures each { IfOk result (λ booted.
        AllTouchedOrInOneBlock (inputs_view inputs) (booted_view booted)) }
    ensures others { IfOk result (λ booted.
        NoOtherInABlock (inputs_view inputs) (booted_view booted)) }
    ensures whole { IfOk result (λ booted.
        BlocksAreWhole (inputs_view inputs) (booted_view booted)) }
    ensures maximal { IfOk result (λ booted.
        BlocksAreMaximal (inputs_view inputs) (booted_view booted)) }
    ensures paged { IfOk result (λ booted. AllInOneBlockOrHeld (booted_view booted)) }
    ensures none_paged { IfOk result (λ booted. NoOtherInABlockOrHeld (booted_view booted)) }
{
    let extra = Extra::without_claims(alloc, Profile::own());
    boot_with(alloc, &extra, inputs)
}

/// Runs the boot with the profile and the early claims of `extra`, and returns all that it made.
/// The steps are those of [`boot`], with two differences. The lines of early claims run after the
/// first MiB is claimed and before memory gets its nodes. The crash area and the spans of zones
/// follow the rules of the profile.
///
/// # Errors
///
/// Those of [`boot`]: `MapFull`, `NoRam`, `TooMuchRam`, `NoTablePlace`, `NoPlace` and `Memory`.
pub fn boot_with(alloc: Global, extra: &Extra, inputs: Inputs) -> Result<Booted, Stop>
    ensures boots { Answers Stop.Memory booted_view result
        (map_error stop_of (whole_boot_with (extra_view extra.now) (inputs_view inputs))) }
    ensures bytes { IfOk result (λ booted. (made : BootSoFar)
        → boot_with (extra_view extra.now) (inputs_view inputs) ≡ Ok made → (x : ℕ) →
        byte_of booted.store x ≡ byte_from_history inputs.kernel made.items made.fills x) }
    ensures runs { IfOk result (λ booted. AreRuns booted.map.items) }
    ensures memory { IfOk result (λ booted.
        IsStoredTable which.Memory booted.journal.items booted.store booted.heads.memory) }
    ensures reserved { IfOk result (λ booted.
        IsStoredTable which.Reserved booted.journal.items booted.store booted.heads.reserved) }
    ensures spelled { IfOk result (λ booted. IsFreeByStore booted.store booted.heads booted.buddy) }
    ensures each { IfOk result (λ booted.
        AllTouchedOrInOneBlock (inputs_view inputs) (booted_view booted)) }
    ensures others { IfOk result (λ booted.
        NoOtherInABlock (inputs_view inputs) (booted_view booted)) }
    ensures whole { IfOk result (λ booted.
        BlocksAreWhole (inputs_view inputs) (booted_view booted)) }
    ensures maximal { IfOk result (λ booted.
        BlocksAreMaximal (inputs_view inputs) (booted_view booted)) }
    ensures paged { IfOk result (λ booted. AllInOneBlockOrHeld (booted_view booted)) }
    ensures none_paged { IfOk result (λ booted. NoOtherInABlockOrHeld (booted_view booted)) }
{
    let map = make_map(alloc, &inputs)?;
    let mut memblock = Memblock::new(alloc, inputs.kernel)?;
    let later = run_stages(alloc, &mut memblock, extra, &inputs, &map)?;
    Ok(hand_over_memory(alloc, memblock, extra.profile, inputs, map, later)?)
}

/// Returns the map of the finished e820 table, if the boot accepts it ([`accept_table_result`]): it
/// has at most 3,200 runs, and 1 to 2^32 usable frames.
///
/// # Errors
///
/// - `MapFull`: the map has more than 3,200 runs
/// - `NoRam`: no frame is usable
/// - `TooMuchRam`: more than 2^32 frames are usable
/// - `Memory`: the program ran out of memory
fn make_map(alloc: Global, inputs: &Inputs) -> Result<Vec<Run>, Stop>
    ensures answers { Answers Stop.Memory (λ map.
        begin_with_map map.items (inputs_view inputs.now).options) result
        (map_error stop_of (judge_map (inputs_view inputs.now))) }
    ensures runs { IfOk result (λ map. AreRuns map.items) }
{
    let table = finished_table(
        alloc,
        &inputs.zero.entries,
        &inputs.ext,
        &inputs.options.edits,
        added_entries(inputs),
    )?;
    accept_table_result(table.runs(), inputs.reach())
}
