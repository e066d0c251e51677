//! Makes the finished map and decides whether a boot goes on with it. These stages don't need
//! memblock. The later stages get the map's runs, not the e820 table itself (`Table` of
//! `e820_sanitise`).

ghost use Rattle.std.specs.Prelude.{◌≡◌, ◌↔◌, IfOk, IsErrOf, OnOk};
ghost use Rattle.address_runs.specs.Runs.{AreRuns, value_at};
ghost use Rattle.e820_model.specs.Claims.{EntriesFit, HaveTypes, final_claims, with_extension, with_options};
ghost use Rattle.e820_model.specs.Map.{claims_of};
ghost use Rattle.bm_base.specs.Answers.{Answers};
ghost use Rattle.e820_model.specs.Usable.{types_below};
ghost use Rattle.e820_sanitise.specs.Stop.{judge_frames};
ghost use Rattle.boot_model.specs.Boot.{added_entries};
ghost use Rattle.boot_model.specs.View.{inputs_view};
ghost use Rattle.boot_stages.specs.Boots.{accept_table_result, map_or_stop};

use bm_base::Memory;
use boot_model::{Cause, Inputs, Stop};
use boot_options::Edit;
use e820_sanitise::{MapFault, Run, Table, judge_frames};
use e820_table::Entry;
use std::alloc::Global;

/// Returns the e820 table with the finished map. The zero page's entries go into it first, then the
/// extension's entries, and then the edits of the command line, followed by the entries `added`.
/// After each of these three steps, only the greatest type claimed for each address is kept
/// (`e820__update_table`). Last, the BIOS range is trimmed (`trim_bios_range`).
///
/// # Errors
///
/// Out of memory.
pub fn finished_table(
    alloc: Global,
    entries: &[Entry],
    extension: &[Entry],
    edits: &[Edit],
    added: &[Entry],
) -> Result<Table, Memory>
    requires entries_end { EntriesFit entries.now }
    requires extension_ends { EntriesFit extension.now }
    requires types { HaveTypes edits.now }
    requires added_end { EntriesFit added.now }
    ensures { IfOk result (λ table.
        claims_of table ≡ final_claims entries.now extension.now edits.now added.now) }
{
    let mut table = Table::new(alloc);
    append_and_sanitise(&mut table, entries)?;
    append_and_sanitise(&mut table, extension)?;
    edit_and_sanitise(&mut table, edits, added)?;
    table.trim_bios()?;
    Ok(table)
}

/// Returns the entries of the EFI memory map, if there is one and the command line asks for them
/// (`add_efi_memmap`); else none.
pub fn added_entries(inputs: &Inputs) -> &[Entry]
    ensures value { result.now ≡ added_entries (inputs_view inputs.now) }
    ensures space { EntriesFit result.now }
{
    match &inputs.efi {
        Some(efi) if inputs.options.add_efi => &efi.entries,
        _ => &[],
    }
}

/// Appends `entries`, and then keeps only the greatest type claimed for each address
/// (`e820__memory_setup`, `e820__memory_setup_extended`).
///
/// # Errors
///
/// Out of memory.
fn append_and_sanitise(table: &mut Table, entries: &[Entry]) -> Result<(), Memory>
    requires { EntriesFit entries.now }
    ensures { OnOk result (claims_of table.new ≡ with_extension entries.now (claims_of table.old)) }
{
    table.append(entries)?;
    table.settle()
}

/// Applies the edits of the command line, and appends the entries `added` (`do_add_efi_memmap`).
/// Then keeps only the greatest type claimed for each address (`e820__finish_early_params`).
///
/// # Errors
///
/// Out of memory.
fn edit_and_sanitise(table: &mut Table, edits: &[Edit], added: &[Entry]) -> Result<(), Memory>
    requires types { HaveTypes edits.now }
    requires added_end { EntriesFit added.now }
    ensures { OnOk result (claims_of table.new
        ≡ with_options edits.now added.now (claims_of table.old)) }
{
    for edit in edits {
        table.edit(edit)?;
    }
    append_and_sanitise(table, added)
}

/// Returns the map if it has 1 to 2^32 usable frames below the address `reach`. `answer` is what
/// the e820 table returned when it was asked for its map. Allocates nothing.
///
/// # Errors
///
/// - `MapFull`: `answer` is this error, since the map has too many runs
/// - `NoRam`: no frame below `reach` is usable
/// - `TooMuchRam`: more than 2^32 frames below `reach` are usable
/// - `Memory`: `answer` is this error
pub fn accept_table_result(answer: Result<Vec<Run>, MapFault>, reach: u64) -> Result<Vec<Run>, Stop>
    requires { IfOk answer (λ runs. AreRuns runs.items) }
    ensures answers { Answers Stop.Memory (λ runs. runs.items) result
        (accept_table_result reach answer) }
    ensures wanting { IsErrOf result Stop.Memory ↔ IsErrOf answer MapFault.Memory }
    ensures runs { IfOk result (λ runs. AreRuns runs.items) }
{
    match answer {
        Ok(map) => check_usable_frames(map, reach),
        Err(MapFault::MapFull { runs }) => Err(Stop::MapFull { runs }),
        Err(MapFault::Memory) => Err(Stop::Memory),
    }
}

/// Returns the map if it has 1 to 2^32 usable frames below the address `reach`. Allocates nothing.
///
/// # Errors
///
/// - `NoRam`: no frame below `reach` is usable
/// - `TooMuchRam`: more than 2^32 frames below `reach` are usable
fn check_usable_frames(map: Vec<Run>, reach: u64) -> Result<Vec<Run>, Stop>
    requires { AreRuns map.items }
    ensures answers { Answers Stop.Memory (λ runs. runs.items) result
        (map_or_stop (judge_frames (types_below reach (value_at map.items))) map.items) }
    ensures always { ¬ IsErrOf result Stop.Memory }
    ensures runs { IfOk result (λ runs. AreRuns runs.items) }
{
    match judge_frames(&map, reach) {
        Some(reason) => Err(Stop::from(Cause::from(reason))),
        None => Ok(map),
    }
}
