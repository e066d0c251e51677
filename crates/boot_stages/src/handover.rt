//! Hands memory over to the page allocator at the end of the boot, and ends memblock. Zone spans
//! and free frames are read from the bytes of memblock's two tables. A table's head gives its
//! address and the number of its records. The page script runs on a copy of the free frames, so the
//! frames that were handed over stay as they were.

ghost use Rattle.std.specs.Prelude.{◌≡◌, ◌^◌, List, IfOk};
ghost use Rattle.address_runs.specs.Edits.{IsEmptyFrom};
ghost use Rattle.memblock_model.specs.Items.{memory_of, owner_of};
ghost use Rattle.memblock_model.specs.Tables.{reserved_labels};
ghost use Rattle.memblock_model.specs.declared.owner.Which.{Which};
ghost use Rattle.memblock_ranges.specs.Tables.{table_in};
ghost use Rattle.memblock_model.specs.declared.owner.Which.TheVariants as which;
ghost use Rattle.growth_model.specs.Bytes.{Fill, table_from_items};
ghost use Rattle.early_script.specs.LiveView.{LiveView};
ghost use Rattle.stage_steps.specs.Nodes.{IsMemoryWithNodes};
ghost use Rattle.boot_model.specs.Boot.{finish_boot_by};
ghost use Rattle.boot_model.specs.View.{booted_view, inputs_view};
ghost use Rattle.boot_stages.specs.Boots.{IsFreeByStore, IsStoredTable, made_after_stages};

use crate::later::LaterResults;
use bm_base::Memory;
use boot_model::{Booted, Inputs, Profile};
use buddy_handover::hand_over;
use e820_sanitise::Run;
use memblock_grow::Memblock;
use page_alloc::Pages;
use slit_zonelists::{Lists, run_page_lines};
use std::alloc::Global;
use zone_spans::{spans, spans_by};

/// Ends memblock and returns the results of the boot. Reads the zone spans (`free_area_init`) and
/// the free frames (`memblock_free_all`) from the bytes of memblock's two tables. Then builds the
/// zone lists (`build_zonelists`), and runs the page script on a copy of the free frames. The
/// results have the zone spans by the rule of `profile`. `map` is the accepted map, and `later` has
/// the results of the stages that ran after the map was accepted.
///
/// # Errors
///
/// Out of memory.
pub fn hand_over_memory(
    alloc: Global,
    memblock: Memblock,
    profile: Profile,
    inputs: Inputs,
    map: Vec<Run>,
    later: LaterResults,
) -> Result<Booted, Memory>
    requires kernel { memblock.kernel ≡ inputs.kernel }
    requires noded { IsMemoryWithNodes (2 ^ 52) (memory_of memblock.journal.items) }
    requires tables { (w : Which)
        → table_in w memblock.tables ≡ table_from_items w memblock.kernel memblock.journal.items }
    requires within { IsEmptyFrom (2 ^ 64) (reserved_labels (owner_of memblock.journal.items)) }
    ensures view { IfOk result (λ booted. (ids : LiveView) (fills : List Fill) → booted_view booted
        ≡ finish_boot_by profile (inputs_view inputs)
        (made_after_stages (inputs_view inputs) map.items memblock later ids fills)) }
    ensures map { IfOk result (λ booted. booted.map ≡ map) }
    ensures store { IfOk result (λ booted. booted.store ≡ memblock.tables.store) }
    ensures memory { IfOk result (λ booted.
        IsStoredTable which.Memory booted.journal.items booted.store booted.heads.memory) }
    ensures reserved { IfOk result (λ booted.
        IsStoredTable which.Reserved booted.journal.items booted.store booted.heads.reserved) }
    ensures spelled { IfOk result (λ booted. IsFreeByStore booted.store booted.heads booted.buddy) }
{
    let (store, heads, journal) = memblock.into_parts();
    let with_memory = spans(alloc, &store, &heads)?;
    let buddy = hand_over(alloc, &store, &heads)?;
    let lists = Lists::new(
        alloc,
        inputs.slit.as_ref(),
        &later.nodes.domains,
        &with_memory,
    )?;
    let spans = spans_by(profile.zones, alloc, &store, &heads)?;
    let mut after = Pages::new(alloc, buddy.copy()?);
    let page_answers = run_page_lines(alloc, &mut after, &lists, &inputs.page_lines)?;
    Ok(Booted {
        width: inputs.width,
        map,
        options: inputs.options,
        journal,
        store,
        heads,
        nodes: later.nodes,
        crash: later.crash,
        roots: later.roots,
        placed: later.placed,
        claim_answers: later.claim_answers,
        answers: later.answers,
        spans,
        buddy,
        lists,
        page_answers,
        after,
    })
}
