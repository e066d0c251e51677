//! Runs the stages that follow once the map is accepted: memory, early claims, nodes, the crash
//! area, and the early script. The sections are placed at the script's `sections` line, or after
//! all its lines. Each stage is one call on memblock that ends as its definition says
//! (`EndsAsStage`). If the call returns an error, this module returns the stop of the boot for that
//! error.

ghost use Rattle.std.specs.Prelude.{◌≡◌, ◌^◌, [], Ok, IfOk, IfErr};
ghost use Rattle.address_runs.specs.Runs.{AreRuns};
ghost use Rattle.memblock_model.specs.Items.{memory_of};
ghost use Rattle.growth_model.specs.Tables.{HasFirstItem};
ghost use Rattle.stage_steps.specs.Causes.{error_of_stage_cause};
ghost use Rattle.stage_steps.specs.Steps.{EndsAsStage, view_of_result};
ghost use Rattle.stage_steps.specs.Nodes.{IsMemoryWithNodes};
ghost use Rattle.memblock_grow.specs.Continues.{ContinuesMemblock};
ghost use Rattle.boot_model.specs.Boot.{begin_with_map, judge_map};
ghost use Rattle.boot_model.specs.Sections.{place_present_sections};
ghost use Rattle.boot_model.specs.View.{extra_view, inputs_view, sections_view};
ghost use Rattle.boot_stages.specs.Boots.{StagesEndWith, StagesStopWith, HasBytesOfHistory};

use crate::added::memory_bytes_of_map;
use crate::memory::make_memory;
use bm_base::Width;
use boot_model::{Extra, Inputs, Stop};
use crash_kernel::{Crash, reserve_by_rule};
use e820_sanitise::Run;
use early_script::{Answer, Live, run_script_lines, split_at_sections};
use memblock_grow::Memblock;
use numa_nodes::{Nodes, assign};
use section_maps::{Placed, place_maps};
use sparse_sections::{Roots, place_roots, present};
use stage_steps::StageStop;
use std::alloc::Global;

/// The results of the stages that run once the map is accepted, except for what memblock itself
/// holds.
#[derive(Drop)]
pub struct LaterResults {
    /// The nodes, and whether the firmware's table of domains gave them.
    pub nodes: Nodes,
    /// Where the crash area (`crashkernel=`) is reserved, or why it isn't.
    pub crash: Crash,
    /// The addresses of the table of section roots and of each root (`mem_section`).
    pub roots: Roots,
    /// For each section that has memory, the addresses of its page structures (its map) and of its
    /// usage data.
    pub placed: Vec<Placed>,
    /// The outcome of each line of the early claims.
    pub claim_answers: Vec<Answer>,
    /// The outcome of each line of the early script, except for the command `sections`.
    pub answers: Vec<Answer>,
}

/// Allocates from memblock the section roots, and then the usage data and the page structures of
/// each section that has memory (`sparse_init`). Returns the addresses.
///
/// # Errors
///
/// - `NoPlace`: no free memory fits one of these allocations.
/// - `NoTablePlace`: a table of memblock must grow and finds no place.
/// - `Memory`: the program ran out of memory.
fn place_sections(
    alloc: Global,
    memblock: &mut Memblock,
    width: Width,
) -> Result<(Roots, Vec<Placed>), StageStop>
    requires begun { HasFirstItem memblock.old.journal.items }
    requires noded { IsMemoryWithNodes (2 ^ 52) (memory_of memblock.old.journal.items) }
    ensures ends { EndsAsStage (place_present_sections width) error_of_stage_cause
        (view_of_result (λ places. sections_view places.0 places.1) result)
        memblock.old.journal.items memblock.new.journal.items }
    ensures goes_on { ContinuesMemblock memblock.old memblock.new }
{
    let sections = present(alloc, memblock.tables())?;
    let roots = place_roots(alloc, memblock, &sections, width)?;
    let placed = place_maps(alloc, memblock, &sections)?;
    Ok((roots, placed))
}

/// Runs the stages that follow once the map is accepted: memory, early claims, nodes, the crash
/// area, and the early script with the placing of sections. `memblock` must be new. `map` must be
/// accepted (`accept_table_result`).
///
/// # Errors
///
/// - the stop of the first stage that fails
/// - out of memory, in any stage
pub fn run_stages(
    alloc: Global,
    memblock: &mut Memblock,
    extra: &Extra,
    inputs: &Inputs,
    map: &[Run],
) -> Result<LaterResults, Stop>
    requires first { memblock.old.journal.items ≡ [] }
    requires kernel { memblock.old.kernel ≡ inputs.now.kernel }
    requires bytes { HasBytesOfHistory [] memblock.old }
    requires runs { AreRuns map.now }
    requires judged { judge_map (inputs_view inputs.now)
        ≡ Ok (begin_with_map map.now (inputs_view inputs.now).options) }
    ensures run { IfOk result (λ later.
        StagesEndWith (extra_view extra.now) (inputs_view inputs.now) map.now memblock.new later) }
    ensures stopped { IfErr result (λ stop.
        StagesStopWith (extra_view extra.now) (inputs_view inputs.now) map.now stop) }
{
    make_memory(memblock, inputs, map)?;
    let mut live = Live::new(alloc);
    let mut claim_answers = Vec::new(alloc);
    run_script_lines(&mut live, memblock, &extra.claims, &mut claim_answers)?;
    let nodes = assign(
        alloc,
        memblock,
        inputs.srat.as_ref(),
        inputs.options.numa_off,
    )?;
    let added = memory_bytes_of_map(map, inputs.reach());
    let crash = reserve_by_rule(memblock, extra.profile.crash, added, &inputs.options.crash)?;
    let mut answers = Vec::new(alloc);
    let (before, after) = split_at_sections(&inputs.lines);
    run_script_lines(&mut live, memblock, before, &mut answers)?;
    let (roots, placed) = place_sections(alloc, memblock, inputs.width)?;
    run_script_lines(&mut live, memblock, after, &mut answers)?;
    Ok(LaterResults {
        nodes,
        crash,
        roots,
        placed,
        claim_answers,
        answers,
    })
}
