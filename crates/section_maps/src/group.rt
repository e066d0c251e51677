//! Places one group of sections (neighbours in the list, on one node): its usage data, and its maps
//! in one buffer or one by one.

ghost use Rattle.std.specs.Prelude.{◌≡◌, ℕ, ◌+◌, ◌*◌, ◌^◌, ◌<◌, ◌≤◌, ◌==◌, length, vec_len, vec_capacity};
ghost use Rattle.std.specs.List.{prefix_len};
ghost use Rattle.growth_model.specs.Tables.{HasFirstItem};
ghost use Rattle.stage_steps.specs.Causes.{error_of_stage_cause};
ghost use Rattle.stage_steps.specs.Steps.{EndsAsStage, view_of_result};
ghost use Rattle.stage_steps.specs.Requests.{or_else};
ghost use Rattle.memblock_grow.specs.Continues.{ContinuesMemblock};
ghost use Rattle.section_maps.specs.Maps.{place_map_buffer, place_each_map, place_group};

use crate::each::place_each_map;
use crate::placed::{Placed, push_consecutive_places};
use crate::requests::{map_request, usage_request};
use boot_journal::Owner;
use memblock_grow::Memblock;
use stage_steps::{Section, StageStop, What, place_or_stop};

/// Returns the number of sections at the start of the list that have this node, up to the first
/// that doesn't.
pub fn count_same_node(sections: &[Section], node: u32) -> usize
    ensures { result ≡ prefix_len (λ s. s.node == node) sections.now }
{
    sections.iter().take_while(|s| s.node == node).count()
}

/// Allocates the maps of a group of sections on one node: in one buffer on that node or, if no free
/// range there is large enough, one by one. `first` is the group's first section. The usage data of
/// the group is allocated already, at address `usage`.
///
/// # Errors
///
/// - `NoPlace` if no place fits a map.
/// - `NoTablePlace` if a table of memblock has to grow and no place is found for it.
/// - `Memory` if this program is out of memory.
fn place_group_maps(
    memblock: &mut Memblock,
    placed: &mut Vec<Placed>,
    first: &Section,
    sections: &[Section],
    usage: u64,
) -> Result<(), StageStop>
    requires begun { HasFirstItem memblock.old.journal.items }
    requires some { 1 ≤ length sections.now }
    requires few { length sections.now ≤ 2 ^ 32 }
    requires room { vec_len placed.old + length sections.now ≤ vec_capacity placed.old }
    requires usage { usage + 40 * length sections.now < 2 ^ 64 }
    ensures ends { EndsAsStage
        (or_else (place_map_buffer usage placed.old.items first.now sections.now)
        (place_each_map usage placed.old.items sections.now)) error_of_stage_cause
        (view_of_result (λ _. placed.new.items) result)
        memblock.old.journal.items memblock.new.journal.items }
    ensures len { vec_len placed.new ≤ vec_len placed.old + length sections.now }
    ensures capacity { vec_capacity placed.old ≤ vec_capacity placed.new }
    ensures goes_on { ContinuesMemblock memblock.old memblock.new }
{
    let request = map_request(sections.len() as u64, first.node, true);
    let number = first.number;
    match place_or_stop(memblock, What::Map(number), &request, Owner::Map(number)) {
        Ok(map) => {
            push_consecutive_places(placed, sections, usage, map);
            Ok(())
        }
        Err(StageStop::NoPlace { what: _ }) => place_each_map(memblock, placed, sections, usage),
        Err(stop) => Err(stop),
    }
}

/// Allocates the usage data and the maps of a group of sections on one node. Appends the sections
/// with these addresses to `placed`, which must have room for them. `first` is the group's first
/// section.
///
/// # Errors
///
/// - `NoPlace` if no place fits the usage data or a map.
/// - `NoTablePlace` if a table of memblock has to grow and no place is found for it.
/// - `Memory` if this program is out of memory.
pub fn place_group(
    memblock: &mut Memblock,
    placed: &mut Vec<Placed>,
    first: &Section,
    sections: &[Section],
) -> Result<(), StageStop>
    requires begun { HasFirstItem memblock.old.journal.items }
    requires some { 1 ≤ length sections.now }
    requires few { length sections.now ≤ 2 ^ 32 }
    requires room { vec_len placed.old + length sections.now ≤ vec_capacity placed.old }
    ensures ends { EndsAsStage (place_group placed.old.items first.now sections.now)
        error_of_stage_cause
        (view_of_result (λ _. placed.new.items) result)
        memblock.old.journal.items memblock.new.journal.items }
    ensures len { vec_len placed.new ≤ vec_len placed.old + length sections.now }
    ensures capacity { vec_capacity placed.old ≤ vec_capacity placed.new }
    ensures goes_on { ContinuesMemblock memblock.old memblock.new }
{
    let number = first.number;
    let request = usage_request(sections.len() as u64, first.node);
    let usage = place_or_stop(
        memblock,
        What::Usage(number),
        &request,
        Owner::Usage(number),
    )?;
    place_group_maps(memblock, placed, first, sections, usage)
}
