//! Places the maps (page structures) of sections one by one. This is done only if no free range on
//! the node has room for all maps of a group. Each map then has an owner of its own, and may lie on
//! another node.

ghost use Rattle.std.specs.Prelude.{◌≡◌, ◌+◌, ◌*◌, ◌^◌, ◌<◌, ◌≤◌, false, length, vec_len, vec_capacity};
ghost use Rattle.memblock_model.specs.declared.owner.Owner.TheVariants as owner;
ghost use Rattle.growth_model.specs.Tables.{HasFirstItem};
ghost use Rattle.memblock_grow.specs.declared.stop.What.TheVariants as what;
ghost use Rattle.stage_steps.specs.Causes.{error_of_stage_cause};
ghost use Rattle.stage_steps.specs.Steps.{EndsAsStage, view_of_result};
ghost use Rattle.stage_steps.specs.Requests.{place_or_stop};
ghost use Rattle.memblock_grow.specs.Continues.{ContinuesMemblock};
ghost use Rattle.section_maps.specs.Maps.{map_request, place_each_map};

use crate::placed::{Placed, push_placed_section};
use crate::requests::{USAGE_SIZE, map_request};
use boot_journal::Owner;
use memblock_grow::{Memblock, no_items_no_change};
use stage_steps::{Section, StageStop, What, place_or_stop};

/// Allocates the map of one section, 2 MiB of page structures, on the section's node if there is
/// room. Returns the map's address.
///
/// # Errors
///
/// - `NoPlace` if no place fits the map.
/// - `NoTablePlace` if a table of memblock has to grow and no place is found for it.
/// - `Memory` if this program is out of memory.
fn place_map(memblock: &mut Memblock, section: &Section) -> Result<u64, StageStop>
    requires { HasFirstItem memblock.old.journal.items }
    ensures ends { EndsAsStage (place_or_stop (what.Map section.now.number)
        (map_request 1 section.now.node false) (owner.Map section.now.number)) error_of_stage_cause
        result
        memblock.old.journal.items memblock.new.journal.items }
    ensures goes_on { ContinuesMemblock memblock.old memblock.new }
{
    let number = section.number;
    let request = map_request(1, section.node, false);
    place_or_stop(memblock, What::Map(number), &request, Owner::Map(number))
}

/// Allocates the map of each section alone, and appends the section with its addresses to `placed`.
/// The usage data of the sections is allocated already: 40 bytes each, one after another from
/// address `usage` on.
///
/// # Errors
///
/// - `NoPlace` if no place fits a map.
/// - `NoTablePlace` if a table of memblock has to grow and no place is found for it.
/// - `Memory` if this program is out of memory.
pub fn place_each_map(
    memblock: &mut Memblock,
    placed: &mut Vec<Placed>,
    sections: &[Section],
    usage: u64,
) -> Result<(), StageStop>
    requires begun { HasFirstItem memblock.old.journal.items }
    requires room { vec_len placed.old + length sections.now ≤ vec_capacity placed.old }
    requires usage { usage + 40 * length sections.now < 2 ^ 64 }
    ensures ends { EndsAsStage (place_each_map usage placed.old.items sections.now)
        error_of_stage_cause
        (view_of_result (λ _. placed.new.items) result)
        memblock.old.journal.items memblock.new.journal.items }
    ensures len { vec_len placed.new ≤ vec_len placed.old + length sections.now }
    ensures capacity { vec_capacity placed.old ≤ vec_capacity placed.new }
    ensures goes_on { ContinuesMemblock memblock.old memblock.new }
{
    no_items_no_change(memblock);
    let mut at = usage;
    for section in sections {
        let map = place_map(memblock, section)?;
        push_placed_section(placed, section, map, at);
        at += USAGE_SIZE;
    }
    Ok(())
}
