//! Places the groups of sections, one after another. Each group is split off the start of the list
//! when its turn comes, as in the kernel (`sparse_init`). No list of groups is made, since that
//! would need memory of this program.

ghost use Rattle.std.specs.Prelude.{◌≡◌, ◌^◌, ◌<◌, ◌≤◌, AllPairs, length};
ghost use Rattle.growth_model.specs.Tables.{HasFirstItem};
ghost use Rattle.stage_steps.specs.Causes.{error_of_stage_cause};
ghost use Rattle.stage_steps.specs.Steps.{EndsAsStage, view_of_result};
ghost use Rattle.memblock_grow.specs.Continues.{ContinuesMemblock};
ghost use Rattle.section_maps.specs.Maps.{place_maps};

use crate::group::{count_same_node, place_group};
use crate::placed::{Placed, empty_section_list};
use memblock_grow::{Memblock, no_items_no_change};
use stage_steps::{Section, StageStop};
use std::alloc::Global;

/// Law: the number of a section is below 2^32.
fn section_number_fits(section: &Section)
    ensures { section.now.number < 2 ^ 32 }
{
    let _number = section.number;
}

/// Counts the sections: at most 2^32, since their numbers are ascending.
fn count_sections(sections: &[Section]) -> usize
    requires ascend { AllPairs (λ s t. s.number < t.number) sections.now }
    ensures count { result ≡ length sections.now }
    ensures few { length sections.now ≤ 2 ^ 32 }
{
    let [.., last] = sections else {
        return 0;
    };
    section_number_fits(last);
    sections.len()
}

/// Allocates the usage data and the map of each section, group by group: 40 bytes and 2 MiB each
/// (`sparse_init_nid`). Returns the sections with these addresses. The numbers of the sections must
/// be ascending.
///
/// # Errors
///
/// Steps that were completed before the error stay in effect.
///
/// - `NoPlace` if no place fits usage data or a map.
/// - `NoTablePlace` if a table of memblock has to grow and no place is found for it.
/// - `Memory` if this program is out of memory, for the list (before the first allocation) or in a
///   call of memblock.
pub fn place_maps(
    alloc: Global,
    memblock: &mut Memblock,
    sections: &[Section],
) -> Result<Vec<Placed>, StageStop>
    requires begun { HasFirstItem memblock.old.journal.items }
    requires ascend { AllPairs (λ s t. s.number < t.number) sections.now }
    ensures ends { EndsAsStage (place_maps sections.now) error_of_stage_cause
        (view_of_result (λ placed. placed.items) result)
        memblock.old.journal.items memblock.new.journal.items }
    ensures goes_on { ContinuesMemblock memblock.old memblock.new }
{
    no_items_no_change(memblock);
    let mut placed = empty_section_list(alloc, count_sections(sections))?;
    let mut rest = sections;
    while let [first, ..] = rest {
        let (group, others) = rest.split_at(count_same_node(rest, first.node));
        place_group(memblock, &mut placed, first, group)?;
        rest = others;
    }
    Ok(placed)
}
