//! The addresses of the map and the usage data of a section. Each section has one record, whether
//! its map is in the buffer of a group or alone. Readers therefore don't need to know about
//! groups.

ghost use Rattle.std.specs.Prelude.{◌≡◌, ◌+◌, ◌*◌, ◌^◌, ◌<◌, ◌≤◌, [], ◌∷◌, ◌++◌, length, IfOk, vec_len, vec_capacity};
ghost use Rattle.section_maps.specs.Maps.{consecutive_places};

use crate::requests::{MAP_SIZE, USAGE_SIZE};
use bm_base::Memory;
use stage_steps::Section;
use std::alloc::Global;

/// A section, with the addresses of its map and its usage data.
#[derive(Clone, Copy, Debug, PartialEq, Eq)]
pub struct Placed {
    /// The number of the section.
    pub section: u32,
    /// The node of the section.
    pub node: u32,
    /// The address of the section's map: 2 MiB of page structures.
    pub map: u64,
    /// The address of the section's usage data: 40 bytes.
    pub usage: u64,
}

/// Returns an empty list with room for `count` sections.
///
/// # Errors
///
/// `Memory` if this program is out of memory.
pub fn empty_section_list(alloc: Global, count: usize) -> Result<Vec<Placed>, Memory>
    ensures empty { IfOk result (λ placed. placed.items ≡ []) }
    ensures room { IfOk result (λ placed. vec_len placed + count ≤ vec_capacity placed) }
{
    Ok(Vec::with_capacity(alloc, count)?)
}

/// Appends the section, with its map at address `map` and its usage data at address `usage`, to the
/// list. The list must have room for it.
pub fn push_placed_section(placed: &mut Vec<Placed>, section: &Section, map: u64, usage: u64)
    requires room { vec_len placed.old < vec_capacity placed.old }
    ensures placed { placed.new.items ≡ placed.old.items
        ++ record {
          section = section.now.number;
          node = section.now.node;
          map = map;
          usage
              = usage;
        } ∷ [] }
    ensures len { vec_len placed.new ≤ vec_len placed.old + 1 }
    ensures capacity { vec_capacity placed.old ≤ vec_capacity placed.new }
{
    let place = Placed {
        section: section.number,
        node: section.node,
        map,
        usage,
    };
    match placed.push(place) {
        Ok(()) => (),
        Err(_) => unreachable!(),
    }
}

/// Appends the sections of a group. Their usage data lies one after another from address `usage`
/// on, and their maps from address `map` on. The list must have room for them.
pub fn push_consecutive_places(placed: &mut Vec<Placed>, sections: &[Section], usage: u64, map: u64)
    requires room { vec_len placed.old + length sections.now ≤ vec_capacity placed.old }
    requires usage { usage + 40 * length sections.now < 2 ^ 64 }
    requires map { map + 0x200000 * length sections.now < 2 ^ 64 }
    ensures placed { placed.new.items ≡ placed.old.items
        ++ consecutive_places usage map sections.now }
    ensures len { vec_len placed.new ≤ vec_len placed.old + length sections.now }
    ensures capacity { vec_capacity placed.old ≤ vec_capacity placed.new }
{
    for (i, section) in sections.iter().enumerate() {
        let before = i as u64;
        push_placed_section(
            placed,
            section,
            map + MAP_SIZE * before,
            usage + USAGE_SIZE * before,
        );
    }
}
