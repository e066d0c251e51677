//! Finds the sections with memory, from the records of the memory table.
//!
//! A record has bytes of all sections from the one of its first byte to the one of its last byte.
//! The previous record may end in the first of these sections. That section then has the node of
//! the previous record, since the node of a section is that of its lowest frame of memory.

ghost use Rattle.std.specs.Prelude.{◌≡◌, ◌+◌, ◌-◌, ◌/◌, ◌^◌, ◌<◌, ◌≤◌, ◌++◌, max, OnOk, IfOk};
ghost use Rattle.std.specs.List.{All};
ghost use Rattle.address_runs.specs.Runs.{value_at};
ghost use Rattle.sparse_sections.specs.Present.{present, sections_from, IsWholeFramesWithNode};

use bm_base::Memory;
use memblock_model::Which;
use memblock_ranges::{Region, Tables};
use stage_steps::Section;
use std::alloc::Global;

/// The size of a section in bytes (`SECTION_SIZE_BITS`).
const SECTION_SIZE: u64 = 0x800_0000;

/// Returns the sections that the record has bytes of: the number of the first one, and the number
/// after that of the last one. Sections with numbers below `next` are left out. The record must
/// not be empty, and must end at or below 4 PiB.
fn section_numbers(region: &Region, next: u32) -> (u32, u32)
    requires some { 0 < region.now.size }
    requires reach { region.now.base + region.now.size ≤ 2 ^ 52 }
    ensures first { result.0 ≡ max next (region.now.base / 0x8000000) }
    ensures until { result.1 ≡ (region.now.base + region.now.size - 1) / 0x8000000 + 1 }
{
    let number = (region.base / SECTION_SIZE) as u32;
    let last = ((region.base + region.size - 1) / SECTION_SIZE) as u32;
    (if number < next { next } else { number }, last + 1)
}

/// Appends the sections with the numbers from `first` to just below `until`, all with this node.
///
/// # Errors
///
/// `Memory` if this program is out of memory.
fn push_sections(
    sections: &mut Vec<Section>,
    first: u32,
    until: u32,
    node: u32,
) -> Result<(), Memory>
    requires { first ≤ until }
    ensures { OnOk result
        (sections.new.items ≡ sections.old.items ++ sections_from first (until - first) node) }
{
    for number in first..until {
        sections.push(Section { number, node })?;
    }
    Ok(())
}

/// Returns the sections of 128 MiB that have memory, in ascending order, each with the node of its
/// lowest frame of memory (`memory_present`). Each record of memory must be whole frames with a
/// node, and end at or below 4 PiB. The time grows with the number of records and of sections with
/// memory.
///
/// # Errors
///
/// `Memory` if this program is out of memory.
pub fn present(alloc: Global, tables: &Tables) -> Result<Vec<Section>, Memory>
    requires { All IsWholeFramesWithNode tables.now.memory.records }
    ensures { IfOk result (λ sections.
        sections.items ≡ present (value_at tables.now.memory.records)) }
{
    let records = tables.records(Which::Memory);
    let mut sections = Vec::new(alloc);
    let mut next = 0;
    for i in 0..records.count() {
        let region = records.get(i);
        let (first, until) = section_numbers(&region, next);
        push_sections(&mut sections, first, until, region.node)?;
        next = until;
    }
    Ok(sections)
}
