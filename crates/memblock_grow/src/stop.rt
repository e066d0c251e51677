//! What the stages of a boot allocate, and why a stage stops the boot. The stages for nodes,
//! section roots and memory maps share these types, so the boot converts their errors in one place.

use bm_base::Memory;
use memblock_model::Which;

/// A section: an aligned range of 128 MiB with some memory in it, and the node of its lowest frame
/// of memory.
#[derive(Clone, Copy, Debug, PartialEq, Eq)]
pub struct Section {
    /// The section's number, counted from 0: its address divided by 128 MiB.
    pub number: u32,
    /// The number of the node, below 1,024.
    pub node: u32,
}

/// What an allocation is for; the boot stops if the allocation fails.
#[derive(Clone, Copy, Debug, PartialEq, Eq)]
pub enum What {
    /// The `pg_data_t` of the node with this number (`alloc_node_data`).
    NodeData(u32),
    /// The `mem_section` array, which points to the section roots (`memory_present`).
    Roots,
    /// The section root with this number (`sparse_index_alloc`).
    Root(u32),
    /// The usage data (`struct mem_section_usage`) of consecutive sections of one node, the first
    /// of which has this number (`sparse_early_usemaps_alloc_pgdat_section`).
    Usage(u32),
    /// The memory map (page structures) of the section with this number, or of several sections,
    /// the first of which has this number (`sparse_buffer_init`, `__populate_section_memmap`).
    Map(u32),
}

/// The reason why a stage stops the boot.
#[derive(Clone, Copy, Debug, PartialEq, Eq)]
pub enum StageStop {
    /// No free memory was found for the allocation `what`.
    NoPlace { what: What },
    /// A table of memblock had to grow and no free memory was found for it
    /// (`memblock_double_array`). `room` is the number of records that it has room for, which was
    /// too small.
    NoTablePlace { which: Which, room: u64 },
    /// This program is out of memory.
    Memory,
}

impl From<Memory> for StageStop {
    ghost use Rattle.std.specs.Prelude.{◌≡◌};
    ghost use Rattle.memblock_grow.specs.declared.stop.StageStop.TheVariants as stops;

    ghost from_gives = { λ _ stop. stop ≡ stops.Memory };

    fn from(_error: Memory) -> StageStop {
        StageStop::Memory
    }
}
