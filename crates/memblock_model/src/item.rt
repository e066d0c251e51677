//! The items of the journal: each records one call of memblock that changed something.
//!
//! The journal lists them, oldest first, from the time when the memory map is final to the time
//! when free memory is handed over to the buddy allocator.

use crate::{Owner, Which};
use bm_base::Range;

/// An item of the journal: one recorded change that a call of memblock made. The range of an item
/// is never empty.
#[derive(Clone, Copy, Debug, PartialEq, Eq)]
pub enum Item {
    /// The bytes of the range become memory without a node (`memblock_add`). Bytes that are
    /// memory already keep their node.
    Mem { range: Range },
    /// Only whole 4 KiB frames stay memory: those whose bytes are all memory and have the same node
    /// and the same mirror flag (`memblock_trim_memory`).
    Trim,
    /// The memory bytes of the range get the node (`memblock_set_node`). The number may be any u32,
    /// although a [`crate::Label`], which the memory table stores, has only numbers below 1,024.
    Node { range: Range, node: u32 },
    /// The memory bytes of the range become mirrored and keep their node
    /// (`memblock_mark_mirror`).
    Mirror { range: Range },
    /// The bytes of the range get the owner (`memblock_reserve`).
    Claim { range: Range, owner: Owner },
    /// The bytes of the range lose their owner (`memblock_phys_free`).
    Free { range: Range },
    /// The limit of allocations becomes the address `at` (`memblock_set_current_limit`). An
    /// allocation ends at or below the limit, even if its own maximum is greater.
    Limit { at: u64 },
    /// Sets the direction of searches. From now on an allocation gets the lowest address that fits
    /// if `on` is true, else the highest (`memblock_set_bottom_up`).
    Upward { on: bool },
    /// The table `which` has moved to address `place`, and now has room for `room` records, twice
    /// as many as before (`memblock_double_array`). The definitions double the room themselves and
    /// ignore `room`.
    Grown { which: Which, place: u64, room: u64 },
}
