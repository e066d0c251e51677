//! Where the crash area and its low part may lie: the windows and alignments of
//! `reserve_crashkernel` and `reserve_crashkernel_low`. A search only reads memblock. It never
//! allocates, so it can't run out of memory.

ghost use Rattle.std.specs.Prelude.{◌≡◌, ℕ, ◌+◌, ◌^◌, ◌<◌, ◌≤◌, IfSome};
ghost use Rattle.growth_model.specs.Tables.{HasFirstItem, OverlapsNoTable};
ghost use Rattle.crash_kernel.specs.Places.{best_range, fixed_range, low_range, main_range, needs_low_part, search_failure};

use crate::crash::Crash;
use crate::request::{AreaRequest, Placement};
use bm_base::Range;
use memblock_grow::Memblock;
use memblock_model::Query;

/// The alignment of a range that is searched for, 16 MiB (`CRASH_ALIGN`).
const CRASH_ALIGN: u64 = 1 << 24;

/// The alignment of a requested base, 1 MiB (`SZ_1M`).
const SZ_1M: u64 = 1 << 20;

/// The end of the memory that every device can address, 4 GiB (`CRASH_ADDR_LOW_MAX`).
const CRASH_ADDR_LOW_MAX: u64 = 1 << 32;

/// The end of the memory that a crash kernel can use, 64 TiB (`CRASH_ADDR_HIGH_MAX`).
const CRASH_ADDR_HIGH_MAX: u64 = 1 << 46;

/// Returns the range for the crash area, or `None` if no free range fits the request.
#[tactic(auto, unfolding(crate::specs::Places::main_range))]
pub fn main_range(memblock: &Memblock, area: &AreaRequest) -> Option<Range>
    requires begun { HasFirstItem memblock.now.journal.items }
    requires some { 0 < area.now.size }
    ensures range { result
        ≡ main_range area.now.size area.now.placement memblock.now.journal.items }
    ensures some { IfSome result (λ range. 0 < range.size) }
    ensures away { IfSome result (λ range.
        OverlapsNoTable memblock.now.kernel range memblock.now.journal.items) }
{
    let size = area.size;
    match area.placement {
        Placement::Fixed(base) => fixed_range(memblock, base, size),
        Placement::Automatic => best_range(memblock, size, CRASH_ALIGN, CRASH_ADDR_LOW_MAX).or_else(
            || best_range(memblock, size, CRASH_ALIGN, CRASH_ADDR_HIGH_MAX),
        ),
        Placement::High => best_range(memblock, size, CRASH_ALIGN, CRASH_ADDR_HIGH_MAX),
    }
}

/// Returns the outcome if no free range fits an area with this placement.
pub fn search_failure(placement: Placement) -> Crash
    ensures { result ≡ search_failure placement }
{
    match placement {
        Placement::Fixed(_) => Crash::InUse,
        Placement::Automatic | Placement::High => Crash::NoArea,
    }
}

/// Tests whether the area at `main` needs a low part of `low` bytes: it lies at or above 4 GiB,
/// and `low` isn't 0.
pub fn needs_low_part(main: &Range, low: u64) -> bool
    ensures { result ≡ needs_low_part main.now low }
{
    CRASH_ADDR_LOW_MAX <= main.base && 0 < low
}

/// Returns the range for the low part, or `None` if no free range below 4 GiB fits.
#[tactic(auto, unfolding(crate::specs::Places::low_range))]
pub fn low_range(memblock: &Memblock, size: u64) -> Option<Range>
    requires begun { HasFirstItem memblock.now.journal.items }
    requires some { 0 < size }
    ensures range { result ≡ low_range size memblock.now.journal.items }
    ensures some { IfSome result (λ range. 0 < range.size) }
{
    best_range(memblock, size, 0, CRASH_ADDR_LOW_MAX)
}

/// Returns the free range of `size` bytes that memblock picks between the addresses `lo` and `hi`,
/// on any node and aligned to 16 MiB, or `None` if no free range fits.
fn best_range(memblock: &Memblock, size: u64, lo: u64, hi: u64) -> Option<Range>
    requires begun { HasFirstItem memblock.now.journal.items }
    requires some { 0 < size }
    ensures range { result ≡ best_range size lo hi memblock.now.journal.items }
    ensures some { IfSome result (λ range. 0 < range.size) }
    ensures away { IfSome result (λ range.
        OverlapsNoTable memblock.now.kernel range memblock.now.journal.items) }
{
    let query = Query {
        lo,
        hi,
        size,
        align: CRASH_ALIGN,
        node: None,
    };
    let base = memblock.find(&query)?;
    Some(Range { base, size })
}

/// Returns the range of `size` bytes at `base`, or `None` if `base` isn't a multiple of 1 MiB or
/// the range isn't free.
fn fixed_range(memblock: &Memblock, base: u64, size: u64) -> Option<Range>
    requires begun { HasFirstItem memblock.now.journal.items }
    requires some { 0 < size }
    ensures range { result ≡ fixed_range base size memblock.now.journal.items }
    ensures some { IfSome result (λ range. 0 < range.size) }
    ensures away { IfSome result (λ range.
        OverlapsNoTable memblock.now.kernel range memblock.now.journal.items) }
{
    if base % SZ_1M != 0 {
        return None;
    }
    let range = Range::new(base, size)?;
    let query = Query {
        lo: base,
        hi: range.end(),
        size,
        align: 1,
        node: None,
    };
    memblock.find(&query)?;
    Some(range)
}
