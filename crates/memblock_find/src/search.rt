//! The search (`memblock_find_in_range_node`), with the part that goes from the top down
//! (`__memblock_find_range_top_down`). It walks over unclaimed memory from the end of the query's
//! window down, one stretch of a single label at a time. The first stretch in which the query fits
//! has the highest address at which it fits. A search for memory of a node, or for mirrored memory,
//! skips other memory (`node.rt`). The search from below is in `bottom.rt`.
ghost use Rattle.std.specs.Prelude.{◌≡◌, ◌≢◌, ℕ, ◌^◌, ◌≤◌, false, max, MatchOption, Option, Some, None};
ghost use Rattle.address_runs.specs.Runs.{value_at};
ghost use Rattle.address_runs.specs.Sweep.{HasValueBetween};
ghost use Rattle.memblock_model.specs.Labels.{Labels};
ghost use Rattle.memblock_model.specs.Search.{outermost_fit};
ghost use Rattle.memblock_find.specs.Unclaimed.{unclaimed_memory, IsStretchWithBottom};
ghost use Rattle.memblock_find.specs.Places.{FitsBetween, NoPlaceEndsBetween, IsHighestPlaceEndingBy};

use crate::bottom::find_upward;
use crate::cursor::{RecordReaders, record_readers};
use crate::down::start_walk_down;
use crate::node::{end_of_records, find_restricted_downward, is_allowed_label};
use bm_base::FRAME_SIZE;
use memblock_model::{Label, Mode, Query};
use memblock_ranges::Tables;

/// Returns the greatest address at which the query fits, or the least if `mode.up` is true. `None`
/// means that it fits nowhere.
///
/// It fits at an address if the range of its size there is aligned, in the query's window, above
/// the first frame, and entirely unclaimed memory of one label. That label must have the query's
/// node, if it names one, and must be mirrored if `mode.mirror` is true. The size must be at least
/// 1, and the alignment a power of two.
pub fn find(tables: &Tables, query: &Query, mode: Mode) -> Option<u64>
    requires some { 1 ≤ query.now.size }
    requires aligned { (k : ℕ) × (query.now.align ≡ 2 ^ k) }
    ensures { result ≡ outermost_fit mode (value_at tables.now.memory.records)
        (value_at tables.now.reserved.records) query.now }
{
    let Mode { mirror, up } = mode;
    if up {
        find_upward(tables, query, mirror)
    } else if mirror || query.node.is_some() {
        find_restricted_downward(tables, query, mirror)
    } else {
        find_any_downward(&record_readers(tables), query)
    }
}

/// Returns the greatest address at which the query fits, in mirrored or other memory, or `None`. If
/// the query's window ends above all memory, the walk begins where memory ends.
fn find_any_downward(lists: &RecordReaders<'_>, query: &Query) -> Option<u64>
    requires some { 1 ≤ query.now.size }
    requires aligned { (k : ℕ) × (query.now.align ≡ 2 ^ k) }
    ensures { result ≡ outermost_fit (record { mirror = false; up = false })
        (value_at lists.now.memory) (value_at lists.now.reserved) query.now }
{
    let low = query.lo.max(FRAME_SIZE);
    let end = end_of_records(&lists.memory, lists.memory.count());
    let high = query.hi.min(end);
    let mut cursor = start_walk_down(lists, high);
    while cursor.at > low {
        let place = highest_place_in_stretch(
            query,
            low,
            false,
            cursor.unclaimed_label(),
            cursor.bottom(),
            cursor.at,
        );
        if place.is_some() {
            return place;
        }
        cursor = cursor.down(lists);
    }
    None
}

/// Returns the greatest address at which the query fits in a range that ends past `from` and at or
/// below `until`, or `None`. `label` is the label of all addresses from `from` to just below
/// `until`, or `None` if none of them is unclaimed memory. If there is a label, the address right
/// below `from` must have another. `low` is the lowest address that the search may return: the
/// start of the query's window or the second frame, whichever is higher.
pub fn highest_place_in_stretch(
    query: &Query,
    low: u64,
    mirror: bool,
    label: Option<Label>,
    from: u64,
    until: u64,
) -> Option<u64>
    requires some { 1 ≤ query.now.size }
    requires aligned { (k : ℕ) × (query.now.align ≡ 2 ^ k) }
    requires low { low ≡ max query.now.lo FRAME_SIZE }
    requires window { until ≤ query.now.hi }
    ensures { (memory reserved : Labels) → HasValueBetween (unclaimed_memory memory reserved) from
        until label
        →
        (label ≢ None → IsStretchWithBottom (unclaimed_memory memory reserved) from until label) →
        MatchOption result (NoPlaceEndsBetween mirror memory reserved query.now from until)
        (IsHighestPlaceEndingBy mirror memory reserved query.now until) }
{
    let Some(found) = label else {
        return None;
    };
    if !is_allowed_label(mirror, query.node, found) {
        return None;
    }
    last_between(from.max(low), until, query.size, query.align)
}

/// Returns the greatest multiple of `align` at which `size` bytes lie between the addresses `low`
/// and `high`, or `None` if there is none. `align` must be a power of two.
fn last_between(low: u64, high: u64, size: u64, align: u64) -> Option<u64>
    requires { (k : ℕ) × (align ≡ 2 ^ k) }
    ensures { MatchOption result ((b : ℕ) → FitsBetween low high size align b → ⊥)
        (λ a. FitsBetween low high size align a
        × ((b : ℕ) → FitsBetween low high size align b → b ≤ a)) }
{
    let top = high.checked_sub(size)?;
    let place = top - (top & (align - 1));
    if low <= place { Some(place) } else { None }
}
