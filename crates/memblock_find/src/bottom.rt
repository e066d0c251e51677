//! The search from below (`__memblock_find_range_bottom_up`). It walks over unclaimed memory from
//! the start of the query's window up, one stretch of a single label at a time. The first stretch
//! in which the query fits has the lowest address at which it fits.
ghost use Rattle.std.specs.Prelude.{◌≡◌, ◌≢◌, ℕ, ◌^◌, ◌≤◌, true, max, min, MatchOption, Option, Some, None};
ghost use Rattle.address_runs.specs.Runs.{value_at};
ghost use Rattle.address_runs.specs.Sweep.{HasValueBetween};
ghost use Rattle.memblock_model.specs.Labels.{Labels};
ghost use Rattle.memblock_model.specs.Search.{outermost_fit};
ghost use Rattle.memblock_find.specs.Unclaimed.{unclaimed_memory, IsStretchWithTop};
ghost use Rattle.memblock_find.specs.Places.{FitsBetween, NoPlaceBeginsBetween, IsLowestPlaceFrom};

use crate::cursor::record_readers;
use crate::node::is_allowed_label;
use crate::up::start_walk_up;
use bm_base::FRAME_SIZE;
use memblock_model::{Label, Query};
use memblock_ranges::Tables;

/// Returns the least address at which the query fits, or `None` if it fits nowhere. If `mirror` is
/// true, only mirrored memory is searched. The query's size must be at least 1, and its alignment a
/// power of two.
// Never compiled into `find`: with both loops in one function there are too few registers, which
// costs time at each record.
#[inline(never)]
pub fn find_upward(tables: &Tables, query: &Query, mirror: bool) -> Option<u64>
    requires some { 1 ≤ query.now.size }
    requires aligned { (k : ℕ) × (query.now.align ≡ 2 ^ k) }
    ensures { result ≡ outermost_fit (record { mirror = mirror; up = true })
        (value_at tables.now.memory.records) (value_at tables.now.reserved.records) query.now }
{
    let lists = record_readers(tables);
    let high = query.hi;
    let mut cursor = start_walk_up(&lists, query.lo.max(FRAME_SIZE));
    while cursor.at < high {
        let place = lowest_place_in_stretch(
            query,
            mirror,
            cursor.unclaimed_label(),
            cursor.at,
            cursor.top(),
        );
        if place.is_some() {
            return place;
        }
        cursor = cursor.up(&lists);
    }
    None
}

/// Returns the least address, from `from` to just below `until`, at which the query fits, or
/// `None`. `label` is the label of all addresses from `from` to just below `until`, or `None` if
/// none of them is unclaimed memory. The address `until` must have another label, unless `label` is
/// `None`.
fn lowest_place_in_stretch(
    query: &Query,
    mirror: bool,
    label: Option<Label>,
    from: u64,
    until: u64,
) -> Option<u64>
    requires some { 1 ≤ query.now.size }
    requires aligned { (k : ℕ) × (query.now.align ≡ 2 ^ k) }
    requires window { max query.now.lo FRAME_SIZE ≤ from }
    ensures { (memory reserved : Labels) → HasValueBetween (unclaimed_memory memory reserved) from
        until label
        →
        (label ≢ None → IsStretchWithTop (unclaimed_memory memory reserved) from until label) →
        MatchOption result (NoPlaceBeginsBetween mirror memory reserved query.now from until)
        (IsLowestPlaceFrom mirror memory reserved query.now from) }
{
    let Some(found) = label else {
        return None;
    };
    if !is_allowed_label(mirror, query.node, found) {
        return None;
    }
    first_between(from, until.min(query.hi), query.size, query.align)
}

/// Returns the least multiple of `align` at which `size` bytes lie between the addresses `low` and
/// `high`, or `None` if there is none. `align` must be a power of two.
fn first_between(low: u64, high: u64, size: u64, align: u64) -> Option<u64>
    requires { (k : ℕ) × (align ≡ 2 ^ k) }
    ensures { MatchOption result ((b : ℕ) → FitsBetween low high size align b → ⊥)
        (λ a. FitsBetween low high size align a
        × ((b : ℕ) → FitsBetween low high size align b → a ≤ b)) }
{
    let top = high.checked_sub(size)?;
    let past = low & (align - 1);
    let place = low.checked_add((align - past) & (align - 1))?;
    if place <= top { Some(place) } else { None }
}
