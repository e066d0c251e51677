//! The searches of an allocation, and the claim of the memory that they find.
//!
//! A round searches from an address up to the request's maximum or the limit, whichever is smaller.
//! It first searches memory of the request's node and then, unless only that node is allowed,
//! memory of any node. It makes these searches in mirrored memory, if there is any, and then again
//! in all memory (`choose_memblock_flags`). The first round begins at the request's minimum. If it
//! finds nothing and there is a minimum, a second round begins at 0 (`memblock_alloc_range_nid`,
//! `memblock_alloc_internal`).
ghost use Rattle.std.specs.Prelude.{◌≡◌, ℕ, ◌+◌, ◌-◌, ◌^◌, ◌<◌, ◌≤◌, true, false, Some, IsOk, IfOk};
ghost use Rattle.memblock_model.specs.declared.owner.Which.TheVariants as tables_of;
ghost use Rattle.growth_model.specs.Growth.{count_uncovered_pieces, is_full};
ghost use Rattle.growth_model.specs.Request.{attempt, node_attempts, attempts_from, attempts, place_for};
ghost use Rattle.growth_model.specs.Ends.{Allocates};
ghost use Rattle.growth_model.specs.Tables.{HasFirstItem};
ghost use Rattle.memblock_grow.specs.Invariant.{IsMemblockForSomeKernel, KeepsTables, BytesFollowItems};
ghost use Rattle.memblock_grow.specs.Prepared.{Prepares};
ghost use Rattle.memblock_grow.specs.Places.{MirrorsComeFromItems, top_place_in_tables, first_place_in_tables};

use crate::places::AllocSettings;
use crate::reserved::claim;
use bm_base::Range;
use boot_journal::{Journal, Owner};
use growth_model::{Refusal, Request};
use memblock_find::{Mode, Query, find};
use memblock_ranges::Tables;

/// Searches once for a place for the request and returns its address, or `None` if nothing fits.
/// The place begins at or above `lo`, and ends at or below the lower of the request's maximum and
/// `aim.limit`. It is in memory of `node` (of any node if `None`), and in mirrored memory if
/// `mirror` is true. Of the places that fit it is the highest, or the lowest if `aim.upward` is
/// true.
fn find_once(
    tables: &Tables,
    request: &Request,
    aim: AllocSettings,
    lo: u64,
    mirror: bool,
    node: Option<u32>,
) -> Option<u64>
    requires some { 1 ≤ request.now.size }
    requires aligned { (k : ℕ) × (request.now.align ≡ 2 ^ k) }
    ensures { result
        ≡ top_place_in_tables tables.now aim.upward (attempt request.now aim.limit lo mirror node) }
{
    let AllocSettings { limit, upward } = aim;
    let query = Query {
        lo,
        hi: request.max.unwrap_or(limit).min(limit),
        size: request.size,
        align: request.align,
        node,
    };
    let mode = Mode { mirror, up: upward };
    find(tables, &query, mode)
}

/// Returns the address that is found from `lo` on, or `None`. The first search is on the request's
/// node. If it finds nothing, and the request allows other nodes, a second one is on any node. If
/// `mirror` is true, both search only mirrored memory.
fn find_on_nodes(
    tables: &Tables,
    request: &Request,
    aim: AllocSettings,
    lo: u64,
    mirror: bool,
) -> Option<u64>
    requires some { 1 ≤ request.now.size }
    requires aligned { (k : ℕ) × (request.now.align ≡ 2 ^ k) }
    ensures { result ≡ first_place_in_tables tables.now aim.upward
        (node_attempts request.now aim.limit lo mirror) }
{
    let place = find_once(tables, request, aim, lo, mirror, request.node);
    if place.is_some() || request.node.is_none() || request.exact {
        return place;
    }
    find_once(tables, request, aim, lo, mirror, None)
}

/// Returns the address that is found in mirrored memory from `lo` on, or `None`: on the request's
/// node or, if nothing is found there and the request allows other nodes, on any node. Doesn't
/// search if the journal has no item that marks memory as mirrored.
fn mirrored_place(
    journal: &Journal,
    tables: &Tables,
    request: &Request,
    aim: AllocSettings,
    lo: u64,
) -> Option<u64>
    requires some { 1 ≤ request.now.size }
    requires aligned { (k : ℕ) × (request.now.align ≡ 2 ^ k) }
    requires mirrors { MirrorsComeFromItems journal.now.items tables.now }
    ensures { result ≡ first_place_in_tables tables.now aim.upward
        (node_attempts request.now aim.limit lo true) }
{
    if !journal.has_mirrors() {
        return None;
    }
    find_on_nodes(tables, request, aim, lo, true)
}

/// Returns the address that one round of searches finds from `lo` on, or `None`. The round searches
/// mirrored memory first, then any memory.
fn find_in_round(
    journal: &Journal,
    tables: &Tables,
    request: &Request,
    aim: AllocSettings,
    lo: u64,
) -> Option<u64>
    requires some { 1 ≤ request.now.size }
    requires aligned { (k : ℕ) × (request.now.align ≡ 2 ^ k) }
    requires mirrors { MirrorsComeFromItems journal.now.items tables.now }
    ensures { result
        ≡ first_place_in_tables tables.now aim.upward (attempts_from request.now aim.limit lo) }
{
    if let Some(place) = mirrored_place(journal, tables, request, aim, lo) {
        return Some(place);
    }
    find_on_nodes(tables, request, aim, lo, false)
}

/// Returns the address that the first round finds, from the request's minimum on, or else the one
/// that the second round finds, from 0 on. Returns `None` if neither finds one.
fn place_for(
    journal: &Journal,
    tables: &Tables,
    request: &Request,
    aim: AllocSettings,
) -> Option<u64>
    requires some { 1 ≤ request.now.size }
    requires aligned { (k : ℕ) × (request.now.align ≡ 2 ^ k) }
    requires mirrors { MirrorsComeFromItems journal.now.items tables.now }
    ensures { result
        ≡ first_place_in_tables tables.now aim.upward (attempts request.now aim.limit) }
{
    let place = find_in_round(journal, tables, request, aim, request.min);
    if place.is_some() || request.min == 0 {
        return place;
    }
    find_in_round(journal, tables, request, aim, 0)
}

/// Finds free memory for the request, claims it for the owner, and returns its address
/// (`memblock_alloc_range_nid`). If memory is found, the reserved table has room for the claim, and
/// the journal for an item, the call can't fail.
///
/// # Errors
///
/// - `NoGap`: no search of the request finds free memory. Nothing is changed.
/// - `NoGapForTable`: the reserved table has to grow, and no free memory is found for it.
/// - `Memory`: this program is out of memory.
pub fn allocate(
    journal: &mut Journal,
    tables: &mut Tables,
    aim: AllocSettings,
    request: &Request,
    owner: Owner,
) -> Result<u64, Refusal>
    requires some { 1 ≤ request.now.size }
    requires aligned { (k : ℕ) × (request.now.align ≡ 2 ^ k) }
    requires kept { IsMemblockForSomeKernel journal.old.items tables.old aim }
    requires begun { HasFirstItem journal.old.items }
    ensures ends { Allocates result journal.old.items journal.new.items
        (place_for request.now journal.old.items) request.now.size owner }
    ensures inside { IfOk result (λ base. base + request.now.size < 2 ^ 64) }
    ensures kept { KeepsTables journal.old.items tables.old journal.new.items tables.new aim }
    ensures bytes { BytesFollowItems journal.old.items tables.old journal.new.items tables.new aim }
    ensures prepared { Prepares journal.old.items journal.new.items tables.old.store
        tables.new.store }
    ensures ready { (place : ℕ) → place_for request.now journal.old.items ≡ Some place
        → 0 < journal.old.spare →
        is_full tables_of.Reserved (count_uncovered_pieces tables_of.Reserved
        (record { base = place; size = request.now.size })) journal.old.items ≡ false →
        IsOk result × (journal.new.spare ≡ journal.old.spare - 1) }
{
    let Some(base) = place_for(journal, tables, request, aim) else {
        return Err(Refusal::NoGap)
    };
    let range = Range {
        base,
        size: request.size,
    };
    claim(journal, tables, aim, range, owner)?;
    Ok(base)
}
