//! Keeps the spans of each node and zone in slots, three for each node up to the highest node that
//! has been found. A record of memory finds its slot by its node and zone, so one pass over the
//! records is enough.

ghost use Rattle.std.specs.Prelude.{◌≡◌, ◌^◌, ℕ, ◌+◌, ◌*◌, ◌<◌, ◌≤◌, None, get_or, max, OnOk, IfOk, vec_len};
ghost use Rattle.bm_base.specs.Zones.{zone_of};
ghost use Rattle.address_runs.specs.Edits.{IsEmptyFrom};
ghost use Rattle.buddy_blocks.specs.Frames.{Frames};
ghost use Rattle.zone_spans.specs.Slots.{zone_index, SlotsHoldSpans, SpansHaveAtMost, frames_with_node_run, slot_after, spans_in_slots};

use crate::span::Span;
use bm_base::{Memory, Zone, zone_of};
use buddy_blocks::zone_until;
use std::alloc::Global;

/// Returns the index of a zone's slot among the three slots of a node: 0 for DMA, 1 for DMA32 and
/// 2 for Normal.
fn zone_index(zone: Zone) -> u64
    ensures { result ≡ zone_index zone }
{
    match zone {
        Zone::Dma => 0,
        Zone::Dma32 => 1,
        Zone::Normal => 2,
    }
}

/// Adds the frames from `first` to below `end`, which are memory of this node, to the spans in the
/// slots. They must be above all frames that were added before.
///
/// # Errors
///
/// - `Memory`: the program ran out of memory.
pub fn add_frames(
    slots: &mut Vec<Option<Span>>,
    node: u32,
    first: u64,
    end: u64,
) -> Result<(), Memory>
    requires node { node < 1024 }
    requires order { first ≤ end }
    requires low { end ≤ 2 ^ 52 }
    requires few { vec_len slots.old ≤ 3072 }
    requires bounded { SpansHaveAtMost first slots.old.items }
    ensures told { OnOk result ((f : Frames) → IsEmptyFrom first f → SlotsHoldSpans f
        slots.old.items →
        SlotsHoldSpans (frames_with_node_run first end node f) slots.new.items) }
    ensures few { OnOk result (vec_len slots.new ≤ 3072) }
    ensures bounded { OnOk result (SpansHaveAtMost end slots.new.items) }
{
    let mut at = first;
    while at < end {
        let until = zone_until(at, end);
        add_zone_frames(slots, node, zone_of(at), at, until)?;
        at = until;
    }
    Ok(())
}

/// Adds the frames from `start` to below `end`, which are memory of this node and all in this zone,
/// to the span in the slot of this node and zone. They must be above all frames of that span.
///
/// # Errors
///
/// - `Memory`: the program ran out of memory.
fn add_zone_frames(
    slots: &mut Vec<Option<Span>>,
    node: u32,
    zone: Zone,
    start: u64,
    end: u64,
) -> Result<(), Memory>
    requires node { node < 1024 }
    requires order { start < end }
    requires low { end ≤ 2 ^ 52 }
    requires few { vec_len slots.old ≤ 3072 }
    requires bounded { SpansHaveAtMost start slots.old.items }
    ensures slots { OnOk result ((i : ℕ) → get_or slots.new.items i None ≡
        slot_after node zone start end (get_or slots.old.items i None) i) }
    ensures few { OnOk result (vec_len slots.new ≤ 3072) }
{
    let i = (3 * node as u64 + zone_index(zone)) as usize;
    grow_slots(slots, i + 1)?;
    let count = end - start;
    slots[i] = match slots[i] {
        None => Some(Span {
            node,
            zone,
            start,
            end,
            present: count,
        }),
        Some(span) => Some(Span {
            node,
            zone,
            start: span.start,
            end,
            present: span.present + count,
        }),
    };
    Ok(())
}

/// Appends empty slots until there are `count`.
///
/// # Errors
///
/// - `Memory`: the program ran out of memory.
fn grow_slots(slots: &mut Vec<Option<Span>>, count: usize) -> Result<(), Memory>
    ensures same { OnOk result ((i : ℕ)
        → get_or slots.new.items i None ≡ get_or slots.old.items i None) }
    ensures enough { OnOk result (count ≤ vec_len slots.new) }
    ensures few { OnOk result (vec_len slots.new ≤ max (vec_len slots.old) count) }
{
    while slots.len() < count {
        slots.push(None)?;
    }
    Ok(())
}

/// Returns the spans in the slots, in the order of the slots.
///
/// # Errors
///
/// - `Memory`: the program ran out of memory.
pub fn spans_in_slots(alloc: Global, slots: &[Option<Span>]) -> Result<Vec<Span>, Memory>
    ensures { IfOk result (λ spans. spans.items ≡ spans_in_slots slots.now) }
{
    let mut spans = Vec::new(alloc);
    for slot in slots {
        if let Some(span) = slot {
            spans.push(*span)?;
        }
    }
    Ok(spans)
}
