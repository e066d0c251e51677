//! Computes spans by the rule of Linux 6.1. The hull of a node is all frames from its first memory
//! frame to its last. A zone spans the part of the hull that is inside the zone's borders. The hull
//! follows from the slots, which have the frames from the node's first to its last in each zone.

ghost use Rattle.std.specs.Prelude.{◌≡◌, ℕ, ◌++◌, None, get_or, option_to_list, IfOk, OnOk};
ghost use Rattle.buddy_blocks.specs.Frames.{Frames};
ghost use Rattle.zone_spans.specs.Slots.{SlotsHoldSpans};
ghost use Rattle.zone_spans.specs.Hull.{zone_start, zone_end, clamp_to_zone, span_in_hull, hull_spans_of};
ghost use Rattle.zone_spans.specs.HullSlots.{hull_with_span, hull_of_slots, present_in_slot, hull_spans_of_slots};

use crate::span::Span;
use bm_base::{MAX_DMA_FRAME, MAX_DMA32_FRAME, MAX_NODES, Memory, Zone};
use std::alloc::Global;

/// The frames from the first to the last of a node's memory, in all zones.
#[derive(Clone, Copy)]
struct HullFrames {
    /// The first frame.
    first: u64,
    /// One more than the last frame.
    end: u64,
}

/// Returns the spans of the zones of all nodes by the nodes' hulls, sorted by node and then by
/// zone. The hull of a node is all frames from its first memory frame to its last. `slots` must
/// have the span of each node and zone, from the node's first frame in the zone to its last.
///
/// # Errors
///
/// - `Memory`: the program ran out of memory.
pub fn hull_spans_in_slots(alloc: Global, slots: &[Option<Span>]) -> Result<Vec<Span>, Memory>
    ensures { IfOk result (λ spans. (f : Frames) → SlotsHoldSpans f slots.now
        → spans.items ≡ hull_spans_of f) }
{
    let mut spans = Vec::new(alloc);
    for node in 0..MAX_NODES {
        let first = 3 * node as usize;
        let dma = slot_at(slots, first);
        let dma32 = slot_at(slots, first + 1);
        let normal = slot_at(slots, first + 2);
        add_zone_parts_of_hull(&mut spans, node, dma, dma32, normal)?;
    }
    Ok(spans)
}

/// Appends, for each zone, the part of the node's hull that lies in it, if there is one. `dma`,
/// `dma32` and `normal` give the hull and the numbers of frames: each is the span from the node's
/// first frame in that zone to its last, or `None` if it has no frame there.
///
/// # Errors
///
/// - `Memory`: the program ran out of memory.
fn add_zone_parts_of_hull(
    spans: &mut Vec<Span>,
    node: u32,
    dma: Option<Span>,
    dma32: Option<Span>,
    normal: Option<Span>,
) -> Result<(), Memory>
    ensures { OnOk result (spans.new.items ≡
        spans.old.items ++ hull_spans_of_slots node dma dma32 normal) }
{
    let hull = hull_of_slots(dma, dma32, normal);
    push_if_some(
        spans,
        span_in_hull(node, Zone::Dma, present_in_slot(dma), hull),
    )?;
    push_if_some(
        spans,
        span_in_hull(node, Zone::Dma32, present_in_slot(dma32), hull),
    )?;
    push_if_some(
        spans,
        span_in_hull(node, Zone::Normal, present_in_slot(normal), hull),
    )
}

/// Returns the content of a slot, which is `None` past the last slot.
fn slot_at(slots: &[Option<Span>], index: usize) -> Option<Span>
    ensures { result ≡ get_or slots.now index None }
{
    if index < slots.len() {
        slots[index]
    } else {
        None
    }
}

/// Appends the span, if there is one.
///
/// # Errors
///
/// - `Memory`: the program ran out of memory.
fn push_if_some(spans: &mut Vec<Span>, span: Option<Span>) -> Result<(), Memory>
    ensures { OnOk result (spans.new.items ≡ spans.old.items ++ option_to_list span) }
{
    if let Some(span) = span {
        spans.push(span)?;
    }
    Ok(())
}

/// Returns the hull of a node from its slots, the spans of its memory in the three zones: all
/// frames from the first of these spans to the last. Returns `None` if there is no span.
fn hull_of_slots(dma: Option<Span>, dma32: Option<Span>, normal: Option<Span>) -> Option<HullFrames>
    ensures { result ≡ hull_of_slots dma dma32 normal }
{
    hull_with_span(hull_with_span(hull_with_span(None, dma), dma32), normal)
}

/// Returns the hull extended to the end of the span, whose frames must be above all frames of the
/// hull. Without a hull, returns the frames of the span; without a span, returns the hull.
fn hull_with_span(hull: Option<HullFrames>, span: Option<Span>) -> Option<HullFrames>
    ensures { result ≡ hull_with_span hull span }
{
    match (hull, span) {
        (hull, None) => hull,
        (None, Some(span)) => Some(HullFrames {
            first: span.start,
            end: span.end,
        }),
        (Some(hull), Some(span)) => Some(HullFrames {
            first: hull.first,
            end: span.end,
        }),
    }
}

/// Returns the number of the node's memory frames in the zone. `slot` is the span of this node and
/// zone, or `None` if there are no such frames.
fn present_in_slot(slot: Option<Span>) -> u64
    ensures { result ≡ present_in_slot slot }
{
    match slot {
        Some(span) => span.present,
        None => 0,
    }
}

/// Returns the span of a zone of the node by the node's hull: both ends clamped to the zone's
/// borders. Returns `None` if no frame of the hull is in the zone.
fn span_in_hull(node: u32, zone: Zone, present: u64, hull: Option<HullFrames>) -> Option<Span>
    ensures { result ≡ span_in_hull node zone present hull }
{
    let hull = hull?;
    let start = clamp_to_zone(zone, hull.first);
    let end = clamp_to_zone(zone, hull.end);
    if start < end {
        Some(Span {
            node,
            zone,
            start,
            end,
            present,
        })
    } else {
        None
    }
}

/// Returns the frame if it is inside the zone's borders, else the border next to it (`clamp`).
fn clamp_to_zone(zone: Zone, frame: u64) -> u64
    ensures { result ≡ clamp_to_zone zone frame }
{
    frame.max(zone_start(zone)).min(zone_end(zone))
}

/// Returns the first frame of the zone (`arch_zone_lowest_possible_pfn`).
fn zone_start(zone: Zone) -> u64
    ensures { result ≡ zone_start zone }
{
    match zone {
        Zone::Dma => 0,
        Zone::Dma32 => MAX_DMA_FRAME,
        Zone::Normal => MAX_DMA32_FRAME,
    }
}

/// Returns one more than the last frame of the zone (`arch_zone_highest_possible_pfn`). Zone Normal
/// has all frames from 4 GiB on.
fn zone_end(zone: Zone) -> u64
    ensures { result ≡ zone_end zone }
{
    match zone {
        Zone::Dma => MAX_DMA_FRAME,
        Zone::Dma32 => MAX_DMA32_FRAME,
        Zone::Normal => 1 << 52,
    }
}
