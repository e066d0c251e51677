//! Computes the spans from the memory table. The handover of free frames to the page allocator
//! reads the records by the same function (`frames_of_record`). Each frame is therefore in the
//! span of the node for which it is freed.

ghost use Rattle.std.specs.Prelude.{◌≡◌, ◌^◌, ◌*◌, ◌≤◌, IfOk, vec_len};
ghost use Rattle.address_runs.specs.Runs.{value_at};
ghost use Rattle.memblock_ranges.specs.Tables.{records_of_head};
ghost use Rattle.memblock_frames.specs.Frames.{node_of_frame};
ghost use Rattle.memblock_frames.specs.HeadRecords.{HasRecords, AreWholeFrames};
ghost use Rattle.zone_spans.specs.Spans.{spans_of};
ghost use Rattle.zone_spans.specs.Slots.{SlotsHoldSpans};
ghost use Rattle.zone_spans.specs.Hull.{spans_by, populated_spans};

use crate::hull::hull_spans_in_slots;
use crate::rule::ZoneRule;
use crate::slots::{add_frames, spans_in_slots};
use bm_base::{Memory, Zone};
use memblock_frames::frames_of_record;
use memblock_ranges::Heads;
use phys_store::Store;
use std::alloc::Global;

/// The frames that the memory of a node spans in a zone. All numbers are of frames.
#[derive(Clone, Copy, Debug, PartialEq, Eq)]
pub struct Span {
    pub node: u32,
    pub zone: Zone,
    /// The first frame.
    pub start: u64,
    /// One more than the last frame.
    pub end: u64,
    /// The number of frames of this node and zone. There may be other frames between the first and
    /// the last.
    pub present: u64,
}

/// Returns one span for each node and zone with memory, sorted by node and then by zone. The
/// records of the memory table must be whole frames.
///
/// # Errors
///
/// - `Memory`: the program ran out of memory.
pub fn spans(alloc: Global, store: &Store, heads: &Heads) -> Result<Vec<Span>, Memory>
    requires memory { HasRecords store.now heads.now.memory (2 ^ 64) }
    requires whole { AreWholeFrames (records_of_head store.now heads.now.memory) }
    ensures { IfOk result (λ spans. spans.items ≡
        spans_of (node_of_frame (value_at (records_of_head store.now heads.now.memory)))) }
{
    spans_by(ZoneRule::Frames, alloc, store, heads)
}

/// Returns the spans of the zones of all nodes as `rule` defines them, sorted by node and then by
/// zone. The records of the memory table must be whole frames.
///
/// # Errors
///
/// - `Memory`: the program ran out of memory.
pub fn spans_by(
    rule: ZoneRule,
    alloc: Global,
    store: &Store,
    heads: &Heads,
) -> Result<Vec<Span>, Memory>
    requires memory { HasRecords store.now heads.now.memory (2 ^ 64) }
    requires whole { AreWholeFrames (records_of_head store.now heads.now.memory) }
    ensures { IfOk result (λ spans. spans.items ≡
        spans_by rule (node_of_frame (value_at (records_of_head store.now heads.now.memory)))) }
{
    let slots = slots_of_memory(alloc, store, heads)?;
    match rule {
        ZoneRule::Frames => spans_in_slots(alloc, &slots),
        ZoneRule::NodeHull => hull_spans_in_slots(alloc, &slots),
    }
}

/// Returns those of `spans` whose zone has memory (`populated_zone`), in the order of `spans`. By
/// the rule [`Frames`](ZoneRule::Frames) these are all spans.
///
/// # Errors
///
/// - `Memory`: the program ran out of memory.
pub fn populated_spans(alloc: Global, spans: &[Span]) -> Result<Vec<Span>, Memory>
    ensures { IfOk result (λ populated. populated.items ≡ populated_spans spans.now) }
{
    let mut populated = Vec::new(alloc);
    for span in spans {
        if span.present > 0 {
            populated.push(*span)?;
        }
    }
    Ok(populated)
}

/// Returns the slots with the span of each node and zone, from the node's first frame in the zone
/// to the last. The records of the memory table must be whole frames.
///
/// # Errors
///
/// - `Memory`: the program ran out of memory.
fn slots_of_memory(alloc: Global, store: &Store, heads: &Heads) -> Result<Vec<Option<Span>>, Memory>
    requires memory { HasRecords store.now heads.now.memory (2 ^ 64) }
    requires whole { AreWholeFrames (records_of_head store.now heads.now.memory) }
    ensures spans { IfOk result (λ slots. SlotsHoldSpans
        (node_of_frame (value_at (records_of_head store.now heads.now.memory))) slots.items) }
    ensures few { IfOk result (λ slots. vec_len slots ≤ 3072) }
{
    let mut slots = Vec::new(alloc);
    for i in 0..heads.memory.count {
        let frames = frames_of_record(store, &heads.memory, i);
        if let Some(node) = frames.node {
            add_frames(&mut slots, node, frames.first, frames.end)?;
        }
    }
    Ok(slots)
}
