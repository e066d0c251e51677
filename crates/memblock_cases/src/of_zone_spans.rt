//! The ranges of frames that the nodes of whole machines span in each zone. The expected values
//! come from outside this project. Those by the rule `NodeHull`, and the memory of these machines,
//! were read from running kernels with a debugger (`examples/NAME/lists/kernel.txt`).

use crate::ranges::{IN_TURN, Part};
use crate::tables::tables_of;
use bm_base::{FRAME_SIZE, Zone};
use buddy_blocks::MAX_FRAMES;
use memblock_frames::{has_records, has_whole_frames};
use std::alloc::Global;
use std::test::Fail;
use zone_spans::{Span, ZoneRule, populated_spans, spans, spans_by};

// The memory of `border-zones`: node 0 has frames below 16 MiB and from 4 GiB on, but none in
// between.
const BORDERS: [Part; 5] = [
    (0x1000, 0x9_F000, 0),
    (0x10_0000, 0xFF_F000, 0),
    (0xFF_F000, 0x2FE0_1000, 1),
    (0x3030_1000, 0xBFF0_0000, 1),
    (0x1_0000_0000, 0x1_3FF7_D000, 0),
];

// The memory of `kernel-high-nodes`: nodes 0 and 1 take turns below 4 GiB.
const HIGH_NODES: [Part; 8] = [
    (0x1000, 0x9_F000, 0),
    (0x10_0000, 0xFF_D000, 0),
    (0xFF_D000, 0x100_2000, 1),
    (0x100_3000, 0x100_5000, 1),
    (0x100_5000, 0xA00_5000, 0),
    (0xA00_5000, 0xC000_0000, 1),
    (0x1_0000_0000, 0x1_1234_5000, 0),
    (0x1_1234_5000, 0x1_4000_0000, 2),
];

// The memory of `srat-order`, with the number 3 for its node 1. Here node 1 has no memory.
const ORDER: [Part; 4] = [
    (0x1000, 0x9_F000, 0),
    (0x10_0000, 0x4000_0000, 0),
    (0x4000_0000, 0xBFF0_0000, 3),
    (0x1_0000_0000, 0x1_4000_0000, 2),
];

// Returns a span.
fn span(node: u32, zone: Zone, start: u64, end: u64, present: u64) -> Span {
    Span {
        node,
        zone,
        start,
        end,
        present,
    }
}

// Returns the spans of this memory by `spans_by` with the rule, or by `spans` if the rule is
// `None`.
fn spans_of(alloc: Global, rule: Option<ZoneRule>, memory: &[Part]) -> Result<Vec<Span>, Fail> {
    let (store, heads) = tables_of(alloc, memory, &[])?.into_parts();
    if has_records(&store, &heads.memory, FRAME_SIZE * MAX_FRAMES)
        && has_whole_frames(&store, &heads.memory)
    {
        let spans = match rule {
            Some(rule) => spans_by(rule, alloc, &store, &heads)?,
            None => spans(alloc, &store, &heads)?,
        };
        return Ok(spans);
    }
    Err("records".into())
}

// A virtual machine of 128 MiB with nodes that take turns. The rule `Frames` gives what `spans`
// returns.
#[test]
fn nodes_that_take_turns(rt: HostRuntime) -> Result<(), Fail> {
    let expected = [
        span(0, Zone::Dma, 1, 4096, 3998),
        span(0, Zone::Dma32, 4096, 32736, 20704),
        span(1, Zone::Dma32, 16640, 24576, 7936),
    ];
    for rule in [None, Some(ZoneRule::Frames)] {
        let spans = spans_of(rt.alloc(), rule, &IN_TURN)?;
        assert!(rt;
            spans.as_slice() == expected.as_slice(),
            "{rule:?}: {spans:?}"
        );
    }
    Ok(())
}

// The hulls of two nodes that take turns: node 0's is cut at 16 MiB and 4 GiB, and node 1's at
// 16 MiB. Their spans overlap in both zones.
#[test]
fn hulls_of_nodes_that_take_turns(rt: HostRuntime) -> Result<(), Fail> {
    let spans = spans_of(rt.alloc(), Some(ZoneRule::NodeHull), &HIGH_NODES)?;
    let expected = [
        span(0, Zone::Dma, 1, 4096, 3995),
        span(0, Zone::Dma32, 4096, 1_048_576, 36864),
        span(0, Zone::Normal, 1_048_576, 1_123_141, 74565),
        span(1, Zone::Dma, 4093, 4096, 3),
        span(1, Zone::Dma32, 4096, 786_432, 745_471),
        span(2, Zone::Normal, 1_123_141, 1_310_720, 187_579),
    ];
    assert!(rt; spans.as_slice() == expected.as_slice(), "{spans:?}");
    Ok(())
}

// A zone inside a node's hull in which the node has no frame. The debugger read only zones that
// have frames; the span without frames is what `zone_spanned_pages_in_node` computes.
#[test]
fn hull_over_a_zone_without_frames(rt: HostRuntime) -> Result<(), Fail> {
    let spans = spans_of(rt.alloc(), Some(ZoneRule::NodeHull), &BORDERS)?;
    let expected = [
        span(0, Zone::Dma, 1, 4096, 3997),
        span(0, Zone::Dma32, 4096, 1_048_576, 0),
        span(0, Zone::Normal, 1_048_576, 1_310_589, 262_013),
        span(1, Zone::Dma, 4095, 4096, 1),
        span(1, Zone::Dma32, 4096, 786_176, 780_800),
    ];
    assert!(rt; spans.as_slice() == expected.as_slice(), "{spans:?}");
    let populated = populated_spans(rt.alloc(), &spans)?;
    let [dma, _, normal, other_dma, other_dma32] = expected;
    let with_frames = [dma, normal, other_dma, other_dma32];
    assert!(rt;
        populated.as_slice() == with_frames.as_slice(),
        "{populated:?}"
    );
    Ok(())
}

// A node without memory has no spans, by either rule.
#[test]
fn node_without_memory(rt: HostRuntime) -> Result<(), Fail> {
    let expected = [
        span(0, Zone::Dma, 1, 4096, 3998),
        span(0, Zone::Dma32, 4096, 262_144, 258_048),
        span(2, Zone::Normal, 1_048_576, 1_310_720, 262_144),
        span(3, Zone::Dma32, 262_144, 786_176, 524_032),
    ];
    for rule in [ZoneRule::Frames, ZoneRule::NodeHull] {
        let spans = spans_of(rt.alloc(), Some(rule), &ORDER)?;
        assert!(rt;
            spans.as_slice() == expected.as_slice(),
            "{rule:?}: {spans:?}"
        );
    }
    Ok(())
}
