//! Computes the zones of each node: the range of frames that a zone spans, and how many of them
//! are memory.
//!
//! The page allocator keeps its lists for each zone of each node. The range and the number of
//! frames of a zone come from the memory table (`calculate_node_totalpages`,
//! `zone_spanned_pages_in_node`, `zone_absent_pages_in_node`). [`spans`] reads the records of the
//! table from the bytes in which it lies, in one pass, and returns a list of [`Span`].
//!
//! Linux 6.1 lets a zone span more than its own memory of a node. [`spans_by`] returns the spans by
//! a [`ZoneRule`]: that of [`spans`], or the kernel's. By the kernel's rule the spans of two nodes
//! may overlap, and a zone may have a span without memory; [`populated_spans`] leaves those out.
//!
//! `specs/Spans.antt` defines a span frame by frame, and `specs/Hull.antt` a span by the node's
//! hull. A law is an empty function whose contract is a proven fact. [`spans_contain_their_frames`]
//! states what a span is for all frames at once: its first frame, its last, the number of its
//! memory frames, and that no frame is left out. [`hull_spans_are_of_nodes`] does so for the
//! kernel's rule. In contracts, a name means the definition in `specs/`.
#![tactic(auto)]

mod hull;
mod laws;
mod rule;
mod slots;
mod span;

pub use laws::{
    frames_rule_gives_populated_spans, frames_rule_gives_spans, hull_spans_are_of_nodes,
    spans_contain_their_frames, spans_have_their_frames,
};
pub use rule::ZoneRule;
pub use span::{Span, populated_spans, spans, spans_by};
