//! The rules by which a node's memory gives the span of a zone.

/// Which frames a zone of a node spans (`zone_spanned_pages_in_node` of mm/page_alloc.c). The rule
/// decides start and end of a [`Span`](crate::Span). `present` is the same by both rules: the
/// number of the node's memory frames in the zone (`zone_absent_pages_in_node`).
#[derive(Clone, Copy, Debug, PartialEq, Eq)]
pub enum ZoneRule {
    /// A zone spans from the node's first memory frame in it to the last. A zone in which the node
    /// has no frame has no span.
    Frames,
    /// A zone spans what Linux 6.1 gives it if no zone Movable is requested. The node's hull goes
    /// from its first memory frame to its last. A zone spans the part of the hull that is inside
    /// the zone's borders. A zone that the hull doesn't touch has no span: the kernel sets its
    /// start and its spanned pages to 0.
    ///
    /// If the node has frames below and above a zone but none in it, the zone spans all its frames
    /// and `present` is 0. There is a span for it, since the kernel shows such a zone in
    /// `/proc/zoneinfo` with its spanned pages. The kernel leaves it out of `/proc/buddyinfo` and
    /// of the lists of zones (`populated_zone`). [`populated_spans`](crate::populated_spans) leaves
    /// it out too.
    NodeHull,
}
