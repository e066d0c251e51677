//! The laws of this crate. The definition builds a span frame by frame, from the lowest frame up.
//! The laws say which frames the finished span contains.

ghost use Rattle.std.specs.Prelude.{◌≡◌, ◌^◌, ℕ, ◌<◌, ◌≤◌, true, false, Some, None};
ghost use Rattle.bm_base.specs.declared.zone.Zone.{Zone as AnyZone};
ghost use Rattle.bm_base.specs.Zones.{zone_of};
ghost use Rattle.buddy_blocks.specs.Frames.{Frames};
ghost use Rattle.zone_spans.specs.declared.rule.ZoneRule.{ZoneRule as AnyRule};
ghost use Rattle.zone_spans.specs.declared.rule.ZoneRule.TheVariants as rules;
ghost use Rattle.zone_spans.specs.declared.span.Span.{Span as AnySpan};
ghost use Rattle.zone_spans.specs.Spans.{is_in_node_zone, span_of, spans_of, count_below_in_zone, IsSpan};
ghost use Rattle.zone_spans.specs.Hull.{hull_span_of, span_by, spans_by, populated_spans, IsHullSpan, IsInHull};

/// Law: the span of a node and a zone begins at their lowest frame and ends after their highest.
/// It contains all their frames, and `present` is the number of these frames. There is no span
/// exactly if no frame is of that node and zone.
pub fn spans_contain_their_frames()
    ensures some { (f : Frames) (n : ℕ) (z : AnyZone) (s : AnySpan) → span_of f n z ≡ Some s
        → IsSpan f n z (2 ^ 52) s }
    ensures none { (f : Frames) (n : ℕ) (z : AnyZone) (x : ℕ) → span_of f n z ≡ None → x < 2 ^ 52
        → is_in_node_zone f n z x ≡ false }
{}

/// Law: by the rule `NodeHull` the span of a node and a zone has exactly the frames of the zone
/// that are inside the node's hull: the node has a memory frame at or below each of them, and one
/// at or above it. The span is therefore inside the zone's borders. It has the node's frames in
/// the zone, and `present` is the number of these. If there is no span, no frame of the zone is
/// inside the hull.
pub fn hull_spans_are_of_nodes()
    ensures some { (f : Frames) (n : ℕ) (z : AnyZone) (s : AnySpan) → hull_span_of f n z ≡ Some s
        → IsHullSpan f n z s }
    ensures none { (f : Frames) (n : ℕ) (z : AnyZone) (x : ℕ) → hull_span_of f n z ≡ None
        → zone_of x ≡ z → IsInHull f n x → ⊥ }
{}

/// Law: by both rules (`Frames` and `NodeHull`) the span of a node and a zone has all frames of
/// that node and zone, and `present` is the number of these. If there is no span, no frame is of
/// that node and zone.
pub fn spans_have_their_frames()
    ensures some { (rule : AnyRule) (f : Frames) (n : ℕ) (z : AnyZone) (s : AnySpan) (x : ℕ)
        → span_by rule f n z ≡ Some s → x < 2 ^ 52 → is_in_node_zone f n z x ≡ true
        → (s.start ≤ x) × (x < s.end) }
    ensures present { (rule : AnyRule) (f : Frames) (n : ℕ) (z : AnyZone) (s : AnySpan)
        → span_by rule f n z ≡ Some s → s.present ≡ count_below_in_zone f n z (2 ^ 52) }
    ensures none { (rule : AnyRule) (f : Frames) (n : ℕ) (z : AnyZone) (x : ℕ)
        → span_by rule f n z ≡ None → x < 2 ^ 52 → is_in_node_zone f n z x ≡ false }
{}

/// Law: the spans by the rule `Frames` are those that [`spans`](crate::spans) returns.
pub fn frames_rule_gives_spans()
    ensures { (f : Frames) → spans_by rules.Frames f ≡ spans_of f }
{}

/// Law: by the rule `Frames` each zone that has a span has memory.
pub fn frames_rule_gives_populated_spans()
    ensures { (f : Frames) → populated_spans (spans_of f) ≡ spans_of f }
{}
