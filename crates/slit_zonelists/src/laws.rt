//! Laws about the SLIT, zone lists and near requests, and about each frame after the lines of a
//! page script.

ghost use Rattle.std.specs.Prelude.{◌≡◌, ℕ, ◌<◌, false, List, Option, Some, None, IsSome, IfSome, map};
ghost use Rattle.std.specs.List.{All};
ghost use Rattle.std.specs.List.Sorted.{IsPermutation};
ghost use Rattle.address_runs.specs.Edits.{IsEmptyFrom};
ghost use Rattle.buddy_blocks.specs.Frames.{Frames};
ghost use Rattle.zone_spans.specs.declared.span.Span.{Span as AnySpan};
ghost use Rattle.page_alloc.specs.declared.act.PageAct.TheVariants as act;
ghost use Rattle.page_alloc.specs.declared.act.PageLine.{PageLine as AnyLine};
ghost use Rattle.page_alloc.specs.declared.outcome.PageOutcome.TheVariants as outcomes;
ghost use Rattle.page_alloc.specs.Pages.{PageState, first_page_state, page_step, HaveValidOrders};
ghost use Rattle.page_alloc.specs.FramePlaces.{IsInOneBlockOrHeld, IsInNoBlockNorHeld};
ghost use Rattle.slit_zonelists.specs.declared.order.ListZone.{ListZone as AnyZone};
ghost use Rattle.slit_zonelists.specs.SlitView.{SlitView, HasBytes};
ghost use Rattle.slit_zonelists.specs.Uses.{is_bad_cell, first_bad_cell, IsFirstBadCell};
ghost use Rattle.slit_zonelists.specs.Lists.{ZoneListsView, zonelists_from_slit, zone_of_span, zone_list_of};
ghost use Rattle.slit_zonelists.specs.Order.{AreOrderedByDistance};
ghost use Rattle.slit_zonelists.specs.Near.{has_block, page_step_by_distance, page_state_after, IsFirstZone};

use buddy_blocks::MAX_FRAMES;

/// Law: the bad cell that is reported for a SLIT is its first one, by row and then by column. If
/// none is reported, no cell is bad. A cell is bad if its distance breaks the rules of
/// `slit_valid`.
pub fn reported_bad_cell_is_first()
    ensures some { (m : SlitView) (row column : ℕ) → first_bad_cell m ≡ Some (row, column)
        → IsFirstBadCell m row column }
    ensures none { (m : SlitView) (row column : ℕ) → first_bad_cell m ≡ None → row < m.count
        → column < m.count → is_bad_cell m row column ≡ false }
{}

/// Law: the zone list of a node has one zone for each span in `spans`. The zones are ordered by the
/// distance from the node to theirs, then by the number of their node, then Normal before DMA32
/// before DMA.
pub fn zone_lists_have_each_zone_in_order()
    ensures each { (slit : Option SlitView) (domains : List ℕ) (spans : List AnySpan) (node : ℕ)
        → IfSome slit HasBytes →
        IsPermutation (map zone_of_span spans)
        (zone_list_of (zonelists_from_slit slit domains spans) node) }
    ensures order { (slit : Option SlitView) (domains : List ℕ) (spans : List AnySpan) (node : ℕ) →
        AreOrderedByDistance (zonelists_from_slit slit domains spans) node
        (zone_list_of (zonelists_from_slit slit domains spans) node) }
{}

/// Law: if the ID holds no frames, a request near a node is served from the first zone in the
/// node's zone list that has a block of the order or a greater one. If no zone in the list has such
/// a block, the outcome is `NoBlock`. If the ID already holds frames, the outcome is `Taken`.
pub fn near_takes_from_the_first_zone()
    ensures first { (k : ZoneListsView) (s : PageState) (id order node : ℕ) (z : AnyZone)
        → s.held id ≡ None → IsFirstZone s order (zone_list_of k node) z →
        page_step_by_distance k s (act.Near id order node)
        ≡ page_step s (act.Pages id order z.node z.zone) }
    ensures none { (k : ZoneListsView) (s : PageState) (id order node : ℕ) → s.held id ≡ None
        → All (λ z. has_block s order z ≡ false) (zone_list_of k node) →
        page_step_by_distance k s (act.Near id order node) ≡ (outcomes.NoBlock, s) }
    ensures taken { (k : ZoneListsView) (s : PageState) (id order node : ℕ) → IsSome (s.held id) →
        page_step_by_distance k s (act.Near id order node) ≡ (outcomes.Taken, s) }
{}

/// Law: after any lines of a page script, each frame that was free before them is in exactly one
/// block or held by exactly one ID. No other frame is in a block or held.
pub fn frames_stay_in_one_block_or_held()
    ensures one { (k : ZoneListsView) (f : Frames) (lines : List AnyLine) (x n : ℕ)
        → IsEmptyFrom MAX_FRAMES f → HaveValidOrders lines → f x ≡ Some n →
        IsInOneBlockOrHeld (page_state_after k (first_page_state f) lines) x }
    ensures other { (k : ZoneListsView) (f : Frames) (lines : List AnyLine) (x : ℕ)
        → IsEmptyFrom MAX_FRAMES f → HaveValidOrders lines → f x ≡ None →
        IsInNoBlockNorHeld (page_state_after k (first_page_state f) lines) x }
{}
