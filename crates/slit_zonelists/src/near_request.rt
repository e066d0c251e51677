//! Carries out requests for frames near a node.

ghost use Rattle.std.specs.Prelude.{◌≡◌, ◌⊎◌, ◌≤◌, None, IsSome, IfOk, OnErr};
ghost use Rattle.page_alloc.specs.declared.act.PageAct.TheVariants as act;
ghost use Rattle.page_alloc.specs.PagesView.{page_state_of};
ghost use Rattle.page_alloc.specs.Pages.{NeedsMemory};
ghost use Rattle.slit_zonelists.specs.Lists.{zone_list_of};
ghost use Rattle.slit_zonelists.specs.Near.{first_zone, take_from_zone, page_step_by_distance};

use crate::lists::Lists;
use crate::order::ListZone;
use bm_base::Memory;
use page_alloc::{PageOutcome, Pages};

/// Allocates `2^order` frames for the ID, as near to the node as possible, and returns the
/// outcome. The frames are from the first zone in the node's list that has a block of the order or
/// a greater one. The outcomes are:
///
/// - `Taken`: the ID already holds something
/// - `NoBlock`: otherwise, if no zone in the list has such a block
/// - `At` with the address of the first frame: otherwise
///
/// After `Taken` and `NoBlock` nothing has changed.
///
/// # Errors
///
/// Out of memory, only if the outcome would be `At`. Nothing has changed then.
pub fn near(
    pages: &mut Pages,
    lists: &Lists,
    id: u32,
    order: u32,
    node: u32,
) -> Result<PageOutcome, Memory>
    requires { order ≤ 10 }
    ensures ok { IfOk result (λ outcome. (outcome, page_state_of pages.new)
        ≡ page_step_by_distance lists.now (page_state_of pages.old) (act.Near id order node)) }
    ensures memory { OnErr result (NeedsMemory
        (page_step_by_distance lists.now (page_state_of pages.old) (act.Near id order node)).0) }
    ensures refused { IfOk result (λ outcome. (outcome ≡ PageOutcome.Taken)
        ⊎ (outcome ≡ PageOutcome.NoBlock) → pages.new ≡ pages.old) }
    ensures err { OnErr result (pages.new ≡ pages.old) }
{
    if pages.held(id).is_some() {
        return Ok(PageOutcome::Taken);
    }
    let Ok(zones) = lists.of(node) else {
        return outcome_without_list(pages, lists, order, node);
    };
    take_from_first_zone(pages, &zones, id, order)
}

/// Returns the outcome of a request near the node if the program ran out of memory for the node's
/// zone list. It is `NoBlock` if no zone in that list has a block of the order or a greater one.
/// The call allocates nothing.
///
/// # Errors
///
/// Out of memory, exactly if some zone in the list has such a block.
pub fn outcome_without_list(
    pages: &Pages,
    lists: &Lists,
    order: u32,
    node: u32,
) -> Result<PageOutcome, Memory>
    requires { order ≤ 10 }
    ensures none { IfOk result (λ outcome. (outcome ≡ PageOutcome.NoBlock)
        × (first_zone (page_state_of pages.now) order (zone_list_of lists.now node) ≡ None)) }
    ensures memory { OnErr result
        (IsSome (first_zone (page_state_of pages.now) order (zone_list_of lists.now node))) }
{
    for entry in lists.zones() {
        if pages.buddy().has_block(entry.node, entry.zone, order) {
            lists.distance_is_a_byte(node, entry.node);
            return Err(Memory);
        }
    }
    Ok(PageOutcome::NoBlock)
}

/// Allocates `2^order` frames for the ID, which must hold nothing, and returns the outcome. The
/// frames are from the first of `zones` that has a block of the order or a greater one. If no zone
/// has such a block, the outcome is `NoBlock`, and nothing has changed.
///
/// # Errors
///
/// Out of memory, only if a zone has such a block. Nothing has changed then.
pub fn take_from_first_zone(
    pages: &mut Pages,
    zones: &[ListZone],
    id: u32,
    order: u32,
) -> Result<PageOutcome, Memory>
    requires order { order ≤ 10 }
    requires none { (page_state_of pages.old).held id ≡ None }
    ensures ok { IfOk result (λ outcome.
        (outcome, page_state_of pages.new) ≡ take_from_zone (page_state_of pages.old) id order
        (first_zone (page_state_of pages.old) order zones.now)) }
    ensures memory { OnErr result (IsSome (first_zone (page_state_of pages.old) order zones.now)) }
    ensures refused { IfOk result (λ outcome. (outcome ≡ PageOutcome.Taken)
        ⊎ (outcome ≡ PageOutcome.NoBlock) → pages.new ≡ pages.old) }
    ensures err { OnErr result (pages.new ≡ pages.old) }
{
    for entry in zones {
        match pages.take(id, order, entry.node, entry.zone)? {
            PageOutcome::NoBlock => {}
            outcome => return Ok(outcome),
        }
    }
    Ok(PageOutcome::NoBlock)
}
