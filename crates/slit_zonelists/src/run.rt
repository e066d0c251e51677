//! Runs all lines of a page script, one after another. The zone list of a node is made at the
//! first line that needs it, and kept for later lines.

ghost use Rattle.std.specs.Prelude.{◌≡◌, ◌+◌, ◌<◌, ◌≤◌, [], ◌∷◌, ◌++◌, IfOk, OnOk, OnErr, IsSome};
ghost use Rattle.std.specs.BTreeMap.{get};
ghost use Rattle.std.specs.Ordering.{nat_cmp};
ghost use Rattle.page_alloc.specs.PagesView.{page_state_of};
ghost use Rattle.page_alloc.specs.Pages.{HasValidOrder, HaveValidOrders, NeedsMemory};
ghost use Rattle.slit_zonelists.specs.Near.{page_step_by_distance, page_answers_of, page_state_after, PageScriptRunsOut};
ghost use Rattle.slit_zonelists.specs.MadeLists.{AreZoneListsOfNodes};

use crate::lists::Lists;
use crate::near_request::{outcome_without_list, take_from_first_zone};
use crate::order::ListZone;
use bm_base::{Memory, push_within_capacity};
use page_alloc::{PageAct, PageAnswer, PageLine, PageOutcome, Pages};
use std::alloc::Global;
use std::collections::BTreeMap;

/// Carries the lines out in order, and returns the outcome of each.
///
/// # Errors
///
/// Out of memory, in one of two places:
///
/// - before the first line, if there is a line; nothing has changed then
/// - at a line that isn't refused, after all lines before it have been carried out; that line
///   itself changes nothing
pub fn run_page_lines(
    alloc: Global,
    pages: &mut Pages,
    lists: &Lists,
    lines: &[PageLine],
) -> Result<Vec<PageAnswer>, Memory>
    requires { HaveValidOrders lines.now }
    ensures answers { IfOk result (λ answers.
        answers.items ≡ page_answers_of lists.now (page_state_of pages.old) lines.now) }
    ensures memory { OnErr result (PageScriptRunsOut lists.now pages.old lines.now pages.new) }
    ensures after { OnOk result (page_state_of pages.new
        ≡ page_state_after lists.now (page_state_of pages.old) lines.now) }
{
    let mut answers = Vec::with_capacity(alloc, lines.len())?;
    let mut made = BTreeMap::new(alloc);
    for line in lines {
        let outcome = run_page_line(pages, lists, &mut made, line)?;
        let answer = PageAnswer {
            line: line.number,
            outcome,
        };
        push_within_capacity(&mut answers, answer); // the list has room for it
    }
    Ok(answers)
}

/// Carries one line out and returns its outcome.
///
/// # Errors
///
/// Out of memory, only at a line that isn't refused. The free frames, and what the IDs hold, are
/// unchanged then.
fn run_page_line(
    pages: &mut Pages,
    lists: &Lists,
    made: &mut BTreeMap<u32, Vec<ListZone>>,
    line: &PageLine,
) -> Result<PageOutcome, Memory>
    requires order { HasValidOrder line.now.act }
    requires made { AreZoneListsOfNodes lists.now made.old }
    ensures ok { IfOk result (λ outcome. (outcome, page_state_of pages.new)
        ≡ page_step_by_distance lists.now (page_state_of pages.old) line.now.act) }
    ensures made { AreZoneListsOfNodes lists.now made.new }
    ensures memory { OnErr result
        (NeedsMemory (page_step_by_distance lists.now (page_state_of pages.old) line.now.act).0) }
    ensures err { OnErr result (pages.new ≡ pages.old) }
{
    let PageAct::Near { id, order, node } = line.act else {
        return pages.run_line(line);
    };
    if pages.held(id).is_some() {
        return Ok(PageOutcome::Taken);
    }
    if make_zone_list(lists, made, node).is_err() {
        return outcome_without_list(pages, lists, order, node);
    }
    match made.get(&node) {
        Some(zones) => take_from_first_zone(pages, zones, id, order),
        None => unreachable!(),
    }
}

/// Makes the zone list of the node and keeps it in `made`, unless it is there already.
///
/// # Errors
///
/// Out of memory.
fn make_zone_list(
    lists: &Lists,
    made: &mut BTreeMap<u32, Vec<ListZone>>,
    node: u32,
) -> Result<(), Memory>
    requires { AreZoneListsOfNodes lists.now made.old }
    ensures made { AreZoneListsOfNodes lists.now made.new }
    ensures here { OnOk result (IsSome (get nat_cmp made.new node)) }
{
    if made.contains_key(&node) {
        return Ok(());
    }
    let zones = lists.of(node)?;
    let _ = made.insert(node, zones)?;
    Ok(())
}
