//! The buddy lists, and the frames that each ID holds from them.

ghost use Rattle.std.specs.Prelude.{◌≡◌, ◌⊎◌, ◌+◌, ◌*◌, ◌^◌, ◌<◌, ◌≤◌, IfOk, OnErr};
ghost use Rattle.buddy_handover.specs.BuddyView.{node_of_free_frame};
ghost use Rattle.page_alloc.specs.declared.act.PageAct.TheVariants as act;
ghost use Rattle.page_alloc.specs.PagesView.{page_state_of};
ghost use Rattle.page_alloc.specs.Pages.{first_page_state, page_step, HasValidOrder, IsPagesOrGive, NeedsMemory};

use crate::act::{PageAct, PageLine};
use crate::outcome::{Held, PageOutcome};
use bm_base::{FRAME_SIZE, Memory, Zone};
use buddy_handover::{Buddy, Take};
use std::alloc::Global;
use std::collections::BTreeMap;
use std::collections::btree_map::Entry;
use std::marker::Model;

/// The free frames, and the frames that IDs hold. A frame that is held isn't free, and no two IDs
/// hold the same frame.
#[derive(Debug, Drop)]
pub struct Pages {
    buddy: Buddy,
    ids: BTreeMap<u32, Held>,
}

impl Model for Pages {
    ghost use Rattle.page_alloc.specs.PagesView.{PagesView, page_state_of};
    ghost use Rattle.page_alloc.specs.FramePlaces.{IsValidPageState};

    ghost Value = { PagesView };

    ghost view = { λ p. record { buddy = p.buddy; ids = p.ids.entries } };

    ghost invariant = { λ p.
        IsValidPageState (page_state_of (record { buddy = p.buddy; ids = p.ids.entries })) };
}

impl Pages {
    /// Returns the state right after the handover: the free frames are those of `buddy`, and no ID
    /// holds any frames.
    pub fn new(alloc: Global, buddy: Buddy) -> Pages
        ensures { page_state_of result ≡ first_page_state (node_of_free_frame buddy) }
    {
        buddy.free_frames_are_below_limit();
        Pages {
            buddy,
            ids: BTreeMap::new(alloc),
        }
    }

    /// Returns the buddy lists as they are now.
    pub fn buddy(&self) -> &Buddy
        ensures { result.now ≡ self.now.buddy }
    {
        &self.buddy
    }

    /// Returns the frames that the ID holds, or `None` if it holds none.
    pub fn held(&self, id: u32) -> Option<Held>
        ensures { result ≡ (page_state_of self.now).held id }
    {
        self.ids.get(&id).copied()
    }

    /// Allocates `2^order` frames of the node and the zone for the ID. `order` is at most 10.
    /// Returns `At` with the address of the first frame. Returns `Taken` if the ID already holds
    /// frames. Otherwise it returns `NoBlock` if the node has no block of this order or a larger
    /// one in the zone. In both cases nothing changes.
    ///
    /// # Errors
    ///
    /// - `Memory`: the program ran out of memory. Nothing has changed, and with enough memory the
    ///   outcome would be `At`.
    pub fn take(
        &mut self,
        id: u32,
        order: u32,
        node: u32,
        zone: Zone,
    ) -> Result<PageOutcome, Memory>
        requires { order ≤ 10 }
        ensures ok { IfOk result (λ outcome. (outcome, page_state_of self.new)
            ≡ page_step (page_state_of self.old) (act.Pages id order node zone)) }
        ensures memory { OnErr result
            (NeedsMemory (page_step (page_state_of self.old) (act.Pages id order node zone)).0) }
        ensures refused { IfOk result (λ outcome.
            (outcome ≡ PageOutcome.Taken) ⊎ (outcome ≡ PageOutcome.NoBlock) → self.new ≡ self.old) }
        ensures err { OnErr result (self.new ≡ self.old) }
    {
        let Ok(entry) = self.ids.entry(id) else {
            return if self.buddy.has_block(node, zone, order) {
                Err(Memory)
            } else {
                Ok(PageOutcome::NoBlock)
            };
        };
        match entry {
            Entry::Occupied(_) => Ok(PageOutcome::Taken),
            Entry::Vacant(place) => match self.buddy.take(node, zone, order) {
                Ok(first) => {
                    place.insert(Held { first, order, node });
                    Ok(PageOutcome::At(FRAME_SIZE * first))
                }
                Err(Take::NoBlock) => Ok(PageOutcome::NoBlock),
                Err(Take::Memory) => Err(Memory),
            },
        }
    }

    /// Frees the frames that the ID holds, and returns `Done`. Returns `Unknown` if it holds none.
    ///
    /// # Errors
    ///
    /// - `Memory`: the program ran out of memory. Nothing has changed, and the ID holds frames.
    fn free_held_frames(&mut self, id: u32) -> Result<PageOutcome, Memory>
        ensures ok { IfOk result (λ outcome.
            (outcome, page_state_of self.new) ≡ page_step (page_state_of self.old) (act.Give id)) }
        ensures memory { OnErr result
            (NeedsMemory (page_step (page_state_of self.old) (act.Give id)).0) }
        ensures err { OnErr result (self.new ≡ self.old) }
    {
        let Some(held) = self.held(id) else {
            return Ok(PageOutcome::Unknown);
        };
        self.buddy.put_back(held.first, held.order, held.node)?;
        let _ = self.ids.remove(&id);
        Ok(PageOutcome::Done)
    }

    /// Carries out a `pages` or `give` line. A `near` line must not be passed: `slit_zonelists`
    /// carries it out, since it knows the zone lists.
    ///
    /// # Errors
    ///
    /// - `Memory`: the program ran out of memory. Nothing has changed, and with enough memory the
    ///   outcome would be `At` or `Done`.
    pub fn run_line(&mut self, line: &PageLine) -> Result<PageOutcome, Memory>
        requires order { HasValidOrder line.now.act }
        requires plain { IsPagesOrGive line.now.act }
        ensures ok { IfOk result (λ outcome.
            (outcome, page_state_of self.new) ≡ page_step (page_state_of self.old) line.now.act) }
        ensures memory { OnErr result
            (NeedsMemory (page_step (page_state_of self.old) line.now.act).0) }
        ensures err { OnErr result (self.new ≡ self.old) }
    {
        match line.act {
            PageAct::Pages {
                id,
                order,
                node,
                zone,
            } => self.take(id, order, node, zone),
            PageAct::Near { .. } => unreachable!(),
            PageAct::Give { id } => self.free_held_frames(id),
        }
    }
}
