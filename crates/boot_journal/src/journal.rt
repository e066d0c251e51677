//! The journal: its items (one for each call of memblock that changed something), and the runs of
//! bytes with one owner.
//!
//! Items and runs change together, so both are here. An item that claims or frees memory first
//! updates the runs, and then is appended. Looking up an owner therefore never goes through the
//! items. The memory for both is allocated in one place (`ready`), before anything changes.

ghost use Rattle.std.specs.Prelude.{◌≡◌, ◌++◌, ◌∷◌, ◌+◌, ◌-◌, ◌^◌, ◌<◌, ◌≤◌, ℕ, Some, [], ◌↔◌, IsTrue, max, OnOk, OnErr, IfOk, vec_len, vec_capacity};
ghost use Rattle.bm_base.specs.Range.{end_of};
ghost use Rattle.address_runs.specs.Runs.{IsRunsOf};
ghost use Rattle.memblock_model.specs.Items.{ItemHasBytes, ItemsHaveBytes, owner_of, tag_of, owner_runs_of};
ghost use Rattle.boot_journal.specs.Mirrors.{has_mirrors_after, has_mirrors};

use crate::run_list::RunList;
use crate::{owners, tags};
use bm_base::{Memory, Range, push_within_capacity};
use memblock_model::{Item, Owner, OwnerRun, Tag};
use run_edits::{has_value_throughout, value_at};
use std::alloc::Global;
use std::marker::Model;

/// The journal of a boot: one item for each call of memblock that changed something, oldest first.
/// Contracts see the items and `spare`, the number of items that can be appended without
/// allocating.
///
/// The journal also keeps the runs of bytes with one owner, in ascending order, and whether some
/// item marks memory as mirrored. Both follow from the items.
#[derive(Debug, Drop)]
pub struct Journal {
    items: Vec<Item>,
    owners: RunList,
    mirrors: bool,
    spare: u64,
}

impl Model for Journal {
    ghost use Rattle.std.specs.Prelude.{◌≡◌, ◌+◌, ◌*◌, ◌^◌, ◌≤◌, length, vec_len, vec_capacity};
    ghost use Rattle.address_runs.specs.Runs.{IsRunsOf};
    ghost use Rattle.address_runs.specs.Edits.{IsEmptyFrom};
    ghost use Rattle.memblock_model.specs.Items.{ItemsHaveBytes, owner_of};
    ghost use Rattle.boot_journal.specs.JournalView.{JournalView};
    ghost use Rattle.boot_journal.specs.Mirrors.{has_mirrors};

    ghost Value = { JournalView };

    ghost view = { λ j. record { items = j.items.items; spare = j.spare } };

    // an item adds at most two runs
    ghost invariant = { λ j.
        (vec_len j.items + j.spare ≤ vec_capacity j.items) × ItemsHaveBytes j.items.items ×
        (length j.owners.items + 2 * j.spare ≤ j.owners.room) ×
        IsRunsOf (owner_of j.items.items) j.owners.items
        × IsEmptyFrom (2 ^ 64) (owner_of j.items.items) ×
        (j.mirrors ≡ has_mirrors j.items.items) };
}

impl Journal {
    /// Returns a journal without items. `spare` is 0, so appending an item allocates.
    pub fn new(alloc: Global) -> Journal
        ensures { result ≡ record { items = []; spare = 0 } }
    {
        Journal {
            items: Vec::new(alloc),
            owners: RunList::new(alloc),
            mirrors: false,
            spare: 0,
        }
    }

    /// Allocates memory so that at least `n` more items can be appended without allocating.
    /// `spare`, the number of such items, becomes `n` unless it is greater already.
    ///
    /// # Errors
    ///
    /// - `Memory`: the program ran out of memory; the journal is unchanged. This is possible only
    ///   if `spare` was below `n`.
    pub fn ready(&mut self, n: u64) -> Result<(), Memory>
        ensures items { self.new.items ≡ self.old.items }
        ensures enough { OnOk result (n ≤ self.new.spare) }
        ensures exact { OnOk result (self.new.spare ≡ max self.old.spare n) }
        ensures no_less { self.old.spare ≤ self.new.spare }
        ensures err { OnErr result (self.new ≡ self.old) }
        ensures memory { OnErr result (self.old.spare < n) }
    {
        if n <= self.spare {
            return Ok(());
        }
        let Some(runs) = n.checked_mul(2) else {
            return Err(Memory);
        };
        self.items.reserve(n as usize)?;
        self.owners.ensure_run_room(runs)?;
        self.spare = n;
        Ok(())
    }

    /// Appends an item, whose range must not be empty. Allocates only if `spare` is 0; otherwise
    /// `spare` falls by one.
    ///
    /// # Errors
    ///
    /// - `Memory`: the program ran out of memory; the journal is unchanged. This is possible only
    ///   if `spare` was 0.
    pub fn push(&mut self, item: Item) -> Result<(), Memory>
        requires { ItemHasBytes item }
        ensures ok { OnOk result (self.new.items ≡ self.old.items ++ item ∷ []) }
        ensures spare { OnOk result (self.old.spare ≤ self.new.spare + 1) }
        ensures exact { OnOk result (self.new.spare ≡ self.old.spare - 1) }
        ensures err { OnErr result (self.new ≡ self.old) }
        ensures memory { OnErr result (self.old.spare ≡ 0) }
    {
        if self.spare == 0 {
            self.ready(1)?;
        }
        self.push_ready(item);
        Ok(())
    }

    /// Appends an item, whose range must not be empty, without allocating. `spare` (the number of
    /// items that there is memory for) must be above 0, and falls by one.
    pub fn push_ready(&mut self, item: Item)
        requires item { ItemHasBytes item }
        requires spare { 0 < self.old.spare }
        ensures { self.new
            ≡ record { items = self.old.items ++ item ∷ []; spare = self.old.spare - 1 } }
    {
        owners::update_owners(&mut self.owners, &item);
        self.mirrors = has_mirrors_after(self.mirrors, &item);
        push_within_capacity(&mut self.items, item);
        self.spare -= 1;
    }

    /// Returns the items, oldest first.
    pub fn items(&self) -> &[Item]
        ensures items { result.now ≡ self.now.items }
        ensures ranges { ItemsHaveBytes result.now }
    {
        self.items.as_slice()
    }

    /// Returns the owner of the byte at address `x`, or `None` if it has none. The last claim or
    /// free that covers the byte decides. Looks the byte up in the runs, without allocating.
    pub fn owner_at(&self, x: u64) -> Option<Owner>
        ensures { result ≡ owner_of self.now.items x }
    {
        value_at(&self.owners, x)
    }

    /// Tests whether each byte of the range has this owner. Looks the range up in the runs,
    /// without allocating.
    pub fn owns(&self, range: &Range, owner: Owner) -> bool
        ensures { IsTrue result ↔ ((x : ℕ) → range.now.base ≤ x → x < end_of range.now →
            owner_of self.now.items x ≡ Some owner) }
    {
        has_value_throughout(&self.owners, range, owner)
    }

    /// Tests whether some item marks memory as mirrored. The journal stores the answer, so this
    /// takes constant time.
    pub fn has_mirrors(&self) -> bool
        ensures { result ≡ has_mirrors self.now.items }
    {
        self.mirrors
    }

    /// Returns whether the byte at address `x` is memory, on which node, and whether it is
    /// mirrored. Allocates nothing. Walks the items at most three times, and two more times for
    /// each beginning or end of an item's range that is inside the frame of `x`.
    pub fn tag_at(&self, x: u64) -> Tag
        ensures { result ≡ tag_of self.now.items x }
    {
        tags::tag_at(&self.items, x)
    }

    /// Returns the runs of bytes with one owner, in ascending order, as the journal keeps them.
    pub fn owners(&self) -> &[OwnerRun]
        ensures runs { IsRunsOf (owner_of self.now.items) result.now }
        ensures list { result.now ≡ owner_runs_of self.now.items }
    {
        self.owners.as_slice()
    }

    /// Returns a copy of the runs of bytes with one owner, in ascending order.
    ///
    /// # Errors
    ///
    /// - `Memory`: the program ran out of memory.
    pub fn owner_runs(&self) -> Result<Vec<OwnerRun>, Memory>
        ensures runs { IfOk result (λ runs. IsRunsOf (owner_of self.now.items) runs.items) }
        ensures list { IfOk result (λ runs. runs.items ≡ owner_runs_of self.now.items) }
    {
        let runs = Vec::from_slice(*self.items.allocator(), self.owners())?;
        Ok(runs)
    }
}

/// Tests whether an item marks memory as mirrored, or `before` is true, which means that an earlier
/// item does.
fn has_mirrors_after(before: bool, item: &Item) -> bool
    ensures { result ≡ has_mirrors_after before item.now }
{
    before || matches!(item, Item::Mirror { .. })
}
