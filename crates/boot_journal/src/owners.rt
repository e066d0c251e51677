//! Updates the runs of bytes with one owner, item by item.
//!
//! A claim replaces the previous owner of its bytes, and a free leaves its bytes without an owner
//! (`memblock_reserve`, `memblock_phys_free`). Each is one edit of a sorted list of runs
//! (`run_edits`). The edit has a file of its own so that its contract holds for any sorted list of
//! runs.

ghost use Rattle.std.specs.Prelude.{◌+◌, ◌^◌, ◌<◌, ◌≤◌, length};
ghost use Rattle.address_runs.specs.Runs.{AreRuns, IsRunsOf, value_at};
ghost use Rattle.address_runs.specs.Edits.{change_range, IsEmptyFrom};
ghost use Rattle.memblock_model.specs.Items.{ItemHasBytes, owners_after};
ghost use Rattle.run_edits.specs.Records.{AddsNoRunEnd};

use crate::run_list::RunList;
use bm_base::Range;
use memblock_model::{Item, Owner};
use run_edits::{Change, Replace, Uncover, edit_without_cover};

/// Updates the runs of bytes with one owner for an item. After a claim all bytes of its range have
/// its owner; after a free none has an owner. Other items change no owner. The item's range must
/// not be empty, and there must be room for two more runs.
pub fn update_owners(owners: &mut RunList, item: &Item)
    requires item { ItemHasBytes item.now }
    requires runs { AreRuns owners.old.items }
    requires within { IsEmptyFrom (2 ^ 64) (value_at owners.old.items) }
    requires room { length owners.old.items + 2 ≤ owners.old.room }
    ensures runs { IsRunsOf (owners_after (value_at owners.old.items) item.now) owners.new.items }
    ensures within { IsEmptyFrom (2 ^ 64) (value_at owners.new.items) }
    ensures len { length owners.new.items ≤ length owners.old.items + 2 }
    ensures room { owners.old.room ≤ owners.new.room }
{
    match item {
        Item::Claim { range, owner } => apply_change(owners, range, Replace(*owner)),
        Item::Free { range } => apply_change(owners, range, Uncover),
        _ => {}
    }
}

/// Gives all bytes of the range a new owner or none, as `change` says, without allocating. There
/// must be room for two more runs.
fn apply_change<C: Change<Owner>>(owners: &mut RunList, range: &Range, change: C)
    requires some { 0 < range.now.size }
    requires runs { AreRuns owners.old.items }
    requires within { IsEmptyFrom (2 ^ 64) (value_at owners.old.items) }
    requires change { AddsNoRunEnd (C.makes change) }
    requires room { length owners.old.items + 2 ≤ owners.old.room }
    ensures runs { IsRunsOf
        (change_range (C.makes change) range.now (value_at owners.old.items)) owners.new.items }
    ensures within { IsEmptyFrom (2 ^ 64) (value_at owners.new.items) }
    ensures len { length owners.new.items ≤ length owners.old.items + 2 }
    ensures room { owners.old.room ≤ owners.new.room }
{
    edit_without_cover(owners, range, change);
}
