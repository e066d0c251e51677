//! The memory table: its growth, added ranges, nodes and mirrored ranges.
//!
//! The memory that the table moves to is claimed like any other range, so the reserved table may
//! have to grow first. It may also have to grow when the old memory is freed. If the growth for
//! that free is refused, the old memory stays claimed and the call continues
//! (`memblock_double_array` ignores the failure too).
ghost use Rattle.std.specs.Prelude.{◌≡◌, ◌⊎◌, ◌+◌, ◌-◌, ◌<◌, ◌≤◌, false, OnOk, OnErr, IsOk, IfSome};
ghost use Rattle.phys_store.specs.Bytes.{ArePrepared};
ghost use Rattle.memblock_model.specs.declared.owner.Which.TheVariants as tables_of;
ghost use Rattle.memblock_model.specs.declared.owner.Owner.TheVariants as owners;
ghost use Rattle.memblock_model.specs.Items.{owner_of};
ghost use Rattle.growth_model.specs.Change.{if_due};
ghost use Rattle.growth_model.specs.Growth.{memory_growth, make_table_room, claim_range, add_range, set_range_node, set_range_mirror, count_uncovered_pieces, max_records_added_by_split, free_old_place, is_full};
ghost use Rattle.growth_model.specs.Ends.{EndsAsChange};
ghost use Rattle.growth_model.specs.Tables.{HasFirstItem, IsUnclaimed};
ghost use Rattle.memblock_grow.specs.Invariant.{IsMemblockForSomeKernel, AllowsFree, KeepsTables, BytesFollowItems};
ghost use Rattle.memblock_grow.specs.Prepared.{Prepares, PreparesPlaceToo, PreparesAsResult};
ghost use Rattle.memblock_grow.specs.NewRecords.{new_records_by_items, HasRoomFor, RangeEndsBelow2To64};

use crate::new_records::{MaxNewRecords, lacks_room};
use crate::places::{AllocSettings, old_place_frames, table_frames_between};
use crate::reserved::{check_claim, claim, free};
use crate::table_laws::tables_are_in_store;
use bm_base::Range;
use boot_journal::{Item, Journal, Owner, Which};
use growth_model::Refusal;
use memblock_ranges::{NO_NODE, Tables};
use run_edits::range_end_fits;

/// Frees the memory that the memory table has left, if it isn't in the kernel's image. If the
/// reserved table has to grow for that and can't, the memory stays claimed and the call still
/// succeeds.
///
/// # Errors
///
/// - `Memory`: this program is out of memory.
fn free_old_place(
    journal: &mut Journal,
    tables: &mut Tables,
    aim: AllocSettings,
    old: Option<Range>,
) -> Result<(), Refusal>
    requires begun { HasFirstItem journal.old.items }
    requires some { IfSome old (λ range. 0 < range.size) }
    requires away { IfSome old (λ range. AllowsFree journal.old.items tables.old aim range) }
    ensures ends { EndsAsChange result journal.old.items journal.new.items (free_old_place old) }
    ensures kept { KeepsTables journal.old.items tables.old journal.new.items tables.new aim }
    ensures bytes { BytesFollowItems journal.old.items tables.old journal.new.items tables.new aim }
    ensures prepared { Prepares journal.old.items journal.new.items tables.old.store
        tables.new.store }
    ensures memory { tables.new.memory ≡ tables.old.memory }
{
    let Some(range) = old else { return Ok(()) };
    match free(journal, tables, aim, range) {
        Err(Refusal::Memory) => Err(Refusal::Memory),
        _ => Ok(()),
    }
}

/// Prepares the range `place` for writing and claims it for the memory table. First tests whether
/// the claim would be refused, so that nothing is prepared for a refused claim. No item is written
/// before the range is prepared.
///
/// # Errors
///
/// - `NoGapForTable`: the reserved table has to grow, and no free memory is found for it. Nothing
///   is written or prepared.
/// - `Memory`: this program is out of memory.
fn claim_new_place(
    journal: &mut Journal,
    tables: &mut Tables,
    aim: AllocSettings,
    place: Range,
) -> Result<(), Refusal>
    requires some { 0 < place.size }
    requires kept { IsMemblockForSomeKernel journal.old.items tables.old aim }
    requires begun { HasFirstItem journal.old.items }
    requires free { IsUnclaimed (owner_of journal.old.items) place }
    ensures ends { EndsAsChange result journal.old.items journal.new.items
        (claim_range place (owners.Table tables_of.Memory)) }
    ensures kept { KeepsTables journal.old.items tables.old journal.new.items tables.new aim }
    ensures bytes { BytesFollowItems journal.old.items tables.old journal.new.items tables.new aim }
    ensures memory { tables.new.memory ≡ tables.old.memory }
    ensures prepared { OnOk result
        (PreparesPlaceToo place journal.old.items journal.new.items tables.old.store
        tables.new.store) }
    ensures err { OnErr result
        (PreparesAsResult result journal.old.items journal.new.items tables.old.store
        tables.new.store) }
    ensures first { (journal.new.items ≡ journal.old.items)
        ⊎ ArePrepared tables.new.store place.base place.size }
{
    check_claim(journal, tables, aim, place)?;
    tables.prepare(place)?;
    claim(journal, tables, aim, place, Owner::Table(Which::Memory))
}

/// Doubles the memory table's room and moves it to the best free memory below the limit
/// (`memblock_double_array`).
///
/// # Errors
///
/// - `NoGapForTable`: a table has to grow, and no free memory is found for it.
/// - `Memory`: this program is out of memory.
fn grow_memory(
    journal: &mut Journal,
    tables: &mut Tables,
    aim: AllocSettings,
) -> Result<(), Refusal>
    requires kept { IsMemblockForSomeKernel journal.old.items tables.old aim }
    requires begun { HasFirstItem journal.old.items }
    ensures ends { EndsAsChange result journal.old.items journal.new.items memory_growth }
    ensures kept { KeepsTables journal.old.items tables.old journal.new.items tables.new aim }
    ensures bytes { BytesFollowItems journal.old.items tables.old journal.new.items tables.new aim }
    ensures prepared { PreparesAsResult result journal.old.items journal.new.items tables.old.store
        tables.new.store }
{
    let head = tables.head(Which::Memory);
    let Some(place) = table_frames_between(journal, tables, aim.upward, head.room, 0, aim.limit)
    else {
        return Err(Refusal::NoGapForTable {
            which: Which::Memory,
            room: head.room,
        });
    };
    let old = old_place_frames(head);
    claim_new_place(journal, tables, aim, place)?;
    journal.push(Item::Grown {
        which: Which::Memory,
        place: place.base,
        room: 2 * head.room,
    })?;
    tables.relocate(Which::Memory, place.base);
    tables_are_in_store(tables);
    free_old_place(journal, tables, aim, old)
}

/// Doubles the memory table's room if it has too little room for `more` records.
///
/// # Errors
///
/// - `NoGapForTable`: a table has to grow, and no free memory is found for it.
/// - `Memory`: this program is out of memory.
fn grow_memory_if_full(
    journal: &mut Journal,
    tables: &mut Tables,
    aim: AllocSettings,
    more: &MaxNewRecords,
) -> Result<(), Refusal>
    requires kept { IsMemblockForSomeKernel journal.old.items tables.old aim }
    requires begun { HasFirstItem journal.old.items }
    ensures ends { EndsAsChange result journal.old.items journal.new.items
        (if_due (is_full tables_of.Memory (new_records_by_items tables_of.Memory more.now))
        memory_growth) }
    ensures kept { KeepsTables journal.old.items tables.old journal.new.items tables.new aim }
    ensures bytes { BytesFollowItems journal.old.items tables.old journal.new.items tables.new aim }
    ensures prepared { PreparesAsResult result journal.old.items journal.new.items tables.old.store
        tables.new.store }
    ensures within { RangeEndsBelow2To64 more.now }
    ensures idle { HasRoomFor more.now tables.old.memory →
        IsOk result × (journal.new ≡ journal.old) × (tables.new ≡ tables.old) }
{
    if lacks_room(tables, Which::Memory, more) {
        grow_memory(journal, tables, aim)
    } else {
        Ok(())
    }
}

/// Makes room in the memory table for `more` records. Doubles the room while it is too small for
/// them, at most twice, which is always enough.
///
/// # Errors
///
/// - `NoGapForTable`: a table has to grow, and no free memory is found for it.
/// - `Memory`: this program is out of memory.
fn make_memory_room(
    journal: &mut Journal,
    tables: &mut Tables,
    aim: AllocSettings,
    more: &MaxNewRecords,
) -> Result<(), Refusal>
    requires kept { IsMemblockForSomeKernel journal.old.items tables.old aim }
    requires begun { HasFirstItem journal.old.items }
    ensures ends { EndsAsChange result journal.old.items journal.new.items
        (make_table_room tables_of.Memory
        (new_records_by_items tables_of.Memory more.now) memory_growth) }
    ensures kept { KeepsTables journal.old.items tables.old journal.new.items tables.new aim }
    ensures bytes { BytesFollowItems journal.old.items tables.old journal.new.items tables.new aim }
    ensures prepared { PreparesAsResult result journal.old.items journal.new.items tables.old.store
        tables.new.store }
    ensures room { OnOk result (HasRoomFor more.now tables.new.memory) }
    ensures idle { HasRoomFor more.now tables.old.memory →
        IsOk result × (journal.new ≡ journal.old) × (tables.new ≡ tables.old) }
{
    grow_memory_if_full(journal, tables, aim, more)?;
    grow_memory_if_full(journal, tables, aim, more)
}

/// Adds the range to memory, without a node; what is memory already keeps its node
/// (`memblock_add`). If the table has room, and the journal has room for an item, the call can't
/// fail.
///
/// # Errors
///
/// - `NoGapForTable`: a table has to grow, and no free memory is found for it.
/// - `Memory`: this program is out of memory.
pub fn add_memory(
    journal: &mut Journal,
    tables: &mut Tables,
    aim: AllocSettings,
    range: Range,
) -> Result<(), Refusal>
    requires some { 0 < range.size }
    requires kept { IsMemblockForSomeKernel journal.old.items tables.old aim }
    requires begun { HasFirstItem journal.old.items }
    ensures ends { EndsAsChange result journal.old.items journal.new.items (add_range range) }
    ensures kept { KeepsTables journal.old.items tables.old journal.new.items tables.new aim }
    ensures bytes { BytesFollowItems journal.old.items tables.old journal.new.items tables.new aim }
    ensures prepared { PreparesAsResult result journal.old.items journal.new.items tables.old.store
        tables.new.store }
    ensures ready { 0 < journal.old.spare → is_full tables_of.Memory
        (count_uncovered_pieces tables_of.Memory range) journal.old.items ≡ false →
        IsOk result × (journal.new.spare ≡ journal.old.spare - 1) }
{
    make_memory_room(journal, tables, aim, &MaxNewRecords::PiecesOf(range))?;
    journal.push(Item::Mem { range })?;
    range_end_fits(&range);
    tables.insert(Which::Memory, range, NO_NODE);
    tables_are_in_store(tables);
    Ok(())
}

/// Gives the node to the memory of the range (`memblock_set_node`). If the table has room for two
/// more records, and the journal for an item, the call can't fail.
///
/// # Errors
///
/// - `NoGapForTable`: a table has to grow, and no free memory is found for it.
/// - `Memory`: this program is out of memory.
pub fn set_node(
    journal: &mut Journal,
    tables: &mut Tables,
    aim: AllocSettings,
    range: Range,
    node: u32,
) -> Result<(), Refusal>
    requires some { 0 < range.size }
    requires node { node < 1024 }
    requires kept { IsMemblockForSomeKernel journal.old.items tables.old aim }
    requires begun { HasFirstItem journal.old.items }
    ensures ends { EndsAsChange result journal.old.items journal.new.items
        (set_range_node range node) }
    ensures kept { KeepsTables journal.old.items tables.old journal.new.items tables.new aim }
    ensures bytes { BytesFollowItems journal.old.items tables.old journal.new.items tables.new aim }
    ensures prepared { PreparesAsResult result journal.old.items journal.new.items tables.old.store
        tables.new.store }
    ensures ready { 0 < journal.old.spare
        → is_full tables_of.Memory max_records_added_by_split journal.old.items ≡ false →
        IsOk result × (journal.new.spare ≡ journal.old.spare - 1) }
{
    make_memory_room(journal, tables, aim, &MaxNewRecords::Two)?;
    journal.push(Item::Node { range, node })?;
    range_end_fits(&range);
    tables.set_node(range, node);
    tables_are_in_store(tables);
    Ok(())
}

/// Marks the memory of the range as mirrored (`memblock_mark_mirror`). If the table has room for
/// two more records, and the journal for an item, the call can't fail.
///
/// # Errors
///
/// - `NoGapForTable`: a table has to grow, and no free memory is found for it.
/// - `Memory`: this program is out of memory.
pub fn set_mirror(
    journal: &mut Journal,
    tables: &mut Tables,
    aim: AllocSettings,
    range: Range,
) -> Result<(), Refusal>
    requires some { 0 < range.size }
    requires kept { IsMemblockForSomeKernel journal.old.items tables.old aim }
    requires begun { HasFirstItem journal.old.items }
    ensures ends { EndsAsChange result journal.old.items journal.new.items
        (set_range_mirror range) }
    ensures kept { KeepsTables journal.old.items tables.old journal.new.items tables.new aim }
    ensures bytes { BytesFollowItems journal.old.items tables.old journal.new.items tables.new aim }
    ensures prepared { PreparesAsResult result journal.old.items journal.new.items tables.old.store
        tables.new.store }
    ensures ready { 0 < journal.old.spare
        → is_full tables_of.Memory max_records_added_by_split journal.old.items ≡ false →
        IsOk result × (journal.new.spare ≡ journal.old.spare - 1) }
{
    make_memory_room(journal, tables, aim, &MaxNewRecords::Two)?;
    journal.push(Item::Mirror { range })?;
    range_end_fits(&range);
    tables.set_mirror(range);
    tables_are_in_store(tables);
    Ok(())
}
