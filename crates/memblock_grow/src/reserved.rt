//! The reserved table: its growth, claims and frees.
//!
//! A growth avoids the range that is to be claimed or freed, so that the table never moves into it.
//! The memory that the table moves to is claimed like any other range, and the old memory is freed.
//! A claim doubles the table's room up to twice before it writes its item.
ghost use Rattle.std.specs.Prelude.{◌≡◌, ◌≢◌, ◌+◌, ◌-◌, ◌<◌, ◌≤◌, false, None, Err, OnOk, OnErr, IsOk};
ghost use Rattle.memblock_model.specs.declared.owner.Owner.{Owner as ModelOwner};
ghost use Rattle.memblock_model.specs.Items.{owner_of};
ghost use Rattle.memblock_model.specs.declared.owner.Which.TheVariants as tables_of;
ghost use Rattle.growth_model.specs.declared.refusal.Refusal.TheVariants as refusals;
ghost use Rattle.growth_model.specs.Change.{if_due};
ghost use Rattle.growth_model.specs.Growth.{reserved_growth, make_table_room, claim_range, free_range, count_uncovered_pieces, max_records_added_by_split, is_full};
ghost use Rattle.growth_model.specs.Ends.{EndsAsChange};
ghost use Rattle.growth_model.specs.Tables.{HasFirstItem, IsUnclaimed};
ghost use Rattle.memblock_grow.specs.Invariant.{IsMemblockForSomeKernel, AllowsClaim, AllowsFree, KeepsTables, BytesFollowItems};
ghost use Rattle.memblock_grow.specs.Prepared.{Prepares};
ghost use Rattle.memblock_grow.specs.NewRecords.{new_records_by_items, HasRoomFor, RangeEndsBelow2To64};

use crate::new_records::{MaxNewRecords, lacks_room};
use crate::places::{AllocSettings, old_place_frames, table_frames_beside};
use crate::table_laws::tables_are_in_store;
use bm_base::Range;
use boot_journal::{Item, Journal, Owner, Which};
use growth_model::Refusal;
use memblock_ranges::{NO_NODE, Tables};
use run_edits::range_end_fits;

/// Doubles the reserved table's room and moves it to free memory that doesn't overlap the range
/// `avoid` (`memblock_double_array`). The growth writes two items together (the move, and the claim
/// of the new memory), and a third (the free of the old memory) unless the table was still in the
/// kernel's image. Everything that can fail comes before the first item, so if the growth fails
/// nothing is written or prepared.
///
/// # Errors
///
/// - `NoGapForTable`: no free memory is found for the table.
/// - `Memory`: this program is out of memory.
fn grow_reserved(
    journal: &mut Journal,
    tables: &mut Tables,
    aim: AllocSettings,
    avoid: Range,
) -> Result<(), Refusal>
    requires kept { IsMemblockForSomeKernel journal.old.items tables.old aim }
    requires begun { HasFirstItem journal.old.items }
    ensures ends { EndsAsChange result journal.old.items journal.new.items (reserved_growth avoid) }
    ensures kept { KeepsTables journal.old.items tables.old journal.new.items tables.new aim }
    ensures bytes { BytesFollowItems journal.old.items tables.old journal.new.items tables.new aim }
    ensures prepared { Prepares journal.old.items journal.new.items tables.old.store
        tables.new.store }
    ensures memory { tables.new.memory ≡ tables.old.memory }
{
    let head = tables.head(Which::Reserved);
    let Some(place) = table_frames_beside(journal, tables, aim, head.room, avoid) else {
        return Err(Refusal::NoGapForTable {
            which: Which::Reserved,
            room: head.room,
        });
    };
    let left = old_place_frames(head);
    journal.ready(3)?;
    tables.prepare(place)?;
    tables.relocate(Which::Reserved, place.base);
    tables_are_in_store(tables);
    journal.push_ready(Item::Grown {
        which: Which::Reserved,
        place: place.base,
        room: 2 * head.room,
    });
    journal.push_ready(Item::Claim {
        range: place,
        owner: Owner::Table(Which::Reserved),
    });
    tables.insert(Which::Reserved, place, NO_NODE);
    tables_are_in_store(tables);
    match left {
        Some(range) => {
            journal.push_ready(Item::Free { range });
            range_end_fits(&range);
            tables.remove(Which::Reserved, range);
            tables_are_in_store(tables);
            Ok(())
        }
        None => Ok(()),
    }
}

/// Doubles the reserved table's room if it has too little room for `more` records.
///
/// # Errors
///
/// - `NoGapForTable`: the reserved table has to grow, and no free memory is found for it.
/// - `Memory`: this program is out of memory.
fn grow_reserved_if_full(
    journal: &mut Journal,
    tables: &mut Tables,
    aim: AllocSettings,
    avoid: Range,
    more: &MaxNewRecords,
) -> Result<(), Refusal>
    requires { IsMemblockForSomeKernel journal.old.items tables.old aim }
    ensures ends { EndsAsChange result journal.old.items journal.new.items
        (if_due (is_full tables_of.Reserved (new_records_by_items tables_of.Reserved more.now))
        (reserved_growth avoid)) }
    ensures kept { KeepsTables journal.old.items tables.old journal.new.items tables.new aim }
    ensures bytes { BytesFollowItems journal.old.items tables.old journal.new.items tables.new aim }
    ensures prepared { Prepares journal.old.items journal.new.items tables.old.store
        tables.new.store }
    ensures memory { tables.new.memory ≡ tables.old.memory }
    ensures within { RangeEndsBelow2To64 more.now }
    ensures idle { HasRoomFor more.now tables.old.reserved →
        IsOk result × (journal.new ≡ journal.old) × (tables.new ≡ tables.old) }
{
    if lacks_room(tables, Which::Reserved, more) {
        grow_reserved(journal, tables, aim, avoid)
    } else {
        Ok(())
    }
}

/// Makes room in the reserved table for `more` records. Doubles the room while it is too small for
/// them, at most twice, which is always enough.
///
/// # Errors
///
/// - `NoGapForTable`: the reserved table has to grow, and no free memory is found for it.
/// - `Memory`: this program is out of memory.
fn make_reserved_room(
    journal: &mut Journal,
    tables: &mut Tables,
    aim: AllocSettings,
    avoid: Range,
    more: &MaxNewRecords,
) -> Result<(), Refusal>
    requires { IsMemblockForSomeKernel journal.old.items tables.old aim }
    ensures ends { EndsAsChange result journal.old.items journal.new.items
        (make_table_room tables_of.Reserved (new_records_by_items tables_of.Reserved more.now)
        (reserved_growth avoid)) }
    ensures kept { KeepsTables journal.old.items tables.old journal.new.items tables.new aim }
    ensures bytes { BytesFollowItems journal.old.items tables.old journal.new.items tables.new aim }
    ensures prepared { Prepares journal.old.items journal.new.items tables.old.store
        tables.new.store }
    ensures memory { tables.new.memory ≡ tables.old.memory }
    ensures room { OnOk result (HasRoomFor more.now tables.new.reserved) }
    ensures idle { HasRoomFor more.now tables.old.reserved →
        IsOk result × (journal.new ≡ journal.old) × (tables.new ≡ tables.old) }
{
    grow_reserved_if_full(journal, tables, aim, avoid, more)?;
    grow_reserved_if_full(journal, tables, aim, avoid, more)
}

/// Returns `Ok` if the table has room for a claim of the range or could grow for it. The range must
/// be unclaimed. Changes and allocates nothing.
///
/// # Errors
///
/// - `NoGapForTable`: the reserved table would have to grow, and no free memory is found for it.
// One growth is enough for the test: an unclaimed range is one piece, so one growth makes room for
// it.
pub fn check_claim(
    journal: &Journal,
    tables: &Tables,
    aim: AllocSettings,
    range: Range,
) -> Result<(), Refusal>
    requires some { 0 < range.size }
    requires kept { IsMemblockForSomeKernel journal.now.items tables.now aim }
    requires begun { HasFirstItem journal.now.items }
    requires free { IsUnclaimed (owner_of journal.now.items) range }
    ensures ok { (who : ModelOwner)
        → OnOk result ((claim_range range who journal.now.items).refused ≡ None) }
    ensures refused { (who : ModelOwner) → OnErr result
        (EndsAsChange result journal.now.items journal.now.items (claim_range range who)) }
    ensures short { result ≢ Err refusals.Memory }
{
    if !lacks_room(tables, Which::Reserved, &MaxNewRecords::PiecesOf(range)) {
        return Ok(());
    }
    let head = tables.head(Which::Reserved);
    match table_frames_beside(journal, tables, aim, head.room, range) {
        Some(_) => Ok(()),
        None => Err(Refusal::NoGapForTable {
            which: Which::Reserved,
            room: head.room,
        }),
    }
}

/// Claims the range for the owner (`memblock_reserve`). If the table has room, and the journal has
/// room for an item, the call can't fail.
///
/// # Errors
///
/// - `NoGapForTable`: the reserved table has to grow, and no free memory is found for it.
/// - `Memory`: this program is out of memory.
pub fn claim(
    journal: &mut Journal,
    tables: &mut Tables,
    aim: AllocSettings,
    range: Range,
    owner: Owner,
) -> Result<(), Refusal>
    requires some { 0 < range.size }
    requires may { AllowsClaim journal.old.items tables.old aim range owner }
    ensures ends { EndsAsChange result journal.old.items journal.new.items
        (claim_range range owner) }
    ensures kept { KeepsTables journal.old.items tables.old journal.new.items tables.new aim }
    ensures bytes { BytesFollowItems journal.old.items tables.old journal.new.items tables.new aim }
    ensures prepared { Prepares journal.old.items journal.new.items tables.old.store
        tables.new.store }
    ensures memory { tables.new.memory ≡ tables.old.memory }
    ensures ready { 0 < journal.old.spare → is_full tables_of.Reserved
        (count_uncovered_pieces tables_of.Reserved range) journal.old.items ≡ false →
        IsOk result × (journal.new.spare ≡ journal.old.spare - 1) }
{
    make_reserved_room(journal, tables, aim, range, &MaxNewRecords::PiecesOf(range))?;
    journal.push(Item::Claim { range, owner })?;
    range_end_fits(&range);
    tables.insert(Which::Reserved, range, NO_NODE);
    tables_are_in_store(tables);
    Ok(())
}

/// Frees the range (`memblock_phys_free`). If the table has room for two more records, and the
/// journal for an item, the call can't fail.
///
/// # Errors
///
/// - `NoGapForTable`: the reserved table has to grow, and no free memory is found for it.
/// - `Memory`: this program is out of memory.
pub fn free(
    journal: &mut Journal,
    tables: &mut Tables,
    aim: AllocSettings,
    range: Range,
) -> Result<(), Refusal>
    requires some { 0 < range.size }
    requires begun { HasFirstItem journal.old.items }
    requires away { AllowsFree journal.old.items tables.old aim range }
    ensures ends { EndsAsChange result journal.old.items journal.new.items (free_range range) }
    ensures kept { KeepsTables journal.old.items tables.old journal.new.items tables.new aim }
    ensures bytes { BytesFollowItems journal.old.items tables.old journal.new.items tables.new aim }
    ensures prepared { Prepares journal.old.items journal.new.items tables.old.store
        tables.new.store }
    ensures memory { tables.new.memory ≡ tables.old.memory }
    ensures ready { 0 < journal.old.spare
        → is_full tables_of.Reserved max_records_added_by_split journal.old.items ≡ false →
        IsOk result × (journal.new.spare ≡ journal.old.spare - 1) }
{
    make_reserved_room(journal, tables, aim, range, &MaxNewRecords::Two)?;
    journal.push(Item::Free { range })?;
    range_end_fits(&range);
    tables.remove(Which::Reserved, range);
    tables_are_in_store(tables);
    Ok(())
}
