//! The calls on one table of a store that aren't edits of its records. They borrow the store and
//! the table's head, which has its address, its room and its count.
ghost use Rattle.std.specs.Prelude.{◌≡◌, ◌+◌, ◌*◌, ◌^◌, ◌<◌, length, get_or};
ghost use Rattle.bm_base.specs.Range.{Meet};
ghost use Rattle.phys_store.specs.Bytes.{ArePrepared};
ghost use Rattle.address_runs.specs.Runs.{RunOf};
ghost use Rattle.memblock_model.specs.Labels.{LabelView};
ghost use Rattle.memblock_ranges.specs.Encoding.{region_of, FitsRecord};
ghost use Rattle.memblock_ranges.specs.Tables.{HasTable, records_of_head, bytes_of_head, MovesTable, AreRecords};

use crate::borrowed_table::TableRef;
use crate::record::region_of;
use crate::records::Records;
use crate::region::{Head, RECORD_SIZE, Region};
use bm_base::Range;
use phys_store::Store;
use run_edits::Rows;

/// Moves the table that `head` describes to address `place`, doubles its room, and fills its old
/// bytes with zeros. The new bytes must be prepared, and must not overlap the old ones.
pub fn relocate(store: &mut Store, head: &mut Head, place: u64)
    requires table { HasTable store.old head.old }
    requires small { place + 48 * head.old.room < 2 ^ 64 }
    requires prepared { ArePrepared store.old place (48 * head.old.room) }
    requires apart { ¬ Meet (bytes_of_head head.old)
        (record { base = place; size = 48 * head.old.room }) }
    ensures { MovesTable store.old store.new head.old head.new place }
{
    let Head {
        place: old,
        room,
        count,
    } = *head;
    let used = RECORD_SIZE * count;
    store.copy_bytes(old, place, used);
    let free = Range {
        base: place + used,
        size: 2 * RECORD_SIZE * room - used,
    };
    store.fill(free, 0);
    let left = Range {
        base: old,
        size: RECORD_SIZE * room,
    };
    store.fill(left, 0);
    *head = Head {
        place,
        room: 2 * room,
        count,
    };
}

/// Returns the record at index `i`, counted from 0, as plain numbers. `i` must be below the table's
/// count.
pub fn region(store: &Store, head: &Head, i: u64) -> Region
    requires table { HasTable store.now head.now }
    requires within { i < length (records_of_head store.now head.now) }
    ensures region { (r : RunOf LabelView)
        → result ≡ region_of (get_or (records_of_head store.now head.now) i r) }
    ensures fits { (r : RunOf LabelView)
        → FitsRecord (get_or (records_of_head store.now head.now) i r) }
{
    let seen = TableRef { store, head };
    region_of(&seen.get(i))
}

/// Returns a reader for the records of the table that `head` describes.
pub fn records<'a>(store: &'a Store, head: &Head) -> Records<'a>
    requires table { HasTable store.now head.now }
    requires records { AreRecords (records_of_head store.now head.now) }
    ensures { result ≡ records_of_head store.now head.now }
{
    Records::of(
        store.slice(head.place, RECORD_SIZE * head.count),
        head.count,
    )
}

/// Returns the range that the table's array takes: 24 bytes for each record that it has room for.
pub fn bytes(head: &Head) -> Range
    requires { head.now.place + 24 * head.now.room < 2 ^ 64 }
    ensures { result ≡ bytes_of_head head.now }
{
    Range {
        base: head.place,
        size: RECORD_SIZE * head.room,
    }
}
