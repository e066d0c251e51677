//! Checks whether the bytes at a table head (a table's address, number of records and room) are a
//! list of records, as the other calls require. Callers need this check if they have only the
//! bytes, without a table whose contract ensures it.

ghost use Rattle.std.specs.Prelude.{◌≡◌, ◌+◌, ◌*◌, ◌%◌, ◌^◌, ◌<◌, ◌≤◌, ◌↔◌, IsTrue};
ghost use Rattle.memblock_ranges.specs.Tables.{records_of_head};
ghost use Rattle.memblock_frames.specs.HeadRecords.{HasRecords, AreWholeFrames};

use bm_base::FRAME_SIZE;
use memblock_ranges::{Head, RECORD_SIZE, Region, region_at};
use phys_store::Store;

/// Tests whether the number of records at a table head is at most its room, and all bytes of that
/// room (24 per record) are below 2^64.
fn head_has_room(head: &Head) -> bool
    ensures { IsTrue result ↔ (head.now.count ≤ head.now.room)
        × (head.now.place + 24 * head.now.room < 2 ^ 64) }
{
    let Some(size) = head.room.checked_mul(RECORD_SIZE) else {
        return false;
    };
    head.count <= head.room && head.place.checked_add(size).is_some()
}

/// Tests whether the record isn't empty, begins at or above `from`, and ends at or below `bound`.
fn is_nonempty_within(region: &Region, from: u64, bound: u64) -> bool
    ensures { IsTrue result ↔ (from ≤ region.now.base) × (0 < region.now.size)
        × (region.now.base + region.now.size ≤ bound) }
{
    match region.base.checked_add(region.size) {
        Some(end) => from <= region.base && region.base < end && end <= bound,
        None => false,
    }
}

/// Tests whether the record begins and ends at a frame boundary.
fn is_whole_frames(region: &Region) -> bool
    ensures { IsTrue result ↔ (region.now.base % FRAME_SIZE ≡ 0)
        × (region.now.size % FRAME_SIZE ≡ 0) }
{
    region.base % FRAME_SIZE == 0 && region.size % FRAME_SIZE == 0
}

/// Tests whether a table head and the bytes at its address are a list of records. The head's
/// `count` must be at most `room`, and the room must end below 2^64. The `count` records must be in
/// ascending order, not overlap, not be empty, and end at or below the address `bound`.
pub fn has_records(store: &Store, head: &Head, bound: u64) -> bool
    ensures list { IsTrue result ↔ HasRecords store.now head.now bound }
    ensures space { IsTrue result → HasRecords store.now head.now (2 ^ 64) }
{
    if !head_has_room(head) {
        return false;
    }
    let mut from = 0;
    for i in 0..head.count {
        let region = region_at(store, head, i);
        if !is_nonempty_within(&region, from, bound) {
            return false;
        }
        from = region.base + region.size;
    }
    true
}

/// Tests whether every record of the table at `head` begins and ends at a frame boundary. The bytes
/// there must be a list of records (`HasRecords`).
pub fn has_whole_frames(store: &Store, head: &Head) -> bool
    requires { HasRecords store.now head.now (2 ^ 64) }
    ensures { IsTrue result ↔ AreWholeFrames (records_of_head store.now head.now) }
{
    for i in 0..head.count {
        let region = region_at(store, head, i);
        if !is_whole_frames(&region) {
            return false;
        }
    }
    true
}
