//! Searches for the best free address: in mirrored memory first, and then in any memory
//! (`choose_memblock_flags`). Also computes the frames that a table that grows moves to and those
//! that it leaves (`memblock_double_array`).

ghost use Rattle.std.specs.Prelude.{◌≡◌, ◌≢◌, ℕ, ◌+◌, ◌*◌, ◌^◌, ◌<◌, ◌≤◌, SomeIff};
ghost use Rattle.growth_model.specs.Growth.{round_up_to_frames};
ghost use Rattle.memblock_grow.specs.Places.{MirrorsComeFromItems, best_place_in_tables, mirrored_place_in_tables, frames_between, frames_beside, old_place_frames};

use bm_base::{FRAME_SIZE, Range};
use boot_journal::Journal;
use memblock_find::{Mode, Query, find};
use memblock_ranges::{FIRST_ROOM, Head, Tables};

/// The limit of allocations, and the direction of searches (`memblock.current_limit`,
/// `memblock.bottom_up`).
#[derive(Clone, Copy, Debug, PartialEq, Eq)]
pub struct AllocSettings {
    /// The address at or below which each allocation ends.
    pub limit: u64,
    /// Whether searches go from the lowest address up, instead of from the highest down.
    pub upward: bool,
}

/// Rounds a number of bytes up to whole 4 KiB frames, in bytes. Returns `None` if the result would
/// exceed 2^64 - 1.
fn round_up_to_frames(bytes: u64) -> Option<u64>
    ensures { SomeIff result (round_up_to_frames bytes < 2 ^ 64) (round_up_to_frames bytes) }
{
    let padded = bytes.checked_add(FRAME_SIZE - 1)?;
    Some(padded / FRAME_SIZE * FRAME_SIZE)
}

/// Returns the greatest address at which the query fits in mirrored memory, or the least if
/// `upward` is true. Returns `None` if it fits nowhere there. Doesn't search if the journal has no
/// item that marks memory as mirrored.
fn mirrored_place(journal: &Journal, tables: &Tables, upward: bool, query: &Query) -> Option<u64>
    requires some { 1 ≤ query.now.size }
    requires aligned { (k : ℕ) × (query.now.align ≡ 2 ^ k) }
    requires mirrors { MirrorsComeFromItems journal.now.items tables.now }
    ensures { result ≡ mirrored_place_in_tables tables.now upward query.now }
{
    if !journal.has_mirrors() {
        return None;
    }
    let mode = Mode {
        mirror: true,
        up: upward,
    };
    find(tables, query, mode)
}

/// Returns the greatest address at which the query fits, or the least if `upward` is true. Mirrored
/// memory is searched first, and any memory only if the query doesn't fit there. Returns `None` if
/// it fits nowhere.
pub fn best_place_in_tables(
    journal: &Journal,
    tables: &Tables,
    upward: bool,
    query: &Query,
) -> Option<u64>
    requires some { 1 ≤ query.now.size }
    requires aligned { (k : ℕ) × (query.now.align ≡ 2 ^ k) }
    requires mirrors { MirrorsComeFromItems journal.now.items tables.now }
    ensures { result ≡ best_place_in_tables tables.now upward query.now }
{
    if let Some(place) = mirrored_place(journal, tables, upward, query) {
        return Some(place);
    }
    let mode = Mode {
        mirror: false,
        up: upward,
    };
    find(tables, query, mode)
}

/// Returns free frames for a table of `2 * room` records of 24 bytes, at the best address between
/// `lo` and `hi`, in mirrored memory first. Returns `None` if there are none, or if the size in
/// bytes would exceed 2^64 - 1.
pub fn table_frames_between(
    journal: &Journal,
    tables: &Tables,
    upward: bool,
    room: u64,
    lo: u64,
    hi: u64,
) -> Option<Range>
    requires some { 0 < room }
    requires mirrors { MirrorsComeFromItems journal.now.items tables.now }
    ensures { result ≡ frames_between tables.now upward room lo hi }
{
    let size = round_up_to_frames(room.checked_mul(48)?)?;
    let query = Query {
        lo,
        hi,
        size,
        align: FRAME_SIZE,
        node: None,
    };
    let base = best_place_in_tables(journal, tables, upward, &query)?;
    Range::new(base, size)
}

/// Returns free frames for a table of `2 * room` records of 24 bytes that don't overlap the range
/// `avoid`: at the best address above that range, or else at the best one below it. Returns `None`
/// if there are none. The frames end at or below the limit.
pub fn table_frames_beside(
    journal: &Journal,
    tables: &Tables,
    aim: AllocSettings,
    room: u64,
    avoid: Range,
) -> Option<Range>
    requires some { 0 < room }
    requires mirrors { MirrorsComeFromItems journal.now.items tables.now }
    ensures { result ≡ frames_beside tables.now aim room avoid }
{
    let AllocSettings { limit, upward } = aim;
    if let Some(place) = table_frames_between(journal, tables, upward, room, avoid.end(), limit) {
        return Some(place);
    }
    table_frames_between(journal, tables, upward, room, 0, avoid.base.min(limit))
}

/// Returns the frames that a table with this head takes, or `None` if it hasn't moved yet: its
/// first frames, in the kernel's image, are never freed. The frames end below 2^64.
pub fn old_place_frames(head: Head) -> Option<Range>
    requires far { head.room ≢ 128 → head.place + round_up_to_frames (24 * head.room) < 2 ^ 64 }
    ensures { result ≡ old_place_frames head.place head.room }
{
    if head.room == FIRST_ROOM {
        return None;
    }
    let size = round_up_to_frames(head.room.checked_mul(24)?)?;
    Range::new(head.place, size)
}
