//! The walk down: from an address to lower ones, as in `__next_mem_range_rev`. A binary search in
//! each table finds the first record. After that the walk looks at each record once, except those
//! that a search for a node, or for mirrored memory, passes over (`node.rt`).
ghost use Rattle.std.specs.Prelude.{◌≡◌, ◌≢◌, ◌<◌, ◌≤◌, max, None};
ghost use Rattle.memblock_find.specs.Walk.{OnlyFirstMayBegin, ExactlyFirstBeginBelow, IsLookDown, IsWalkDownAt};

use crate::cursor::{Cursor, Look, RecordReaders};
use memblock_ranges::Records;

/// Returns the number of records that begin below address `at`. The search is binary.
fn count_beginning_below(records: &Records<'_>, at: u64) -> u64
    ensures { ExactlyFirstBeginBelow at records.now result }
{
    count_beginning_among(records, records.count(), at)
}

/// Returns the number of records that begin below address `at`, by a binary search of the first
/// `count` records. No later record may begin below `at`.
fn count_beginning_among(records: &Records<'_>, count: u64, at: u64) -> u64
    requires { OnlyFirstMayBegin at records.now count }
    ensures { ExactlyFirstBeginBelow at records.now result }
{
    if count == 0 || records.get(count - 1).base < at {
        return count;
    }
    let mut low = 0;
    let mut high = count - 1;
    while low < high {
        let middle = low + (high - low) / 2;
        if records.get(middle).base < at {
            low = middle + 1;
        } else {
            high = middle;
        }
    }
    low
}

/// Returns the label that the table gives the addresses right below `at`, and the lowest address
/// down to which they have it. Exactly `slot` records must begin below `at`.
pub fn look_down(records: &Records<'_>, slot: u64, at: u64) -> Look
    requires { ExactlyFirstBeginBelow at records.now slot }
    ensures { IsLookDown records.now at result }
{
    if slot == 0 {
        return Look {
            label: None,
            bound: 0,
            slot: 0,
        };
    }
    let region = records.get(slot - 1);
    let end = region.base + region.size;
    if end < at {
        Look {
            label: None,
            bound: end,
            slot,
        }
    } else {
        Look {
            label: Some(records.label(slot - 1)),
            bound: region.base,
            slot: slot - 1,
        }
    }
}

/// Returns what the table says about the addresses right below `at`, for a walk that has come from
/// `from` down to `at`. `look` is what it said at `from`, and stays valid while the walk is above
/// its bound. At the bound the next record is read.
fn look_after_move(records: &Records<'_>, look: Look, from: u64, at: u64) -> Look
    requires look { IsLookDown records.now from look }
    requires above { look.bound ≤ at }
    requires below { at ≤ from }
    ensures { IsLookDown records.now at result }
{
    if look.bound == at {
        look_down(records, look.slot, at)
    } else {
        look
    }
}

/// Returns what the table says about the addresses right below `at`, for a walk that jumps from
/// `from` down to `at`. `look` is what it said at `from`; `at` may be far below its bound. The
/// records in between aren't read: a binary search finds the next one.
pub fn look_after_jump(records: &Records<'_>, look: Look, from: u64, at: u64) -> Look
    requires look { IsLookDown records.now from look }
    requires below { at ≤ from }
    ensures { IsLookDown records.now at result }
{
    if look.bound < at {
        return look;
    }
    let slot = count_beginning_among(records, look.slot, at);
    look_down(records, slot, at)
}

/// Returns the position of a walk down that starts at address `at`. It takes a binary search in
/// each table.
// `#[inline]` is only a hint here, because the function has several callers. A cursor that isn't
// inlined is returned through memory, which costs time in a search whose first gap fits.
#[inline]
pub fn start_walk_down(lists: &RecordReaders<'_>, at: u64) -> Cursor
    ensures at { result.at ≡ at }
    ensures down { IsWalkDownAt lists.now.memory lists.now.reserved result }
{
    let memory = count_beginning_below(&lists.memory, at);
    let reserved = count_beginning_below(&lists.reserved, at);
    Cursor {
        at,
        memory: look_down(&lists.memory, memory, at),
        reserved: look_down(&lists.reserved, reserved, at),
    }
}

impl Cursor {
    /// Returns the lowest address of the stretch right below the cursor: down to it all addresses
    /// have the cursor's label. If the stretch is unclaimed memory, the address below it isn't
    /// unclaimed memory of the same label.
    pub fn bottom(&self) -> u64
        ensures { result ≡ max self.now.memory.bound self.now.reserved.bound }
    {
        self.memory.bound.max(self.reserved.bound)
    }

    /// Returns the position of the walk after it has moved down to [`Cursor::bottom`].
    pub fn down(&self, lists: &RecordReaders<'_>) -> Cursor
        requires { IsWalkDownAt lists.now.memory lists.now.reserved self.now }
        ensures at { result.at ≡ max self.now.memory.bound self.now.reserved.bound }
        ensures down { IsWalkDownAt lists.now.memory lists.now.reserved result }
    {
        let at = self.bottom();
        Cursor {
            at,
            memory: look_after_move(&lists.memory, self.memory, self.at, at),
            reserved: look_after_move(&lists.reserved, self.reserved, self.at, at),
        }
    }
}
