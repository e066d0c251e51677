//! The walk up: from an address to higher ones, as in `__next_mem_range`. It is the walk down
//! (`down.rt`) in the other direction, except at the highest address. After the last record a look
//! reaches up to 2^64 - 1, which no record covers, since each record ends below 2^64.
ghost use Rattle.std.specs.Prelude.{◌≡◌, ◌≤◌, min};
ghost use Rattle.memblock_find.specs.Walk.{ExactlyFirstEndAtOrBelow, IsLookUp, IsWalkUpAt};

use crate::cursor::{Cursor, Look, RecordReaders};
use memblock_ranges::Records;

/// Returns the number of records that end at or below address `at`. The search is binary.
fn count_ending_by(records: &Records<'_>, at: u64) -> u64
    ensures { ExactlyFirstEndAtOrBelow at records.now result }
{
    let mut low = 0;
    let mut high = records.count();
    while low < high {
        let middle = low + (high - low) / 2;
        let region = records.get(middle);
        if region.base + region.size <= at {
            low = middle + 1;
        } else {
            high = middle;
        }
    }
    low
}

/// Returns the label that the table gives the addresses from `at` on, and the address up to which
/// they have it. Exactly `slot` records must end at or below `at`.
fn look_up(records: &Records<'_>, slot: u64, at: u64) -> Look
    requires { ExactlyFirstEndAtOrBelow at records.now slot }
    ensures { IsLookUp records.now at result }
{
    if slot == records.count() {
        return Look {
            label: None,
            bound: u64::MAX,
            slot,
        };
    }
    let region = records.get(slot);
    let end = region.base + region.size;
    if at < region.base {
        Look {
            label: None,
            bound: region.base,
            slot,
        }
    } else {
        Look {
            label: Some(records.label(slot)),
            bound: end,
            slot: slot + 1,
        }
    }
}

/// Returns what the table says about the addresses from `at` on, for a walk that has come from
/// `from` up to `at`. `look` is what it said at `from`, and stays valid while the walk is below its
/// bound. At the bound the next record is read.
fn look_after_move(records: &Records<'_>, look: Look, from: u64, at: u64) -> Look
    requires look { IsLookUp records.now from look }
    requires above { from ≤ at }
    requires below { at ≤ look.bound }
    ensures { IsLookUp records.now at result }
{
    if look.bound == at {
        look_up(records, look.slot, at)
    } else {
        look
    }
}

/// Returns the position of a walk up that starts at address `at`. It takes a binary search in each
/// table.
pub fn start_walk_up(lists: &RecordReaders<'_>, at: u64) -> Cursor
    ensures at { result.at ≡ at }
    ensures up { IsWalkUpAt lists.now.memory lists.now.reserved result }
{
    let memory = count_ending_by(&lists.memory, at);
    let reserved = count_ending_by(&lists.reserved, at);
    Cursor {
        at,
        memory: look_up(&lists.memory, memory, at),
        reserved: look_up(&lists.reserved, reserved, at),
    }
}

impl Cursor {
    /// Returns the address at which the stretch from the cursor on ends: up to it all addresses
    /// have the cursor's label. If the stretch is unclaimed memory, the address at its end isn't
    /// unclaimed memory of the same label.
    pub fn top(&self) -> u64
        ensures { result ≡ min self.now.memory.bound self.now.reserved.bound }
    {
        self.memory.bound.min(self.reserved.bound)
    }

    /// Returns the position of the walk after it has moved up to [`Cursor::top`].
    pub fn up(&self, lists: &RecordReaders<'_>) -> Cursor
        requires { IsWalkUpAt lists.now.memory lists.now.reserved self.now }
        ensures at { result.at ≡ min self.now.memory.bound self.now.reserved.bound }
        ensures up { IsWalkUpAt lists.now.memory lists.now.reserved result }
    {
        let at = self.top();
        Cursor {
            at,
            memory: look_after_move(&lists.memory, self.memory, self.at, at),
            reserved: look_after_move(&lists.reserved, self.reserved, self.at, at),
        }
    }
}
