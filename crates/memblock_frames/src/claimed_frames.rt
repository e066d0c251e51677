//! Finds the next frames that overlap a record of a table. A caller that goes upward passes the
//! index that the previous call returned. A walk over all frames therefore goes through the
//! records only once.

ghost use Rattle.std.specs.Prelude.{◌≡◌, ◌^◌, ◌<◌, ◌≤◌, ℕ, true, false};
ghost use Rattle.address_runs.specs.Runs.{value_at};
ghost use Rattle.memblock_ranges.specs.Tables.{records_of_head};
ghost use Rattle.memblock_frames.specs.Frames.{is_unclaimed, OverlapOnlyBelow};
ghost use Rattle.memblock_frames.specs.HeadRecords.{HasRecords};

use crate::frames::frames_of_record;
use memblock_ranges::Head;
use phys_store::Store;

/// The next frames that overlap a record of a table: those from `first` to below `end`.
#[derive(Clone, Copy, Debug, PartialEq, Eq)]
pub struct ClaimedFrames {
    /// The index of the record from which the next search can start.
    pub index: u64,
    /// The first of the frames, or 2^64 - 1 if there are none.
    pub first: u64,
    /// One more than the last of the frames.
    pub end: u64,
}

/// Returns the lowest frames, from frame `at` on, that overlap a record of the table at `head`: the
/// frames of one record, without those below `at`. `at` must be below 2^52. The search begins at
/// the record with index `index` and only goes to higher indices. The records before that index
/// must not overlap frame `at` or any frame above it.
pub fn next_claimed_frames(store: &Store, head: &Head, index: u64, at: u64) -> ClaimedFrames
    requires table { HasRecords store.now head.now (2 ^ 64) }
    requires index { index ≤ head.now.count }
    requires passed { OverlapOnlyBelow (records_of_head store.now head.now) index at }
    requires low { at < 2 ^ 52 }
    ensures index { result.index ≤ head.now.count }
    ensures forward { index ≤ result.index }
    ensures passed { OverlapOnlyBelow (records_of_head store.now head.now) result.index at }
    ensures order { at ≤ result.first }
    ensures after { at < result.end }
    ensures some { result.first ≤ result.end }
    ensures not_empty { result.first < 2 ^ 52 → result.first < result.end }
    ensures unclaimed { (x : ℕ) → at ≤ x → x < result.first → x < 2 ^ 52
        → is_unclaimed (value_at (records_of_head store.now head.now)) x ≡ true }
    ensures claimed { (x : ℕ) → result.first ≤ x → x < result.end → x < 2 ^ 52 →
        is_unclaimed (value_at (records_of_head store.now head.now)) x ≡ false }
{
    let mut i = index;
    while i < head.count {
        let frames = frames_of_record(store, head, i);
        if at < frames.end {
            return ClaimedFrames {
                index: i,
                first: frames.first.max(at),
                end: frames.end,
            };
        }
        i += 1;
    }
    ClaimedFrames {
        index: i,
        first: u64::MAX,
        end: u64::MAX,
    }
}
