//! The downward search for memory of a node, or for mirrored memory. It skips other memory one
//! record at a time, and reads only the label of a record that it skips. It looks at the reserved
//! table again only when it has found memory that it may return.
ghost use Rattle.std.specs.Prelude.{◌≡◌, ℕ, ◌-◌, ◌^◌, ◌<◌, ◌≤◌, false, max, Some, None, length};
ghost use Rattle.address_runs.specs.Runs.{run_end, value_at};
ghost use Rattle.memblock_model.specs.Search.{outermost_fit};
ghost use Rattle.memblock_find.specs.Places.{is_allowed_label, NoAddressIsAllowed};
ghost use Rattle.memblock_find.specs.Walk.{nth_record, IsWalkDownAt};

use crate::cursor::{Cursor, RecordReaders, record_readers};
use crate::down::{look_after_jump, look_down, start_walk_down};
use crate::search::highest_place_in_stretch;
use bm_base::FRAME_SIZE;
use memblock_model::{Label, Query};
use memblock_ranges::{Records, Tables};

/// Tests whether a search may return memory with this label. If `node` is `Some`, the memory must
/// be on that node. If `mirror` is true, the memory must be mirrored.
pub fn is_allowed_label(mirror: bool, node: Option<u32>, label: Label) -> bool
    ensures { result ≡ is_allowed_label mirror node (Some label) }
{
    let allowed = match node {
        None => true,
        Some(_) => label.node() == node,
    };
    allowed && (!mirror || label.has_mirror_flag())
}

/// Returns one more than the index of the last record, among the first `count`, whose memory the
/// search may return, or 0 if there is none. The search may be for one `node`, for mirrored memory
/// (`mirror`), or both.
fn count_to_last_allowed(records: &Records<'_>, count: u64, mirror: bool, node: Option<u32>) -> u64
    requires { count ≤ length records.now }
    ensures within { result ≤ count }
    ensures passed { (i : ℕ) → result ≤ i → i < count
        → is_allowed_label mirror node (Some (nth_record records.now i).value) ≡ false }
{
    let mut left = count;
    while left > 0 {
        if is_allowed_label(mirror, node, records.label(left - 1)) {
            return left;
        }
        left -= 1;
    }
    left
}

/// Returns the address at which the last of the first `count` records ends, or 0 if `count` is 0.
pub fn end_of_records(records: &Records<'_>, count: u64) -> u64
    requires { count ≤ length records.now }
    ensures none { count ≡ 0 → result ≡ 0 }
    ensures end { 0 < count → result ≡ run_end (nth_record records.now (count - 1)) }
{
    if count == 0 {
        return 0;
    }
    let region = records.get(count - 1);
    region.base + region.size
}

impl Cursor {
    /// Tests whether there is memory right below the cursor and the search may return it: it must
    /// be on `node`, if that is `Some`, and mirrored, if `mirror` is true.
    fn is_allowed(&self, mirror: bool, node: Option<u32>) -> bool
        requires { is_allowed_label mirror node None ≡ false }
        ensures { result ≡ is_allowed_label mirror node self.now.memory.label }
    {
        match self.memory.label {
            Some(label) => is_allowed_label(mirror, node, label),
            None => false,
        }
    }

    /// Returns the position of the walk after a jump down: to the end of the next lower record of
    /// the memory table that the search may return, or to address 0 if there is no such record.
    // Only a hint to inline, as at `start_walk_down`: this function has several callers too.
    #[inline]
    fn walk_down_to_allowed(
        &self,
        lists: &RecordReaders<'_>,
        mirror: bool,
        node: Option<u32>,
    ) -> Cursor
        requires narrow { is_allowed_label mirror node None ≡ false }
        requires down { IsWalkDownAt lists.now.memory lists.now.reserved self.now }
        ensures order { result.at ≤ self.now.memory.bound }
        ensures passed { NoAddressIsAllowed mirror
            (value_at lists.now.memory) node result.at self.now.memory.bound }
        ensures down { IsWalkDownAt lists.now.memory lists.now.reserved result }
    {
        let count = count_to_last_allowed(&lists.memory, self.memory.slot, mirror, node);
        let at = end_of_records(&lists.memory, count);
        Cursor {
            at,
            memory: look_down(&lists.memory, count, at),
            reserved: look_after_jump(&lists.reserved, self.reserved, self.at, at),
        }
    }

    /// Returns the position of the walk after its next step. If the search may return the memory
    /// right below the cursor, the walk moves to [`Cursor::bottom`]. Otherwise it moves to the end
    /// of the next lower record that the search may return, or to address 0 if there is none.
    fn down_to_allowed(&self, lists: &RecordReaders<'_>, mirror: bool, node: Option<u32>) -> Cursor
        requires narrow { is_allowed_label mirror node None ≡ false }
        requires down { IsWalkDownAt lists.now.memory lists.now.reserved self.now }
        ensures order { result.at ≤ max self.now.memory.bound self.now.reserved.bound }
        ensures passed { NoAddressIsAllowed mirror (value_at lists.now.memory) node result.at
            (max self.now.memory.bound self.now.reserved.bound) }
        ensures down { IsWalkDownAt lists.now.memory lists.now.reserved result }
    {
        if self.is_allowed(mirror, node) {
            self.down(lists)
        } else {
            self.walk_down_to_allowed(lists, mirror, node)
        }
    }
}

/// Returns the greatest address at which the query fits, or `None` if it fits nowhere. If `mirror`
/// is true, only mirrored memory is searched. The query must name a node, or `mirror` must be true.
// Never compiled into `find`, and with its own loop: with both loops in one function there are too
// few registers, which costs time at each record of a search for any memory.
#[inline(never)]
pub fn find_restricted_downward(tables: &Tables, query: &Query, mirror: bool) -> Option<u64>
    requires narrow { is_allowed_label mirror query.now.node None ≡ false }
    requires some { 1 ≤ query.now.size }
    requires aligned { (k : ℕ) × (query.now.align ≡ 2 ^ k) }
    ensures { result ≡ outermost_fit (record { mirror = mirror; up = false })
        (value_at tables.now.memory.records) (value_at tables.now.reserved.records) query.now }
{
    let lists = record_readers(tables);
    let low = query.lo.max(FRAME_SIZE);
    let mut cursor = start_walk_down(&lists, query.hi);
    while cursor.at > low {
        let place = highest_place_in_stretch(
            query,
            low,
            mirror,
            cursor.unclaimed_label(),
            cursor.bottom(),
            cursor.at,
        );
        if place.is_some() {
            return place;
        }
        cursor = cursor.down_to_allowed(&lists, mirror, query.node);
    }
    None
}
