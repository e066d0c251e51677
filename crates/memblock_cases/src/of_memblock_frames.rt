//! Tests of `memblock_frames`: the frames of small tables, which are read from the tables' bytes.

use crate::tables::tables_of;
use memblock_frames::{
    ClaimedFrames, RecordFrames, frames_of_record, has_records, next_claimed_frames,
};
use memblock_ranges::{Head, Heads};
use phys_store::Store;
use std::process::Abort;
use std::test::Fail;

// Returns the frames of the record with index `i`, or `None` if the bytes at the head aren't
// records.
fn frames(store: &Store, head: &Head, i: u64) -> Option<RecordFrames> {
    if has_records(store, head, u64::MAX) && i < head.count {
        Some(frames_of_record(store, head, i))
    } else {
        None
    }
}

// Returns the first frames that have a byte of a record, or `None` if the bytes at the head aren't
// records.
fn first_claim(store: &Store, head: &Head) -> Option<ClaimedFrames> {
    if has_records(store, head, u64::MAX) {
        Some(next_claimed_frames(store, head, 0, 0))
    } else {
        None
    }
}

// Memory 0x1000..0x9efff of node 3, and 40 bytes that are reserved in frame 4.
#[test]
fn records_by_frames(rt: HostRuntime) -> Result<(), Fail> {
    let memory = [(0x1000, 0x9F000, 3)];
    let (store, heads) = tables_of(rt.alloc(), &memory, &[(0x4FC0, 0x4FE8)])?.into_parts();
    compare(&rt, &store, &heads);
    Ok(())
}

fn compare(rt: &impl Abort, store: &Store, heads: &Heads) {
    assert!(rt; has_records(store, &heads.memory, 0x9F000));
    assert!(rt; !has_records(store, &heads.memory, 0x9EFFF));
    let memory = frames(store, &heads.memory, 0).map(|f| (f.first, f.end, f.node));
    assert!(rt; memory == Some((1, 0x9F, Some(3))));
    let claim = first_claim(store, &heads.reserved).map(|c| (c.index, c.first, c.end));
    assert!(rt; claim == Some((0, 4, 5)));
}
