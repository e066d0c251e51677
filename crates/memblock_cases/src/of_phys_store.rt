//! Tests of `phys_store::Store`. Small ranges are prepared, written, filled and read.

use crate::ranges::bytes;
use bm_base::{Memory, Range};
use phys_store::Store;
use std::process::Abort;
use std::test::Fail;

// For each row, compares whether the range is prepared with the expected answer.
fn compare_prepared(rt: &impl Abort, store: &Store, rows: &[(Range, bool)]) {
    for (range, is_prepared) in rows {
        assert!(rt; store.is_prepared(*range) == *is_prepared, "{range:?}");
    }
}

// Compares bytes with each row: an address, and the four bytes that must be there.
fn compare_bytes(rt: &impl Abort, store: &Store, rows: &[(u64, [u8; 4])]) {
    for (at, expected) in rows {
        assert!(rt; *at <= u64::MAX - 4);
        let mut read = [9; 4];
        store.read(*at, &mut read);
        assert!(rt; read == *expected, "at {at:#x}");
    }
}

// Prepares two frames with a frame between them, and writes at their inner ends.
fn write_apart(store: &mut Store) -> Result<(), Memory> {
    store.prepare(bytes(0x1000, 0x1000))?;
    store.prepare(bytes(0x3000, 0x1000))?;
    store.fill(bytes(0x1FFE, 2), 7);
    store.write(0x3000, b"ab");
    Ok(())
}

// Prepares and writes the byte at 2^64 - 2, the last address that a range can have.
fn write_last(store: &mut Store) -> Result<(), Memory> {
    store.prepare(bytes(u64::MAX - 1, 1))?;
    store.fill(bytes(u64::MAX - 1, 1), 1);
    Ok(())
}

// Prepares two frames with a frame between them, then all three as one range.
//
//     0x1000     0x2000     0x3000     0x4000
//     |..........|          |..........|
#[test]
fn frames_are_prepared_and_joined(rt: HostRuntime) -> Result<(), Fail> {
    let mut store = Store::new(rt.alloc());
    let none = [(bytes(0x1000, 1), false), (bytes(0x1000, 0), true)];
    compare_prepared(&rt, &store, &none);
    write_apart(&mut store)?;
    let apart = [
        (bytes(0x1000, 0x1000), true),
        (bytes(0xFFF, 2), false),
        (bytes(0x1FFF, 2), false),
        (bytes(0x1000, 0x3000), false),
    ];
    compare_prepared(&rt, &store, &apart);

    store.prepare(bytes(0x1800, 0x1800))?;
    let joined = [
        (bytes(0x1000, 0x3000), true),
        (bytes(0x1000, 0x3001), false),
    ];
    compare_prepared(&rt, &store, &joined);
    write_last(&mut store)?;
    let read = [
        (0x1FFD, [0, 7, 7, 0]),
        (0x2FFF, [0, b'a', b'b', 0]),
        (u64::MAX - 4, [0, 0, 0, 1]),
    ];
    compare_bytes(&rt, &store, &read);
    Ok(())
}

// Moves bytes up and down inside one prepared range, where source and destination overlap.
fn move_both_ways(rt: &impl Abort, store: &mut Store) -> Result<(), Memory> {
    store.prepare(bytes(0x1000, 0x400))?;
    store.write(0x1000, b"abcdef".as_slice());
    store.move_bytes(0x1001, 0x1003, 5);
    assert!(rt; store.slice(0x1000, 8) == b"abcbcdef".as_slice());
    store.move_bytes(0x1003, 0x1000, 5);
    assert!(rt; store.slice(0x1000, 8) == b"bcdefdef".as_slice());
    Ok(())
}

// Copies 768 bytes, which is more than one chunk (256 bytes), to another prepared range.
fn copy_across(store: &mut Store) -> Result<(), Memory> {
    store.prepare(bytes(0x1000, 0x400))?;
    store.prepare(bytes(0x9000, 0x400))?;
    store.fill(bytes(0x1010, 0x300), 5);
    store.copy_bytes(0x1000, 0x9100, 0x300);
    Ok(())
}

#[test]
fn bytes_are_moved_and_copied(rt: HostRuntime) -> Result<(), Fail> {
    let mut store = Store::new(rt.alloc());
    move_both_ways(&rt, &mut store)?;
    copy_across(&mut store)?;
    // A byte past the end of a prepared range reads as 0.
    let read = [
        (0x90FC, [0; 4]),
        (0x9100, [b'b', b'c', b'd', b'e']),
        (0x9104, [b'f', b'd', b'e', b'f']),
        (0x93FE, [5, 5, 0, 0]),
    ];
    compare_bytes(&rt, &store, &read);
    assert!(rt; store.byte_at(0x93FF) == 5 && store.byte_at(u64::MAX) == 0);
    Ok(())
}
