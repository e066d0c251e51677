//! Tests of `report_memory`. They compare the text of each kind of type, edit, item, owner and
//! record with the expected bytes. Memory never runs out.

use crate::ranges::{FIRST_MIB, KERNEL, bytes};
use bm_base::{Memory, Range};
use boot_journal::{Item, Journal, Owner, Which};
use boot_options::{CrashOption, CrashPlain, CrashRange, Edit, Options};
use e820_model::Run;
use memblock_frames::has_records;
use memblock_ranges::{Head, Heads, Tables};
use phys_store::Store;
use report_memory::{
    put_item, put_journal, put_map, put_options, put_owners, put_records, put_tables,
};
use std::alloc::Global;
use std::test::Fail;

const RAM: Range = Range {
    base: 0x10_0000,
    size: 0x7EE_0000,
};

#[test]
fn map_and_options(rt: HostRuntime) -> Result<(), Fail> {
    let alloc = rt.alloc();
    let soft = Run {
        range: FIRST_MIB,
        kind: 0xEFFF_FFFF,
    };
    let mut text = Vec::new(alloc);
    put_map(
        &mut text,
        &[
            soft,
            Run {
                range: RAM,
                kind: 1,
            },
        ],
    )?;
    let want = b"0x0000000000000000..0x00000000000fffff 4026531839 soft reserved\n\
            0x0000000000100000..0x0000000007fdffff 1 usable\n";
    assert!(rt; text.as_slice() == want.as_slice());

    let change = Edit::Change {
        range: FIRST_MIB,
        from: 2,
        to: 1,
    };
    let below = CrashRange {
        start: 0,
        end: Some(0x400_0000),
        size: 0x80_0000,
    };
    let above = CrashRange {
        start: 0x400_0000,
        end: None,
        size: 0x100_0000,
    };
    let options = Options {
        edits: vec![in alloc; Edit::Clear, change]?,
        crash: CrashOption {
            plain: Some(CrashPlain {
                ranges: vec![in alloc; below, above]?,
                base: 0x100_0000,
            }),
            high: Some(0x2000_0000),
            low: None,
        },
        numa_off: true,
        add_efi: true,
    };
    let mut text = Vec::new(alloc);
    put_options(&mut text, &options)?;
    let want = b"clear\nchange 2 1 0x0000000000000000..0x00000000000fffff\n\
            crash range 0x0000000000000000 0x0000000004000000 0x0000000000800000 base \
            0x0000000001000000\n\
            crash range 0x0000000004000000 - 0x0000000001000000 base 0x0000000001000000\n\
            crash high 0x0000000020000000\nnuma off\nefi add\n";
    assert!(rt; text.as_slice() == want.as_slice());
    Ok(())
}

fn page_of(kind: u32) -> Run {
    Run {
        range: Range {
            base: 0,
            size: 0x1000,
        },
        kind,
    }
}

// The text of each type that has a name, and of numbers between and above these types, which have
// no name.
#[test]
fn each_type(rt: HostRuntime) -> Result<(), Fail> {
    let runs = [
        page_of(1),
        page_of(2),
        page_of(3),
        page_of(4),
        page_of(5),
        page_of(6),
        page_of(7),
        page_of(12),
        page_of(128),
        page_of(0xEFFF_FFFF),
        page_of(0xFFFF_FFFF),
    ];
    let mut text = Vec::new(rt.alloc());
    put_map(&mut text, &runs)?;
    let want = b"\
        0x0000000000000000..0x0000000000000fff 1 usable\n\
        0x0000000000000000..0x0000000000000fff 2 reserved\n\
        0x0000000000000000..0x0000000000000fff 3 ACPI data\n\
        0x0000000000000000..0x0000000000000fff 4 ACPI NVS\n\
        0x0000000000000000..0x0000000000000fff 5 unusable\n\
        0x0000000000000000..0x0000000000000fff 6 other\n\
        0x0000000000000000..0x0000000000000fff 7 persistent\n\
        0x0000000000000000..0x0000000000000fff 12 persistent legacy\n\
        0x0000000000000000..0x0000000000000fff 128 usable kernel\n\
        0x0000000000000000..0x0000000000000fff 4026531839 soft reserved\n\
        0x0000000000000000..0x0000000000000fff 4294967295 other\n";
    assert!(rt; text.as_slice() == want.as_slice());
    Ok(())
}

// The texts of the edits, and of the form of a crash area, that the test `map_and_options` doesn't
// have.
#[test]
fn each_edit(rt: HostRuntime) -> Result<(), Fail> {
    let add = Edit::Add {
        range: RAM,
        kind: 12,
    };
    let remove = Edit::Remove {
        range: FIRST_MIB,
        kind: 1,
    };
    let all = Edit::RemoveAll { range: FIRST_MIB };
    let options = Options {
        edits: vec![in rt.alloc(); add, remove, all]?,
        crash: CrashOption {
            plain: None,
            high: None,
            low: Some(0x1000_0000),
        },
        numa_off: false,
        add_efi: false,
    };
    let mut text = Vec::new(rt.alloc());
    put_options(&mut text, &options)?;
    let want = b"\
        add 12 0x0000000000100000..0x0000000007fdffff\n\
        remove 1 0x0000000000000000..0x00000000000fffff\n\
        remove-all 0x0000000000000000..0x00000000000fffff\n\
        crash low 0x0000000010000000\n";
    assert!(rt; text.as_slice() == want.as_slice());
    Ok(())
}

fn grown(which: Which) -> Item {
    Item::Grown {
        which,
        place: 0x9_D000,
        room: 256,
    }
}

// The text of each item of a journal except a claim.
#[test]
fn each_item(rt: HostRuntime) -> Result<(), Fail> {
    let range = FIRST_MIB;
    let rows = [
        (
            Item::Mem { range },
            "mem 0x0000000000000000..0x00000000000fffff",
        ),
        (Item::Trim, "trim"),
        (
            Item::Node { range, node: 1023 },
            "node 1023 0x0000000000000000..0x00000000000fffff",
        ),
        (
            Item::Mirror { range },
            "mirror 0x0000000000000000..0x00000000000fffff",
        ),
        (Item::Upward { on: true }, "upward on"),
        (Item::Upward { on: false }, "upward off"),
        (
            Item::Free { range },
            "free 0x0000000000000000..0x00000000000fffff",
        ),
        (Item::Limit { at: 0x7FE_0000 }, "limit 0x0000000007fe0000"),
        (
            grown(Which::Memory),
            "grown memory 0x000000000009d000 room 256",
        ),
        (
            grown(Which::Reserved),
            "grown reserved 0x000000000009d000 room 256",
        ),
    ];
    for (item, want) in &rows {
        let mut text = Vec::new(rt.alloc());
        put_item(&mut text, item)?;
        assert!(rt; text.as_slice() == want.as_bytes(), "{want}");
    }
    Ok(())
}

// The text of each owner of a claim, each with a page of its own.
const OWNERS: &[u8] = b"\
    \x20  0: 0x0000000000000000..0x0000000000000fff kernel\n\
    \x20  1: 0x0000000000001000..0x0000000000001fff low-64k\n\
    \x20  2: 0x0000000000002000..0x0000000000002fff initrd\n\
    \x20  3: 0x0000000000003000..0x0000000000003fff low-1m\n\
    \x20  4: 0x0000000000004000..0x0000000000004fff soft-reserved\n\
    \x20  5: 0x0000000000005000..0x0000000000005fff table-memory\n\
    \x20  6: 0x0000000000006000..0x0000000000006fff table-reserved\n\
    \x20  7: 0x0000000000007000..0x0000000000007fff node-data 1023\n\
    \x20  8: 0x0000000000008000..0x0000000000008fff crash\n\
    \x20  9: 0x0000000000009000..0x0000000000009fff crash-low\n\
    \x20 10: 0x000000000000a000..0x000000000000afff roots\n\
    \x20 11: 0x000000000000b000..0x000000000000bfff root 2047\n\
    \x20 12: 0x000000000000c000..0x000000000000cfff usage 524287\n\
    \x20 13: 0x000000000000d000..0x000000000000dfff map 524287\n\
    \x20 14: 0x000000000000e000..0x000000000000efff script 4294967295\n";

// The text of each owner of a claim alone, with the greatest number if the owner has one; and the
// text of all owners together.
#[test]
fn each_owner(rt: HostRuntime) -> Result<(), Fail> {
    let rows = [
        (Owner::Kernel, "claim kernel 0x"),
        (Owner::Low64K, "claim low-64k 0x"),
        (Owner::Initrd, "claim initrd 0x"),
        (Owner::Low1M, "claim low-1m 0x"),
        (Owner::Soft, "claim soft-reserved 0x"),
        (Owner::Table(Which::Memory), "claim table-memory 0x"),
        (Owner::Table(Which::Reserved), "claim table-reserved 0x"),
        (Owner::NodeData(1023), "claim node-data 1023 0x"),
        (Owner::Crash, "claim crash 0x"),
        (Owner::CrashLow, "claim crash-low 0x"),
        (Owner::Roots, "claim roots 0x"),
        (Owner::Root(2047), "claim root 2047 0x"),
        (Owner::Usage(524_287), "claim usage 524287 0x"),
        (Owner::Map(524_287), "claim map 524287 0x"),
        (Owner::Script(0xFFFF_FFFF), "claim script 4294967295 0x"),
    ];
    let mut journal = Journal::new(rt.alloc());
    for (i, (owner, want)) in rows.iter().enumerate() {
        let claim = Item::Claim {
            range: Range {
                base: 0x1000 * i as u64,
                size: 0x1000,
            },
            owner: *owner,
        };
        let mut text = Vec::new(rt.alloc());
        put_item(&mut text, &claim)?;
        assert!(rt; text.starts_with(want.as_bytes()), "{want}");
        journal.push(claim)?;
    }
    let mut text = Vec::new(rt.alloc());
    put_owners(&mut text, &journal)?;
    assert!(rt; text.as_slice() == OWNERS);
    Ok(())
}

#[test]
fn journal_and_owners(rt: HostRuntime) -> Result<(), Fail> {
    let mut journal = Journal::new(rt.alloc());
    journal.push(Item::Claim {
        range: KERNEL,
        owner: Owner::Kernel,
    })?;
    journal.push(Item::Mem { range: RAM })?;
    journal.push(Item::Claim {
        range: FIRST_MIB,
        owner: Owner::NodeData(1),
    })?;
    let mut text = Vec::new(rt.alloc());
    put_journal(&mut text, &journal)?;
    let want = b"1: claim kernel 0x0000000001000000..0x0000000002ffffff\n\
            2: mem 0x0000000000100000..0x0000000007fdffff\n\
            3: claim node-data 1 0x0000000000000000..0x00000000000fffff\n";
    assert!(rt; text.as_slice() == want.as_slice());

    let mut text = Vec::new(rt.alloc());
    put_owners(&mut text, &journal)?;
    let want = b"   0: 0x0000000000000000..0x00000000000fffff node-data 1\n   1: \
            0x0000000001000000..0x0000000002ffffff kernel\n";
    assert!(rt; text.as_slice() == want.as_slice());
    Ok(())
}

/// Returns the text of the records at a head, if they are in ascending order.
fn records_text(alloc: Global, store: &Store, head: &Head) -> Result<Vec<u8>, Fail> {
    if !has_records(store, head, u64::MAX) {
        return Err("no ascending list".into());
    }
    let mut text = Vec::new(alloc);
    put_records(&mut text, store, head)?;
    Ok(text)
}

#[test]
fn records_and_heads(rt: HostRuntime) -> Result<(), Fail> {
    let mut tables = Tables::new(rt.alloc(), KERNEL)?;
    let pieces = tables.pieces(Which::Memory, RAM);
    assert!(rt; pieces <= 128);
    tables.insert(Which::Memory, RAM, 3);
    let (store, heads) = tables.into_parts();
    let text = records_text(rt.alloc(), &store, &heads.memory)?;
    let want = b"   0: 0x0000000000100000..0x0000000007fdffff\n";
    assert!(rt; text.as_slice() == want.as_slice());

    let heads = Heads {
        memory: Head {
            place: 0x7FD_E000,
            room: 256,
            count: 202,
        },
        reserved: Head {
            place: 0x7FD_B000,
            room: 512,
            count: 303,
        },
    };
    let mut text = Vec::new(rt.alloc());
    put_tables(&mut text, &heads)?;
    let want = b"memory place 0x0000000007fde000 room 256 records 202\n\
            reserved place 0x0000000007fdb000 room 512 records 303\n";
    assert!(rt; text.as_slice() == want.as_slice());
    Ok(())
}

/// Two records that touch and have the same flags (5) and node (7). The bytes after them aren't
/// zeros.
const TOUCHING: [u8; 50] = [
    0, 0x10, 0, 0, 0, 0, 0, 0, 0, 0x10, 0, 0, 0, 0, 0, 0, 5, 0, 0, 0, 7, 0, 0, 0, //
    0, 0x20, 0, 0, 0, 0, 0, 0, 1, 0, 0, 0, 0, 0, 0, 0, 5, 0, 0, 0, 7, 0, 0, 0, //
    0xAA, 0xBB,
];

fn write_touching(store: &mut Store) -> Result<(), Memory> {
    store.prepare(bytes(0x5000, 50))?;
    store.write(0x5000, &TOUCHING);
    Ok(())
}

// A table that no boot writes: it has room for four records, and half of the bytes were never
// written.
#[test]
fn records_that_no_boot_writes(rt: HostRuntime) -> Result<(), Fail> {
    let mut store = Store::new(rt.alloc());
    write_touching(&mut store)?;
    let head = Head {
        place: 0x5000,
        room: 4,
        count: 2,
    };
    let text = records_text(rt.alloc(), &store, &head)?;
    let want = b"   0: 0x0000000000001000..0x0000000000001fff\n   1: \
            0x0000000000002000..0x0000000000002000\n";
    assert!(rt; text.as_slice() == want.as_slice());
    Ok(())
}
