//! A journal in use: tags before and after a trim, claims over one another, and runs of owners.
//! The expected values were worked out by hand.

use crate::ranges::bytes;
use bm_base::{Memory, Range};
use boot_journal::{Item, Journal, Owner, OwnerRun, Tag, Which};
use std::alloc::Global;
use std::process::Abort;
use std::test::Fail;

// Adds memory that is one byte short of three frames. The upper half of the second frame is of
// node 1.
fn add_memory(journal: &mut Journal) -> Result<(), Memory> {
    journal.push(Item::Mem {
        range: bytes(0, 0x2FFF),
    })?;
    journal.push(Item::Node {
        range: bytes(0x1800, 0x800),
        node: 1,
    })
}

// Gives node 3 to the memory below 0x4000, adds the rest of these addresses as memory, and trims.
fn add_more(journal: &mut Journal) -> Result<(), Memory> {
    journal.push(Item::Node {
        range: bytes(0, 0x4000),
        node: 3,
    })?;
    journal.push(Item::Mem {
        range: bytes(0, 0x4000),
    })?;
    journal.push(Item::Trim)
}

// Returns the tag of a byte of memory.
fn memory(node: Option<u32>, mirror: bool) -> Tag {
    Tag::Memory { node, mirror }
}

fn compare_tags(rt: &impl Abort, journal: &Journal, rows: &[(u64, Tag)]) {
    for (x, tag) in rows {
        assert!(rt; journal.tag_at(*x) == *tag, "at {x:#x}");
    }
}

// The frames from address 0 on, before the first trim: a whole frame, a frame with two tags, and
// one that is a byte short.
//
//     0x0        0x1000     0x2000     0x3000
//     |..........|....11111|.........  |
#[test]
fn tags(rt: HostRuntime) -> Result<(), Fail> {
    let mut journal = Journal::new(rt.alloc());
    add_memory(&mut journal)?;
    let rows = [
        (0x17FF, memory(None, false)),
        (0x1800, memory(Some(1), false)),
        (0x2FFE, memory(None, false)),
        (0x2FFF, Tag::Absent),
    ];
    compare_tags(&rt, &journal, &rows);

    journal.push(Item::Trim)?;
    let rows = [
        (0, memory(None, false)),
        (0xFFF, memory(None, false)),
        (0x1000, Tag::Absent),
        (0x1FFF, Tag::Absent),
        (0x2000, Tag::Absent),
    ];
    compare_tags(&rt, &journal, &rows);

    // The second trim leaves all memory as it is.
    add_more(&mut journal)?;
    let rows = [
        (0xFFF, memory(Some(3), false)),
        (0x1000, memory(None, false)),
        (0x3FFF, memory(None, false)),
        (0x4000, Tag::Absent),
    ];
    compare_tags(&rt, &journal, &rows);
    Ok(())
}

// The upper part of a frame and all of the next one become mirrored, and a part of that gets a
// node. The trim keeps only a frame whose bytes all have one tag.
#[test]
fn mirrors(rt: HostRuntime) -> Result<(), Fail> {
    let mut journal = Journal::new(rt.alloc());
    add_memory(&mut journal)?;
    assert!(rt; !journal.has_mirrors());
    journal.push(Item::Mirror {
        range: bytes(0x1C00, 0x2400),
    })?;
    assert!(rt; journal.has_mirrors());
    journal.push(Item::Node {
        range: bytes(0x2000, 0x400),
        node: 2,
    })?;
    let rows = [
        (0x1BFF, memory(Some(1), false)),
        (0x1C00, memory(Some(1), true)),
        (0x2000, memory(Some(2), true)),
        (0x2400, memory(None, true)),
        (0x2FFF, Tag::Absent),
    ];
    compare_tags(&rt, &journal, &rows);

    journal.push(Item::Mem {
        range: bytes(0x2FFF, 1),
    })?;
    journal.push(Item::Mirror {
        range: bytes(0, 0x1000),
    })?;
    journal.push(Item::Trim)?;
    let rows = [
        (0xFFF, memory(None, true)),
        (0x1C00, Tag::Absent),
        (0x2FFF, Tag::Absent),
    ];
    compare_tags(&rt, &journal, &rows);
    Ok(())
}

// Claims ranges over one another, frees a part, and claims some of it again.
fn claim_over(journal: &mut Journal) -> Result<(), Memory> {
    journal.push(Item::Claim {
        range: bytes(0x1000, 0x4000),
        owner: Owner::Kernel,
    })?;
    journal.push(Item::Claim {
        range: bytes(0x3000, 0x1000),
        owner: Owner::Soft,
    })?;
    journal.push(Item::Free {
        range: bytes(0x2000, 0x400),
    })?;
    journal.push(Item::Claim {
        range: bytes(0x2100, 0x100),
        owner: Owner::Script(7),
    })
}

// Claims ranges that touch, with equal and with different owners, and one at the last address.
fn claim_beside(journal: &mut Journal) -> Result<(), Memory> {
    journal.push(Item::Claim {
        range: bytes(0x5000, 0x1000),
        owner: Owner::Kernel,
    })?;
    journal.push(Item::Claim {
        range: bytes(0x6000, 0x1000),
        owner: Owner::Script(8),
    })?;
    journal.push(Item::Claim {
        range: bytes(u64::MAX - 1, 1),
        owner: Owner::Table(Which::Memory),
    })
}

fn compare_owners(rt: &impl Abort, journal: &Journal, rows: &[(u64, Option<Owner>)]) {
    for (x, owner) in rows {
        assert!(rt; journal.owner_at(*x) == *owner, "at {x:#x}");
    }
}

// Compares the journal's runs of owners with these rows. Each row is a range and the owner of all
// its bytes.
fn compare_runs(
    rt: &impl Abort,
    journal: &Journal,
    rows: &[(u64, u64, Owner)],
) -> Result<(), Memory> {
    let runs = journal.owner_runs()?;
    compare_list(rt, runs.as_slice(), rows);
    compare_list(rt, journal.owners(), rows);
    Ok(())
}

fn compare_list(rt: &impl Abort, runs: &[OwnerRun], rows: &[(u64, u64, Owner)]) {
    assert!(rt; runs.len() == rows.len());
    for (run, (base, size, owner)) in runs.iter().zip(rows) {
        let is_it = run.range.base == *base && run.range.size == *size && run.owner == *owner;
        assert!(rt; is_it, "at {base:#x}");
    }
}

fn compare_owned(rt: &impl Abort, journal: &Journal, rows: &[(Range, Owner, bool)]) {
    for (range, owner, is_owned) in rows {
        assert!(rt;
            journal.owns(range, *owner) == *is_owned,
            "{range:?} for {owner:?}"
        );
    }
}

#[test]
fn owners(rt: HostRuntime) -> Result<(), Fail> {
    let mut journal = Journal::new(rt.alloc());
    claim_over(&mut journal)?;
    claim_beside(&mut journal)?;
    let rows = [
        (0xFFF, None),
        (0x1000, Some(Owner::Kernel)),
        (0x1FFF, Some(Owner::Kernel)),
        (0x2000, None),
        (0x2100, Some(Owner::Script(7))),
        (0x21FF, Some(Owner::Script(7))),
        (0x2200, None),
        (0x23FF, None),
        (0x2400, Some(Owner::Kernel)),
        (0x3000, Some(Owner::Soft)),
        (0x3FFF, Some(Owner::Soft)),
        (0x4000, Some(Owner::Kernel)),
        (0x6FFF, Some(Owner::Script(8))),
        (0x7000, None),
        (u64::MAX - 1, Some(Owner::Table(Which::Memory))),
        (u64::MAX, None),
    ];
    compare_owners(&rt, &journal, &rows);
    let rows = [
        (0x1000, 0x1000, Owner::Kernel),
        (0x2100, 0x100, Owner::Script(7)),
        (0x2400, 0xC00, Owner::Kernel),
        (0x3000, 0x1000, Owner::Soft),
        (0x4000, 0x2000, Owner::Kernel),
        (0x6000, 0x1000, Owner::Script(8)),
        (u64::MAX - 1, 1, Owner::Table(Which::Memory)),
    ];
    compare_runs(&rt, &journal, &rows)?;
    let rows = [
        (bytes(0x2400, 0xC00), Owner::Kernel, true),
        (bytes(0x2400, 0xC01), Owner::Kernel, false),
        (bytes(0x23FF, 2), Owner::Kernel, false),
        (bytes(0x2480, 0x10), Owner::Kernel, true),
        (bytes(0x2480, 0x10), Owner::Soft, false),
        (bytes(0x2000, 0), Owner::Kernel, true),
        (bytes(u64::MAX - 1, 1), Owner::Table(Which::Memory), true),
    ];
    compare_owned(&rt, &journal, &rows);
    Ok(())
}

// Writes two items, the second into room that was made for it.
fn limit_and_growth(journal: &mut Journal) -> Result<(), Memory> {
    journal.push(Item::Limit { at: 0x10_0000 })?;
    journal.ready(1)?;
    journal.push_ready(Item::Grown {
        which: Which::Reserved,
        place: 0x5000,
        room: 256,
    });
    Ok(())
}

fn compare_text(rt: &impl Abort, alloc: Global, journal: &Journal, want: &str) -> Result<(), Fail> {
    let text = format!(in alloc; "{journal:?}")?;
    assert!(rt; text.as_str() == want);
    Ok(())
}

#[test]
fn items_stand_in_their_order(rt: HostRuntime) -> Result<(), Fail> {
    let mut journal = Journal::new(rt.alloc());
    compare_runs(&rt, &journal, &[])?;
    limit_and_growth(&mut journal)?;
    let items = [
        Item::Limit { at: 0x10_0000 },
        Item::Grown {
            which: Which::Reserved,
            place: 0x5000,
            room: 256,
        },
    ];
    assert!(rt; journal.items() == items.as_slice());
    let text =
        "Journal { items: [Limit { at: 1048576 }, Grown { which: Reserved, place: 20480, room: 256 \
            }], owners: RunList { records: [OwnerRun { range: Range { base: 0, size: 0 }, owner: \
            Kernel }, OwnerRun { range: Range { base: 0, size: 0 }, owner: Kernel }], front: 2 }, \
            mirrors: false, spare: 0 }";
    compare_text(&rt, rt.alloc(), &journal, text)
}
