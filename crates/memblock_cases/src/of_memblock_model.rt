//! The plain data of `memblock_model`: values that differ in one part aren't equal, and they print
//! their parts.

ghost use Rattle.std.specs.Prelude.{◌≡◌};

use crate::ranges::bytes;
use bm_base::Range;
use memblock_model::{Item, Label, MIRROR_FLAG, Owner, OwnerRun, Query, Tag, Which};
use std::process::Abort;
use std::test::Fail;

// Returns the first address of a run, which contracts see as a field.
fn base_of(run: &OwnerRun) -> u64
    ensures { result ≡ run.now.base }
{
    run.range.base
}

fn size_of(run: &OwnerRun) -> u64
    ensures { result ≡ run.now.size }
{
    run.range.size
}

fn owner_of(run: &OwnerRun) -> Owner
    ensures { result ≡ run.now.value }
{
    run.owner
}

// Journal items of each variant, and items that differ from one of these in one field. No two of
// them are equal.
#[test]
fn items_that_differ_in_one_part(rt: HostRuntime) {
    let items = [
        Item::Mem {
            range: bytes(0x1000, 0x2000),
        },
        Item::Mem {
            range: bytes(0x1000, 0x2001),
        },
        Item::Free {
            range: bytes(0x1000, 0x2000),
        },
        Item::Trim,
        Item::Node {
            range: bytes(0x1000, 0x2000),
            node: 1,
        },
        Item::Node {
            range: bytes(0x1000, 0x2000),
            node: 2,
        },
        Item::Claim {
            range: bytes(0x1000, 0x2000),
            owner: Owner::Root(1),
        },
        Item::Claim {
            range: bytes(0x1000, 0x2000),
            owner: Owner::Usage(1),
        },
        Item::Limit { at: 0x1000 },
        Item::Limit { at: 0x2000 },
        Item::Grown {
            which: Which::Memory,
            place: 0x1000,
            room: 256,
        },
        Item::Grown {
            which: Which::Reserved,
            place: 0x1000,
            room: 256,
        },
        Item::Grown {
            which: Which::Reserved,
            place: 0x1000,
            room: 512,
        },
    ];
    for (i, first) in items.iter().enumerate() {
        compare_with_all(&rt, &items, i, first);
    }
}

// Compares the item at index `i` with all items. It must equal only itself.
fn compare_with_all(rt: &impl Abort, items: &[Item], i: usize, first: &Item) {
    for (j, second) in items.iter().enumerate() {
        assert!(rt; (first == second) == (i == j), "{first:?} and {second:?}");
    }
}

#[test]
fn queries_and_labels(rt: HostRuntime) {
    let query = Query {
        lo: 0x1000,
        hi: 0x9000,
        size: 0x800,
        align: 0x1000,
        node: None,
    };
    let of_node_0 = Query {
        node: Some(0),
        ..query
    };
    assert!(rt; query == query && query != of_node_0);
    let bare = Tag::Memory {
        node: None,
        mirror: false,
    };
    let mirrored = Tag::Memory {
        node: None,
        mirror: true,
    };
    assert!(rt; bare != mirrored && bare != Tag::Absent);
    let label = Label::new().with_node(1023).with_mirror();
    assert!(rt;
        label.node() == Some(1023) && label.has_mirror_flag() && label.flags() == MIRROR_FLAG
    );
    assert!(rt;
        Label::from_parts(Some(1023), MIRROR_FLAG) == label
            && label != Label::from_parts(Some(1023), 1)
    );
}

// The run ends at the last address.
#[test]
fn runs_of_owners(rt: HostRuntime) {
    let run = OwnerRun {
        range: bytes(u64::MAX - 0x2000, 0x2000),
        owner: Owner::Table(Which::Memory),
    };
    let other = OwnerRun {
        range: bytes(u64::MAX - 0x2000, 0x2000),
        owner: Owner::Table(Which::Reserved),
    };
    assert!(rt; run != other);
    assert!(rt; base_of(&run) == u64::MAX - 0x2000 && size_of(&run) == 0x2000);
    assert!(rt; owner_of(&run) == Owner::Table(Which::Memory));
}

#[test]
fn values_print_their_parts(rt: HostRuntime) -> Result<(), Fail> {
    let item = Item::Claim {
        range: bytes(1, 2),
        owner: Owner::Table(Which::Memory),
    };
    let text = format!(in rt.alloc(); "{item:?}")?;
    assert!(rt;
        text.as_str() == "Claim { range: Range { base: 1, size: 2 }, owner: Table(Memory) }"
    );
    let query = Query {
        lo: 1,
        hi: 9,
        size: 2,
        align: 1,
        node: Some(3),
    };
    let tag = Tag::Memory {
        node: Some(3),
        mirror: true,
    };
    let text = format!(in rt.alloc(); "{query:?} {tag:?}")?;
    assert!(rt;
        text.as_str()
            == "Query { lo: 1, hi: 9, size: 2, align: 1, node: Some(3) } Memory { node: Some(3), \
                mirror: true }"
    );
    Ok(())
}
