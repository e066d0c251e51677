//! Tests of `numa_nodes` on a machine of 128 MiB with its kernel at 16 MiB. The expected Node
//! items, and the places of node data, were worked out by hand.
ghost use Rattle.std.specs.Prelude.{◌^◌, ◌<◌, IsTrue, length};
ghost use Rattle.memblock_model.specs.Items.{limit_of};

use crate::domains::{block, table};
use crate::machines::{MEMORY, bare, has_begun};
use crate::ranges::between;
use boot_journal::{Item, Owner};
use memblock_grow::Memblock;
use numa_nodes::{Nodes, Why, assign};
use srat_reader::SratBlock;
use stage_steps::{StageStop, What};
use std::alloc::Global;
use std::process::Abort;
use std::test::Fail;

/// The size of a node's data in bytes.
const DATA: u64 = 0x2B000;

// Tests whether the last item of the journal (the last recorded change of memblock) sets a limit
// of allocations above 0.
fn ends_with_limit(memblock: &Memblock) -> bool
    ensures { IsTrue result → 0 < limit_of memblock.now.journal.items }
{
    matches!(memblock.journal().items(), [.., Item::Limit { at }] if *at > 0)
}

// Returns the items of the journal after the three that made the machine.
fn items_after_machine(memblock: &Memblock) -> &[Item] {
    match memblock.journal().items() {
        [_, _, _, after @ ..] => after,
        _ => &[],
    }
}

// Assigns the nodes of the machine, by a SRAT with these blocks.
fn nodes_by(
    alloc: Global,
    memblock: &mut Memblock,
    blocks: &[SratBlock],
) -> Result<Option<Nodes>, Fail>
    requires { length blocks.now < 2 ^ 32 }
{
    let srat = table(alloc, &[], blocks)?;
    if !has_begun(memblock) || !ends_with_limit(memblock) {
        return Ok(None);
    }
    Ok(Some(assign(alloc, memblock, Some(&srat), false)?))
}

fn compare(rt: &impl Abort, nodes: &Nodes, why: Why, domains: &[u32], with_memory: &[u32]) {
    assert!(rt; nodes.why == why);
    assert!(rt; nodes.domains.as_slice() == domains);
    assert!(rt; nodes.with_memory.as_slice() == with_memory);
}

// Compares the items after the three that made the machine with these.
fn compare_items(rt: &impl Abort, memblock: &Memblock, items: &[Item]) {
    assert!(rt; items_after_machine(memblock) == items, "{memblock:?}");
}

// Three blocks of two domains, with a hole between those of the second one. No block covers the
// last 64 KiB; they get the lowest node, and are too small for its data.
#[test]
fn two_nodes_and_a_rest(rt: HostRuntime) -> Result<(), Fail> {
    let alloc = rt.alloc();
    let mut memblock = bare(alloc, 0x800_0000)?;
    let blocks = [
        block(7, 0, 0x400_0000),
        block(3, 0x400_0000, 0x500_0000),
        block(3, 0x600_0000, 0x7FF_0000),
    ];
    let nodes = nodes_by(alloc, &mut memblock, &blocks)?.ok_or("not ready")?;
    compare(&rt, &nodes, Why::Used, &[7, 3], &[0, 1]);
    assert!(rt; nodes.uncovered == 16);
    let want = [
        Item::Node {
            range: between(0, 0x400_0000),
            node: 0,
        },
        Item::Node {
            range: between(0x400_0000, 0x7FF_0000),
            node: 1,
        },
        Item::Node {
            range: between(0x7FF_0000, 0x800_0000),
            node: 0,
        },
        Item::Claim {
            range: between(0x3FD_5000, 0x400_0000),
            owner: Owner::NodeData(0),
        },
        Item::Claim {
            range: between(0x7FC_5000, 0x7FF_0000),
            owner: Owner::NodeData(1),
        },
    ];
    compare_items(&rt, &memblock, &want);
    Ok(())
}

// Without a table all addresses below the limit are of node 0, whose data gets the highest place.
#[test]
fn no_table(rt: HostRuntime) -> Result<(), Fail> {
    let alloc = rt.alloc();
    let mut memblock = bare(alloc, 0x800_0000)?;
    if has_begun(&memblock) && ends_with_limit(&memblock) {
        let nodes = assign(alloc, &mut memblock, None, false)?;
        compare(&rt, &nodes, Why::Absent, &[], &[0]);
    }
    let want = [
        Item::Node {
            range: MEMORY,
            node: 0,
        },
        Item::Claim {
            range: between(0x800_0000 - DATA, 0x800_0000),
            owner: Owner::NodeData(0),
        },
    ];
    compare_items(&rt, &memblock, &want);
    Ok(())
}

// If there is no place for the data of a node, the boot stops.
#[test]
fn no_place_for_node_data(rt: HostRuntime) -> Result<(), Fail> {
    let alloc = rt.alloc();
    let mut memblock = bare(alloc, DATA - 1)?;
    if has_begun(&memblock) && ends_with_limit(&memblock) {
        let stop = assign(alloc, &mut memblock, None, true).err();
        assert!(rt;
            stop == Some(StageStop::NoPlace {
                what: What::NodeData(0)
            })
        );
    }
    Ok(())
}
