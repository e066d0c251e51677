//! The SLIT of a machine of three domains, as its firmware has it; each fault of an SLIT; the zone
//! lists of the machine's nodes; and requests that prefer the nearest node.

ghost use Rattle.std.specs.Prelude.{◌≡◌, IfOk, length};
ghost use Rattle.slit_zonelists.specs.SlitView.{slit_view, IsSquare};

use bm_base::{Memory, Zone};
use buddy_handover::Buddy;
use page_alloc::{PageOutcome, Pages};
use slit_zonelists::{ListZone, Lists, Slit, SlitFault, SlitUse, near, read_slit};
use std::alloc::Global;
use std::test::Fail;
use zone_spans::Span;

/// The bytes of the SLIT of `examples/srat-slit`: three domains.
const THREE_DOMAINS: [u8; 53] = *b"SLIT5\0\0\0\x01\x90CORPUSBOOTMEM \
        \x01\0\0\0TEST\x01\0\0\0\x03\0\0\0\0\0\0\0\x0a\x1e\x14\x1e\x0a\x14\x14\x14\x0a";

/// Returns the bytes of an SLIT of one domain. `first` is the first byte of the signature,
/// `stated` the length that the header states, and `checksum` its checksum. `low` and `high` are
/// the lowest and the highest of the eight bytes of the number of domains.
fn one_domain(first: u8, stated: u8, checksum: u8, low: u8, high: u8) -> [u8; 45] {
    let mut bytes = [0; 45];
    bytes[0] = first;
    bytes[1] = b'L';
    bytes[2] = b'I';
    bytes[3] = b'T';
    bytes[4] = stated;
    bytes[9] = checksum;
    bytes[36] = low;
    bytes[43] = high;
    bytes[44] = 10;
    bytes
}

/// Returns an SLIT of three domains with these nine distances, row by row.
fn three(alloc: Global, cells: &[u8]) -> Result<Slit, Memory>
    requires { length cells.now ≡ 9 }
    ensures { IfOk result (λ slit. IsSquare (slit_view slit)) }
{
    Ok(Slit {
        count: 3,
        cells: Vec::from_slice(alloc, cells)?,
    })
}

/// Returns four zones: `DMA` and `DMA32` of node 0, and `DMA32` of nodes 1 and 2.
fn four_zones() -> [Span; 4] {
    [
        span(0, Zone::Dma),
        span(0, Zone::Dma32),
        span(1, Zone::Dma32),
        span(2, Zone::Dma32),
    ]
}

fn span(node: u32, zone: Zone) -> Span {
    Span {
        node,
        zone,
        start: 0,
        end: 1,
        present: 1,
    }
}

fn entry(node: u32, zone: Zone) -> ListZone {
    ListZone { node, zone }
}

#[test]
fn a_machine_of_three_domains(rt: HostRuntime) -> Result<(), Fail> {
    let slit = read_slit(rt.alloc(), &THREE_DOMAINS)?;
    assert!(rt; slit.count == 3);
    assert!(rt; slit.cells.as_slice() == [10, 30, 20, 30, 10, 20, 20, 20, 10].as_slice());
    let lists = Lists::new(rt.alloc(), Some(&slit), &[0, 1, 2], &four_zones())?;
    assert!(rt; lists.used() == SlitUse::Used);
    let near = entry(0, Zone::Dma32);
    let last = entry(0, Zone::Dma);
    let one = entry(1, Zone::Dma32);
    let two = entry(2, Zone::Dma32);
    assert!(rt; lists.of(0)?.as_slice() == [near, last, two, one].as_slice());
    assert!(rt; lists.of(1)?.as_slice() == [one, two, near, last].as_slice());
    assert!(rt; lists.of(2)?.as_slice() == [two, near, last, one].as_slice());
    Ok(())
}

/// Each case is an SLIT with the expected fault and with all faults that are checked after it, so
/// it pins the order of the checks. In the last case the number of domains is 2^63 + 1, whose
/// square is 1 modulo 2^64.
#[test]
fn the_first_fault_is_told(rt: HostRuntime) {
    let alloc = rt.alloc();
    let cases = [
        (43, b'T', 44, 0, 2, 0, SlitFault::Short),
        (45, b'T', 44, 0, 2, 0, SlitFault::Signature),
        (45, b'S', 44, 0, 2, 0, SlitFault::Length),
        (45, b'S', 45, 0, 2, 0, SlitFault::Checksum),
        (45, b'S', 45, 139, 2, 0, SlitFault::Localities),
        (45, b'S', 45, 12, 1, 0x80, SlitFault::Localities),
    ];
    for (count, first, stated, checksum, low, high, fault) in cases {
        let bytes = one_domain(first, stated, checksum, low, high);
        assert!(rt;
            read_slit(alloc, &bytes[..count]).err() == Some(fault),
            "{fault:?}"
        );
    }
    assert!(rt; read_slit(alloc, &one_domain(b'S', 45, 140, 1, 0)).is_ok());
}

#[test]
fn a_bad_cell_and_what_goes_first(rt: HostRuntime) -> Result<(), Fail> {
    let alloc = rt.alloc();
    let spans = four_zones();
    let bad = three(alloc, &[10, 30, 20, 30, 11, 20, 10, 20, 10])?;
    let lists = Lists::new(alloc, Some(&bad), &[0, 1, 2], &spans)?;
    assert!(rt; lists.used() == SlitUse::NotValid { row: 1, column: 1 });
    let by_node = [
        entry(0, Zone::Dma32),
        entry(0, Zone::Dma),
        entry(1, Zone::Dma32),
        entry(2, Zone::Dma32),
    ];
    assert!(rt; lists.of(0)?.as_slice() == by_node.as_slice());
    let without_nodes = Lists::new(alloc, Some(&bad), &[], &spans)?;
    assert!(rt; without_nodes.used() == SlitUse::NoSrat);
    let without_table = Lists::new(alloc, None, &[], &spans)?;
    assert!(rt; without_table.used() == SlitUse::Absent);
    Ok(())
}

/// The distance between two nodes may differ by direction. Node 1 has domain 3, which isn't in the
/// SLIT; node 3 has no domain. Their distances to other nodes are 20, and to themselves 10.
#[test]
fn distances_of_domains(rt: HostRuntime) -> Result<(), Fail> {
    let slit = three(rt.alloc(), &[10, 40, 15, 30, 10, 25, 12, 13, 10])?;
    let lists = Lists::new(rt.alloc(), Some(&slit), &[1, 3, 0], &four_zones())?;
    let cases = [
        (0, 2, 30),
        (2, 0, 40),
        (0, 1, 20),
        (1, 1, 10),
        (1, 0, 20),
        (3, 3, 10),
        (3, 0, 20),
    ];
    for (from, to, distance) in cases {
        assert!(rt; lists.distance(from, to) == distance, "{from} {to}");
    }
    let nodes = lists.nodes_with_zones()?;
    assert!(rt; nodes.as_slice() == [0, 1, 2].as_slice());
    Ok(())
}

/// Node 1 has 32 MiB of free memory from 64 MiB on, and node 2 has 4 MiB from 128 MiB on. The last
/// request prefers node 2, whose only block is taken, and gets memory of node 1.
#[test]
fn requests_near_a_node(rt: HostRuntime) -> Result<(), Fail> {
    let alloc = rt.alloc();
    let mut buddy = Buddy::new(alloc);
    buddy.free_frames(0x4000, 0x2000, 1)?;
    buddy.free_frames(0x8000, 0x400, 2)?;
    let mut pages = Pages::new(alloc, buddy);
    let slit = read_slit(alloc, &THREE_DOMAINS)?;
    let lists = Lists::new(alloc, Some(&slit), &[0, 1, 2], &four_zones())?;
    let cases = [
        (1, 10, 1, PageOutcome::At(0x400_0000)),
        (1, 10, 1, PageOutcome::Taken),
        (2, 10, 2, PageOutcome::At(0x800_0000)),
        (3, 10, 2, PageOutcome::At(0x440_0000)),
    ];
    for (id, order, node, outcome) in cases {
        assert!(rt;
            near(&mut pages, &lists, id, order, node)? == outcome,
            "{id}"
        );
    }
    Ok(())
}
