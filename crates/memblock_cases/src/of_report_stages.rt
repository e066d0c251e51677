//! Tests of `report_stages`. They compare the text of each stage's results, on small inputs, with
//! the expected bytes. Memory never runs out.

use crate::of_early_script::bytes_outcome;
use crate::ranges::FIRST_MIB;
use bm_base::{Range, Zone};
use boot_journal::{Item, Journal};
use buddy_handover::Buddy;
use crash_kernel::Crash;
use early_script::{Answer, Outcome};
use memblock_model::Which;
use numa_nodes::{Nodes, Why};
use report_stages::{
    Fullness, Summary, put_blocks, put_buddyinfo, put_crash, put_nodes, put_script, put_sections,
    put_summary, put_zones,
};
use section_maps::Placed;
use sparse_sections::{RootPlace, Roots};
use std::alloc::Global;
use std::test::Fail;
use zone_spans::Span;

fn no_gap(which: Which) -> Outcome {
    Outcome::NoGapForTable { which, room: 256 }
}

fn answer(line: u32, outcome: Outcome) -> Answer {
    Answer { line, outcome }
}

// The text of each outcome, in no particular order.
#[test]
fn script(rt: HostRuntime) -> Result<(), Fail> {
    let told = bytes_outcome(&[0, 0xAB]).ok_or("no room")?;
    let answers = [
        answer(1, Outcome::At(0x7FF_0000)),
        answer(3, Outcome::Bytes(told)),
        answer(12, no_gap(Which::Memory)),
        answer(13, Outcome::NotWhole),
        answer(14, no_gap(Which::Reserved)),
        answer(15, Outcome::NoGap),
        answer(16, Outcome::Done),
        answer(17, Outcome::Taken),
        answer(18, Outcome::Unknown),
        answer(19, Outcome::TableInUse),
        answer(20, Outcome::TooLargeKeep),
        answer(4_294_967_295, Outcome::TooLargeFill),
    ];
    let mut text = Vec::new(rt.alloc());
    put_script(&mut text, &answers)?;
    let want = b"\
        1: at 0x0000000007ff0000\n\
        3: bytes 00ab\n\
        12: no gap for table memory room 256\n\
        13: not whole\n\
        14: no gap for table reserved room 256\n\
        15: no gap\n\
        16: done\n\
        17: taken\n\
        18: unknown\n\
        19: table in use\n\
        20: keep too large\n\
        4294967295: fill too large\n";
    assert!(rt; text.as_slice() == want.as_slice());
    Ok(())
}

#[test]
fn nodes(rt: HostRuntime) -> Result<(), Fail> {
    let mut journal = Journal::new(rt.alloc());
    journal.push(Item::Mem { range: FIRST_MIB })?;
    journal.push(Item::Node {
        range: FIRST_MIB,
        node: 1,
    })?;
    let nodes = Nodes {
        why: Why::NotCovered { frames: 256 },
        domains: vec![in rt.alloc(); 4, 2]?,
        uncovered: 3,
        with_memory: vec![in rt.alloc(); 1]?,
    };
    let mut text = Vec::new(rt.alloc());
    put_nodes(&mut text, &nodes, &journal)?;
    let want = b"numa not covered 256\ndomain 4 node 0\ndomain 2 node 1\nuncovered 3\n\
            node 1 0x0000000000000000..0x00000000000fffff\n";
    assert!(rt; text.as_slice() == want.as_slice());
    Ok(())
}

/// Returns the nodes of a machine whose SRAT isn't used, for the reason `why`.
fn by_no_table(alloc: Global, why: Why) -> Nodes {
    Nodes {
        why,
        domains: Vec::new(alloc),
        uncovered: 0,
        with_memory: Vec::new(alloc),
    }
}

// The text of each reason except the one that the test `nodes` has.
#[test]
fn each_reason(rt: HostRuntime) -> Result<(), Fail> {
    let journal = Journal::new(rt.alloc());
    let rows = [
        (Why::Used, "numa used\nuncovered 0\n"),
        (Why::Off, "numa off\nuncovered 0\n"),
        (Why::Absent, "numa absent\nuncovered 0\n"),
        (Why::NoBlocks, "numa no blocks\nuncovered 0\n"),
        (Why::TooManyDomains, "numa too many domains\nuncovered 0\n"),
        (Why::TooManyBlocks, "numa too many blocks\nuncovered 0\n"),
        (
            Why::Overlap { i: 9, j: 2047 },
            "numa overlap 9 2047\nuncovered 0\n",
        ),
    ];
    for (why, want) in &rows {
        let nodes = by_no_table(rt.alloc(), *why);
        let mut text = Vec::new(rt.alloc());
        put_nodes(&mut text, &nodes, &journal)?;
        assert!(rt; text.as_slice() == want.as_bytes(), "{want}");
    }
    Ok(())
}

// A machine of 8 GiB: an area of 512 MiB above 4 GiB, with 64 MiB below or without a low part; and
// each outcome without an area.
#[test]
fn crash(rt: HostRuntime) -> Result<(), Fail> {
    let main = Range {
        base: 0x2_5F00_0000,
        size: 0x2000_0000,
    };
    let low = Range {
        base: 0x7B00_0000,
        size: 0x400_0000,
    };
    let low = Some(low);
    let rows = [
        (
            Crash::At { main, low },
            "crash at 0x000000025f000000..0x000000027effffff\n\
                crash low 0x000000007b000000..0x000000007effffff\n",
        ),
        (
            Crash::At { main, low: None },
            "crash at 0x000000025f000000..0x000000027effffff\n",
        ),
        (Crash::Nothing, "crash none\n"),
        (Crash::NoArea, "crash no area\n"),
        (Crash::InUse, "crash in use\n"),
        (Crash::LowFailed, "crash low failed\n"),
    ];
    for (crash, want) in &rows {
        let mut text = Vec::new(rt.alloc());
        put_crash(&mut text, crash)?;
        assert!(rt; text.as_slice() == want.as_bytes(), "{want}");
    }
    Ok(())
}

// The texts of two sections that have different roots.
#[test]
fn sections(rt: HostRuntime) -> Result<(), Fail> {
    let low = RootPlace {
        number: 0,
        place: 0xFFF_F000,
    };
    let high = RootPlace {
        number: 1,
        place: 0x8_07FF_B000,
    };
    let roots = Roots {
        table: 0x8_07FF_C000,
        roots: vec![in rt.alloc(); low, high]?,
    };
    let first = Placed {
        section: 3,
        node: 1,
        map: 0xFC0_0000,
        usage: 0xFFF_EFC0,
    };
    let second = Placed {
        section: 256,
        node: 1,
        map: 0x8_07C0_0000,
        usage: 0x8_07FF_AFC0,
    };
    let mut text = Vec::new(rt.alloc());
    put_sections(&mut text, &roots, &[first, second])?;
    let want = b"roots 0x0000000807ffc000\nroot 0 0x000000000ffff000\nroot 1 0x0000000807ffb000\n\
            section 3 node 1 map 0x000000000fc00000 usage 0x000000000fffefc0\n\
            section 256 node 1 map 0x0000000807c00000 usage 0x0000000807ffafc0\n";
    assert!(rt; text.as_slice() == want.as_slice());
    Ok(())
}

// The last three frames of zone DMA and the first four of DMA32, of node 1.
#[test]
fn zones_and_blocks(rt: HostRuntime) -> Result<(), Fail> {
    let mut buddy = Buddy::new(rt.alloc());
    buddy.free_frames(4093, 7, 1)?;
    let low = Span {
        node: 1,
        zone: Zone::Dma,
        start: 16,
        end: 4096,
        present: 4000,
    };
    let high = Span {
        node: 1,
        zone: Zone::Dma32,
        start: 4096,
        end: 32_768,
        present: 28_672,
    };
    let spans = [low, high];

    let mut text = Vec::new(rt.alloc());
    put_zones(&mut text, &spans, &buddy)?;
    let want = b"Node 1, zone DMA start 16 end 4096 present 4000 free 3\n\
            Node 1, zone DMA32 start 4096 end 32768 present 28672 free 4\n";
    assert!(rt; text.as_slice() == want.as_slice());

    let mut text = Vec::new(rt.alloc());
    put_buddyinfo(&mut text, &spans, &buddy)?;
    let want =
        b"Node 1, zone      DMA      1      1      0      0      0      0      0      0      \
            0      0      0 \n\
            Node 1, zone    DMA32      0      0      1      0      0      0      0      0      \
            0      0      0 \n";
    assert!(rt; text.as_slice() == want.as_slice());

    let mut text = Vec::new(rt.alloc());
    put_blocks(&mut text, &buddy)?;
    let want =
        b"node 1 zone DMA order 0 0x0000000000ffd000\nnode 1 zone DMA order 1 0x0000000000ffe000\n\
            node 1 zone DMA32 order 2 0x0000000001000000\n";
    assert!(rt; text.as_slice() == want.as_slice());
    Ok(())
}

// 2,050 blocks of the greatest order, beginning 4 MiB below 8 GiB: one line, the lines for two
// ranges of 4 GiB, and one line.
#[test]
fn lines_of_a_great_row(rt: HostRuntime) -> Result<(), Fail> {
    let alloc = rt.alloc();
    let mut buddy = Buddy::new(alloc);
    buddy.free_frames(0x1F_FC00, 2050 << 10, 0)?;
    let mut text = Vec::new(alloc);
    put_blocks(&mut text, &buddy)?;
    let mut want = Vec::new(alloc);
    for block in 0..2050_u64 {
        let line = format!(in alloc;
            "node 0 zone Normal order 10 0x{:016x}\n",
            0x1_FFC0_0000 + (block << 22)
        )?;
        want.extend_from_slice(line.as_bytes())?;
    }
    assert!(rt; text == want);
    Ok(())
}

// All of 16 TiB is usable, and all but one set of frames is free.
#[test]
fn summary(rt: HostRuntime) -> Result<(), Fail> {
    let summary = Summary {
        runs: 1,
        usable: 4_294_967_296,
        free: 4_294_966_272,
        memory: Fullness {
            records: 1,
            room: 128,
        },
        reserved: Fullness {
            records: 257,
            room: 512,
        },
        blocks: 4_194_303,
    };
    let mut text = Vec::new(rt.alloc());
    put_summary(&mut text, &summary)?;
    let want = b"runs 1\nusable 4294967296\nfree 4294966272\nmemory records 1 room 128\n\
            reserved records 257 room 512\nblocks 4194303\n";
    assert!(rt; text.as_slice() == want.as_slice());
    Ok(())
}
