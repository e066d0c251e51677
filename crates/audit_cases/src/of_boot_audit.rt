//! The verdict on the three reports of a machine of eight frames, and faults that the reader of
//! reports finds. Each test changes a line or two of a sound or well-formed report; the test's
//! name says what is wrong.

use audit_lines::{BlockLine, LineFault, MapLine, ReadError, read_report};
use bm_base::{Range, Width};
use boot_audit::{Saved, Verdict, judge};
use std::alloc::Global;

/// Returns the verdict on three reports, given as the bytes of `map`, `owners` and `blocks`.
/// Returns `None` if one of them has a fault.
fn verdict_on(alloc: Global, runs: &[u8], owners: &[u8], blocks: &[u8]) -> Option<Verdict> {
    let Ok(map) = read_report::<MapLine>(alloc, runs) else {
        return None;
    };
    let Ok(owners) = read_report::<Range>(alloc, owners) else {
        return None;
    };
    let Ok(blocks) = read_report::<BlockLine>(alloc, blocks) else {
        return None;
    };
    if blocks.len() > 1_000_000 {
        return None;
    }
    judge(
        &Saved {
            map,
            owners,
            blocks,
        },
        Width::Bits46,
    )
    .ok()
}

/// Reads the bytes as a report with lines of type `L`. Returns its fault, or `None` if it is
/// well-formed.
fn fault_of<L: audit_lines::ReportLine>(alloc: Global, bytes: &[u8]) -> Option<LineFault> {
    match read_report::<L>(alloc, bytes) {
        Err(ReadError::Fault(fault)) => Some(fault),
        _ => None,
    }
}

#[test]
fn eight_frames_are_sound(rt: HostRuntime) {
    let verdict = verdict_on(
        rt.alloc(),
        b"0x0000000000000000..0x0000000000007fff 1 usable\n",
        b"   0: 0x0000000000000000..0x0000000000000fff kernel\n",
        b"node 0 zone DMA order 0 0x0000000000001000\nnode 0 zone DMA order 1 0x0000000000002000\n\
            node 0 zone DMA order 2 0x0000000000004000\n",
    );
    assert!(rt; verdict == Some(Verdict::Sound));
}

#[test]
fn misaligned_block(rt: HostRuntime) {
    let verdict = verdict_on(
        rt.alloc(),
        b"0x0000000000000000..0x0000000000007fff 1 usable\n",
        b"   0: 0x0000000000000000..0x0000000000000fff kernel\n",
        b"node 0 zone DMA order 0 0x0000000000001000\nnode 0 zone DMA order 1 0x0000000000003000\n",
    );
    assert!(rt; verdict == Some(Verdict::Misaligned { line: 2 }));
}

#[test]
fn block_in_wrong_zone(rt: HostRuntime) {
    let verdict = verdict_on(
        rt.alloc(),
        b"0x0000000000000000..0x0000000000007fff 1 usable\n",
        b"   0: 0x0000000000000000..0x0000000000000fff kernel\n",
        b"node 0 zone DMA32 order 0 0x0000000000001000\n\
            node 0 zone DMA order 1 0x0000000000002000\n\
            node 0 zone DMA order 2 0x0000000000004000\n",
    );
    assert!(rt; verdict == Some(Verdict::WrongZone { line: 1 }));
}

#[test]
fn owned_frame_in_a_block(rt: HostRuntime) {
    let verdict = verdict_on(
        rt.alloc(),
        b"0x0000000000000000..0x0000000000007fff 1 usable\n",
        b"   0: 0x0000000000000000..0x0000000000001000 kernel\n",
        b"node 0 zone DMA order 0 0x0000000000001000\nnode 0 zone DMA order 1 0x0000000000002000\n\
            node 0 zone DMA order 2 0x0000000000004000\n",
    );
    assert!(rt; verdict == Some(Verdict::NotFree { frame: 1 }));
}

#[test]
fn frame_that_is_ram_in_part(rt: HostRuntime) {
    let verdict = verdict_on(
        rt.alloc(),
        b"0x0000000000000000..0x0000000000007ffe 1 usable\n",
        b"   0: 0x0000000000000000..0x0000000000000fff kernel\n",
        b"node 0 zone DMA order 0 0x0000000000001000\nnode 0 zone DMA order 1 0x0000000000002000\n\
            node 0 zone DMA order 2 0x0000000000004000\n",
    );
    assert!(rt; verdict == Some(Verdict::NotFree { frame: 7 }));
}

#[test]
fn lost_frame(rt: HostRuntime) {
    let verdict = verdict_on(
        rt.alloc(),
        b"0x0000000000000000..0x0000000000007fff 1 usable\n",
        b"   0: 0x0000000000000000..0x0000000000000fff kernel\n",
        b"node 0 zone DMA order 1 0x0000000000002000\nnode 0 zone DMA order 2 0x0000000000004000\n",
    );
    assert!(rt; verdict == Some(Verdict::Lost { frame: 1 }));
}

#[test]
fn halves_that_could_be_joined(rt: HostRuntime) {
    let verdict = verdict_on(
        rt.alloc(),
        b"0x0000000000000000..0x0000000000007fff 1 usable\n",
        b"   0: 0x0000000000000000..0x0000000000000fff kernel\n",
        b"node 0 zone DMA order 0 0x0000000000001000\nnode 0 zone DMA order 1 0x0000000000002000\n\
            node 0 zone DMA order 1 0x0000000000004000\n\
            node 0 zone DMA order 1 0x0000000000006000\n",
    );
    assert!(rt; verdict == Some(Verdict::NotMaximal { line: 3 }));
}

#[test]
fn halves_of_two_nodes(rt: HostRuntime) {
    let verdict = verdict_on(
        rt.alloc(),
        b"0x0000000000000000..0x0000000000007fff 1 usable\n",
        b"   0: 0x0000000000000000..0x0000000000000fff kernel\n",
        b"node 0 zone DMA order 0 0x0000000000001000\nnode 0 zone DMA order 1 0x0000000000002000\n\
            node 0 zone DMA order 1 0x0000000000004000\n\
            node 1 zone DMA order 1 0x0000000000006000\n",
    );
    assert!(rt; verdict == Some(Verdict::Sound));
}

#[test]
fn second_block_repeated(rt: HostRuntime) {
    let fault = fault_of::<BlockLine>(
        rt.alloc(),
        b"node 0 zone DMA order 8 0x0000000000100000\nnode 0 zone DMA order 9 0x0000000000200000\n\
            node 0 zone DMA order 9 0x0000000000200000\n",
    );
    assert!(rt; fault == Some(LineFault::Order { line: 3 }));
}

#[test]
fn order_11(rt: HostRuntime) {
    let fault = fault_of::<BlockLine>(rt.alloc(), b"node 0 zone DMA order 11 0x0000000000000000\n");
    assert!(rt; fault == Some(LineFault::Form { line: 1 }));
}

#[test]
fn block_beyond_all_addresses(rt: HostRuntime) {
    let fault = fault_of::<BlockLine>(
        rt.alloc(),
        b"node 0 zone Normal order 1 0x000ffffffffff000\n",
    );
    assert!(rt; fault == Some(LineFault::Form { line: 1 }));
}

#[test]
fn type_0(rt: HostRuntime) {
    let fault = fault_of::<MapLine>(
        rt.alloc(),
        b"0x0000000000000000..0x0000000000007fff 1 usable\n\
            0x0000000000008000..0x0000000000008fff 0 other\n",
    );
    assert!(rt; fault == Some(LineFault::Form { line: 2 }));
}

#[test]
fn name_of_another_type(rt: HostRuntime) {
    let fault = fault_of::<MapLine>(
        rt.alloc(),
        b"0x0000000000000000..0x0000000000007fff 1 reserved\n",
    );
    assert!(rt; fault == Some(LineFault::Form { line: 1 }));
}

#[test]
fn runs_that_share_a_byte(rt: HostRuntime) {
    let fault = fault_of::<MapLine>(
        rt.alloc(),
        b"0x0000000000000000..0x0000000000007fff 1 usable\n\
            0x0000000000007fff..0x0000000000008fff 2 reserved\n",
    );
    assert!(rt; fault == Some(LineFault::Order { line: 2 }));
}

#[test]
fn form_goes_before_order(rt: HostRuntime) {
    let fault = fault_of::<MapLine>(
        rt.alloc(),
        b"0x0000000000000000..0x0000000000007fff 1 usable\n\
            0x0000000000000000..0x0000000000000fff 1 other\n",
    );
    assert!(rt; fault == Some(LineFault::Form { line: 2 }));
}

#[test]
fn lowest_line_first(rt: HostRuntime) {
    let fault = fault_of::<MapLine>(
        rt.alloc(),
        b"0x0000000000001000..0x0000000000001fff 1 usable\n\
            0x0000000000000000..0x0000000000007fff 1 usable\nx\n",
    );
    assert!(rt; fault == Some(LineFault::Order { line: 2 }));
}

#[test]
fn owner_with_another_index(rt: HostRuntime) {
    let fault = fault_of::<Range>(
        rt.alloc(),
        b"   1: 0x0000000000000000..0x0000000000000fff kernel\n",
    );
    assert!(rt; fault == Some(LineFault::Form { line: 1 }));
}

#[test]
fn owner_with_a_number(rt: HostRuntime) {
    let fault = fault_of::<Range>(
        rt.alloc(),
        b"   0: 0x0000000000000000..0x0000000000000fff node-data 17\n",
    );
    assert!(rt; fault == None);
}

#[test]
fn owner_with_a_leading_zero(rt: HostRuntime) {
    let fault = fault_of::<Range>(
        rt.alloc(),
        b"   0: 0x0000000000000000..0x0000000000000fff map 01\n",
    );
    assert!(rt; fault == Some(LineFault::Form { line: 1 }));
}

#[test]
fn last_line_without_its_newline(rt: HostRuntime) {
    let fault = fault_of::<MapLine>(
        rt.alloc(),
        b"0x0000000000000000..0x0000000000007fff 1 usable",
    );
    assert!(rt; fault == Some(LineFault::Form { line: 1 }));
}
