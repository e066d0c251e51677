//! A page script (requests to the page allocator, one per line) on the free frames from 1 MiB to 4
//! MiB, which are two blocks of node 0. Also the first fault of a malformed script.

ghost use Rattle.std.specs.Prelude.{◌<◌, ◌^◌, length};

use bm_base::{Memory, Zone};
use buddy_handover::Buddy;
use page_alloc::{Held, PageAct, PageAnswer, PageFault, PageLine, PageOutcome, Pages, read_pages};
use slit_zonelists::{Lists, run_page_lines};
use std::alloc::Global;
use std::test::Fail;

// Returns a page allocator with the free frames from 1 MiB to 4 MiB of node 0: a block of order 8
// and a block of order 9.
fn three_mebibytes(alloc: Global) -> Result<Pages, Memory> {
    let mut buddy = Buddy::new(alloc);
    buddy.free_frames(0x100, 0x300, 0)?;
    Ok(Pages::new(alloc, buddy))
}

// Runs the page script `text` without distances of nodes. Returns the outcome of each line that
// isn't empty or a comment.
fn run(alloc: Global, pages: &mut Pages, text: &[u8]) -> Result<Vec<PageAnswer>, Fail>
    requires { length text.now < 2 ^ 32 }
{
    let lines = read_pages(alloc, text)?;
    let lists = Lists::new(alloc, None, &[], &[])?;
    let answers = run_page_lines(alloc, pages, &lists, &lines)?;
    Ok(answers)
}

#[test]
fn each_outcome(rt: HostRuntime) -> Result<(), Fail> {
    let mut pages = three_mebibytes(rt.alloc())?;
    let answers = run(
        rt.alloc(),
        &mut pages,
        b"pages 1 0 0 DMA\npages 2 9 0 DMA\n# of another node\npages 3 10 1 DMA\npages 1 0 0 DMA\n\
            give 1\ngive 1\n",
    )?;
    let want = [
        (1, PageOutcome::At(0x10_0000)),
        (2, PageOutcome::At(0x20_0000)),
        (4, PageOutcome::NoBlock),
        (5, PageOutcome::Taken),
        (6, PageOutcome::Done),
        (7, PageOutcome::Unknown),
    ];
    assert!(rt; answers.len() == want.len());
    for (answer, (line, outcome)) in answers.iter().zip(want.iter()) {
        assert!(rt;
            answer.line == *line && answer.outcome == *outcome,
            "{answer:?}"
        );
    }
    assert!(rt; pages.buddy().count(0, Zone::Dma, 8) == 1);
    assert!(rt; pages.buddy().count(0, Zone::Dma, 9) == 0);
    Ok(())
}

#[test]
fn taken_and_given_back(rt: HostRuntime) -> Result<(), Fail> {
    let mut pages = three_mebibytes(rt.alloc())?;
    assert!(rt; pages.take(7, 0, 0, Zone::Dma)? == PageOutcome::At(0x10_0000));
    let held = Held {
        first: 0x100,
        order: 0,
        node: 0,
    };
    assert!(rt; pages.held(7) == Some(held));
    assert!(rt; pages.buddy().count(0, Zone::Dma, 8) == 0);
    let back = PageLine {
        number: 1,
        act: PageAct::Give { id: 7 },
    };
    assert!(rt; pages.run_line(&back)? == PageOutcome::Done);
    assert!(rt; pages.held(7) == None);
    assert!(rt; pages.buddy().count(0, Zone::Dma, 8) == 1);
    Ok(())
}

#[test]
fn first_fault(rt: HostRuntime) {
    let alloc = rt.alloc();
    let number = read_pages(alloc, b"pages 1 11 0 DMA\ngive\n").err();
    assert!(rt; number == Some(PageFault::BadNumber { line: 1 }));
    let form = read_pages(alloc, b"\ngive 1 x\ngive x\n").err();
    assert!(rt; form == Some(PageFault::BadLine { line: 2 }));
    let both = read_pages(alloc, b"pages x 0 0 dma").err();
    assert!(rt; both == Some(PageFault::BadLine { line: 1 }));
}
