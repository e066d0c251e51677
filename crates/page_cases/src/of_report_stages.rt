//! The texts of two reports: that of a page script with each outcome of a line, and that of the
//! zone lists with each reason why the SLIT is or isn't used.

ghost use Rattle.std.specs.Prelude.{◌≡◌, IfOk, length};
ghost use Rattle.std.specs.Option.{ForSome};
ghost use Rattle.slit_zonelists.specs.SlitView.{slit_view, IsSquare};

use bm_base::{Memory, Zone};
use page_alloc::{PageAnswer, PageOutcome};
use report_stages::{put_pages, put_zonelists};
use slit_zonelists::{Lists, Slit};
use std::alloc::Global;
use std::test::Fail;
use zone_spans::Span;

fn answer(line: u32, outcome: PageOutcome) -> PageAnswer {
    PageAnswer { line, outcome }
}

#[test]
fn each_outcome(rt: HostRuntime) -> Result<(), Fail> {
    let answers = [
        answer(1, PageOutcome::At(0x20_0000)),
        answer(2, PageOutcome::Done),
        answer(4, PageOutcome::NoBlock),
        answer(10, PageOutcome::Taken),
        answer(4_294_967_295, PageOutcome::Unknown),
    ];
    let mut text = Vec::new(rt.alloc());
    put_pages(&mut text, &answers)?;
    let want = b"1: at 0x0000000000200000\n2: done\n4: no block\n10: taken\n4294967295: unknown\n";
    assert!(rt; text.as_slice() == want.as_slice());
    Ok(())
}

/// Returns an SLIT of two domains with these four distances, row by row.
fn two(alloc: Global, cells: &[u8]) -> Result<Slit, Memory>
    requires { length cells.now ≡ 4 }
    ensures { IfOk result (λ slit. IsSquare (slit_view slit)) }
{
    Ok(Slit {
        count: 2,
        cells: Vec::from_slice(alloc, cells)?,
    })
}

fn span(node: u32, zone: Zone) -> Span {
    Span {
        node,
        zone,
        start: 0,
        end: 1,
        present: 1,
    }
}

/// Returns the text of the report on zone lists, for these zones of nodes. `domains` has the
/// proximity domain of each node.
fn text_of(
    alloc: Global,
    slit: Option<&Slit>,
    domains: &[u32],
    spans: &[Span],
) -> Result<Vec<u8>, Fail>
    requires { ForSome slit (λ slit. IsSquare (slit_view slit.now)) }
{
    let lists = Lists::new(alloc, slit, domains, spans)?;
    let mut text = Vec::new(alloc);
    put_zonelists(&mut text, &lists)?;
    Ok(text)
}

// First the text for each reason why the SLIT isn't used, without any zone. Then the zone lists of
// two nodes, of which the first has two zones, with an SLIT that is used.
#[test]
fn each_use(rt: HostRuntime) -> Result<(), Fail> {
    let alloc = rt.alloc();
    let absent = text_of(alloc, None, &[0, 1], &[])?;
    assert!(rt; absent.as_slice() == b"slit absent\n".as_slice());
    let slit = two(alloc, &[10, 20, 20, 10])?;
    let no_srat = text_of(alloc, Some(&slit), &[], &[])?;
    assert!(rt; no_srat.as_slice() == b"slit no srat\n".as_slice());
    let bad = two(alloc, &[10, 20, 10, 10])?;
    let not_valid = text_of(alloc, Some(&bad), &[0, 1], &[])?;
    assert!(rt; not_valid.as_slice() == b"slit not valid 1 0\n".as_slice());
    let spans = [
        span(0, Zone::Dma),
        span(0, Zone::Dma32),
        span(1, Zone::Normal),
    ];
    let used = text_of(alloc, Some(&slit), &[0, 1], &spans)?;
    let want = b"slit used\nNode 0: 0/DMA32 0/DMA 1/Normal\nNode 1: 1/Normal 0/DMA32 0/DMA\n";
    assert!(rt; used.as_slice() == want.as_slice());
    Ok(())
}
