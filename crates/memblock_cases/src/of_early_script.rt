//! Tests of `early_script`: each outcome of a line once, on a machine of 128 MiB with its kernel
//! at 16 MiB. The expected addresses are the greatest that fit, and were worked out by hand.
ghost use Rattle.std.specs.Prelude.{◌≡◌, ◌+◌, ◌^◌, ◌<◌, ◌≤◌, length, IsTrue};
ghost use Rattle.early_script.specs.Effects.{CanBeRun};

use crate::machines::{bare, has_begun};
use arrayvec::ArrayVec;
use early_script::{Answer, Live, Outcome};
use memblock_grow::Memblock;
use memblock_model::Which;
use script_reader::{Act, read_script};
use std::alloc::Global;
use std::process::Abort;
use std::test::Fail;

fn is_run(act: &Act) -> bool
    ensures { IsTrue result → CanBeRun act.now }
{
    match act {
        Act::Sections => false,
        _ => true,
    }
}

// Runs the script and returns the outcomes of its lines.
fn run(alloc: Global, memblock: &mut Memblock, text: &str) -> Result<Vec<Outcome>, Fail>
    requires { length text.now < 2 ^ 32 }
{
    let lines = read_script(alloc, text.as_bytes())?;
    let mut live = Live::new(alloc);
    let mut outcomes = Vec::new(alloc);
    for line in &lines {
        if has_begun(memblock) && is_run(&line.act) {
            outcomes.push(live.run_line(memblock, line)?)?;
        }
    }
    Ok(outcomes)
}

// Returns the bytes in the form in which a `peek` line returns them, or `None` if there are more
// than 64.
pub fn bytes_outcome(bytes: &[u8]) -> Option<ArrayVec<u8, 64>> {
    let mut told = ArrayVec::new();
    for byte in bytes {
        told.try_push(*byte).ok()?;
    }
    Some(told)
}

#[test]
fn each_outcome(rt: HostRuntime) -> Result<(), Fail> {
    let alloc = rt.alloc();
    let mut memblock = bare(alloc, 0x800_0000)?;
    let outcomes = run(
        alloc,
        &mut memblock,
        "alloc 1 64K 4096\nalloc 1 1 1\nreserve 2 0x3000000 8K\nreserve 3 0x2ffdfff 2\n\
            reserve 4 0x3001000 4K\nfree 2\nfree 9\ntrim 1 64K\ntrim 1 4K\nalloc 5 4K 4096\n\
            alloc 6 4K 4096 max 8K\nalloc 7 4K 4096 max 8191\nfill 4 0xab\npeek 0x3000fff 3\n\
            reserve 8 0x4000000 65537\nfill 8 1\nfree 4\nfill 4 1",
    )?;
    let told = bytes_outcome(&[0, 0xAB, 0xAB]).ok_or("no room")?;
    let want = [
        Outcome::At(0x7FF_0000),
        Outcome::Taken,
        Outcome::Done,
        Outcome::TableInUse,
        Outcome::Done,
        Outcome::NotWhole,
        Outcome::Unknown,
        Outcome::TooLargeKeep,
        Outcome::Done,
        Outcome::At(0x7FF_F000),
        Outcome::At(0x1000),
        Outcome::NoGap,
        Outcome::Done,
        Outcome::Bytes(told),
        Outcome::Done,
        Outcome::TooLargeFill,
        Outcome::Done,
        Outcome::Unknown,
    ];
    assert!(rt; outcomes.as_slice() == want.as_slice(), "{outcomes:?}");
    Ok(())
}

// Returns a script that claims `many` pages, with an unclaimed page between any two.
fn claims(alloc: Global, many: u32) -> Result<String, Fail> {
    let mut text = String::new(alloc);
    for id in 0..many {
        let line = format!(in alloc; "reserve {id} {} 4K\n", 0x400_0000 + u64::from(id) * 8192)?;
        text.push_str(line.as_str())?;
    }
    Ok(text)
}

// The reserved table has room for 128 records, and one is the kernel's. With a limit of 0 it finds
// no place to grow.
#[test]
fn no_place_for_a_table(rt: HostRuntime) -> Result<(), Fail> {
    let alloc = rt.alloc();
    let mut memblock = bare(alloc, 0)?;
    let text = claims(alloc, 128)?;
    if text.len() < 65_536 {
        let outcomes = run(alloc, &mut memblock, text.as_str())?;
        compare_growth(&rt, outcomes.as_slice());
    }
    Ok(())
}

// The first 127 of 128 lines succeed, and the last one finds no place for the table.
fn compare_growth(rt: &impl Abort, outcomes: &[Outcome]) {
    let none = Outcome::NoGapForTable {
        which: Which::Reserved,
        room: 128,
    };
    assert!(rt; outcomes.len() == 128);
    assert!(rt; outcomes.get(126) == Some(&Outcome::Done));
    assert!(rt; outcomes.get(127) == Some(&none));
}
