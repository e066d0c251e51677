//! Maps that stop a boot and maps that don't. Frames at the ends of runs and at the limit of
//! physical addresses.

ghost use Rattle.address_runs.specs.Runs.{AreRuns};

use crate::common::run;
use e820_model::Run;
use e820_sanitise::{MapStop, judge_frames, usable_frames};
use std::process::Abort;

/// The limit of physical addresses with page tables of five levels.
const LIMIT: u64 = 1 << 52;

fn expect(rt: &impl Abort, runs: &[Run], frames: u64, stop: Option<MapStop>)
    requires { AreRuns runs.now }
{
    assert!(rt; usable_frames(runs, LIMIT) == frames);
    assert!(rt; judge_frames(runs, LIMIT) == stop);
}

#[test]
fn maps_that_stop_a_boot(rt: HostRuntime) {
    // frames at or above the limit don't count
    let over = MapStop::TooMuchRam {
        frames: 1_099_511_627_776,
    };
    expect(
        &rt,
        &[run(0, 0x14_0000_0000_0000, 1)],
        1_099_511_627_776,
        Some(over),
    );
    expect(
        &rt,
        &[run(0x10_0000_0000_0000, 0x1_0000, 1)],
        0,
        Some(MapStop::NoRam),
    );
}

#[test]
fn frames_at_the_ends_of_runs(rt: HostRuntime) {
    // frames  |0  |1  |2  |3  |
    // first   |  ####         |
    // kernel  |      ####     |
    // last    |          #### |
    let first = run(0x800, 0x1000, 1);
    expect(&rt, &[first], 0, Some(MapStop::NoRam));
    let kernel = run(0x1800, 0x1000, 128);
    expect(&rt, &[first, kernel], 1, None);
    let last = run(0x2800, 0x1000, 1);
    // frames with bytes of another type, or with bytes of no type, don't count
    let reserved = run(0x1800, 0x1000, 2);
    expect(&rt, &[first, reserved, last], 0, Some(MapStop::NoRam));
    let page = run(0, 0x1000, 1);
    expect(&rt, &[page, run(0x1001, 0x1FFE, 1)], 1, None);
}

#[test]
fn limits_of_addresses(rt: HostRuntime) {
    let low = [run(0, 0x4000, 1)];
    assert!(rt; usable_frames(&low, 0) == 0);
    assert!(rt; judge_frames(&low, 0) == Some(MapStop::NoRam));
    assert!(rt; usable_frames(&low, u64::MAX) == 4);
    // a range ends at most at 2^64 - 1, so the last frame of 64-bit addresses is never whole
    let high = [run(0xFFFF_FFFF_FFFF_D000, 0x2FFF, 1)];
    assert!(rt; usable_frames(&high, u64::MAX) == 2);
    assert!(rt; usable_frames(&high, LIMIT) == 0);
}
