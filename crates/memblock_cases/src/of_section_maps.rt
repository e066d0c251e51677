//! Tests of `section_maps` with two groups of sections. No free buffer has room for all maps of
//! the second group. The expected addresses are the greatest that fit, and were worked out by
//! hand.

ghost use Rattle.std.specs.Prelude.{◌<◌, AllPairs};

use crate::machines::{has_begun, limit, machine};
use crate::ranges::{KERNEL, Part};
use section_maps::{Placed, place_maps};
use stage_steps::Section;
use std::test::Fail;

// The memory: sections 0 and 1, and the first 3 MiB of each of sections 2 and 3.
const MEMORY: [Part; 3] = [
    (0, 0x1000_0000, 0),
    (0x1000_0000, 0x1030_0000, 1),
    (0x1800_0000, 0x1830_0000, 1),
];

fn four_sections() -> [Section; 4]
    ensures { AllPairs (λ s t. s.number < t.number) result }
{
    [
        Section { number: 0, node: 0 },
        Section { number: 1, node: 0 },
        Section { number: 2, node: 1 },
        Section { number: 3, node: 1 },
    ]
}

#[test]
fn one_piece_and_one_by_one(rt: HostRuntime) -> Result<(), Fail> {
    let alloc = rt.alloc();
    let mut memblock = machine(alloc, KERNEL, &MEMORY)?;
    limit(&mut memblock, 0x1830_0000)?;
    let sections = four_sections();
    if !has_begun(&memblock) {
        return Err("nothing has happened".into());
    }
    let placed = place_maps(alloc, &mut memblock, &sections)?;
    let want = [
        Placed {
            section: 0,
            node: 0,
            map: 0xFA0_0000,
            usage: 0xFFF_FF80,
        },
        Placed {
            section: 1,
            node: 0,
            map: 0xFC0_0000,
            usage: 0xFFF_FFA8,
        },
        Placed {
            section: 2,
            node: 1,
            map: 0x1800_0000,
            usage: 0x182F_FF80,
        },
        Placed {
            section: 3,
            node: 1,
            map: 0x1000_0000,
            usage: 0x182F_FFA8,
        },
    ];
    assert!(rt; placed.as_slice() == want.as_slice(), "{placed:?}");
    Ok(())
}
