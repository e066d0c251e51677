//! The reports of a boot whose map has two adjacent runs of one type. A boot never makes such a
//! map, but a caller may pass one. Also lists that name the report of early claims.

ghost use Rattle.address_runs.specs.Ascend.{Ascend};

use crate::common::{FIRST_PAGE, booted, machine, run};
use debugfs_reports::{
    REPORTS, REPORTS_WITH_CLAIMS, Report, are_names_of, are_reports, render, reports_in,
    reports_named_in,
};
use e820_model::Run;
use std::test::Fail;

/// Returns the map of the virtual machine, with its largest run cut in two.
fn split_map() -> [Run; 8]
    ensures { Ascend result }
{
    [
        FIRST_PAGE,
        run(0x1000, 0x9_EC00, 1),
        run(0x9_FC00, 0x400, 2),
        run(0xF_0000, 0x1_0000, 2),
        run(0x10_0000, 0x300_0000, 1),
        run(0x310_0000, 0x4EE_0000, 1),
        run(0x7FE_0000, 0x2_0000, 2),
        run(0xFFFC_0000, 0x4_0000, 2),
    ]
}

/// The text of this map, with a line for each of the two parts.
const MAP: &str = "0x0000000000000000..0x0000000000000fff 2 reserved\n\
                   0x0000000000001000..0x000000000009fbff 1 usable\n\
                   0x000000000009fc00..0x000000000009ffff 2 reserved\n\
                   0x00000000000f0000..0x00000000000fffff 2 reserved\n\
                   0x0000000000100000..0x00000000030fffff 1 usable\n\
                   0x0000000003100000..0x0000000007fdffff 1 usable\n\
                   0x0000000007fe0000..0x0000000007ffffff 2 reserved\n\
                   0x00000000fffc0000..0x00000000ffffffff 2 reserved\n";

/// The report `summary`: one run more than in the boot's map, and the same number of frames.
const SUMMARY: &str = "runs 8\nusable 32638\nfree 23727\n\
                       memory records 2 room 128\nreserved records 5 room 128\nblocks 31\n";

#[test]
fn runs_that_touch(rt: HostRuntime) -> Result<(), Fail> {
    let alloc = rt.alloc();
    let Ok(mut booted) = booted(alloc, &machine(), b"")? else {
        return Err("the boot stops".into());
    };
    let split = split_map();
    let whole = [
        split[0],
        split[1],
        split[2],
        split[3],
        run(0x10_0000, 0x7EE_0000, 1),
        split[6],
        split[7],
    ];
    assert!(rt; booted.map.as_slice() == whole.as_slice());
    booted.map = Vec::from_slice(alloc, &split)?;
    let map = render(alloc, Report::Map, &booted)?;
    assert!(rt; map.as_slice() == MAP.as_bytes());
    let summary = render(alloc, Report::Summary, &booted)?;
    assert!(rt; summary.as_slice() == SUMMARY.as_bytes());
    Ok(())
}

/// Only the longer list of reports has `claims`, as its last.
#[test]
fn lists_with_claims(rt: HostRuntime) -> Result<(), Fail> {
    let rows: [(&[u8], bool, bool); 6] = [
        (b"map", true, true),
        (b"claims", false, true),
        (b"script,claims,map", false, true),
        (b"claims,", false, false),
        (b"Claims", false, false),
        (b"", false, false),
    ];
    for (list, of_bootmem, with_claims) in &rows {
        assert!(rt; are_reports(*list) == *of_bootmem, "{list:?}");
        assert!(rt; are_names_of(&REPORTS, *list) == *of_bootmem, "{list:?}");
        assert!(rt;
            are_names_of(&REPORTS_WITH_CLAIMS, *list) == *with_claims,
            "{list:?}"
        );
    }
    let list = b"claims,map".as_slice();
    let own = reports_in(rt.alloc(), list)?;
    assert!(rt; own.as_slice() == [Report::Map].as_slice());
    let all = reports_named_in(rt.alloc(), &REPORTS_WITH_CLAIMS, list)?;
    assert!(rt; all.as_slice() == [Report::Claims, Report::Map].as_slice());
    assert!(rt;
        REPORTS_WITH_CLAIMS[..18] == REPORTS[..],
        "the reports of bootmem come first"
    );
    assert!(rt; REPORTS_WITH_CLAIMS[18].name() == "claims");
    Ok(())
}
