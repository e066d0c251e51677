//! An overlay of records that are runs of the map.

use crate::common::run;
use address_runs::overlay_all;
use std::test::Fail;

// RAM with a reserved range inside, and RAM right above it. Of overlapping runs the greater type
// holds, and adjacent runs of one type are joined. The runs aren't passed in ascending order.
#[test]
fn the_greater_type_holds(rt: HostRuntime) -> Result<(), Fail> {
    let told = [
        run(0x8000, 0x1000, 1),
        run(0x3000, 0x1000, 2),
        run(0x1000, 0x7000, 1),
    ];
    let want = [
        run(0x1000, 0x2000, 1),
        run(0x3000, 0x1000, 2),
        run(0x4000, 0x5000, 1),
    ];
    let runs = overlay_all(rt.alloc(), told.as_slice())?;
    assert!(rt; runs.as_slice() == want.as_slice());
    Ok(())
}
