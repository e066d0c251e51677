//! Counts the totals of a boot.
//!
//! Most totals are already in the result of the boot. The usable frames are counted from the runs
//! of the map. The free frames are counted from the rows of free blocks: a row is a sequence of
//! consecutive blocks of the same order, node and zone.

ghost use Rattle.std.specs.Prelude.{◌≡◌, ◌*◌, ◌^◌, ◌<◌, IfOk};
ghost use Rattle.boot_model.specs.View.{booted_view};
ghost use Rattle.debugfs_reports.specs.Summary.{fullness_of, summary_of};
ghost use Rattle.address_runs.specs.Ascend.{Ascend};

use bm_base::Memory;
use boot_model::Booted;
use buddy_handover::BlockRow;
use e820_sanitise::usable_frames;
use memblock_ranges::Head;
use report_stages::{Fullness, Summary};

/// Returns the totals at the end of a boot. The runs of its map must ascend; runs that touch may
/// have the same type. Allocates a list of the rows of free blocks.
///
/// # Errors
///
/// - `Memory`: the program ran out of memory.
pub fn summary_of(booted: &Booted) -> Result<Summary, Memory>
    requires { Ascend booted.now.map.items }
    ensures { IfOk result (λ summary. summary ≡ summary_of (booted_view booted.now)) }
{
    let rows = booted.buddy.block_rows()?;
    let mut free = 0;
    let mut blocks = 0;
    for row in &rows {
        free += frames_in_row(row);
        blocks += row.count;
    }
    Ok(Summary {
        runs: booted.map.len() as u64,
        usable: usable_frames(&booted.map, booted.reach()),
        free,
        memory: fullness_of(&booted.heads.memory),
        reserved: fullness_of(&booted.heads.reserved),
        blocks,
    })
}

/// Returns the number of frames in the blocks of a row. For a row without blocks the result is 0,
/// whatever its order is.
fn frames_in_row(row: &BlockRow) -> u64
    requires { row.now.count * 2 ^ row.now.order < 2 ^ 64 }
    ensures { result ≡ row.now.count * 2 ^ row.now.order }
{
    if row.count == 0 {
        return 0;
    }
    row.count << row.order
}

/// Returns how full the table with this head is: its number of records, and the number of records
/// that it has room for.
fn fullness_of(head: &Head) -> Fullness
    ensures { result ≡ fullness_of head.now }
{
    Fullness {
        records: head.count,
        room: head.room,
    }
}
