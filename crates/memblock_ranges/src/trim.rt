//! Cuts each record of the memory table to whole frames, in one pass from the lowest record up. The
//! table is changed in place. A record is never split in two, so the pass needs no free slots.
ghost use Rattle.std.specs.Prelude.{◌≡◌, ◌+◌, ◌-◌, ◌%◌, ◌<◌, ◌≤◌};
ghost use Rattle.bm_base.specs.Range.{end_of};
ghost use Rattle.address_runs.specs.Runs.{value_at};
ghost use Rattle.memblock_model.specs.Items.{trim_frames};
ghost use Rattle.memblock_model.specs.Tables.{records_for};
ghost use Rattle.memblock_ranges.specs.Tables.{AreRecords};

use crate::record::Record;
use address_runs::ValuedRange;
use bm_base::{FRAME_SIZE, Range};
use run_edits::{Slots, write_run};

/// Returns the addresses where the first whole 4 KiB frame of the range begins and the last one
/// ends. If the range has no whole frame, the first address isn't below the second.
fn whole_frame_bounds(range: &Range) -> (u64, u64)
    ensures start { result.0 < result.1
        → result.0 ≡ range.now.base + (FRAME_SIZE - range.now.base % FRAME_SIZE) % FRAME_SIZE }
    ensures until { result.1 ≡ end_of range.now - end_of range.now % FRAME_SIZE }
    ensures none { result.1 ≤ result.0 →
        end_of range.now - end_of range.now % FRAME_SIZE
        ≤ range.now.base + (FRAME_SIZE - range.now.base % FRAME_SIZE) % FRAME_SIZE }
{
    let end = range.end();
    let until = end - end % FRAME_SIZE;
    let past = (FRAME_SIZE - range.base % FRAME_SIZE) % FRAME_SIZE;
    let start = range.base.saturating_add(past);
    (start, until)
}

/// Cuts each record to whole frames, and removes each record that has no whole frame.
pub fn trim<T: Slots<Record>>(table: &mut T)
    requires { AreRecords (T.list table.old) }
    ensures list { T.list table.new ≡ records_for (trim_frames (value_at (T.list table.old))) }
    ensures records { AreRecords (T.list table.new) }
    ensures keeps { T.keeps table.old table.new }
{
    let mut write = 0;
    let mut read = 0;
    while read < table.count() {
        let record = table.get(read);
        let (start, until) = whole_frame_bounds(&record.range());
        (write, read) = write_run(table, write, read + 1, start, until, Some(record.value()));
    }
    table.close(write, read - write);
}
