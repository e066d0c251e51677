//! Writes the records of a table of memblock. Each record is read from the table's bytes in the
//! store when its line is written, so the report shows what memory really contains.

ghost use Rattle.std.specs.Prelude.{◌+◌, ◌^◌, ◌<◌, ◌≤◌};
ghost use Rattle.bm_base.specs.PutsText.{PutsText};
ghost use Rattle.memblock_ranges.specs.Tables.{records_of_head};
ghost use Rattle.report_memory.specs.RecordsText.{region_line, records_text};
ghost use Rattle.memblock_frames.specs.HeadRecords.{HasRecords};

use crate::ranges::put_index;
use bm_base::{Memory, put_hex, put_text};
use memblock_ranges::{Head, Region, region_at};
use phys_store::Store;

/// Appends a line for each record of the table whose head is `head`. The bytes of the table must be
/// an ascending list of records. The flags and the node of a record may have any value.
///
/// # Errors
///
/// - `Memory`: the program ran out of memory; the text is incomplete.
pub fn put_records(text: &mut Vec<u8>, store: &Store, head: &Head) -> Result<(), Memory>
    requires { HasRecords store.now head.now (2 ^ 64) }
    ensures { PutsText text.old text.new result
        (records_text (records_of_head store.now head.now)) }
{
    for index in 0..head.count {
        put_record_line(text, index, &region_at(store, head, index))?;
    }
    Ok(())
}

/// Appends the line for a record: `index` and the record's range. The record must not be empty, and
/// must end at or below 2^64.
fn put_record_line(text: &mut Vec<u8>, index: u64, region: &Region) -> Result<(), Memory>
    requires some { 0 < region.now.size }
    requires within { region.now.base + region.now.size ≤ 2 ^ 64 }
    ensures { PutsText text.old text.new result (region_line index region.now) }
{
    put_index(text, index)?;
    put_hex(text, region.base)?;
    put_text(text, b"..")?;
    put_hex(text, region.base + (region.size - 1))?;
    put_text(text, b"\n")
}
