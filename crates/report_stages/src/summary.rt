//! Writes the report `summary`: the totals at the end of a boot. `debugfs_reports` counts them. The
//! type [`Summary`] is here, since the lines are defined over it.

ghost use Rattle.bm_base.specs.PutsText.{PutsText};
ghost use Rattle.report_stages.specs.SummaryText.{fullness_line, number_line, summary_text};

use crate::words::put_word_dec;
use bm_base::{Memory, put_text};
use memblock_model::Which;
use report_memory::memblock_table_name;

/// How full a table of memblock is.
#[derive(Clone, Copy, Debug, PartialEq, Eq)]
pub struct Fullness {
    /// The number of records that the table has.
    pub records: u64,
    /// The number of records that the table has room for.
    pub room: u64,
}

/// The totals at the end of a boot.
#[derive(Clone, Copy, Debug, PartialEq, Eq)]
pub struct Summary {
    /// The number of runs of the map.
    pub runs: u64,
    /// The number of usable frames of the map, below the limit of physical addresses.
    pub usable: u64,
    /// The number of frames in the free blocks.
    pub free: u64,
    /// How full `memblock.memory` is.
    pub memory: Fullness,
    /// How full `memblock.reserved` is.
    pub reserved: Fullness,
    /// The number of free blocks.
    pub blocks: u64,
}

/// Appends the report `summary`. Its six lines have the number of runs of the map, of usable frames
/// and of frames in free blocks; the records and the room of `memblock.memory`, and those of
/// `memblock.reserved`; and the number of free blocks.
///
/// # Errors
///
/// - `Memory`: the program ran out of memory; the text is incomplete.
pub fn put_summary(text: &mut Vec<u8>, summary: &Summary) -> Result<(), Memory>
    ensures { PutsText text.old text.new result (summary_text summary.now) }
{
    put_number_line(text, b"runs ", summary.runs)?;
    put_number_line(text, b"usable ", summary.usable)?;
    put_number_line(text, b"free ", summary.free)?;
    put_fullness_line(text, Which::Memory, &summary.memory)?;
    put_fullness_line(text, Which::Reserved, &summary.reserved)?;
    put_number_line(text, b"blocks ", summary.blocks)
}

/// Appends a line: `word`, and directly after it the number in decimal.
fn put_number_line(text: &mut Vec<u8>, word: &[u8], number: u64) -> Result<(), Memory>
    ensures { PutsText text.old text.new result (number_line word.now number) }
{
    put_word_dec(text, word, number)?;
    put_text(text, b"\n")
}

/// Appends the line of one of memblock's tables: the number of its records, and the number of
/// records that it has room for.
fn put_fullness_line(text: &mut Vec<u8>, which: Which, full: &Fullness) -> Result<(), Memory>
    ensures { PutsText text.old text.new result (fullness_line which full.now) }
{
    put_text(text, memblock_table_name(which).as_bytes())?;
    put_word_dec(text, b" records ", full.records)?;
    put_word_dec(text, b" room ", full.room)?;
    put_text(text, b"\n")
}
