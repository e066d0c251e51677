//! Writes the report `tables`: the address of each of memblock's two tables, and how full it is. A
//! table that grows moves and doubles its room. Its records don't show that, so there is a report
//! for it.

ghost use Rattle.bm_base.specs.PutsText.{PutsText};
ghost use Rattle.report_memory.specs.TablesText.{table_line, tables_text};

use crate::owners::memblock_table_name;
use bm_base::{Memory, put_dec, put_hex, put_text};
use boot_journal::Which;
use memblock_ranges::{Head, Heads};

/// Appends the report `tables`: a line for each of memblock's two tables, from the table's head.
///
/// # Errors
///
/// - `Memory`: the program ran out of memory; the text is incomplete.
pub fn put_tables(text: &mut Vec<u8>, heads: &Heads) -> Result<(), Memory>
    ensures { PutsText text.old text.new result (tables_text heads.now) }
{
    put_table_line(text, Which::Memory, &heads.memory)?;
    put_table_line(text, Which::Reserved, &heads.reserved)
}

/// Appends the line of a table: its address, the number of records that it has room for, and the
/// number of records that it has.
fn put_table_line(text: &mut Vec<u8>, which: Which, head: &Head) -> Result<(), Memory>
    ensures { PutsText text.old text.new result (table_line which head.now) }
{
    put_text(text, memblock_table_name(which).as_bytes())?;
    put_text(text, b" place ")?;
    put_hex(text, head.place)?;
    put_text(text, b" room ")?;
    put_dec(text, head.room, 0)?;
    put_text(text, b" records ")?;
    put_dec(text, head.count, 0)?;
    put_text(text, b"\n")
}
